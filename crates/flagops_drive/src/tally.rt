//! How many of the asks ended in what, which a person is told.
ghost use Rattle.std.specs.Prelude.{◌≡◌, map};
ghost use Rattle.flag_resolve.specs.Views.{resolution_view};
ghost use Rattle.flagops_drive.specs.Tally.{IsEndings, ended_in, ending_word, inputs_before};

use book_core::Book;
use flag_resolve::Resolution;

/// How many asks ended in each reason, and of those in which something went wrong in each code (OpenFeature's words).
#[derive(Clone, Copy, Debug)]
pub struct Endings {
    pub targeting_match: usize,
    pub defaults: usize,
    /// STATIC.
    pub fixed: usize,
    pub disabled: usize,
    /// PROVIDER_NOT_READY.
    pub not_ready: usize,
    pub invalid_context: usize,
    /// FLAG_NOT_FOUND.
    pub not_found: usize,
    pub parse_error: usize,
    pub general: usize,
    pub type_mismatch: usize,
}

impl Endings {
    /// Those of the answers. Cost: ten passes over them.
    pub(crate) fn of(answers: &[Resolution]) -> Endings
        ensures { IsEndings (map resolution_view answers.now) result }
    {
        Endings {
            targeting_match: ended_in(answers, "TARGETING_MATCH"),
            defaults: ended_in(answers, "DEFAULT"),
            fixed: ended_in(answers, "STATIC"),
            disabled: ended_in(answers, "DISABLED"),
            not_ready: ended_in(answers, "PROVIDER_NOT_READY"),
            invalid_context: ended_in(answers, "INVALID_CONTEXT"),
            not_found: ended_in(answers, "FLAG_NOT_FOUND"),
            parse_error: ended_in(answers, "PARSE_ERROR"),
            general: ended_in(answers, "GENERAL"),
            type_mismatch: ended_in(answers, "TYPE_MISMATCH"),
        }
    }
}

/// What became of the asks, and of the book.
#[derive(Clone, Copy, Debug)]
pub struct Tally {
    /// The asks.
    pub asks: usize,
    pub endings: Endings,
    /// The inputs of the book that was there before.
    pub had: u128,
    /// The inputs that the asks reached, each once.
    pub reached: u128,
    /// The inputs of the book that is written.
    pub inputs: u128,
}

/// How many of the answers ended so.
fn ended_in(answers: &[Resolution], word: &str) -> usize
    ensures { result ≡ ended_in word.now (map resolution_view answers.now) }
{
    let mut count = 0;
    for answer in answers {
        if ending_word(answer) == word {
            count += 1;
        }
    }
    count
}

fn ending_word(answer: &Resolution) -> &'static str
    ensures { result.now ≡ ending_word (resolution_view answer.now) }
{
    match answer.code {
        Some(code) => code.as_str(),
        None => answer.reason.as_str(),
    }
}

/// How many inputs a book had, if there was one.
pub(crate) fn inputs_before(before: &Option<Book>) -> u128
    ensures { result ≡ inputs_before before.now }
{
    match before {
        Some(book) => book.inputs(),
        None => 0,
    }
}
