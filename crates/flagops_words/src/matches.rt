//! What is read of the words of a command that `clap` has matched with its arguments.
ghost use Rattle.std.specs.Prelude.{◌≡◌, ◌≤◌, ◌<◌, IfSome, codes, length, map, option_map};
ghost use Rattle.clap.specs.Walk.{first_of};
ghost use Rattle.clap.specs.Words.{found_of, rows_of};
ghost use Rattle.flagops_words.specs.Numbers.{max_32};
ghost use Rattle.flagops_words.specs.Words.{flag_in, has_floats, is_json, is_strict, number_at, number_or, refine_in, refuses_doubts, texts_at};

use crate::numbers::{Factor, LARGEST_32, spelled};
use clap::ArgMatches;

/// Whether an option without a value is given.
#[tactic(auto, using(crate::proofs::Matched::rows))]
pub fn flag_in(words: &ArgMatches<'_>, name: &str) -> bool
    ensures { result ≡ flag_in name.now (rows_of (found_of words.now)) }
{
    match words.get_str(name) {
        Some(word) => word == "true",
        None => false,
    }
}

/// Whether what is doubted is to be refused.
pub fn is_strict(words: &ArgMatches<'_>) -> bool
    ensures { result ≡ is_strict (rows_of (found_of words.now)) }
{
    flag_in(words, "strict")
}

/// Whether what is doubted is refused: with `--strict`, and with `--write` unless `--doubted` is given.
pub fn refuses_doubts(words: &ArgMatches<'_>) -> bool
    ensures { result ≡ refuses_doubts (rows_of (found_of words.now)) }
{
    is_strict(words) || (flag_in(words, "write") && !flag_in(words, "doubted"))
}

/// Whether the answer is to be printed as JSON.
pub fn is_json(words: &ArgMatches<'_>) -> bool
    ensures { result ≡ is_json (rows_of (found_of words.now)) }
{
    flag_in(words, "json")
}

/// Whether documents may have floats.
pub fn has_floats(words: &ArgMatches<'_>) -> bool
    ensures { result ≡ has_floats (rows_of (found_of words.now)) }
{
    flag_in(words, "floats")
}

/// The factor of a refinement, if one is given; `None` where the word is no factor.
#[tactic(auto, using(crate::proofs::Matched::rows))]
pub fn refine_in(words: &ArgMatches<'_>) -> Option<Option<Factor>>
    ensures { option_map (λ o. option_map (λ m. m.number) o) result ≡ refine_in (rows_of (found_of words.now)) }
{
    match words.get_str("M") {
        Some(word) => Some(Some(Factor::spelled(word)?)),
        None => Some(None),
    }
}

/// The number of a site; `None` where none is given that has 32 bits.
pub fn site_in(words: &ArgMatches<'_>) -> Option<u32>
    ensures { result ≡ number_at (codes "SITE") 0 max_32 (rows_of (found_of words.now)) }
{
    let number = number_at(words, "SITE", 0, LARGEST_32)?;
    Some(number as u32)
}

/// The number within bounds that is given for an argument; `None` where none is given.
#[tactic(auto, using(crate::proofs::Matched::rows))]
pub fn number_at(words: &ArgMatches<'_>, name: &str, least: u64, most: u64) -> Option<u64>
    ensures number { result ≡ number_at name.now least most (rows_of (found_of words.now)) }
    ensures bounds { IfSome result (λ n. (least ≤ n) × (n ≤ most)) }
{
    let word = words.get_str(name)?;
    spelled(word, least, most)
}

/// The number within bounds that is given for an argument, and another where the argument is left out; `None` where the word is
/// no such number.
#[tactic(auto, using(crate::proofs::Matched::rows))]
pub fn number_or(
    words: &ArgMatches<'_>,
    name: &str,
    otherwise: u64,
    least: u64,
    most: u64,
) -> Option<u64>
    ensures { result ≡ number_or otherwise least most (first_of name.now (rows_of (found_of words.now))) }
{
    match words.get_str(name) {
        Some(word) => spelled(word, least, most),
        None => Some(otherwise),
    }
}

/// The texts that are given for an argument, where there are any.
#[tactic(auto, using(crate::proofs::Matched::rows))]
pub fn texts_at<'m, 'a>(words: &'m ArgMatches<'a>, name: &str) -> Option<&'m [&'a str]>
    ensures texts { option_map (λ s. map (λ t. t.now) s.now) result ≡ texts_at name.now (rows_of (found_of words.now)) }
    ensures some { IfSome result (λ s. 0 < length s.now) }
{
    let texts = words.get_strs(name)?;
    if texts.is_empty() {
        return None;
    }
    Some(texts)
}
