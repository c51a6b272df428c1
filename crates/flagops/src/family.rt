//! The families of commands: each has a contract of its own.
ghost use Rattle.std.specs.Prelude.{◌≡◌, map};
ghost use Rattle.flagops.specs.First.{family_named, family_of, has_option, has_word};

use std::convert::AsStr;

/// What a command is one of, by the first of its words.
#[derive(Clone, Copy, Debug, PartialEq, Eq)]
pub enum Family {
    /// The eight commands that `flagops_commands::run` reads, and words that name no command.
    Files,
    /// `serve`.
    Serve,
    /// `follow`.
    Follow,
    /// `ramp`.
    Ramp,
    /// `verify-ramp`.
    VerifyRamp,
    /// `picture` of a plan.
    Picture,
    /// `picture --ramp`.
    PictureRamp,
    /// `plan --picture`.
    PlanPicture,
    /// `apply --step`.
    ApplyStep,
    /// `apply --step --keep`.
    KeepStep,
    /// `ofrep`.
    Ofrep,
    /// `record`.
    Record,
    /// `tally`.
    Tally,
    /// `join`.
    Join,
    /// `book`.
    Book,
    /// `check`.
    Check,
    /// `compare`.
    Compare,
}

/// The family of the command that the first of the words names, and for some an option among the others.
pub fn family_of<S: AsStr>(words: &[S]) -> Family
    ensures { result ≡ family_of (map S.text words.now) }
{
    let Some(first) = words.first() else {
        return Family::Files;
    };
    let first = first.as_str();
    if first == "plan" && has_option(words, b"--picture") {
        return Family::PlanPicture;
    }
    if first == "picture" && has_option(words, b"--ramp") {
        return Family::PictureRamp;
    }
    if first == "apply" && has_option(words, b"--step") {
        return if has_option(words, b"--keep") {
            Family::KeepStep
        } else {
            Family::ApplyStep
        };
    }
    family_named(first)
}

/// Whether one of the words begins with the name of an option.
fn has_option<S: AsStr>(words: &[S], option: &[u8]) -> bool
    ensures { result ≡ has_option option.now (map S.text words.now) }
{
    for word in words {
        if word.as_str().as_bytes().starts_with(option) {
            return true;
        }
    }
    false
}

/// Whether one of the words is this one.
pub fn has_word<S: AsStr>(words: &[S], wanted: &str) -> bool
    ensures { result ≡ has_word wanted.now (map S.text words.now) }
{
    for word in words {
        if word.as_str() == wanted {
            return true;
        }
    }
    false
}

/// The family that a word names by itself.
pub fn family_named(word: &str) -> Family
    ensures { result ≡ family_named word.now }
{
    match word {
        "serve" => Family::Serve,
        "follow" => Family::Follow,
        "ramp" => Family::Ramp,
        "verify-ramp" => Family::VerifyRamp,
        "picture" => Family::Picture,
        "ofrep" => Family::Ofrep,
        "record" => Family::Record,
        "tally" => Family::Tally,
        "join" => Family::Join,
        "book" => Family::Book,
        "check" => Family::Check,
        "compare" => Family::Compare,
        _ => Family::Files,
    }
}
