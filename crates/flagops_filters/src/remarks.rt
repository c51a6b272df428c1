//! The diagnostics of a filter.
ghost use Rattle.std.specs.Prelude.{◌≡◌, IfOk, string_bytes};
ghost use Rattle.file_diagnostics.specs.Named.{NamesWord};
ghost use Rattle.flagops_files.specs.Lines.{NamesFile};
ghost use Rattle.flagops_filters.specs.Beside.{clock_line, is_noted, line_if, long_line, record_lines};
ghost use Rattle.flagops_filters.specs.Remarks.{NamesInput};
ghost use Rattle.note_streams.specs.View.{outcomes_view};

use crate::start::Start;
use crate::unrecorded::{is_unrecorded, why_line};
use flag_defs::Flags;
use flagops_files::{known_keys, quoted};
use note_streams::Counted;
use std::alloc::{AllocError, Global};

/// The words for the standard input.
pub(crate) const INPUT: &str = "the standard input";

/// A line on the flag of a document that is refused.
pub(crate) fn flag_line(
    alloc: Global,
    path: &str,
    key: &str,
    reason: &str,
) -> Result<String, AllocError>
    ensures { IfOk result (λ s. NamesFile path.now (string_bytes s)) }
{
    let name = quoted(alloc, path)?;
    let flag = quoted(alloc, key)?;
    format!(in alloc; "error: {name}: the flag {flag}: {reason}\n")
}

/// The lines on a key that no flag of a document has, and the keys that may be meant.
pub(crate) fn unknown_lines(
    alloc: Global,
    path: &str,
    flags: &Flags,
    key: &str,
) -> Result<String, AllocError>
    ensures { IfOk result (λ s. NamesFile path.now (string_bytes s)) }
{
    let known = known_keys(alloc, flags, key)?;
    let reason = format!(in alloc; "no such flag\n  {known}")?;
    flag_line(alloc, path, key, reason.as_str())
}

/// A line on the standard input.
pub(crate) fn input_line(alloc: Global, reason: &str) -> Result<String, AllocError>
    ensures { IfOk result (λ s. NamesInput (string_bytes s)) }
{
    word_line(alloc, INPUT, reason)
}

/// The same where it begins with a byte order mark.
pub(crate) fn marked_line(alloc: Global, reason: &str) -> Result<String, AllocError>
    ensures { IfOk result (λ s. NamesInput (string_bytes s)) }
{
    let reason = format!(in alloc;
        "{reason}, as it begins with a byte order mark\n  send it as UTF-8 without the mark"
    )?;
    word_line(alloc, INPUT, reason.as_str())
}

/// A line that names something that is no file, and what is the matter with it.
#[tactic(auto, unfolding(file_diagnostics::specs::Named::NamesWord))]
fn word_line(alloc: Global, word: &str, reason: &str) -> Result<String, AllocError>
    ensures { IfOk result (λ s. NamesWord word.now (string_bytes s)) }
{
    format!(in alloc; "error: {word}: {reason}\n")
}

/// Whether something is told of contexts that were all recorded.
pub(crate) fn is_noted(start: Start, counted: Counted) -> bool
    ensures { result ≡ is_noted start counted.empty (outcomes_view counted.outcomes) counted.outcomes.long counted.torn }
{
    start.clock.is_some()
        || start.is_siteless
        || counted.empty
        || is_unrecorded(start, counted)
        || counted.outcomes.long > 0
        || counted.torn
}

/// What is told of contexts that were all recorded: that their moment is the clock's, that no input is reached, that there were
/// none, why no line was noted, the inputs that were not, and the bytes that were passed over.
pub(crate) fn counted_lines(
    alloc: Global,
    start: Start,
    counted: Counted,
) -> Result<String, AllocError>
    ensures { IfOk result (λ s. string_bytes s ≡ record_lines start counted.empty (outcomes_view counted.outcomes) counted.outcomes.long counted.torn) }
{
    let clock = clock_line(alloc, start.clock)?;
    let siteless = line_if(
        alloc,
        start.is_siteless,
        "the targeting has no fractional, and nothing is recorded",
    )?;
    let empty = line_if(
        alloc,
        counted.empty,
        "the standard input is empty, and nothing is recorded",
    )?;
    let why = why_line(alloc, start, counted)?;
    let long = long_line(alloc, counted.outcomes.long)?;
    let torn = line_if(
        alloc,
        counted.torn,
        "the last line has no line feed and is skipped",
    )?;
    format!(in alloc; "{clock}{siteless}{empty}{why}{long}{torn}")
}

/// A line on the moment, where it is the clock's second.
pub(crate) fn clock_line(alloc: Global, clock: Option<u64>) -> Result<String, AllocError>
    ensures { IfOk result (λ s. string_bytes s ≡ clock_line clock) }
{
    match clock {
        Some(now) => format!(in alloc;
            "record: the targeting reads $flagd.timestamp and no --moment is given: the moment is {now}, the clock's second\n"
        ),
        None => Ok(String::new(alloc)),
    }
}

/// A line of `record`, where it is so.
fn line_if(alloc: Global, is_so: bool, words: &str) -> Result<String, AllocError>
    ensures { IfOk result (λ s. string_bytes s ≡ line_if is_so words.now) }
{
    if is_so {
        format!(in alloc; "record: {words}\n")
    } else {
        Ok(String::new(alloc))
    }
}

/// A line on inputs that were not noted, where there are any.
fn long_line(alloc: Global, long: u64) -> Result<String, AllocError>
    ensures { IfOk result (λ s. string_bytes s ≡ long_line long) }
{
    if long > 0 {
        format!(in alloc; "record: {long} inputs have more than 1024 bytes and are not noted\n")
    } else {
        Ok(String::new(alloc))
    }
}
