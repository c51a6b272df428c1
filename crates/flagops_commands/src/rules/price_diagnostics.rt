//! Diagnostics of what `price` is given: keys that are none or are not taken, and rules of two totals.
ghost use Rattle.std.specs.Prelude.{IfOk, codes, string_bytes};
ghost use Rattle.file_diagnostics.specs.Named.{Names, NamesWord};

use book_core::BookFault;
use file_diagnostics::{Lines, Opening};
use flag_text::Tree;
use std::alloc::{AllocError, Global};

/// Explains why a value is no list of keys, and at which place it has none.
pub fn of_keys(
    alloc: Global,
    path: &str,
    place: Option<usize>,
    value: &Tree,
) -> Result<String, AllocError>
    ensures names { IfOk result (λ s. Names path.now (string_bytes s)) }
{
    let mut lines = Lines::new(alloc);
    match place {
        Some(place) => write!(lines, " is not a list of keys: its item [{place}]"),
        None => write!(lines, " is not a list of keys: it"),
    }
    write!(
        lines,
        " is {}\n  keys are a list of texts, the hash inputs of the users\n",
        lines.value(value),
    );
    lines.headed(Opening::Error, path)
}

/// Explains why a key of the file at `path` is not noted.
pub fn of_noted(
    alloc: Global,
    path: &str,
    key: &str,
    fault: BookFault,
) -> Result<String, AllocError>
    ensures names { IfOk result (λ s. Names path.now (string_bytes s)) }
{
    let mut lines = Lines::new(alloc);
    write!(
        lines,
        ": the key {} is not taken: {fault}\n  leave it out: keys have at most 1,024 bytes, and at most 1,000,000 of them differ\n",
        lines.name(key),
    );
    lines.headed(Opening::Error, path)
}

/// Says that two rules differ in their totals.
pub fn of_weights(alloc: Global, old: u32, new: u32) -> Result<String, AllocError>
    ensures names { IfOk result (λ s. NamesWord (codes "the weights of OLD") (string_bytes s)) }
{
    let mut lines = Lines::new(alloc);
    write!(
        lines,
        " sum to {old} and those of NEW to {new}\n  write both rules with weights of one sum\n",
    );
    lines.after_word("the weights of OLD")
}
