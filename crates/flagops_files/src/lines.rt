//! The lines that the families of commands write alike: of a refusal, and of what a person is told of a file.
ghost use Rattle.std.specs.Prelude.{◌≡◌, IfOk, decimal, string_bytes};
ghost use Rattle.flagops_files.specs.Lines.{NamesFile};
ghost use Rattle.flagops_files.specs.Refusal.{line_with};

use crate::quoting::quoted;
use std::alloc::{AllocError, Global};

/// The line of a refusal: the call, the number and the name of its fault, and what else the fault has, each item behind a blank.
pub fn fault_line(
    alloc: Global,
    call: &str,
    number: u32,
    name: &str,
    items: &str,
) -> Result<String, AllocError>
    ensures { IfOk result (λ s. string_bytes s ≡ line_with call.now (decimal number) name.now items.now) }
{
    format!(in alloc; "refused {call} {number} {name}{items}\n")
}

/// A line that names a file and what is the matter with it.
pub fn file_line(alloc: Global, path: &str, reason: &str) -> Result<String, AllocError>
    ensures { IfOk result (λ s. NamesFile path.now (string_bytes s)) }
{
    let name = quoted(alloc, path)?;
    format!(in alloc; "error: {name}: {reason}\n")
}

/// A line that says of a file as a whole what it is.
pub fn whole_line(alloc: Global, path: &str, words: &str) -> Result<String, AllocError>
    ensures { IfOk result (λ s. NamesFile path.now (string_bytes s)) }
{
    let name = quoted(alloc, path)?;
    format!(in alloc; "error: {name} {words}\n")
}
