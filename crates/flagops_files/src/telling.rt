//! What a person is told of a book that would lose inputs.
ghost use Rattle.std.specs.Prelude.{◌≡◌, IfOk, string_bytes};
ghost use Rattle.file_diagnostics.specs.Named.{Names};

use file_diagnostics::{Lines, Opening};
use std::alloc::{AllocError, Global};

/// Explains why the book at `path` is not written over, and what else can be done.
pub fn of_losses(alloc: Global, path: &str, lost: u64, advice: &str) -> Result<String, AllocError>
    ensures { IfOk result (λ s. Names path.now (string_bytes s)) }
{
    let ending = if lost == 1 { "" } else { "s" };
    let mut lines = Lines::new(alloc);
    write!(
        lines,
        " has {lost} input{ending} that the new book lacks, so it stays\n  {advice}\n",
    );
    lines.headed(Opening::Error, path)
}
