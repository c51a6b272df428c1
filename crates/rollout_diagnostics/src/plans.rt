//! The diagnostic of a plan that no file takes.
ghost use Rattle.std.specs.Prelude.{IfOk, codes, string_bytes};
ghost use Rattle.file_diagnostics.specs.Named.{NamesWord};

use file_diagnostics::Lines;
use std::alloc::{AllocError, Global};

/// Says that a plan is too large for a file.
pub fn of_large_plan(alloc: Global) -> Result<String, AllocError>
    ensures names { IfOk result (λ s. NamesWord (codes "the plan") (string_bytes s)) }
{
    let mut lines = Lines::new(alloc);
    write!(
        lines,
        " has more than 67,108,864 bytes\n  divide the weights of the site by a common factor\n",
    );
    lines.after_word("the plan")
}
