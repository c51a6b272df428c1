//! Diagnostics of tallies.
ghost use Rattle.std.specs.Prelude.{IfOk, string_bytes};
ghost use Rattle.file_diagnostics.specs.Named.{Names};

use crate::books::put_misread;
use crate::ends::Ends;
use crate::lines::{Lines, Opening};
use note_tallies::TallyFileFault;
use std::alloc::{AllocError, Global};

/// Explains why the file at `path`, which begins as a tally, is not one.
pub fn of_tally(
    alloc: Global,
    path: &str,
    ends: Ends,
    fault: TallyFileFault,
) -> Result<String, AllocError>
    ensures names { IfOk result (λ s. Names path.now (string_bytes s)) }
{
    let is_cut = match fault {
        TallyFileFault::Line(line) => ends.is_cut_at(u64::from(line)),
        _ => false,
    };
    let mut lines = Lines::new(alloc);
    put_misread(&mut lines, "tally", is_cut, fault, taken(fault));
    lines.headed(Opening::Error, path)
}

/// What is taken in place of a fault.
fn taken(fault: TallyFileFault) -> &'static str {
    match fault {
        TallyFileFault::Header => {
            "a tally begins with the line {\"tally\":1}, a book with {\"book\":1}"
        }
        TallyFileFault::Page => {
            "docs/FORMATS.md has its members; it is spelled without blanks, and ends with a line feed"
        }
        TallyFileFault::Line(_) => {
            "a point is [POINT,INPUTS], POINT below the total and INPUTS above 0, on a line of its own with a line feed"
        }
        TallyFileFault::Order(_) => "the points are sorted, each once",
        TallyFileFault::Inputs => "the file may be cut short; tally the notes again",
        TallyFileFault::WantOfMemory => "memory ran out as it was read",
    }
}
