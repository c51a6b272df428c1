//! From a tally to its file.
ghost use Rattle.std.specs.Prelude.{◌≡◌, string_bytes, IfOk};
ghost use Rattle.note_tallies.specs.File.{tally_text};
ghost use Rattle.note_tallies.specs.Reading.{ReadsAs};

use crate::PageTally;
use crate::counts::push_points;
use crate::head::head_text;
use std::alloc::{AllocError, Global};

/// The first line of a tally.
pub(crate) const HEADER: &str = "{\"tally\":1}\n";

/// The file of a tally, which reads as this tally alone. Want of memory is its one fault.
pub fn print_tally(alloc: Global, tally: &PageTally) -> Result<String, AllocError>
    ensures text { IfOk result (λ text. string_bytes text ≡ tally_text tally.now) }
    ensures reads_back { IfOk result (λ text. ReadsAs (string_bytes text) tally.now) }
{
    let mut text = String::from_str(alloc, HEADER)?;
    let head = head_text(
        alloc,
        &tally.page,
        tally.total,
        &tally.first,
        &tally.last,
        tally.inputs,
    )?;
    text.push_str(head.as_str())?;
    text.push_str("\n")?;
    push_points(&mut text, tally.counts.as_slice())?;
    Ok(text)
}
