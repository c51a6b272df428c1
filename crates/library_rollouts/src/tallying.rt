//! Note lines that are tallied for a request.
ghost use Rattle.std.specs.Prelude.{◌≡◌, ◌<◌, ◌≤◌, false, length, IsErrOf, string_bytes};
ghost use Rattle.std.specs.Str.{is_utf8};
ghost use Rattle.flag_defs.specs.Document.{max_bytes};
ghost use Rattle.flag_defs.specs.declared.fault.DefFault.TheVariants as fault;
ghost use Rattle.note_tallies.specs.Lines.{untallied};
ghost use Rattle.note_tallies.specs.Tally.{IsTallyTotal};
ghost use Rattle.library_rollouts.specs.Tally.{IsTally, IsTallyOver, TalliesLines};
ghost use Rattle.library_rollouts.specs.Target.{target_view};
ghost use Rattle.library_rollouts.specs.View.{text_view};
ghost use Rattle.library_rollouts.specs.Writing.{Makes, Writes};
ghost use Rattle.library_rollouts.specs.declared.refusal.RolloutRefusal.TheVariants as refusal;

use crate::place::target_of;
use crate::refusal::RolloutRefusal;
use crate::target::Target;
use crate::writing::write;
use book_core::Page;
use byte_streams::cut_line;
use flag_defs::read_flags;
use limits::TEXT_BYTES;
use note_tallies::{FilterFault, PageTally, TallyFilter, print_tally};
use std::alloc::Global;

/// Writes the tally of note lines, which rise strictly, at the site of a request: of its page, in as many points as the rule's
/// weights sum to. Bytes behind the last line feed are passed over.
///
/// The refusals come in the order of the document, the request, the first line that is refused, and the room.
pub fn tally(
    alloc: Global,
    document: &[u8],
    request: &[u8],
    notes: &[u8],
    out: &mut [u8],
    written: &mut usize,
) -> Result<(), RolloutRefusal>
    ensures writes { Writes (IsTally document.now request.now notes.now) result (record { bytes = out.old; written = written.old }) (record { bytes = out.new; written = written.new }) }
    // these need no memory
    ensures large { max_bytes < length document.now → IsErrOf result (refusal.Document fault.TooLarge) }
    ensures no_text { length document.now ≤ max_bytes → is_utf8 document.now ≡ false → IsErrOf result (refusal.Document fault.NotJson) }
{
    let text = tallied(alloc, document, request, notes)?;
    write(text.as_bytes(), out, written)
}

/// The file of the tally.
fn tallied(
    alloc: Global,
    document: &[u8],
    request: &[u8],
    notes: &[u8],
) -> Result<String, RolloutRefusal>
    ensures made { Makes text_view (IsTally document.now request.now notes.now) result }
    ensures large { max_bytes < length document.now → IsErrOf result (refusal.Document fault.TooLarge) }
    ensures no_text { length document.now ≤ max_bytes → is_utf8 document.now ≡ false → IsErrOf result (refusal.Document fault.NotJson) }
{
    let flags = read_flags(alloc, document)?;
    let target = target_of(alloc, &flags, request)?;
    tallied_at(alloc, target, notes)
}

/// The file of the tally of what is tallied for a request.
fn tallied_at(alloc: Global, target: Target, notes: &[u8]) -> Result<String, RolloutRefusal>
    ensures { Makes text_view (IsTallyOver notes.now (target_view target)) result }
{
    let Target { page, total, .. } = target;
    let tally = tally_of(alloc, page, total, notes)?;
    let text = print_tally(alloc, &tally)?;
    Ok(text)
}

/// The tally of the lines that are of a page, in so many points. The condition is a total from 1 to 1,000,000.
fn tally_of(alloc: Global, page: Page, total: u32, notes: &[u8]) -> Result<PageTally, FilterFault>
    requires { IsTallyTotal total }
    ensures { TalliesLines (untallied page total) notes.now result }
{
    let mut filter = TallyFilter::new(alloc, page, total)?;
    let mut rest = notes;
    'lines: while let Some((line, behind)) = cut_line(rest) {
        if line.len() > TEXT_BYTES + 1 {
            return Err(FilterFault::Line(filter.lines() + 1));
        }
        filter.take(alloc, line)?;
        rest = behind;
    }
    if rest.len() > TEXT_BYTES {
        return Err(FilterFault::Line(filter.lines() + 1));
    }
    Ok(filter.finish())
}
