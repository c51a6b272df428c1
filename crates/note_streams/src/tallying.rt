//! From a stream of note lines to a tally.
ghost use Rattle.std.specs.Prelude.{nat_eq, nat_lt, ◌≡◌, ◌<◌, ◌+◌, ◌^◌, length, false, IfSome};
ghost use Rattle.note_tallies.specs.Tally.{IsTallyTotal};
ghost use Rattle.note_tallies.specs.Lines.{untallied};
ghost use Rattle.note_streams.specs.Batch.{TalliesBatch};
ghost use Rattle.note_streams.specs.Tallied.{TalliesStream};

use crate::recording::{BATCH, MOST_BYTES, PIECE};
use crate::stop::TallyStop;
use book_core::Page;
use byte_streams::{Inlet, cut_line, fill};
use limits::TEXT_BYTES;
use note_tallies::{FilterFault, PageTally, TallyFilter};
use std::alloc::Global;

/// The tally of a stream.
#[derive(Debug, Drop)]
pub struct StreamTally {
    pub tally: PageTally,
    /// Whether bytes stood behind the last line, which were passed over.
    pub torn: bool,
    /// Whether the stream has no bytes.
    pub empty: bool,
}

/// The tally of the lines of a stream that are of this page, in so many points. A last line without its end is passed over. The
/// condition is a total from 1 to 1,000,000.
///
/// Refusals, of the first line that is refused: `Filter`, with its number. At `Unreadable` a read failed, and at `TooLong` the
/// stream has more than 2^60 bytes.
pub fn tally_stream<I: Inlet>(
    alloc: Global,
    page: Page,
    total: u32,
    input: &mut I,
) -> Result<StreamTally, TallyStop>
    requires total { IsTallyTotal total }
    requires unbroken { I.is_broken input.old ≡ false }
    ensures { IfSome (I.bytes input.old) (λ bytes. TalliesStream (untallied page total) bytes (I.is_broken input.new) result) }
{
    let mut piece = vec![in alloc; 0u8; PIECE]?;
    let mut held = Vec::new(alloc);
    let mut filter = TallyFilter::new(alloc, page, total)?;
    let mut taken = 0u64;
    'batches: while taken <= MOST_BYTES {
        let had = held.len();
        let ended = fill(&mut held, input, piece.as_mut_slice(), BATCH)?;
        taken += (held.len() - had) as u64;
        let rest = tally_batch(alloc, &mut filter, held.as_slice())?;
        if ended {
            return Ok(stream_tally(filter.finish(), rest, taken));
        }
        held = rest.to_vec(alloc)?;
    }
    Err(TallyStop::TooLong)
}

/// The tally of a stream of so many bytes, where these stand behind its last line.
fn stream_tally(tally: PageTally, rest: &[u8], taken: u64) -> StreamTally
    ensures tally { result.tally ≡ tally }
    ensures torn { result.torn ≡ nat_lt 0 (length rest.now) }
    ensures empty { result.empty ≡ nat_eq taken 0 }
{
    StreamTally {
        tally,
        torn: !rest.is_empty(),
        empty: taken == 0,
    }
}

/// Tallies the lines that ended in a batch, and gives what stands behind them.
fn tally_batch<'a>(
    alloc: Global,
    filter: &mut TallyFilter,
    bytes: &'a [u8],
) -> Result<&'a [u8], TallyStop>
    requires room { filter.old.lines + length bytes.now + 1 < 2 ^ 64 }
    ensures { TalliesBatch bytes.entry.now filter.old filter.new result }
{
    let mut rest = bytes;
    'lines: while let Some((line, behind)) = cut_line(rest) {
        if line.len() > TEXT_BYTES + 1 {
            return Err(TallyStop::Filter(FilterFault::Line(filter.lines() + 1)));
        }
        filter.take(alloc, line)?;
        rest = behind;
    }
    if rest.len() > TEXT_BYTES {
        return Err(TallyStop::Filter(FilterFault::Line(filter.lines() + 1)));
    }
    Ok(rest)
}
