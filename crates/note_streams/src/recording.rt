//! From a stream of contexts to note lines.
ghost use Rattle.std.specs.Prelude.{nat_eq, nat_lt, ◌≡◌, ◌<◌, ◌≤◌, ◌+◌, ◌^◌, length, false, IfOk, IfSome};
ghost use Rattle.note_streams.specs.Outcomes.{contexts};
ghost use Rattle.note_streams.specs.Scene.{scene_of};
ghost use Rattle.note_streams.specs.View.{outcomes_view};
ghost use Rattle.note_streams.specs.Batch.{CountsBatch, RecordsBatch};
ghost use Rattle.note_streams.specs.Recorded.{RecordsStream, TellsOf, recorded_of};
ghost use Rattle.note_streams.specs.Stop.{is_output_fault};

use crate::runs::{record_runs, write_runs};
use crate::stop::RecordStop;
use crate::{Outcomes, Recorder};
use byte_streams::{Inlet, cut_lines, fill};
use flag_text::Outlet;
use limits::TEXT_BYTES;
use std::alloc::Global;
use std::thread::Threads;

/// The bytes that one read is asked for.
pub(crate) const PIECE: usize = 1_048_576;

/// The bytes that a batch is filled to: more than a line has.
pub(crate) const BATCH: usize = 8_388_608;

/// The bytes of a batch from which on several workers record it.
const SHARED: usize = 65_536;

/// The most bytes that a stream has, 2^60.
pub(crate) const MOST_BYTES: u64 = 1_152_921_504_606_846_976;

/// What a person is told of contexts that were recorded.
#[derive(Clone, Copy, Debug)]
pub struct Counted {
    /// What came of them.
    pub outcomes: Outcomes,
    /// Whether bytes stood behind the last line, which were passed over.
    pub torn: bool,
    /// Whether the stream has no bytes.
    pub empty: bool,
}

/// The lines of the batches so far, and what came of the contexts.
#[derive(Drop)]
struct Totals {
    lines: u64,
    outcomes: Outcomes,
}

/// Writes the note lines of what the evaluation of the recorder's flag reaches in each context of a stream, one context a line,
/// in their order. A last line without its end is passed over. So many workers record the lines of a batch side by side, this
/// thread among them; what is written is the same for any number.
///
/// Refusals, of the first line that is no context: `Line`. What is written before stays. At `Unreadable` a read failed, at
/// `TooLong` the stream has more than 2^60 bytes, and at `Broken` a write failed; then a front of the lines is written.
pub fn record_stream<R: Threads + Sync, I: Inlet, O: Outlet>(
    rt: &R,
    alloc: Global,
    recorder: &Recorder<'_>,
    workers: usize,
    input: &mut I,
    out: &mut O,
) -> Result<Counted, RecordStop>
    requires unbroken { I.is_broken input.old ≡ false }
    requires whole { O.is_broken out.old ≡ false }
    ensures exact { IfSome (I.bytes input.old) (λ bytes. RecordsStream (recorded_of (scene_of recorder.now) bytes) (length bytes) (I.is_broken input.new) (O.bytes out.old) (O.bytes out.new) result) }
    ensures told { IfOk result (λ c. IfSome (I.bytes input.old) (λ bytes. TellsOf (recorded_of (scene_of recorder.now) bytes) bytes c)) }
    ensures broken { O.is_broken out.new ≡ is_output_fault result }
{
    let mut piece = vec![in alloc; 0u8; PIECE]?;
    let mut held = Vec::new(alloc);
    let mut totals = Totals {
        lines: 0,
        outcomes: Outcomes::none(),
    };
    let mut taken = 0u64;
    'batches: while taken <= MOST_BYTES {
        let had = held.len();
        let ended = fill(&mut held, input, piece.as_mut_slice(), BATCH)?;
        taken += (held.len() - had) as u64;
        let rest = record_batch(
            rt,
            alloc,
            recorder,
            workers,
            held.as_slice(),
            &mut totals,
            out,
        )?;
        if ended {
            return Ok(passed_over(totals.outcomes, rest, taken));
        }
        held = rest.to_vec(alloc)?;
    }
    Err(RecordStop::TooLong)
}

/// What a person is told of a stream of so many bytes, where these stand behind its last line.
fn passed_over(outcomes: Outcomes, rest: &[u8], taken: u64) -> Counted
    ensures outcomes { result.outcomes ≡ outcomes }
    ensures torn { result.torn ≡ nat_lt 0 (length rest.now) }
    ensures empty { result.empty ≡ nat_eq taken 0 }
{
    Counted {
        outcomes,
        torn: !rest.is_empty(),
        empty: taken == 0,
    }
}

/// Writes the note lines of the lines that ended in a batch, and gives what stands behind them.
fn record_batch<'a, R: Threads + Sync, O: Outlet>(
    rt: &R,
    alloc: Global,
    recorder: &Recorder<'_>,
    workers: usize,
    bytes: &'a [u8],
    totals: &mut Totals,
    out: &mut O,
) -> Result<&'a [u8], RecordStop>
    requires whole { O.is_broken out.old ≡ false }
    requires room { totals.old.lines + length bytes.now + 1 < 2 ^ 64 }
    requires few { contexts (outcomes_view totals.old.outcomes) ≤ totals.old.lines }
    ensures exact { RecordsBatch (scene_of recorder.now) bytes.entry.now totals.old.lines totals.new.lines (O.bytes out.old) (O.bytes out.new) result }
    ensures counted { IfOk result (λ rest. CountsBatch (scene_of recorder.now) bytes.entry.now rest.now (outcomes_view totals.old.outcomes) (outcomes_view totals.new.outcomes)) }
    ensures fewer { IfOk result (λ rest. contexts (outcomes_view totals.new.outcomes) ≤ totals.new.lines) }
    ensures broken { O.is_broken out.new ≡ is_output_fault result }
{
    let (lines, rest) = cut_lines(alloc, bytes)?;
    let workers = if bytes.len() < SHARED { 1 } else { workers };
    let runs = record_runs(rt, alloc, recorder, lines.as_slice(), workers)?;
    let Some(written) = write_runs(runs.as_slice(), out) else {
        return Err(RecordStop::Broken);
    };
    totals.lines += written.lines;
    totals.outcomes = totals.outcomes.both(written.outcomes);
    if written.refused {
        return Err(RecordStop::Line(totals.lines));
    }
    if rest.len() > TEXT_BYTES {
        return Err(RecordStop::Line(totals.lines + 1));
    }
    Ok(rest)
}
