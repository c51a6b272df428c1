//! The lines of a batch, in runs that are recorded side by side.
ghost use Rattle.std.specs.Prelude.{◌≡◌, ◌++◌, ◌<◌, ◌≤◌, ◌^◌, IfOk, IfSome, is_none, false};
ghost use Rattle.note_streams.specs.Lines.{lines_view};
ghost use Rattle.note_streams.specs.Outcomes.{contexts};
ghost use Rattle.note_streams.specs.Record.{record_of};
ghost use Rattle.note_streams.specs.Scene.{scene_of};
ghost use Rattle.note_streams.specs.View.{outcomes_view};
ghost use Rattle.note_streams.specs.Runs.{WritesRuns, runs_view};
ghost use denote.Param.Send.{IsSync};

use crate::{Outcomes, Recorded, Recorder, record_lines};
use flag_text::{Outlet, write_whole};
use std::alloc::{AllocError, Global};
use std::thread::{Threads, join};

/// What was written of runs.
#[derive(Drop)]
pub(crate) struct Written {
    /// The number of lines, with the one that is no context.
    pub(crate) lines: u64,
    /// Whether the last of the lines is no context.
    pub(crate) refused: bool,
    /// What came of the contexts.
    pub(crate) outcomes: Outcomes,
}

/// Records lines in runs of about equal length, one for each worker, and no more runs than lines. Halves the workers until one is
/// left: the first half records in a thread of its own, if one can be made, the second half here.
#[cycle(runs)]
pub(crate) fn record_runs<R: Threads + Sync>(
    rt: &R,
    alloc: Global,
    recorder: &Recorder<'_>,
    lines: &[&[u8]],
    workers: usize,
) -> Result<Vec<Recorded>, AllocError>
    ensures { IfOk result (λ runs. runs_view runs.items ≡ record_of (scene_of recorder.now) (lines_view lines.now)) }
{
    let workers = workers.min(lines.len());
    if workers < 2 {
        let run = record_lines(alloc, recorder, lines)?;
        return Ok(vec![in alloc; run]?);
    }
    let half = workers / 2;
    let others = workers - half;
    let (front, behind) = lines.split_at(lines.len() / workers * half);
    let there = move || -> Result<Vec<Recorded>, AllocError>
        requires { IsSync R.row }
        ensures { IfOk result (λ runs. runs_view runs.items ≡ record_of (scene_of recorder.entry.now) (lines_view front.entry.now)) }
    { record_runs(rt, alloc, recorder, front, half) };
    let here = move || -> Result<Vec<Recorded>, AllocError>
        requires { IsSync R.row }
        ensures { IfOk result (λ runs. runs_view runs.items ≡ record_of (scene_of recorder.entry.now) (lines_view behind.entry.now)) }
    { record_runs(rt, alloc, recorder, behind, others) };
    let (runs, later) = join(rt, there, here);
    followed(runs?, later?)
}

/// These runs, and then those.
fn followed(mut runs: Vec<Recorded>, mut later: Vec<Recorded>) -> Result<Vec<Recorded>, AllocError>
    ensures { IfOk result (λ all. all.items ≡ runs.items ++ later.items) }
{
    runs.append(&mut later)?;
    Ok(runs)
}

/// Writes the note lines of runs, one after another, up to the first of them in which a line is no context, and counts their
/// lines and what came of the contexts. It gives none where a write failed; then a front of the note lines is written.
pub(crate) fn write_runs<O: Outlet>(runs: &[Recorded], out: &mut O) -> Option<Written>
    requires whole { O.is_broken out.old ≡ false }
    requires room { (runs_view runs.now).lines < 2 ^ 64 }
    requires few { contexts (runs_view runs.now).outcomes ≤ (runs_view runs.now).lines }
    ensures exact { WritesRuns (runs_view runs.now) (O.bytes out.old) (O.bytes out.new) result }
    ensures counted { IfSome result (λ w. outcomes_view w.outcomes ≡ (runs_view runs.now).outcomes) }
    ensures broken { O.is_broken out.new ≡ is_none result }
{
    let mut lines = 0;
    let mut outcomes = Outcomes::none();
    for run in runs {
        if !write_whole(out, run.text.as_slice()) {
            return None;
        }
        lines += run.lines;
        outcomes = outcomes.both(run.outcomes);
        if run.refused {
            return Some(Written {
                lines,
                refused: true,
                outcomes,
            });
        }
    }
    Some(Written {
        lines,
        refused: false,
        outcomes,
    })
}
