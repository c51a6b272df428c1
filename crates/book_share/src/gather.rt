//! What the workers made, put together.
ghost use Rattle.std.specs.Prelude.{◌≡◌, ◌≢◌, ◌<◌, [], ℕ, List, length, slice_get, All, Err, IfOk, IfSome};
ghost use Rattle.flag_defs.specs.Document.{Definitions};
ghost use Rattle.flag_defs.specs.Flags.{flags_view};
ghost use Rattle.book_lock.specs.Counts.{own};
ghost use Rattle.book_lock.specs.Seen.{unseen};
ghost use Rattle.book_share.specs.Driven.{AreParts, AreWorkerResults, HasStarted, IsPart};
ghost use Rattle.book_share.specs.Gated.{EachFailsAfter, EachPart, EachTurn, FailsAfter, StallsOf};
ghost use Rattle.book_share.specs.declared.ask.Ask.{Ask};

use crate::drive_fault::DriveFault;
use crate::gate::Gate;
use crate::map_vec;
use crate::worker::{Job, Part, Round, work};
use book_lock::{BookName, Seat};
use flag_resolve::Resolution;
use std::alloc::{AllocError, Global};
use std::collections::VecDeque;
use std::sync::Wait;
use std::thread::Threads;

/// What all workers made: their seats, the answers of each, and how many inputs full pages refused.
#[derive(Drop)]
pub(crate) struct WorkerResults<L: BookName> {
    pub(crate) seats: Vec<Seat<L>>,
    pub(crate) answers: VecDeque<VecDeque<Resolution>>,
    pub(crate) refused: u128,
}

/// A job for each seat, numbered from 0, with room for so many answers.
fn jobs_of<L: BookName>(
    alloc: Global,
    seats: Vec<Seat<L>>,
    workers: usize,
    room: usize,
) -> Result<Vec<Job<L>>, AllocError>
    requires fresh { All (λ seat. own seat ≡ []) seats.items }
    requires workers { length seats.items ≡ workers }
    ensures fresh { IfOk result (λ jobs. All (λ job. (own job.seat ≡ []) × (job.first < workers) × (job.answers.items ≡ [])) jobs.items) }
    ensures first { IfOk result (λ jobs. (i : ℕ) → IfSome (slice_get jobs.items i) (λ job. job.first ≡ i)) }
    ensures len { IfOk result (λ jobs. length jobs.items ≡ workers) }
{
    // The contract alone names their number.
    let _ = workers;
    let mut jobs = Vec::with_capacity(alloc, seats.len())?;
    for seat in seats {
        let first = jobs.len();
        let answers = VecDeque::with_capacity(alloc, room)?;
        jobs.push(Job {
            seat,
            first,
            answers,
        })?;
    }
    Ok(jobs)
}

/// What each worker makes of its asks. All run at once: each in a thread of its own, whose stack has a fixed size, or the last of
/// those for which none can be made in the caller's.
pub(crate) fn parts_of<L: BookName + Send + Sync, G: Gate, R: Threads + Wait + Sync>(
    rt: &R,
    alloc: Global,
    round: &Round<'_, '_, L, G>,
    seats: Vec<Seat<L>>,
) -> Result<Vec<Result<Part<L>, DriveFault>>, AllocError>
    requires fresh { seats.items ≡ unseen round.now.step }
    ensures len { IfOk result (λ parts. length parts.items ≡ round.now.step) }
    ensures work { IfOk result (λ parts. AreParts (flags_view round.now.flags.now) round.now.step round.now.asks.now parts.items) }
    ensures gated { IfOk result (λ parts. EachPart (λ n. G.started round.now.gate.now n × G.told round.now.gate.now n) round.now.step (length round.now.asks.now) parts.items) }
    ensures stalled { IfOk result (λ parts. All (λ r. StallsOf (G.refused round.now.gate.now) (length round.now.asks.now) r) parts.items) }
    ensures begun { IfOk result (λ parts. EachFailsAfter (G.started round.now.gate.now) round.now.step (length round.now.asks.now) parts.items) }
    ensures started { IfOk result (λ parts. All (λ r. HasStarted r) parts.items) }
{
    let room = round.asks.len() / round.step + 1;
    let jobs = jobs_of(alloc, seats, round.step, room)?;
    map_vec(
        rt,
        jobs,
        &|job: Job<L>| -> Result<Part<L>, DriveFault>
            requires { (own job.seat ≡ []) × (job.first < round.now.step) × (job.answers.items ≡ []) }
            ensures { IfOk result (λ p. IsPart (flags_view round.entry.now.flags.now) round.entry.now.step round.entry.now.asks.now job.first p)
                × StallsOf (G.refused round.entry.now.gate.now) (length round.entry.now.asks.now) result × HasStarted result
                × IfOk result (λ _. EachTurn (λ n. G.started round.entry.now.gate.now n × G.told round.entry.now.gate.now n) round.entry.now.step job.first (length round.entry.now.asks.now))
                × FailsAfter (G.started round.entry.now.gate.now) round.entry.now.step job.first (length round.entry.now.asks.now) result }
        { work(rt, alloc, round, job) },
    )
}

/// What the workers made, put together; or the refusal of one of them.
pub(crate) fn gathered<L: BookName, G: Gate>(
    alloc: Global,
    round: &Round<'_, '_, L, G>,
    parts: Vec<Result<Part<L>, DriveFault>>,
) -> Result<WorkerResults<L>, DriveFault>
    ensures len { IfOk result (λ h. length h.seats.items ≡ length parts.items) }
    ensures work { (flags : Definitions) (asks : List Ask) (workers : ℕ) → AreParts flags workers asks parts.items
        → IfOk result (λ h. AreWorkerResults flags workers asks h) }
    ensures gated { EachPart (λ n. G.started round.now.gate.now n × G.told round.now.gate.now n) round.now.step (length round.now.asks.now) parts.items
        → IfOk result (λ _. (w : ℕ) → w < length parts.items → EachTurn (λ n. G.started round.now.gate.now n × G.told round.now.gate.now n) round.now.step w (length round.now.asks.now)) }
    ensures stalled { All (λ r. StallsOf (G.refused round.now.gate.now) (length round.now.asks.now) r) parts.items → StallsOf (G.refused round.now.gate.now) (length round.now.asks.now) result }
    ensures started { All (λ r. HasStarted r) parts.items → HasStarted result }
{
    // The contract alone names the round.
    let _ = round;
    let mut seats = Vec::with_capacity(alloc, parts.len())?;
    let mut answers = VecDeque::with_capacity(alloc, parts.len())?;
    let mut refused: u128 = 0;
    for part in parts {
        let Part {
            seat,
            answers: more,
            refused: others,
        } = part?;
        seats.push(seat)?;
        answers.push_back(more)?;
        refused += u128::from(others);
    }
    Ok(WorkerResults {
        seats,
        answers,
        refused,
    })
}
