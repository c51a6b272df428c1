//! What one worker does.
ghost use Rattle.std.specs.Prelude.{◌≡◌, ◌≢◌, ◌<◌, ◌≤◌, ◌+◌, ◌*◌, ◌^◌, [], true, false, length, count_by, Err, IfErr, IfOk, Bool};
ghost use Rattle.flag_defs.specs.Flags.{flags_view};
ghost use Rattle.flag_resolve.specs.Views.{resolution_view};
ghost use Rattle.logic_eval.specs.Run.{most_units};
ghost use Rattle.book_lock.specs.Counts.{own};
ghost use Rattle.book_lock.specs.Limits.{most_seats};
ghost use Rattle.book_share.specs.Asked.{asks_of, mentions_of, resolved as resolution_of_ask};
ghost use Rattle.book_share.specs.DriveFault.{is_of_workers};
ghost use Rattle.book_share.specs.Driven.{IsAnswer, IsWork, Notes, NotesAsk};
ghost use Rattle.book_share.specs.Gated.{EachTurn, FailsAfter, IsClosed, StallsOf, most_attempts};
ghost use Rattle.book_share.specs.Known.{AreKnown};

use crate::ask::Ask;
use crate::drive_fault::DriveFault;
use crate::gate::{Attempt, Gate};
use crate::known::pages_at;
use crate::reach::{Sites, note_reached};
use book_core::Page;
use book_lock::{BookName, Seat, SharedBook};
use flag_defs::Flags;
use flag_resolve::{Resolution, resolve};
use std::alloc::{AllocError, Global};
use std::collections::{BTreeMap, VecDeque};
use std::marker::Brand;
use std::sync::Wait;

/// How often a gate is asked whether an ask may start.
const MOST_ATTEMPTS: u32 = 1_000_000;

/// What all workers share.
#[derive(Drop)]
pub(crate) struct Round<'a, 'b, L: BookName, G: Gate> {
    pub(crate) book: &'a SharedBook<L>,
    pub(crate) flags: &'a Flags,
    pub(crate) asks: &'b [Ask<'b>],
    pub(crate) gate: &'a G,
    pub(crate) step: usize,
    pub(crate) known: &'a BTreeMap<String, Vec<Page>>,
    pub(crate) ghost steps: { (0 < step) × (step ≤ most_seats) × (length asks.now < 2 ^ 32) },
    pub(crate) ghost pages: { AreKnown (flags_view flags.now) known.now.entries },
}

/// What a worker begins with: a seat, the number of its first ask, and room for its answers.
#[derive(Drop)]
pub(crate) struct Job<L: BookName> {
    pub(crate) seat: Seat<L>,
    pub(crate) first: usize,
    pub(crate) answers: VecDeque<Resolution>,
}

/// What a worker ends with: its seat, its answers in the order of its asks, and how many inputs full pages refused.
#[derive(Drop)]
pub(crate) struct Part<L: BookName> {
    pub(crate) seat: Seat<L>,
    pub(crate) answers: VecDeque<Resolution>,
    pub(crate) refused: u64,
}

/// Answers the first ask of the job, then each that comes a step after. Unless the gate refuses an ask for good, it is refused
/// only once the gate let one of its asks start.
pub(crate) fn work<L: BookName, G: Gate, R: Wait>(
    rt: &R,
    alloc: Global,
    round: &Round<'_, '_, L, G>,
    job: Job<L>,
) -> Result<Part<L>, DriveFault>
    requires fresh { own job.seat ≡ [] }
    requires first { job.first < round.now.step }
    requires room { job.answers.items ≡ [] }
    ensures work { IfOk result (λ p. IsWork (flags_view round.now.flags.now) (asks_of round.now.step job.first round.now.asks.now) p.seat p.answers.items p.refused) }
    ensures gated { IfOk result (λ _. EachTurn (λ n. G.started round.now.gate.now n × G.told round.now.gate.now n) round.now.step job.first (length round.now.asks.now)) }
    ensures stalled { StallsOf (G.refused round.now.gate.now) (length round.now.asks.now) result }
    ensures begun { FailsAfter (G.started round.now.gate.now) round.now.step job.first (length round.now.asks.now) result }
    ensures started { IfErr result (λ e. is_of_workers e ≡ false) }
{
    let Job {
        mut seat,
        first,
        mut answers,
    } = job;
    let mut refused = 0;
    let mut ask = first;
    while ask < round.asks.len() {
        let answer = answered(rt, alloc, round, &mut seat, &mut refused, ask)?;
        answers.push_back(answer)?;
        ask += round.step;
    }
    Ok(Part {
        seat,
        answers,
        refused,
    })
}

/// Answers an ask, once the gate lets it start, and notes what it reached.
fn answered<L: BookName, G: Gate, R: Wait>(
    rt: &R,
    alloc: Global,
    round: &Round<'_, '_, L, G>,
    seat: &mut Seat<L>,
    refused: &mut u64,
    ask: usize,
) -> Result<Resolution, DriveFault>
    requires within { ask < length round.now.asks.now }
    requires room { length (own seat.old) + refused.old ≤ ask * most_units }
    ensures answer { IfOk result (λ r. IsAnswer (flags_view round.now.flags.now) round.now.asks.now ask r) }
    ensures noted { IfOk result (λ _. NotesAsk (flags_view round.now.flags.now) round.now.asks.now ask seat.old refused.old seat.new refused.new) }
    ensures grown { IfOk result (λ _. length (own seat.new) + refused.new ≤ length (own seat.old) + refused.old + most_units) }
    ensures gated { IfOk result (λ _. G.started round.now.gate.now ask × G.told round.now.gate.now ask) }
    ensures stalled { StallsOf (G.refused round.now.gate.now) (length round.now.asks.now) result }
    ensures wanted { IfErr result (λ e. e ≢ DriveFault.Stalled → G.started round.now.gate.now ask) }
    ensures started { IfErr result (λ e. is_of_workers e ≡ false) }
{
    if !starts(round.gate, ask) {
        return Err(DriveFault::Stalled);
    }
    let asked = &round.asks[ask];
    let resolution = resolved(rt, alloc, round, seat, refused, asked)?;
    round.gate.answered(ask);
    Ok(resolution)
}

/// The resolution of an ask, once what it reached was noted.
fn resolved<L: BookName, G: Gate, R: Wait>(
    rt: &R,
    alloc: Global,
    round: &Round<'_, '_, L, G>,
    seat: &mut Seat<L>,
    refused: &mut u64,
    ask: &Ask<'_>,
) -> Result<Resolution, AllocError>
    requires room { length (own seat.old) + refused.old ≤ 2 ^ 32 * most_units }
    ensures resolution { IfOk result (λ r. resolution_view r ≡ resolution_of_ask (flags_view round.now.flags.now) ask.now) }
    ensures noted { IfOk result (λ _. Notes (mentions_of (flags_view round.now.flags.now) ask.now) seat.old refused.old seat.new refused.new) }
    ensures grown { IfOk result (λ _. length (own seat.new) + refused.new ≤ length (own seat.old) + refused.old + most_units) }
{
    let resolution = resolution(alloc, round.flags, ask)?;
    let key = ask.key;
    let sites = Sites {
        flags: round.flags,
        key,
        pages: pages_at(round.known, round.flags, key),
    };
    note_reached(
        rt,
        alloc,
        round.book,
        seat,
        refused,
        &sites,
        resolution.reached.as_slice(),
    )?;
    Ok(resolution)
}

#[tactic(auto, using(logic_eval::proofs::Tidy::tidy_whole), unfolding(crate::specs::Asked::resolved))]
fn resolution(alloc: Global, flags: &Flags, ask: &Ask<'_>) -> Result<Resolution, AllocError>
    ensures { IfOk result (λ r. resolution_view r ≡ resolution_of_ask (flags_view flags.now) ask.now) }
{
    resolve(
        alloc,
        Some(flags),
        ask.key,
        ask.want,
        ask.default,
        ask.context,
        ask.moment,
    )
}

/// Whether the gate lets the ask start.
fn starts<G: Gate>(gate: &G, ask: usize) -> bool
    ensures started { result ≡ true → G.started gate.now ask }
    ensures closed { result ≡ false → IsClosed (G.refused gate.now) ask }
{
    for attempt in 0..MOST_ATTEMPTS {
        if may_start::<Brand, G>(gate, ask, attempt) {
            return true;
        }
    }
    false
}

/// Whether the gate lets the ask start at this attempt.
fn may_start<A: Attempt, G: Gate>(gate: &G, ask: usize, attempt: u32) -> bool
    requires number { attempt ≡ A.number }
    requires most { attempt < most_attempts }
    ensures started { result ≡ true → G.started gate.now ask }
    ensures refused { result ≡ false → G.refused gate.now ask attempt }
{
    // The contract alone names the attempt.
    let _ = attempt;
    gate.may_start::<A>(ask)
}
