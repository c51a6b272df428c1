//! Asks, answered by workers that share a book.
ghost use Rattle.std.specs.Prelude.{◌≡◌, ◌≢◌, ◌<◌, ◌≤◌, ◌*◌, ◌^◌, ℕ, Some, None, List, [], IsOk, length, map, count_by, sum_by, true, false, Ok, Err, IfErr, IfOk};
ghost use Rattle.logic_eval.specs.Views.{reach_view};
ghost use Rattle.flag_defs.specs.Flags.{flags_view};
ghost use Rattle.flag_resolve.specs.Views.{resolution_view};
ghost use Rattle.book_lock.specs.Limits.{most_seats};
ghost use Rattle.book_lock.specs.Told.{all_told};
ghost use Rattle.book_share.specs.Asked.{is_long, long_inputs, long_of as long_of_asks, mentions, resolved};
ghost use Rattle.book_share.specs.Driven.{AreNoted};
ghost use Rattle.book_share.specs.Gated.{EachAsk, StallsOf};
ghost use Rattle.book_share.specs.declared.drive_fault.DriveFault.{DriveFault as Fault};
ghost use Rattle.book_share.specs.DriveFault.{is_of_workers, workers_fault};

use crate::ask::Ask;
use crate::drive_fault::DriveFault;
use crate::gate::Gate;
use crate::gather::{WorkerResults, gathered, parts_of};
use crate::known::known_pages;
use crate::order::in_order;
use crate::worker::Round;
use book_core::Book;
use book_lock::{Blanks, BookName, Seat, SeatsFault, SharedBook, seal};
use flag_defs::Flags;
use flag_resolve::Resolution;
use limits::INPUT_BYTES;
use logic_eval::Reached;
use std::alloc::Global;
use std::marker::Brand;
use std::sync::Wait;
use std::thread::Threads;

/// What was driven.
#[derive(Drop)]
pub struct Driven {
    /// The resolutions of the asks, in their order.
    pub answers: Vec<Resolution>,
    /// The inputs that were reached, each on its page.
    pub book: Book,
    /// How many notes the book accepted.
    pub calls: u128,
    /// How many of them were New.
    pub news: u128,
    /// How many notes a full page refused.
    pub full: u128,
    /// How many inputs of more than 1024 bytes were reached.
    pub long: u128,
}

impl Driven {
    /// What no asks come to. It takes no memory.
    fn of_no_asks(alloc: Global) -> Driven
        ensures answers { result.answers.items ≡ [] }
        ensures book { result.book ≡ [] }
        ensures counts { (result.calls ≡ 0) × (result.news ≡ 0) × (result.full ≡ 0) }
        ensures long { result.long ≡ 0 }
    {
        Driven {
            answers: Vec::new(alloc),
            book: Book::new(alloc),
            calls: 0,
            news: 0,
            full: 0,
            long: 0,
        }
    }
}

/// Answers the asks, in their order, by so many workers, and notes each hash input that a `fractional` operation got on
/// its page of a book. Worker w takes the asks w, w + workers and so on, each once the gate lets it start. An input that
/// is too long or that a full page refuses is counted, and the ask is answered all the same.
///
/// It is refused with NoWorkers and TooManyWorkers (more than 64), then with Stalled where the gate refuses an ask
/// 1000000 times. A refusal comes after all workers have ended, and drops the book. The gate is told of each ask that was
/// answered. Where there are no asks it takes no memory, and so is refused for the number of workers alone. The condition is
/// fewer than 2^32 asks.
#[tactic(auto, using(crate::proofs::NoAsks::no_answers, crate::proofs::NoAsks::none_long, crate::proofs::NoAsks::of_none))]
pub fn drive<'x, G: Gate, R: Threads + Wait + Sync>(
    rt: &R,
    alloc: Global,
    flags: &Flags,
    asks: &'x [Ask<'x>],
    workers: usize,
    gate: &G,
) -> Result<Driven, DriveFault>
    requires { length asks.now < 2 ^ 32 }
    ensures answers { IfOk result (λ d. map resolution_view d.answers.items ≡ map (resolved (flags_view flags.now)) asks.now) }
    ensures noted { IfOk result (λ d. AreNoted (mentions (flags_view flags.now) asks.now) d.book d.calls d.news d.full) }
    ensures long { IfOk result (λ d. d.long ≡ long_of_asks (flags_view flags.now) asks.now) }
    ensures workers { (e : Fault) → workers_fault workers ≡ Some e → result ≡ Err e }
    ensures refused { IfErr result (λ e. is_of_workers e ≡ true → workers_fault workers ≡ Some e) }
    ensures gated { IfOk result (λ _. EachAsk (λ ask. G.started gate.now ask × G.told gate.now ask) (length asks.now)) }
    ensures stalled { StallsOf (G.refused gate.now) (length asks.now) result }
    ensures none { length asks.now ≡ 0 → workers_fault workers ≡ None → IsOk result }
{
    if asks.is_empty() {
        return match DriveFault::of_workers(workers) {
            Some(fault) => Err(fault),
            None => Ok(Driven::of_no_asks(alloc)),
        };
    }
    let blanks = blanks_of(alloc, workers)?;
    driven_by::<Brand, G, R>(rt, alloc, blanks, workers, flags, asks, gate)
}

/// Blanks with a seat for each worker.
fn blanks_of(alloc: Global, workers: usize) -> Result<Blanks, DriveFault>
    ensures made { IfOk result (λ b. (workers_fault workers ≡ None) × (b.seats ≡ workers)) }
    ensures few { IfOk result (λ _. (0 < workers) × (workers ≤ most_seats)) }
    ensures workers { (e : Fault) → workers_fault workers ≡ Some e → result ≡ Err e }
    ensures refused { IfErr result (λ e. is_of_workers e ≡ true → workers_fault workers ≡ Some e) }
    ensures unstalled { result ≢ Err DriveFault.Stalled }
{
    match Blanks::new(alloc, workers) {
        Ok(blanks) => Ok(blanks),
        Err(SeatsFault::NoSeats) => Err(DriveFault::NoWorkers),
        Err(SeatsFault::TooManySeats) => Err(DriveFault::TooManyWorkers),
        Err(SeatsFault::WantOfMemory) => Err(DriveFault::WantOfMemory),
    }
}

/// Drives with a worker for each seat of the blanks.
fn driven_by<'x, L: BookName + Send + Sync, G: Gate, R: Threads + Wait + Sync>(
    rt: &R,
    alloc: Global,
    blanks: Blanks,
    workers: usize,
    flags: &Flags,
    asks: &'x [Ask<'x>],
    gate: &G,
) -> Result<Driven, DriveFault>
    requires name { (blanks.table ≡ L.table) × (blanks.seats ≡ L.seats) }
    requires workers { (workers ≡ L.seats) × (0 < workers) × (workers ≤ most_seats) }
    requires asks { length asks.now < 2 ^ 32 }
    ensures answers { IfOk result (λ d. map resolution_view d.answers.items ≡ map (resolved (flags_view flags.now)) asks.now) }
    ensures noted { IfOk result (λ d. AreNoted (mentions (flags_view flags.now) asks.now) d.book d.calls d.news d.full) }
    ensures long { IfOk result (λ d. d.long ≡ long_of_asks (flags_view flags.now) asks.now) }
    ensures gated { IfOk result (λ _. EachAsk (λ ask. G.started gate.now ask × G.told gate.now ask) (length asks.now)) }
    ensures stalled { StallsOf (G.refused gate.now) (length asks.now) result }
    ensures started { IfErr result (λ e. is_of_workers e ≡ false) }
{
    let known = known_pages(alloc, flags, asks)?;
    let (book, seats) = SharedBook::<L>::new(alloc, blanks)?;
    let round = Round {
        book: &book,
        flags,
        asks,
        gate,
        step: workers,
        known: &known,
    };
    let parts = parts_of(rt, alloc, &round, seats)?;
    let WorkerResults {
        seats,
        answers,
        refused,
    } = gathered(alloc, &round, parts)?;
    let answers = in_order(alloc, flags, asks, answers)?;
    let calls = calls_of(seats.as_slice());
    let long = long_of(answers.as_slice());
    let Ok(book) = seal(book, seats) else {
        unreachable!()
    };
    let news = book.inputs();
    Ok(Driven {
        answers,
        book,
        calls,
        news,
        full: refused,
        long,
    })
}

/// How many calls of the seats were accepted.
fn calls_of<L: BookName>(seats: &[Seat<L>]) -> u128
    ensures { result ≡ length (all_told seats.now) }
{
    let mut calls: u128 = 0;
    for seat in seats {
        calls += u128::from(seat.calls());
    }
    calls
}

/// How many inputs of more than 1024 bytes were reached.
fn long_of(answers: &[Resolution]) -> u128
    ensures { result ≡ sum_by (λ r. long_inputs (map reach_view r.reached.items)) answers.now }
{
    let mut long: u128 = 0;
    for answer in answers {
        long += long_in(answer.reached.as_slice()) as u128;
    }
    long
}

fn long_in(reached: &[Reached]) -> usize
    ensures value { result ≡ long_inputs (map reach_view reached.now) }
    ensures few { result ≤ length reached.now }
{
    let mut long = 0;
    for reach in reached {
        if reach.input.len() > INPUT_BYTES {
            long += 1;
        }
    }
    long
}
