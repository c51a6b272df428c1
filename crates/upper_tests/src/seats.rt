//! Threads that answer asks, each through a seat of its own of a shared book.
ghost use Rattle.std.specs.Prelude.{◌≡◌};

use book_lock::{Blanks, BookName, Seat, SharedBook};
use book_share::{Ask, map_vec};
use flag_defs::Flags;
use flag_resolve::resolve;
use site_pages::{page_at, targeting_of};
use std::alloc::Global;
use std::sync::Wait;
use std::thread::Threads;

/// How many threads there are, each with a seat.
pub(crate) const THREADS: usize = 8;

/// What the threads share.
#[derive(Drop)]
pub(crate) struct Round<'a, 'b, L: BookName> {
    pub(crate) book: &'a SharedBook<L>,
    pub(crate) flags: &'a Flags,
    pub(crate) asks: &'b [Ask<'b>],
}

/// What a thread begins with: a seat, and the number of its first ask.
#[derive(Drop)]
pub(crate) struct Job<L: BookName> {
    pub(crate) seat: Seat<L>,
    pub(crate) first: usize,
}

/// A shared book and its seats, once the threads have noted in it what the asks reach.
pub(crate) fn told<'x, L: BookName + Send + Sync, R: Threads + Wait + Sync>(
    rt: &R,
    alloc: Global,
    blanks: Blanks,
    flags: &Flags,
    asks: &'x [Ask<'x>],
) -> Option<(SharedBook<L>, Vec<Seat<L>>)>
    requires { (blanks.table ≡ L.table) × (blanks.seats ≡ L.seats) }
{
    let (book, seats) = SharedBook::<L>::new(alloc, blanks).ok()?;
    let round = Round {
        book: &book,
        flags,
        asks,
    };
    let seats = noted(rt, alloc, &round, seats)?;
    Some((book, seats))
}

/// The seats once each thread has noted what its asks reach: the one of its own number, then each that comes as many after.
fn noted<L: BookName + Send + Sync, R: Threads + Wait + Sync>(
    rt: &R,
    alloc: Global,
    round: &Round<'_, '_, L>,
    seats: Vec<Seat<L>>,
) -> Option<Vec<Seat<L>>> {
    let jobs = jobs_of(alloc, seats)?;
    let noted = map_vec(
        rt,
        jobs,
        &|job: Job<L>| -> Option<Seat<L>> { noted_by(rt, alloc, round, job) },
    );
    seats_of(alloc, noted.ok()?)
}

/// A job for each seat, numbered from 0.
fn jobs_of<L: BookName>(alloc: Global, seats: Vec<Seat<L>>) -> Option<Vec<Job<L>>> {
    let mut jobs = Vec::new(alloc);
    for seat in seats {
        let first = jobs.len();
        jobs.push(Job { seat, first }).ok()?;
    }
    Some(jobs)
}

/// The seats, where no note failed.
fn seats_of<L: BookName>(alloc: Global, noted: Vec<Option<Seat<L>>>) -> Option<Vec<Seat<L>>> {
    let mut seats = Vec::new(alloc);
    for seat in noted {
        seats.push(seat?).ok()?;
    }
    Some(seats)
}

/// What one thread does.
fn noted_by<L: BookName, R: Wait>(
    rt: &R,
    alloc: Global,
    round: &Round<'_, '_, L>,
    job: Job<L>,
) -> Option<Seat<L>> {
    let Job { mut seat, first } = job;
    for (number, ask) in round.asks.iter().enumerate() {
        if number % THREADS == first && !is_noted(rt, alloc, round, &mut seat, ask) {
            return None;
        }
    }
    Some(seat)
}

/// Whether all that an ask reaches was noted, each input on the page of its site.
#[tactic(auto, using(logic_eval::proofs::Tidy::tidy_whole))]
fn is_noted<L: BookName, R: Wait>(
    rt: &R,
    alloc: Global,
    round: &Round<'_, '_, L>,
    seat: &mut Seat<L>,
    ask: &Ask<'_>,
) -> bool {
    let (flags, key) = (round.flags, ask.key);
    let resolved = resolve(
        alloc,
        Some(flags),
        key,
        ask.want,
        ask.default,
        ask.context,
        ask.moment,
    );
    let Ok(resolution) = resolved else {
        return false;
    };
    for reach in resolution.reached.as_slice() {
        let Ok(page) = page_at(alloc, key, targeting_of(flags, key), reach.site) else {
            return false;
        };
        let input = reach.input.as_str();
        if round.book.note(rt, alloc, seat, &page, input).is_err() {
            return false;
        }
    }
    true
}
