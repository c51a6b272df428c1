//! What a shared book is made of.
ghost use Rattle.std.specs.Prelude.{◌≡◌, ◌≢◌, ◌↔◌, ◌<◌, ◌≤◌, [], false, None, Some, Err, IfOk, MatchResult};
ghost use Rattle.book_lock.specs.Limits.{most_seats, seats_fault};
ghost use Rattle.book_lock.specs.Rule.{idle};
ghost use Rattle.book_lock.specs.Seen.{sight, unseen, view_of};

use crate::fault::SeatsFault;
use crate::lock::{BookLock, Place};
use crate::name::BookName;
use crate::seat::Seat;
use crate::shared::SharedBook;
use atomic_table::{Refused, Table};
use book_core::Book;
use limits::SEATS;
use std::alloc::{AllocError, Global};
use std::marker::{Model, PhantomData};

/// A book of so many seats, before its name is picked.
#[derive(Drop)]
pub struct Blanks {
    lock: BookLock,
    root: Place,
    seats: usize,
}

impl Model for Blanks {
    ghost use Rattle.std.specs.Prelude.{◌≡◌, ◌<◌, ◌≤◌, [], false};
    ghost use Rattle.book_lock.specs.Sealed.{Blanked};
    ghost use Rattle.book_lock.specs.Seen.{unseen, view_of};

    ghost Value = { Blanked };

    ghost view = { λ b. record { table = b.lock.table.shared.table_id; seats = b.seats } };

    ghost invariant = { λ b. (b.root.table_id ≡ b.lock.table.shared.table_id) × (b.root.me ≡ (view_of false (unseen b.seats), [])) × (b.lock.table.shared.key ≡ b.seats) × (0 < b.seats) × (b.seats ≤ 64) };
}

impl Blanks {
    /// Blanks for a book of so many seats. Without seats it is refused with NoSeats, with more than 64 with
    /// TooManySeats, before it takes memory.
    pub fn new(alloc: Global, seats: usize) -> Result<Blanks, SeatsFault>
        ensures made { MatchResult result (λ b. (seats_fault seats ≡ None) × (b.seats ≡ seats)) (λ e. e ≢ SeatsFault.WantOfMemory → seats_fault seats ≡ Some e) }
        ensures none { (result ≡ Err SeatsFault.NoSeats) ↔ (seats ≡ 0) }
        ensures many { (result ≡ Err SeatsFault.TooManySeats) ↔ (most_seats < seats) }
    {
        if seats == 0 {
            return Err(SeatsFault::NoSeats);
        }
        if seats > SEATS {
            return Err(SeatsFault::TooManySeats);
        }
        let mut slots = Vec::with_capacity(alloc, 1)?;
        slots.push_reserved(Some(Book::new(alloc)));
        match Table::new(alloc, &[0], slots, &(seats as u64)) {
            Ok((table, root)) => Ok(Blanks {
                lock: BookLock { table },
                root,
                seats,
            }),
            Err(Refused { slots: _ }) => Err(SeatsFault::WantOfMemory),
        }
    }
}

impl<L: BookName> SharedBook<L> {
    /// The empty book, and as many seats as the blanks are for, numbered from 0, the last first; they have seen nothing.
    /// The condition is that the name is the blanks'. It fails only where memory runs out.
    pub fn new(alloc: Global, blanks: Blanks) -> Result<(SharedBook<L>, Vec<Seat<L>>), AllocError>
        requires name { (blanks.table ≡ L.table) × (blanks.seats ≡ L.seats) }
        ensures { IfOk result (λ made. made.1.items ≡ unseen blanks.seats) }
    {
        let Blanks { lock, root, seats } = blanks;
        let all = seated(alloc, &lock, root, seats)?;
        let book = SharedBook {
            lock,
            seats,
            of: PhantomData,
        };
        Ok((book, all))
    }
}

/// The seats below a number, split off one by one.
fn seated<L: BookName>(
    alloc: Global,
    lock: &BookLock,
    root: Place,
    seats: usize,
) -> Result<Vec<Seat<L>>, AllocError>
    requires table { (root.table_id ≡ lock.now.table.shared.table_id) × (root.table_id ≡ L.table) }
    requires root { root.me ≡ (view_of false (unseen seats), []) }
    requires few { seats ≤ 64 }
    ensures { IfOk result (λ all. all.items ≡ unseen seats) }
{
    let mut root = root;
    let mut all = Vec::with_capacity(alloc, seats)?;
    let mut left = seats;
    while left > 0 {
        left -= 1;
        let place = lock.split(&mut root);
        all.push(first_seat(left as u64, place))?;
    }
    Ok(all)
}

/// A seat that has seen nothing.
fn first_seat<L: BookName>(number: u64, place: Place) -> Seat<L>
    requires { (place.table_id ≡ L.table) × (place.me ≡ (idle number [], [])) × (number < 64) }
    ensures { result ≡ sight number [] }
{
    Seat {
        number,
        calls: 0,
        news: 0,
        place,
        of: PhantomData,
    }
}
