//! The end of a shared book.
ghost use Rattle.std.specs.Prelude.{◌≡◌, ◌≢◌, ◌++◌, [], false, vec_len, IfOk, IfErr, MatchResult};
ghost use Rattle.book_lock.specs.Sealed.{IsSealed};
ghost use Rattle.book_lock.specs.Seen.{view_of};
ghost use Rattle.book_lock.specs.Told.{IsTold};

use crate::fault::SealFault;
use crate::lock::{BookLock, Place};
use crate::name::BookName;
use crate::seat::Seat;
use crate::shared::SharedBook;
use book_core::Book;

/// Why a book was not sealed, with the book and the seats as they were.
#[derive(Drop)]
pub struct SealRefused<L: BookName> {
    pub fault: SealFault,
    pub book: SharedBook<L>,
    pub seats: Vec<Seat<L>>,
}

/// Ends a shared book, with all its seats. There is one legal list of accepted calls, which begins with what each seat has
/// seen, and whose calls of a seat's number are those that the seat made; the book is what these calls leave. So it holds
/// just what the seats were told, each input was New to one seat, once, and there are as many as the seats' news add up
/// to. It is refused with SeatMissing where not all seats are handed back. It takes no memory, and compares nothing.
pub fn seal<L: BookName>(book: SharedBook<L>, seats: Vec<Seat<L>>) -> Result<Book, SealRefused<L>>
    ensures sealed { IfOk result (λ book. IsSealed L.seats seats.items book) }
    ensures told { IfOk result (λ book. IsTold seats.items book) }
    ensures missing { MatchResult result (λ _. vec_len seats ≡ L.seats) (λ r. (r.fault ≡ SealFault.SeatMissing) × (vec_len seats ≢ L.seats)) }
    ensures back { IfErr result (λ r. (r.book ≡ book) × (r.seats ≡ seats)) }
{
    if seats.len() != book.seats {
        return Err(SealRefused {
            fault: SealFault::SeatMissing,
            book,
            seats,
        });
    }
    let SharedBook {
        lock,
        seats: _count,
        of: _,
    } = book;
    let place = joined(&lock, seats);
    Ok(lock.close(place))
}

/// One place that stands for all seats.
fn joined<L: BookName>(lock: &BookLock, seats: Vec<Seat<L>>) -> Place
    requires some { vec_len seats ≢ 0 }
    requires table { lock.now.table.shared.table_id ≡ L.table }
    ensures table { result.table_id ≡ L.table }
    ensures all { result.me ≡ (view_of false seats.items, []) }
{
    let mut seats = seats;
    let mut all = seats.pop().unwrap().into_place();
    while let Some(seat) = seats.pop() {
        lock.join(&mut all, seat.into_place());
    }
    all
}
