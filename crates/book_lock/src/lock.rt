//! The word and the slot, and the steps of one seat on them.
ghost use Rattle.std.specs.Prelude.{◌≡◌, ◌<◌, ◌+◌, ◌^◌, [], ◌∷◌, ◌++◌, None, IfSome, IfNone, IfOk, IsOk, OnErr, length, false};
ghost use Rattle.book_core.specs.Book.{inputs_on};
ghost use Rattle.book_lock.specs.Notes.{Answers, Looks, accepted};
ghost use Rattle.book_core.specs.Calls.{book_of_calls};
ghost use Rattle.book_lock.specs.Rule.{holding, idle};
ghost use Rattle.book_lock.specs.Sealed.{IsSealed};
ghost use Rattle.book_lock.specs.Seen.{IsLegal, IsMade, IsMadeSince, first_of, rest_of, seen_in, sight, view_of};

use crate::call::View;
use crate::rule::{Accepted, Cut, Give, Orders, Record, Take};
use atomic_table::{Seat as Token, Table};
use book_core::{Book, BookFault, Exposure, Noted, Page};
use std::alloc::{AllocError, Global};
use std::marker::Brand;
use std::sync::Wait;
use std::thread;

/// One word beside one slot.
pub type Board = Table<Option<Book>, View, u64, Orders, Global>;

/// What a seat steps with. It has no bytes.
pub type Place = Token<Option<Book>, View>;

/// A book under its lock.
#[derive(Drop)]
pub struct BookLock {
    pub(crate) table: Board,
    pub(crate) ghost sized: { (table.shared.table_id.words ≡ 1) × (table.shared.table_id.slots ≡ 1) },
}

impl BookLock {
    /// The book, where the seat of this number holds now; it has then seen the list of all accepted calls.
    pub(crate) fn try_take(&self, place: &mut Place, number: u64) -> Option<Book>
        requires table { place.old.table_id ≡ self.now.table.shared.table_id }
        requires few { number + 1 < 2 ^ 64 }
        requires idle { place.old.me ≡ (idle number (seen_in place.old.me.0.seats), []) }
        ensures kept { place.new.table_id ≡ place.old.table_id }
        ensures some { IfSome result (λ book. (place.new.me ≡ (holding number (seen_in place.new.me.0.seats), (0, None) ∷ []))
            × IsMadeSince book (seen_in place.new.me.0.seats) (sight number (seen_in place.old.me.0.seats))) }
        ensures none { IfNone result (place.new.me ≡ place.old.me) }
    {
        let shared = &self.table.shared;
        if shared.compare_exchange::<Take>(place, 0, 0, number + 1) != 0 {
            return None;
        }
        Some(shared.exchange(place, 0, None).unwrap())
    }

    /// Another seat may hold from now on. The book is as it was taken.
    pub(crate) fn give_back(&self, place: &mut Place, number: u64, book: Book)
        requires table { place.old.table_id ≡ self.now.table.shared.table_id }
        requires holding { place.old.me ≡ (holding number (seen_in place.old.me.0.seats), (0, None) ∷ []) }
        requires same { book ≡ book_of_calls [] (seen_in place.old.me.0.seats) }
        ensures kept { place.new.table_id ≡ place.old.table_id }
        ensures idle { place.new.me ≡ (idle number (seen_in place.old.me.0.seats), []) }
    {
        let shared = &self.table.shared;
        drop(shared.exchange(place, 0, Some(book)));
        shared.store::<Give>(place, 0, 0);
    }

    /// Another seat may hold from now on. The book has accepted one call of this seat.
    pub(crate) fn record<C: Accepted>(
        &self,
        place: &mut Place,
        number: u64,
        book: Book,
        page: &Page,
        input: &[u8],
        noted: Noted,
    )
        requires table { place.old.table_id ≡ self.now.table.shared.table_id }
        requires holding { place.old.me ≡ (holding number (seen_in place.old.me.0.seats), (0, None) ∷ []) }
        requires call { C.call ≡ accepted number page.now input.now noted }
        requires legal { IsLegal (seen_in place.old.me.0.seats ++ accepted number page.now input.now noted ∷ []) }
        requires more { book ≡ book_of_calls [] (seen_in place.old.me.0.seats ++ accepted number page.now input.now noted ∷ []) }
        ensures kept { place.new.table_id ≡ place.old.table_id }
        ensures idle { place.new.me ≡ (idle number (seen_in place.old.me.0.seats ++ accepted number page.now input.now noted ∷ []), []) }
    {
        // The contract alone names these three: the call that was accepted.
        let _ = page;
        let _ = input;
        let _ = noted;
        let shared = &self.table.shared;
        drop(shared.exchange(place, 0, Some(book)));
        shared.store::<Record<C>>(place, 0, 0);
    }

    /// Another seat may hold from now on. The book was given the input, and this reply.
    fn settle(
        &self,
        place: &mut Place,
        number: u64,
        book: Book,
        page: &Page,
        input: &str,
        reply: Result<Noted, BookFault>,
    )
        requires table { place.old.table_id ≡ self.now.table.shared.table_id }
        requires holding { place.old.me ≡ (holding number (seen_in place.old.me.0.seats), (0, None) ∷ []) }
        requires accepted { IfOk reply (λ noted. IsMade book (seen_in place.old.me.0.seats ++ accepted number page.now input.now noted ∷ [])) }
        requires refused { OnErr reply (book ≡ book_of_calls [] (seen_in place.old.me.0.seats)) }
        ensures kept { place.new.table_id ≡ place.old.table_id }
        ensures accepted { IfOk reply (λ noted. place.new.me ≡ (idle number (seen_in place.old.me.0.seats ++ accepted number page.now input.now noted ∷ []), [])) }
        ensures refused { OnErr reply (place.new.me ≡ (idle number (seen_in place.old.me.0.seats), [])) }
    {
        match reply {
            Ok(noted) => self.record::<Brand>(place, number, book, page, input.as_bytes(), noted),
            Err(_) => self.give_back(place, number, book),
        }
    }

    /// One try to note an input: none where another seat holds.
    fn try_note(
        &self,
        alloc: Global,
        place: &mut Place,
        number: u64,
        page: &Page,
        input: &str,
    ) -> Option<Result<Noted, BookFault>>
        requires table { place.old.table_id ≡ self.now.table.shared.table_id }
        requires few { number + 1 < 2 ^ 64 }
        requires idle { place.old.me ≡ (idle number (seen_in place.old.me.0.seats), []) }
        ensures kept { place.new.table_id ≡ place.old.table_id }
        ensures idle { place.new.me ≡ (idle number (seen_in place.new.me.0.seats), []) }
        ensures answer { IfSome result (λ reply. Answers number page.now input.now reply (sight number (seen_in place.old.me.0.seats)) (sight number (seen_in place.new.me.0.seats))) }
        ensures none { IfNone result (place.new.me ≡ place.old.me) }
    {
        let mut book = self.try_take(place, number)?;
        let reply = book.note(alloc, page, input);
        self.settle(place, number, book, page, input, reply);
        Some(reply)
    }

    /// Notes an input. It tries again until it holds, and lets other threads run between two tries.
    pub(crate) fn note<R: Wait>(
        &self,
        rt: &R,
        alloc: Global,
        place: &mut Place,
        number: u64,
        page: &Page,
        input: &str,
    ) -> Result<Noted, BookFault>
        requires table { place.old.table_id ≡ self.now.table.shared.table_id }
        requires few { number + 1 < 2 ^ 64 }
        requires idle { place.old.me ≡ (idle number (seen_in place.old.me.0.seats), []) }
        ensures kept { place.new.table_id ≡ place.old.table_id }
        ensures idle { place.new.me ≡ (idle number (seen_in place.new.me.0.seats), []) }
        ensures answer { Answers number page.now input.now result (sight number (seen_in place.old.me.0.seats)) (sight number (seen_in place.new.me.0.seats)) }
    {
        for _ in rt.forever() {
            if let Some(reply) = self.try_note(alloc, place, number, page, input) {
                return reply;
            }
            thread::yield_now();
        }
        unreachable!()
    }

    /// One try to copy the inputs of a page: none where another seat holds.
    fn try_exposure(
        &self,
        alloc: Global,
        place: &mut Place,
        number: u64,
        page: &Page,
    ) -> Option<Result<Exposure, AllocError>>
        requires table { place.old.table_id ≡ self.now.table.shared.table_id }
        requires few { number + 1 < 2 ^ 64 }
        requires idle { place.old.me ≡ (idle number (seen_in place.old.me.0.seats), []) }
        ensures kept { place.new.table_id ≡ place.old.table_id }
        ensures idle { place.new.me ≡ (idle number (seen_in place.new.me.0.seats), []) }
        ensures looks { IfSome result (λ r. Looks (sight number (seen_in place.old.me.0.seats)) (sight number (seen_in place.new.me.0.seats))) }
        ensures inputs { IfSome result (λ r. IfOk r (λ inputs. inputs ≡ inputs_on (book_of_calls [] (seen_in place.new.me.0.seats)) page.now)) }
        ensures empty { IfSome result (λ r. inputs_on (book_of_calls [] (seen_in place.new.me.0.seats)) page.now ≡ [] → IsOk r) }
        ensures none { IfNone result (place.new.me ≡ place.old.me) }
    {
        let book = self.try_take(place, number)?;
        let exposure = book.exposure(alloc, page);
        self.give_back(place, number, book);
        Some(exposure)
    }

    /// The inputs of a page. It tries again until it holds, and lets other threads run between two tries.
    pub(crate) fn exposure<R: Wait>(
        &self,
        rt: &R,
        alloc: Global,
        place: &mut Place,
        number: u64,
        page: &Page,
    ) -> Result<Exposure, AllocError>
        requires table { place.old.table_id ≡ self.now.table.shared.table_id }
        requires few { number + 1 < 2 ^ 64 }
        requires idle { place.old.me ≡ (idle number (seen_in place.old.me.0.seats), []) }
        ensures kept { place.new.table_id ≡ place.old.table_id }
        ensures idle { place.new.me ≡ (idle number (seen_in place.new.me.0.seats), []) }
        ensures looks { Looks (sight number (seen_in place.old.me.0.seats)) (sight number (seen_in place.new.me.0.seats)) }
        ensures inputs { IfOk result (λ inputs. inputs ≡ inputs_on (book_of_calls [] (seen_in place.new.me.0.seats)) page.now) }
        ensures empty { inputs_on (book_of_calls [] (seen_in place.new.me.0.seats)) page.now ≡ [] → IsOk result }
    {
        for _ in rt.forever() {
            if let Some(exposure) = self.try_exposure(alloc, place, number, page) {
                return exposure;
            }
            thread::yield_now();
        }
        unreachable!()
    }

    /// The first seat of a place, split off.
    pub(crate) fn split(&self, place: &mut Place) -> Place
        requires table { place.old.table_id ≡ self.now.table.shared.table_id }
        requires idle { place.old.me ≡ (view_of false place.old.me.0.seats, []) }
        ensures kept { (place.new.table_id ≡ place.old.table_id) × (result.table_id ≡ place.old.table_id) }
        ensures first { result.me ≡ (view_of false (first_of place.old.me.0.seats), []) }
        ensures rest { place.new.me ≡ (view_of false (rest_of place.old.me.0.seats), []) }
    {
        self.table.shared.split_seat::<Cut>(place)
    }

    /// A place takes over the seats of another.
    pub(crate) fn join(&self, place: &mut Place, other: Place)
        requires table { (place.old.table_id ≡ self.now.table.shared.table_id) × (other.table_id ≡ self.now.table.shared.table_id) }
        requires idle { place.old.me ≡ (view_of false place.old.me.0.seats, []) }
        requires other { other.me ≡ (view_of false other.me.0.seats, []) }
        ensures kept { place.new.table_id ≡ place.old.table_id }
        ensures both { place.new.me ≡ (view_of false (other.me.0.seats ++ place.old.me.0.seats), []) }
    {
        self.table.shared.join_seat::<Cut>(place, other)
    }

    /// The book, once one place has all seats.
    pub(crate) fn close(self, place: Place) -> Book
        requires table { place.table_id ≡ self.table.shared.table_id }
        requires idle { place.me ≡ (view_of false place.me.0.seats, []) }
        requires all { length place.me.0.seats ≡ self.table.shared.key }
        ensures { IsSealed self.table.shared.key place.me.0.seats result }
    {
        let BookLock { table } = self;
        let mut closed = table.close_with(place);
        let slot = closed.take(0);
        closed.free();
        slot.unwrap()
    }
}
