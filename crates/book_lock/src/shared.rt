//! A book that threads share.
ghost use Rattle.std.specs.Prelude.{◌≡◌, ◌≢◌, ◌↔◌, ◌⊎◌, ◌<◌, ◌≤◌, ◌-◌, ◌^◌, [], length, Ok, Err, IfOk, IsOk, IfErr, OnErr};
ghost use Rattle.book_core.specs.Book.{most_bytes, inputs_on};
ghost use Rattle.book_core.specs.Calls.{book_of_calls, reply_after};
ghost use Rattle.book_lock.specs.Counts.{own};
ghost use Rattle.book_lock.specs.Notes.{Adds, Answers, Looks, accepted};
ghost use Rattle.book_lock.specs.Told.{HoldsTold};

use crate::fault::SealFault;
use crate::lock::BookLock;
use crate::name::BookName;
use crate::seat::{Seat, news_in};
use book_core::{BookFault, Exposure, Noted, Page};
use limits::INPUT_BYTES;
use std::alloc::{AllocError, Global};
use std::marker::PhantomData;
use std::sync::Wait;

/// A book that threads share. Each thread notes through a seat of its own.
#[derive(Drop)]
pub struct SharedBook<L: BookName> {
    pub(crate) lock: BookLock,
    pub(crate) seats: usize,
    pub(crate) of: PhantomData<L>,
    pub(crate) ghost named: { lock.table.shared.table_id ≡ L.table },
    pub(crate) ghost counted: { (lock.table.shared.key ≡ L.seats) × (seats ≡ L.seats) × (0 < seats) },
}

impl<L: BookName> SharedBook<L> {
    /// Notes an input on a page, in any thread: New where it did not stand there, else Again. It is refused with
    /// InputTooLong above 1024 bytes, then with LastCall where the seat has made as many calls as it can count; both leave
    /// the seat as it was. Then it is refused with PageFull where the page has 1000000 others. The seat has then seen all
    /// calls that were accepted before its own, and the answer is the one that comes after them. Where another seat is at
    /// the book it tries again, and lets other threads run between two tries.
    pub fn note<R: Wait>(
        &self,
        rt: &R,
        alloc: Global,
        seat: &mut Seat<L>,
        page: &Page,
        input: &str,
    ) -> Result<Noted, BookFault>
        ensures long { (result ≡ Err BookFault.InputTooLong) ↔ (most_bytes < length input.now) }
        ensures last { (result ≡ Err BookFault.LastCall) ↔ ((length input.now ≤ most_bytes) × (length (own seat.old) ≡ 2 ^ 64 - 1)) }
        ensures seated { result ≢ Err BookFault.Stranger }
        ensures added { IfOk result (λ noted. Adds (accepted seat.old.number page.now input.now noted) seat.old seat.new) }
        ensures refused { OnErr result ((seat.new.number ≡ seat.old.number) × (own seat.new ≡ own seat.old)) }
        ensures kept { (result ≡ Err BookFault.InputTooLong) ⊎ (result ≡ Err BookFault.LastCall) → seat.new ≡ seat.old }
        ensures full { result ≡ Err BookFault.PageFull → Looks seat.old seat.new × (reply_after seat.new.seen page.now input.now ≡ Err BookFault.PageFull) }
        ensures wanted { result ≡ Err BookFault.WantOfMemory → Looks seat.old seat.new × (reply_after seat.new.seen page.now input.now ≡ Ok Noted.New) }
    {
        if input.len() > INPUT_BYTES {
            return Err(BookFault::InputTooLong);
        }
        if seat.calls == u64::MAX {
            return Err(BookFault::LastCall);
        }
        self.noted(rt, alloc, seat, page, input)
    }

    #[tactic(auto, using(crate::proofs::Told::faults, crate::proofs::Told::counts))]
    /// Notes an input that is not too long, by a seat that can count the call.
    fn noted<R: Wait>(
        &self,
        rt: &R,
        alloc: Global,
        seat: &mut Seat<L>,
        page: &Page,
        input: &str,
    ) -> Result<Noted, BookFault>
        requires short { length input.now ≤ most_bytes }
        requires room { length (own seat.old) < 2 ^ 64 - 1 }
        ensures answer { Answers seat.old.number page.now input.now result seat.old seat.new }
        ensures fault { IfErr result (λ e. (e ≡ BookFault.WantOfMemory) ⊎ (e ≡ BookFault.PageFull)) }
    {
        let reply = self
            .lock
            .note(rt, alloc, &mut seat.place, seat.number, page, input);
        if let Ok(noted) = reply {
            seat.calls += 1;
            seat.news += news_in(noted);
        }
        reply
    }

    /// The inputs on a page, in strictly rising order of their bytes, after all calls that the seat has then seen; the
    /// book goes on. So each input that the seat was told of on the page is among them. It fails only where memory runs out.
    pub fn freeze<R: Wait>(
        &self,
        rt: &R,
        alloc: Global,
        seat: &mut Seat<L>,
        page: &Page,
    ) -> Result<Exposure, SealFault>
        ensures looks { Looks seat.old seat.new }
        ensures inputs { IfOk result (λ inputs. inputs ≡ inputs_on (book_of_calls [] seat.new.seen) page.now) }
        ensures empty { inputs_on (book_of_calls [] seat.new.seen) page.now ≡ [] → IsOk result }
        ensures holds { IfOk result (λ inputs. HoldsTold page.now inputs (own seat.new)) }
        ensures wanted { IfErr result (λ e. e ≡ SealFault.WantOfMemory) }
    {
        Ok(self.frozen(rt, alloc, seat, page)?)
    }

    /// The same, where want of memory has no name of its own yet.
    fn frozen<R: Wait>(
        &self,
        rt: &R,
        alloc: Global,
        seat: &mut Seat<L>,
        page: &Page,
    ) -> Result<Exposure, AllocError>
        ensures looks { Looks seat.old seat.new }
        ensures inputs { IfOk result (λ inputs. inputs ≡ inputs_on (book_of_calls [] seat.new.seen) page.now) }
        ensures empty { inputs_on (book_of_calls [] seat.new.seen) page.now ≡ [] → IsOk result }
        ensures holds { IfOk result (λ inputs. HoldsTold page.now inputs (own seat.new)) }
    {
        self.lock
            .exposure(rt, alloc, &mut seat.place, seat.number, page)
    }
}
