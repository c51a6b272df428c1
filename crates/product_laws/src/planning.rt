//! The end of a shared book, and a plan on what was recorded.
ghost use Rattle.std.specs.Prelude.{◌≡◌, ◌≢◌, ◌<◌, ◌≤◌, ⊤, false, length, vec_len, Err, IfErr, IfOk, IsErrAnd, MatchResult};
ghost use Rattle.std.specs.Str.{is_utf8};
ghost use Rattle.book_core.specs.Book.{IsBook};
ghost use Rattle.book_lock.specs.Sealed.{IsSealed};
ghost use Rattle.book_lock.specs.Told.{IsTold};
ghost use Rattle.flag_defs.specs.Flags.{flags_view};
ghost use Rattle.plan_text.specs.Answer.{IsOrdered, planned_view};
ghost use Rattle.plan_text.specs.PlanFile.{IsWhole};
ghost use Rattle.price_core.specs.Request.{max_request};
ghost use Rattle.price_core.specs.declared.fault.PriceFault.TheVariants.{BadRequest};
ghost use Rattle.rollout.specs.Planned.{PrintsOrRefuses};
ghost use Rattle.rollout.specs.Plan.{IsPlanned};
ghost use Rattle.rollout.specs.Refined.{problem_refined};
ghost use Rattle.product_laws.specs.Recorded.{HoldsOf, IsPlannedOn, IsRefusedBy, told_to};

use book_core::Book;
use book_lock::{BookName, SealFault, SealRefused, Seat, SharedBook, seal};
use flag_defs::Flags;
use plan_text::Planned;
use rollout::{RolloutFault, plan};
use std::alloc::Global;
use std::thread::Threads;

/// Why nothing was planned on a shared book.
#[derive(Drop)]
pub enum PlanRefused<L: BookName> {
    /// A seat was missing: the book was not sealed, and it and its seats are handed back.
    Seal(SealRefused<L>),
    /// The request was refused, or memory ran out; the sealed book is handed back.
    Plan(RolloutFault, Book),
}

/// Ends a shared book with all its seats, and plans on it: the answer of `rollout::plan` over what the seats were told.
///
/// It is refused as `book_lock::seal`, where a seat is missing: then the book and the seats are handed back as they were, and
/// else the book is sealed. Then it is refused as `rollout::plan` on the sealed book, which is handed back: it is just what the
/// seats were told, as `seal` gives it. A request above its limit or that is not UTF-8 is refused before memory is taken.
pub fn plan_sealed<L: BookName, R: Threads + Sync>(
    rt: &R,
    alloc: Global,
    flags: &Flags,
    request: &[u8],
    book: SharedBook<L>,
    seats: Vec<Seat<L>>,
) -> Result<Planned, PlanRefused<L>>
    ensures holds { IfOk result (λ planned. HoldsOf (told_to seats.items) 1 (flags_view flags.now) request.now (planned_view planned)) }
    ensures exact { IfOk result (IsPlannedOn L.seats seats.items (flags_view flags.now) request.now) }
    ensures ordered { IfOk result (λ planned. IsOrdered (planned_view planned)) }
    ensures whole { IfOk result (λ planned. IsWhole (planned_view planned)) }
    ensures missing { MatchResult result (λ _. vec_len seats ≡ L.seats)
        (IsRefusedBy (λ refused. (refused.fault ≡ SealFault.SeatMissing) × (vec_len seats ≢ L.seats)) (λ _ _. vec_len seats ≡ L.seats)) }
    ensures back { IfErr result (IsRefusedBy (λ refused. (refused.book ≡ book) × (refused.seats ≡ seats)) (λ _ sealed. IsSealed L.seats seats.items sealed × IsTold seats.items sealed)) }
    ensures refused { IfErr result (IsRefusedBy (λ _. ⊤) (λ fault sealed. IsPlanned (problem_refined 1 (flags_view flags.now) request.now sealed) (Err fault))) }
    ensures large { vec_len seats ≡ L.seats → max_request < length request.now → IsErrAnd result (IsRefusedBy (λ _. ⊥) (λ fault _. fault ≡ RolloutFault.Request BadRequest)) }
    ensures no_text { vec_len seats ≡ L.seats → length request.now ≤ max_request → is_utf8 request.now ≡ false → IsErrAnd result (IsRefusedBy (λ _. ⊥) (λ fault _. fault ≡ RolloutFault.Request BadRequest)) }
{
    let book = match seal(book, seats) {
        Ok(book) => book,
        Err(refused) => return Err(PlanRefused::Seal(refused)),
    };
    match plan_over(rt, alloc, flags, request, &book) {
        Ok(planned) => Ok(planned),
        Err(fault) => Err(PlanRefused::Plan(fault, book)),
    }
}

fn plan_over(
    rt: &(impl Threads + Sync),
    alloc: Global,
    flags: &Flags,
    request: &[u8],
    book: &Book,
) -> Result<Planned, RolloutFault>
    ensures exact { IsPlanned (problem_refined 1 (flags_view flags.now) request.now book.now) result }
    ensures answer { PrintsOrRefuses request.now result }
    ensures lawful { IsBook book.now }
{
    // Called for what its contract says: what a book holds is lawful.
    let _inputs = book.inputs();
    plan(rt, alloc, flags, request, book)
}
