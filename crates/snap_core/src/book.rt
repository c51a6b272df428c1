//! The events of the book.
ghost use Rattle.std.specs.Prelude.{◌≡◌, ◌≢◌, IfOk, OnErr};
ghost use Rattle.book_core.specs.declared.fault.BookFault.TheVariants.{WantOfMemory as BookWantOfMemory};
ghost use Rattle.snap_core.specs.Agreement.{Steps};
ghost use Rattle.snap_core.specs.Event.{answer_view, notes, refused, seals};
ghost use Rattle.snap_core.specs.WorldView.{world_view};
ghost use Rattle.snap_core.specs.declared.event.Refusal.TheVariants.{Book};

use crate::event::{Answer, Refusal};
use crate::world::World;
use book_core::{BookFault, Page};
use std::alloc::{AllocError, Global};

pub(crate) fn note(
    alloc: Global,
    world: &mut World,
    seat: u32,
    page: &Page,
    input: &str,
) -> Result<Answer, AllocError>
    ensures steps { IfOk result (λ a. Steps (world_view world.old) (notes seat page.now input.now) (answer_view a) (world_view world.new)) }
    ensures kept { OnErr result (world_view world.new ≡ world_view world.old) }
{
    if world.is_sealed {
        return Ok(Answer::Refused(Refusal::AlreadySealed));
    }
    if seat >= world.seats {
        return Ok(Answer::Refused(Refusal::Book(BookFault::Stranger)));
    }
    match world.book.note(alloc, page, input) {
        Ok(noted) => Ok(Answer::Noted(noted)),
        Err(fault) => refused_by_book(fault),
    }
}

pub(crate) fn seal(world: &mut World) -> Answer
    ensures { Steps (world_view world.old) seals (answer_view result) (world_view world.new) }
{
    if world.is_sealed {
        return Answer::Refused(Refusal::AlreadySealed);
    }
    world.is_sealed = true;
    Answer::Sealed(world.book.inputs())
}

/// The answer to a refusal of the book; its want of memory is passed on.
fn refused_by_book(fault: BookFault) -> Result<Answer, AllocError>
    ensures answer { IfOk result (λ a. answer_view a ≡ refused (Book fault)) }
    ensures not_want { IfOk result (λ a. fault ≢ BookWantOfMemory) }
{
    match fault {
        BookFault::WantOfMemory => Err(AllocError),
        fault => Ok(Answer::Refused(Refusal::Book(fault))),
    }
}
