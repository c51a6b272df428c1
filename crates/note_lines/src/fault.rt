//! Why the notes of a file are not taken.
ghost use Rattle.std.specs.Prelude.{◌≡◌};
ghost use Rattle.note_lines.specs.Fault.{of_note};
ghost use Rattle.note_lines.specs.declared.fault.NotesFault.TheVariants.{WantOfMemory};

use book_core::BookFault;
use std::alloc::AllocError;
use thiserror::Error;

/// Why the notes of a file are not taken, of the first line that is refused.
#[derive(Clone, Copy, Debug, PartialEq, Eq, Error)]
pub enum NotesFault {
    /// Memory ran out.
    #[error("out of memory")]
    WantOfMemory,
    /// The line of this number, from 1, is that of no note.
    #[error("line {0} is that of no note")]
    Line(u64),
    /// The page has 1000000 inputs, and that of the line is not among them.
    #[error("the page has 1000000 inputs")]
    PageFull,
}

impl From<AllocError> for NotesFault {
    ghost from_gives = { λ _ e. e ≡ WantOfMemory };

    fn from(_e: AllocError) -> NotesFault {
        NotesFault::WantOfMemory
    }
}

/// Why a book does not take a note, whose input is not too long.
pub(crate) fn of_note(fault: BookFault) -> NotesFault
    ensures { result ≡ of_note fault }
{
    match fault {
        BookFault::WantOfMemory => NotesFault::WantOfMemory,
        _ => NotesFault::PageFull,
    }
}
