//! Why there is no answer.
ghost use Rattle.std.specs.Prelude.{◌≡◌};
ghost use Rattle.library_seat.specs.Refusal.{number_of, of_context, of_default, of_document, of_frame};
ghost use Rattle.library_seat.specs.declared.refusal.Refusal.TheVariants as variant;

use flag_defs::DefFault;
use flag_text::TextFault;
use std::alloc::{AllocError, AllocFailed};
use sync_frames::FrameFault;

/// Why there is no answer.
#[derive(Clone, Copy, Debug, PartialEq, Eq)]
pub enum Refusal {
    /// Memory ran out.
    WantOfMemory,
    /// There is no seat.
    Empty,
    /// The answer needs more room.
    Room,
    /// The key is no text in UTF-8.
    Key,
    /// No kind of value has the number.
    Kind,
    /// The moment is above 2^53-1.
    Moment,
    /// No context was read.
    NoContext,
    /// The document is refused.
    Document(DefFault),
    /// The default is no JSON text of whole numbers.
    Default(TextFault),
    /// The context is none.
    Context(TextFault),
    /// The stream has a fault.
    Frame(FrameFault),
}

impl Refusal {
    /// The number of the refusal, from 1 for want of memory.
    pub fn number(&self) -> u32
        ensures { result ≡ number_of self.now }
    {
        match self {
            Refusal::WantOfMemory => 1,
            Refusal::Empty => 2,
            Refusal::Room => 3,
            Refusal::Key => 4,
            Refusal::Kind => 5,
            Refusal::Moment => 6,
            Refusal::NoContext => 8,
            Refusal::Document(fault) => 10 + fault.number(),
            Refusal::Default(fault) => 20 + fault.number(),
            Refusal::Context(fault) => 30 + fault.number(),
            Refusal::Frame(fault) => 40 + fault.number(),
        }
    }

    /// The refusal of a document with this fault.
    pub(crate) fn of_document(fault: DefFault) -> Refusal
        ensures { result ≡ of_document fault }
    {
        match fault {
            DefFault::WantOfMemory => Refusal::WantOfMemory,
            fault => Refusal::Document(fault),
        }
    }

    /// The refusal of a default with this fault.
    pub(crate) fn of_default(fault: TextFault) -> Refusal
        ensures { result ≡ of_default fault }
    {
        match fault {
            TextFault::WantOfMemory => Refusal::WantOfMemory,
            fault => Refusal::Default(fault),
        }
    }

    /// The refusal of a context with this fault.
    pub(crate) fn of_context(fault: TextFault) -> Refusal
        ensures { result ≡ of_context fault }
    {
        match fault {
            TextFault::WantOfMemory => Refusal::WantOfMemory,
            fault => Refusal::Context(fault),
        }
    }

    /// The refusal of a piece of a stream with this fault.
    pub(crate) fn of_frame(fault: FrameFault) -> Refusal
        ensures { result ≡ of_frame fault }
    {
        match fault {
            FrameFault::WantOfMemory => Refusal::WantOfMemory,
            fault => Refusal::Frame(fault),
        }
    }
}

impl From<AllocError> for Refusal {
    ghost from_gives = { λ _ e. e ≡ variant.WantOfMemory };

    fn from(_e: AllocError) -> Refusal {
        Refusal::WantOfMemory
    }
}

impl<T: Drop> From<AllocFailed<T>> for Refusal {
    ghost from_gives = { λ _ e. e ≡ variant.WantOfMemory };

    fn from(_e: AllocFailed<T>) -> Refusal {
        Refusal::WantOfMemory
    }
}
