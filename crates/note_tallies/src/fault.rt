//! Why a line is not tallied.
ghost use Rattle.std.specs.Prelude.{◌≡◌};
ghost use Rattle.note_tallies.specs.declared.fault.LineTallyFault.TheVariants.{WantOfMemory};

use std::alloc::AllocError;
use thiserror::Error;

/// Why a line is not tallied.
#[derive(Clone, Copy, Debug, PartialEq, Eq, Error)]
pub enum LineTallyFault {
    /// Memory ran out.
    #[error("out of memory")]
    WantOfMemory,
    /// The line is that of no note.
    #[error("the line is that of no note")]
    Line,
    /// The line is not above the one before it.
    #[error("the line is not above the one before it")]
    Order,
    /// There are 67,108,864 inputs on the input's point, or 8,589,934,592 in all.
    #[error("too many inputs")]
    TooMany,
    /// The line has an input and the one before it a hash, or the other way round.
    #[error("the line has a hash and the one before it an input, or the other way round")]
    Mixed,
}

impl From<AllocError> for LineTallyFault {
    ghost from_gives = { λ _ e. e ≡ WantOfMemory };

    fn from(_e: AllocError) -> LineTallyFault {
        LineTallyFault::WantOfMemory
    }
}
