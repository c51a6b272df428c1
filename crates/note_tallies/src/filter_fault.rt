ghost use Rattle.std.specs.Prelude.{◌≡◌};
ghost use Rattle.note_tallies.specs.FilterFault.{number_of};
ghost use Rattle.note_tallies.specs.declared.filter_fault.FilterFault.TheVariants.{WantOfMemory};

use std::alloc::AllocError;
use thiserror::Error;

/// Why a stream of note lines is not tallied, in the order of the numbers, with the number of the line at fault, from 1.
#[derive(Clone, Copy, Debug, PartialEq, Eq, Error)]
pub enum FilterFault {
    /// Memory ran out.
    #[error("out of memory")]
    WantOfMemory,
    /// The line is that of no note.
    #[error("line {0} is that of no note")]
    Line(u64),
    /// The line is not above the one before it.
    #[error("line {0} is not above the one before it")]
    Order(u64),
    /// There are 67,108,864 inputs on the input's point, or 8,589,934,592 in all.
    #[error("too many inputs")]
    TooMany,
    /// The line has an input and those before it hashes, or the other way round.
    #[error("line {0} has a hash and those before it inputs, or the other way round")]
    Mixed(u64),
}

impl FilterFault {
    /// The number that a refusal is printed with, from 0 for want of memory. 4 and 5 are those of a stream that is not read to its
    /// end.
    pub fn number(&self) -> u32
        ensures { result ≡ number_of self.now }
    {
        match self {
            FilterFault::WantOfMemory => 0,
            FilterFault::Line(_) => 1,
            FilterFault::Order(_) => 2,
            FilterFault::TooMany => 3,
            FilterFault::Mixed(_) => 6,
        }
    }
}

impl From<AllocError> for FilterFault {
    ghost from_gives = { λ _ e. e ≡ WantOfMemory };

    fn from(_e: AllocError) -> FilterFault {
        FilterFault::WantOfMemory
    }
}
