ghost use Rattle.std.specs.Prelude.{◌≡◌};
ghost use Rattle.note_tallies.specs.Fault.{number_of};
ghost use Rattle.note_tallies.specs.declared.file_fault.TallyFileFault.TheVariants.{WantOfMemory};

use std::alloc::AllocError;
use thiserror::Error;

/// Why a file is no tally, in the order of the numbers, with the number of the line at fault, from 1.
#[derive(Clone, Copy, Debug, PartialEq, Eq, Error)]
pub enum TallyFileFault {
    /// Memory ran out.
    #[error("out of memory")]
    WantOfMemory,
    /// The first line is not `{"tally":1}`.
    #[error("the first line is not that of a tally")]
    Header,
    /// The second line is not that of a page with a total from 1 to 1,000,000, a number of inputs, and the lines of its first
    /// and last input.
    #[error("the second line is not that of a page and a total")]
    Page,
    /// A line is not that of a point below the total with inputs.
    #[error("line {0} is not that of a point with inputs")]
    Line(u32),
    /// A point is not above the one before it.
    #[error("the point on line {0} is not above the one before it")]
    Order(u32),
    /// The inputs of the points are not as many as the second line says, or are more than a tally has: 67,108,864 on a
    /// point, 8,589,934,592 in all.
    #[error("the inputs do not add up, or are too many")]
    Inputs,
}

impl TallyFileFault {
    /// The number that a refusal is printed with, from 0 for want of memory.
    pub fn number(&self) -> u32
        ensures { result ≡ number_of self.now }
    {
        match self {
            TallyFileFault::WantOfMemory => 0,
            TallyFileFault::Header => 1,
            TallyFileFault::Page => 2,
            TallyFileFault::Line(_) => 3,
            TallyFileFault::Order(_) => 4,
            TallyFileFault::Inputs => 5,
        }
    }
}

impl From<AllocError> for TallyFileFault {
    ghost from_gives = { λ _ e. e ≡ WantOfMemory };

    fn from(_e: AllocError) -> TallyFileFault {
        TallyFileFault::WantOfMemory
    }
}
