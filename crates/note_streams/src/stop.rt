//! Why a stream is not taken to its end.
ghost use Rattle.std.specs.Prelude.{◌≡◌};
ghost use Rattle.note_streams.specs.Stop.{of_fill, record_number, tally_number, tallied_fill};
ghost use Rattle.note_streams.specs.declared.stop.RecordStop.TheVariants as recording;
ghost use Rattle.note_streams.specs.declared.stop.TallyStop.TheVariants as tally;
ghost use Rattle.note_tallies.specs.declared.filter_fault.FilterFault.TheVariants as filter;

use byte_streams::FillFault;
use note_tallies::FilterFault;
use std::alloc::AllocError;
use thiserror::Error;

/// Why contexts are not recorded to the end of their stream, in the order of the numbers, with the number of the line at fault,
/// from 1.
#[derive(Clone, Copy, Debug, PartialEq, Eq, Error)]
pub enum RecordStop {
    /// Memory ran out.
    #[error("out of memory")]
    WantOfMemory,
    /// The line is no JSON object that is a context, or has more than 4,194,304 bytes.
    #[error("line {0} is no context")]
    Line(u64),
    /// A read failed.
    #[error("the standard input cannot be read")]
    Unreadable,
    /// The stream has more than 2^60 bytes.
    #[error("the standard input is too long")]
    TooLong,
    /// A write failed.
    #[error("the output failed")]
    Broken,
}

/// Why note lines are not tallied to the end of their stream.
#[derive(Clone, Copy, Debug, PartialEq, Eq, Error)]
pub enum TallyStop {
    /// A line is refused, or memory ran out.
    #[error("{0}")]
    Filter(FilterFault),
    /// A read failed.
    #[error("the standard input cannot be read")]
    Unreadable,
    /// The stream has more than 2^60 bytes.
    #[error("the standard input is too long")]
    TooLong,
}

impl RecordStop {
    /// The number that a refusal is printed with, from 0 for want of memory; an output that failed has none of its own.
    pub fn number(&self) -> u32
        ensures { result ≡ record_number self.now }
    {
        match self {
            RecordStop::WantOfMemory => 0,
            RecordStop::Line(_) => 1,
            RecordStop::Unreadable => 2,
            RecordStop::TooLong => 3,
            RecordStop::Broken => 4,
        }
    }
}

impl TallyStop {
    /// The number that a refusal is printed with, from 0 for want of memory.
    pub fn number(&self) -> u32
        ensures { result ≡ tally_number self.now }
    {
        match self {
            TallyStop::Filter(fault) => fault.number(),
            TallyStop::Unreadable => 4,
            TallyStop::TooLong => 5,
        }
    }
}

impl From<AllocError> for RecordStop {
    ghost from_gives = { λ _ e. e ≡ recording.WantOfMemory };

    fn from(_e: AllocError) -> RecordStop {
        RecordStop::WantOfMemory
    }
}

impl From<FillFault> for RecordStop {
    ghost from_gives = { λ f e. e ≡ of_fill f };

    fn from(fault: FillFault) -> RecordStop {
        match fault {
            FillFault::WantOfMemory => RecordStop::WantOfMemory,
            FillFault::Read => RecordStop::Unreadable,
        }
    }
}

impl From<AllocError> for TallyStop {
    ghost from_gives = { λ _ e. e ≡ tally.Filter filter.WantOfMemory };

    fn from(_e: AllocError) -> TallyStop {
        TallyStop::Filter(FilterFault::WantOfMemory)
    }
}

impl From<FillFault> for TallyStop {
    ghost from_gives = { λ f e. e ≡ tallied_fill f };

    fn from(fault: FillFault) -> TallyStop {
        match fault {
            FillFault::WantOfMemory => TallyStop::Filter(FilterFault::WantOfMemory),
            FillFault::Read => TallyStop::Unreadable,
        }
    }
}

impl From<FilterFault> for TallyStop {
    ghost from_gives = { λ f e. e ≡ tally.Filter f };

    fn from(fault: FilterFault) -> TallyStop {
        TallyStop::Filter(fault)
    }
}
