ghost use Rattle.std.specs.Prelude.{◌≡◌};
ghost use Rattle.ramp.specs.Fault.{number_of, name_of, of_text};
ghost use Rattle.ramp.specs.declared.file_fault.StepsFault.TheVariants as steps;
ghost use Rattle.ramp.specs.declared.file_fault.RampFileFault.TheVariants as file;

use flag_text::TextFault;
use price_core::PriceFault;
use std::alloc::{AllocError, AllocFailed};
use thiserror::Error;

/// Why steps are refused: `Shape` first, and then the first step that is no request.
#[derive(Clone, Copy, Debug, PartialEq, Eq, Error)]
pub enum StepsFault {
    /// Out of memory; may occur at any point.
    #[error("out of memory")]
    WantOfMemory,
    /// The bytes are no JSON tree of whole numbers, `steps` is no list of 1 to 100 items, or there is a member `totals`.
    #[error("not steps")]
    Shape,
    /// The step of this number, from 1, is no request.
    #[error("step {0}: {1}")]
    Step(u32, PriceFault),
}

impl From<AllocError> for StepsFault {
    ghost from_gives = { λ _ e. e ≡ steps.WantOfMemory };

    fn from(_e: AllocError) -> StepsFault {
        StepsFault::WantOfMemory
    }
}

impl<T: Drop> From<AllocFailed<T>> for StepsFault {
    ghost from_gives = { λ _ e. e ≡ steps.WantOfMemory };

    fn from(_e: AllocFailed<T>) -> StepsFault {
        StepsFault::WantOfMemory
    }
}

impl From<TextFault> for StepsFault {
    ghost from_gives = { λ f e. e ≡ of_text f };

    fn from(fault: TextFault) -> StepsFault {
        match fault {
            TextFault::WantOfMemory => StepsFault::WantOfMemory,
            _ => StepsFault::Shape,
        }
    }
}

/// Why a file is refused as the answers to steps: `TooLarge` first, and then the first line at fault.
#[derive(Clone, Copy, Debug, PartialEq, Eq, Error)]
pub enum RampFileFault {
    /// Out of memory; may occur at any point.
    #[error("out of memory")]
    WantOfMemory,
    /// The line of this number, from 1, is no answer to the step of this number, or has no line feed.
    #[error("line {0} is no step")]
    Line(u64),
    /// More than 67108864 bytes.
    #[error("too large")]
    TooLarge,
}

impl RampFileFault {
    /// The number that a refusal is printed with, from 0 for want of memory.
    pub fn number(&self) -> u32
        ensures { result ≡ number_of self.now }
    {
        match self {
            RampFileFault::WantOfMemory => 0,
            RampFileFault::Line(_) => 1,
            RampFileFault::TooLarge => 2,
        }
    }

    /// The name that a refusal is printed with: the variant's.
    pub fn name(&self) -> &'static str
        ensures { result.now ≡ name_of self.now }
    {
        match self {
            RampFileFault::WantOfMemory => "WantOfMemory",
            RampFileFault::Line(_) => "Line",
            RampFileFault::TooLarge => "TooLarge",
        }
    }
}

impl From<AllocError> for RampFileFault {
    ghost from_gives = { λ _ e. e ≡ file.WantOfMemory };

    fn from(_e: AllocError) -> RampFileFault {
        RampFileFault::WantOfMemory
    }
}

impl<T: Drop> From<AllocFailed<T>> for RampFileFault {
    ghost from_gives = { λ _ e. e ≡ file.WantOfMemory };

    fn from(_e: AllocFailed<T>) -> RampFileFault {
        RampFileFault::WantOfMemory
    }
}
