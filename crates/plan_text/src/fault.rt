ghost use Rattle.std.specs.Prelude.{◌≡◌};
ghost use Rattle.plan_text.specs.Fault.{number_of, name_of, of_text};
ghost use Rattle.plan_text.specs.declared.fault.PlanFileFault.TheVariants.{WantOfMemory};

use flag_text::TextFault;
use std::alloc::{AllocError, AllocFailed};
use thiserror::Error;

/// Why bytes are no plan file, or an answer is not written as one.
#[derive(Clone, Copy, Debug, PartialEq, Eq, Error)]
pub enum PlanFileFault {
    /// Memory ran out.
    #[error("out of memory")]
    WantOfMemory,
    /// The bytes are no JSON text of the shape of a plan file.
    #[error("not a plan")]
    BadPlan,
    /// The file has more than 67108864 bytes. It comes first.
    #[error("the plan file is too large")]
    TooLarge,
}

impl PlanFileFault {
    /// The number that a refusal is printed with, from 0 for want of memory.
    pub fn number(&self) -> u32
        ensures { result ≡ number_of self.now }
    {
        match self {
            PlanFileFault::WantOfMemory => 0,
            PlanFileFault::BadPlan => 1,
            PlanFileFault::TooLarge => 2,
        }
    }

    /// The name that a refusal is printed with: the variant's.
    pub fn name(&self) -> &'static str
        ensures { result.now ≡ name_of self.now }
    {
        match self {
            PlanFileFault::WantOfMemory => "WantOfMemory",
            PlanFileFault::BadPlan => "BadPlan",
            PlanFileFault::TooLarge => "TooLarge",
        }
    }
}

impl From<AllocError> for PlanFileFault {
    ghost from_gives = { λ _ e. e ≡ WantOfMemory };

    fn from(_e: AllocError) -> PlanFileFault {
        PlanFileFault::WantOfMemory
    }
}

impl<T: Drop> From<AllocFailed<T>> for PlanFileFault {
    ghost from_gives = { λ _ e. e ≡ WantOfMemory };

    fn from(_e: AllocFailed<T>) -> PlanFileFault {
        PlanFileFault::WantOfMemory
    }
}

impl From<TextFault> for PlanFileFault {
    ghost from_gives = { λ f e. e ≡ of_text f };

    fn from(fault: TextFault) -> PlanFileFault {
        match fault {
            TextFault::WantOfMemory => PlanFileFault::WantOfMemory,
            TextFault::TooLarge => PlanFileFault::TooLarge,
            _ => PlanFileFault::BadPlan,
        }
    }
}
