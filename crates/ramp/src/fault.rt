ghost use Rattle.std.specs.Prelude.{◌≡◌};
ghost use Rattle.rollout.specs.declared.fault.RolloutFault.TheVariants.{WantOfMemory};

use rollout::{RolloutFault, VerifyFault};
use std::alloc::{AllocError, AllocFailed};

/// Why a step is refused: as `rollout::plan` refuses its request on the flags that it stands on, or as `rollout::apply`
/// refuses to put the rule of the step before into them.
#[derive(Clone, Copy, Debug, PartialEq, Eq)]
pub struct StepFault {
    /// The number of the step, from 1; 0 where memory ran out beside the steps.
    pub step: u32,
    pub fault: RolloutFault,
}

impl From<AllocError> for StepFault {
    ghost from_gives = { λ _ e. e.fault ≡ WantOfMemory };

    fn from(_e: AllocError) -> StepFault {
        StepFault {
            step: 0,
            fault: RolloutFault::WantOfMemory,
        }
    }
}

impl<T: Drop> From<AllocFailed<T>> for StepFault {
    ghost from_gives = { λ _ e. e.fault ≡ WantOfMemory };

    fn from(_e: AllocFailed<T>) -> StepFault {
        StepFault {
            step: 0,
            fault: RolloutFault::WantOfMemory,
        }
    }
}

/// Why the answers to steps are refused.
#[derive(Debug, Drop)]
pub enum RampFault {
    /// The answer to the step of this number, from 1, is not right, or its request is refused.
    Step(u32, VerifyFault),
    /// All answers that are there are right, but there are fewer or more than steps.
    Lines,
}
