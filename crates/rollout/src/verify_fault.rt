ghost use Rattle.std.specs.Prelude.{◌≡◌};
ghost use Rattle.rollout.specs.Fault.{of_price};
ghost use Rattle.rollout.specs.VerifyFault.{number_of, name_of};
ghost use Rattle.rollout.specs.declared.verify_fault.VerifyFault.TheVariants.{Request, Check};

use crate::fault::RolloutFault;
use price_core::PriceFault;
use thiserror::Error;
use transport_core::CheckFault;

/// Why an answer is refused. It is printed as the fault that it carries.
#[derive(Debug, PartialEq, Eq, Drop, Error)]
pub enum VerifyFault {
    /// The request is not lawful.
    #[error("{0}")]
    Request(RolloutFault),
    /// The answer is not right.
    #[error("{0}")]
    Check(CheckFault),
}

impl VerifyFault {
    /// The number of the fault that it carries, from 0 for want of memory.
    pub fn number(&self) -> u32
        ensures { result ≡ number_of self.now }
    {
        match self {
            VerifyFault::Request(fault) => fault.number(),
            VerifyFault::Check(fault) => fault.number(),
        }
    }

    /// The name of the fault that it carries.
    pub fn name(&self) -> &'static str
        ensures { result.now ≡ name_of self.now }
    {
        match self {
            VerifyFault::Request(fault) => fault.name(),
            VerifyFault::Check(fault) => fault.name(),
        }
    }
}

impl From<RolloutFault> for VerifyFault {
    ghost from_gives = { λ f e. e ≡ Request f };

    fn from(fault: RolloutFault) -> VerifyFault {
        VerifyFault::Request(fault)
    }
}

impl From<PriceFault> for VerifyFault {
    ghost from_gives = { λ f e. e ≡ Request (of_price f) };

    fn from(fault: PriceFault) -> VerifyFault {
        VerifyFault::Request(RolloutFault::from(fault))
    }
}

impl From<CheckFault> for VerifyFault {
    ghost from_gives = { λ f e. e ≡ Check f };

    fn from(fault: CheckFault) -> VerifyFault {
        VerifyFault::Check(fault)
    }
}
