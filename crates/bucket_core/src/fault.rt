ghost use Rattle.std.specs.Prelude.{◌≡◌};
ghost use Rattle.bucket_core.specs.declared.fault.RuleFault.TheVariants.{WantOfMemory};
ghost use Rattle.bucket_core.specs.Fault.{number_of, name_of};

use std::alloc::{AllocError, AllocFailed};
use thiserror::Error;

/// Why there is no such rule.
#[derive(Clone, Copy, Debug, PartialEq, Eq, Error)]
pub enum RuleFault {
    /// Memory ran out.
    #[error("out of memory")]
    WantOfMemory,
    /// The weights sum to 0.
    #[error("the weights sum to 0")]
    NoWeight,
    /// The weights sum to more than 2^31-1.
    #[error("the weights sum to more than 2147483647")]
    TooHeavy,
    /// The tree is no list of literal buckets. It comes before the two on weights.
    #[error("not a list of buckets")]
    BadRule,
}

impl RuleFault {
    /// The number that a refusal is printed with, from 0 for want of memory.
    pub fn number(&self) -> u32
        ensures { result ≡ number_of self.now }
    {
        match self {
            RuleFault::WantOfMemory => 0,
            RuleFault::NoWeight => 1,
            RuleFault::TooHeavy => 2,
            RuleFault::BadRule => 3,
        }
    }

    /// The name that a refusal is printed with: the variant's.
    pub fn name(&self) -> &'static str
        ensures { result.now ≡ name_of self.now }
    {
        match self {
            RuleFault::WantOfMemory => "WantOfMemory",
            RuleFault::NoWeight => "NoWeight",
            RuleFault::TooHeavy => "TooHeavy",
            RuleFault::BadRule => "BadRule",
        }
    }
}

impl From<AllocError> for RuleFault {
    ghost from_gives = { λ _ e. e ≡ WantOfMemory };

    fn from(_e: AllocError) -> RuleFault {
        RuleFault::WantOfMemory
    }
}

impl<T: Drop> From<AllocFailed<T>> for RuleFault {
    ghost from_gives = { λ _ e. e ≡ WantOfMemory };

    fn from(_e: AllocFailed<T>) -> RuleFault {
        RuleFault::WantOfMemory
    }
}
