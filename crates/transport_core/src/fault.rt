ghost use Rattle.std.specs.Prelude.{◌≡◌};
ghost use Rattle.transport_core.specs.Fault.{number_of, name_of};
ghost use Rattle.transport_core.specs.declared.fault.CheckFault.TheVariants.{WantOfMemory};

use std::alloc::{AllocError, AllocFailed};
use thiserror::Error;

/// Why a plan, a cut or an instance is refused.
#[derive(Debug, PartialEq, Eq, Drop, Error)]
pub enum CheckFault {
    #[error("out of memory")]
    WantOfMemory,
    #[error("the rules differ in their totals")]
    Weight,
    #[error("a total is outside its limits")]
    Totals,
    /// The least point whose change is forbidden.
    #[error("the change of point {0} is forbidden")]
    Forbidden(u32),
    /// The variant and the number of inputs of a group, and the name that it may change to for less than the certificate says.
    #[error("the prices of {0} with {1} inputs and of {2} sum above the cost of the change")]
    Slack(String, u32, String),
    #[error("the prices do not sum to the cost")]
    Sum,
    #[error("the rule has another cost")]
    Cost,
    #[error("the set of names is not deficient")]
    NotDeficient,
    #[error("the prices are not those of exactly the groups and names")]
    Groups,
}

impl CheckFault {
    /// The number that a refusal is printed with, from 0 for want of memory.
    pub fn number(&self) -> u32
        ensures { result ≡ number_of self.now }
    {
        match self {
            CheckFault::WantOfMemory => 0,
            CheckFault::Weight => 1,
            CheckFault::Totals => 2,
            CheckFault::Forbidden(_) => 3,
            CheckFault::Slack(_, _, _) => 4,
            CheckFault::Sum => 5,
            CheckFault::Cost => 6,
            CheckFault::NotDeficient => 7,
            CheckFault::Groups => 8,
        }
    }

    /// The name that a refusal is printed with: the variant's.
    pub fn name(&self) -> &'static str
        ensures { result.now ≡ name_of self.now }
    {
        match self {
            CheckFault::WantOfMemory => "WantOfMemory",
            CheckFault::Weight => "Weight",
            CheckFault::Totals => "Totals",
            CheckFault::Forbidden(_) => "Forbidden",
            CheckFault::Slack(_, _, _) => "Slack",
            CheckFault::Sum => "Sum",
            CheckFault::Cost => "Cost",
            CheckFault::NotDeficient => "NotDeficient",
            CheckFault::Groups => "Groups",
        }
    }
}

impl From<AllocError> for CheckFault {
    ghost from_gives = { λ _ e. e ≡ WantOfMemory };

    fn from(_e: AllocError) -> CheckFault {
        CheckFault::WantOfMemory
    }
}

impl<T: Drop> From<AllocFailed<T>> for CheckFault {
    ghost from_gives = { λ _ e. e ≡ WantOfMemory };

    fn from(_e: AllocFailed<T>) -> CheckFault {
        CheckFault::WantOfMemory
    }
}
