ghost use Rattle.std.specs.Prelude.{◌≡◌};
ghost use Rattle.logic_ast.specs.declared.fault.LogicFault.TheVariants.{WantOfMemory};
ghost use Rattle.logic_ast.specs.Fault.{number_of, name_of};

use std::alloc::{AllocError, AllocFailed};
use thiserror::Error;

/// Why there is no such expression, or no such site.
#[derive(Clone, Copy, Debug, PartialEq, Eq, Error)]
pub enum LogicFault {
    /// Memory ran out.
    #[error("out of memory")]
    WantOfMemory,
    /// An object of one member whose name is no operator's.
    #[error("unknown operator")]
    UnknownOperator,
    /// An operator that doesn't take so many arguments, or a `fractional` with something else than buckets.
    #[error("an operator with the wrong arguments")]
    BadArguments,
    /// More than 10,000 nodes or 100 levels.
    #[error("the expression is too big")]
    TooBig,
    /// The expression has no site of this number.
    #[error("no such fractional operation")]
    NoSite,
    /// A bucket of the site is not a literal name and weight.
    #[error("a bucket is computed")]
    Computed,
}

impl LogicFault {
    /// The number that a refusal is printed with, from 0 for want of memory.
    pub fn number(&self) -> u32
        ensures { result ≡ number_of self.now }
    {
        match self {
            LogicFault::WantOfMemory => 0,
            LogicFault::UnknownOperator => 1,
            LogicFault::BadArguments => 2,
            LogicFault::TooBig => 3,
            LogicFault::NoSite => 4,
            LogicFault::Computed => 5,
        }
    }

    /// The name that a refusal is printed with: the variant's.
    pub fn name(&self) -> &'static str
        ensures { result.now ≡ name_of self.now }
    {
        match self {
            LogicFault::WantOfMemory => "WantOfMemory",
            LogicFault::UnknownOperator => "UnknownOperator",
            LogicFault::BadArguments => "BadArguments",
            LogicFault::TooBig => "TooBig",
            LogicFault::NoSite => "NoSite",
            LogicFault::Computed => "Computed",
        }
    }
}

impl From<AllocError> for LogicFault {
    ghost from_gives = { λ _ e. e ≡ WantOfMemory };

    fn from(_e: AllocError) -> LogicFault {
        LogicFault::WantOfMemory
    }
}

impl<T: Drop> From<AllocFailed<T>> for LogicFault {
    ghost from_gives = { λ _ e. e ≡ WantOfMemory };

    fn from(_e: AllocFailed<T>) -> LogicFault {
        LogicFault::WantOfMemory
    }
}
