ghost use Rattle.std.specs.Prelude.{◌≡◌};
ghost use Rattle.rollout.specs.Fault.{number_of, name_of, of_check, of_document, of_logic, of_price, of_rule};
ghost use Rattle.rollout.specs.declared.fault.RolloutFault.TheVariants.{WantOfMemory};

use bucket_core::RuleFault;
use flag_defs::DefFault;
use logic_ast::LogicFault;
use price_core::PriceFault;
use std::alloc::{AllocError, AllocFailed};
use thiserror::Error;
use transport_core::CheckFault;

/// Why a rollout is refused. A request is tested for 1, 2, 3, 4, 9, 11, 5, 6 and 7 in that order, for 11 on a
/// tally alone. No refusal has the number 8.
#[derive(Clone, Copy, Debug, PartialEq, Eq, Error)]
pub enum RolloutFault {
    /// Memory ran out.
    #[error("out of memory")]
    WantOfMemory,
    /// The bytes are no lawful request: `BadRequest`, `SelfPair`, `PriceRange` or `EmptyRange`.
    #[error("the request is refused: {0}")]
    Request(PriceFault),
    /// The document has no flag of this key.
    #[error("no such flag")]
    UnknownFlag,
    /// The flag is broken, has no targeting, or its targeting has no `fractional` operation of this number.
    #[error("no such fractional operation")]
    NoSite,
    /// A bucket of the site is not a literal name and weight.
    #[error("a bucket is computed")]
    Computed,
    /// A name in the request or the rule is none of the flag's variants.
    #[error("a name is none of the variants")]
    UnknownVariant,
    /// The low limits sum above the total of the rule that is planned on, or the high ones below it.
    #[error("the totals cannot sum to the rule's")]
    TotalsSum,
    /// That total is above 1,000,000.
    #[error("the rule's total is too large to be planned on")]
    TotalTooLarge,
    /// The weights of the site sum to 0.
    #[error("the weights sum to 0")]
    NoWeight,
    /// The document with the new rule is too large when it is printed.
    #[error("the document is too large")]
    TooLarge,
    /// A tally is of another page than the request's, or of another total than that of the rule that is planned on.
    #[error("the tally is of another page or total")]
    OtherTally,
}

impl RolloutFault {
    /// The number that a refusal is printed with, from 0 for want of memory.
    pub fn number(&self) -> u32
        ensures { result ≡ number_of self.now }
    {
        match self {
            RolloutFault::WantOfMemory => 0,
            RolloutFault::Request(_) => 1,
            RolloutFault::UnknownFlag => 2,
            RolloutFault::NoSite => 3,
            RolloutFault::Computed => 4,
            RolloutFault::UnknownVariant => 5,
            RolloutFault::TotalsSum => 6,
            RolloutFault::TotalTooLarge => 7,
            RolloutFault::NoWeight => 9,
            RolloutFault::TooLarge => 10,
            RolloutFault::OtherTally => 11,
        }
    }

    /// The name that a refusal is printed with: the variant's.
    pub fn name(&self) -> &'static str
        ensures { result.now ≡ name_of self.now }
    {
        match self {
            RolloutFault::WantOfMemory => "WantOfMemory",
            RolloutFault::Request(_) => "Request",
            RolloutFault::UnknownFlag => "UnknownFlag",
            RolloutFault::NoSite => "NoSite",
            RolloutFault::Computed => "Computed",
            RolloutFault::UnknownVariant => "UnknownVariant",
            RolloutFault::TotalsSum => "TotalsSum",
            RolloutFault::TotalTooLarge => "TotalTooLarge",
            RolloutFault::NoWeight => "NoWeight",
            RolloutFault::TooLarge => "TooLarge",
            RolloutFault::OtherTally => "OtherTally",
        }
    }
}

impl From<AllocError> for RolloutFault {
    ghost from_gives = { λ _ e. e ≡ WantOfMemory };

    fn from(_e: AllocError) -> RolloutFault {
        RolloutFault::WantOfMemory
    }
}

impl<T: Drop> From<AllocFailed<T>> for RolloutFault {
    ghost from_gives = { λ _ e. e ≡ WantOfMemory };

    fn from(_e: AllocFailed<T>) -> RolloutFault {
        RolloutFault::WantOfMemory
    }
}

impl From<PriceFault> for RolloutFault {
    ghost from_gives = { λ f e. e ≡ of_price f };

    fn from(fault: PriceFault) -> RolloutFault {
        match fault {
            PriceFault::WantOfMemory => RolloutFault::WantOfMemory,
            PriceFault::UnknownVariant => RolloutFault::UnknownVariant,
            _ => RolloutFault::Request(fault),
        }
    }
}

impl From<LogicFault> for RolloutFault {
    ghost from_gives = { λ f e. e ≡ of_logic f };

    fn from(fault: LogicFault) -> RolloutFault {
        match fault {
            LogicFault::WantOfMemory => RolloutFault::WantOfMemory,
            LogicFault::Computed => RolloutFault::Computed,
            _ => RolloutFault::NoSite,
        }
    }
}

impl From<RuleFault> for RolloutFault {
    ghost from_gives = { λ f e. e ≡ of_rule f };

    fn from(fault: RuleFault) -> RolloutFault {
        match fault {
            RuleFault::WantOfMemory => RolloutFault::WantOfMemory,
            RuleFault::NoWeight => RolloutFault::NoWeight,
            RuleFault::TooHeavy => RolloutFault::TotalTooLarge,
            RuleFault::BadRule => RolloutFault::Computed,
        }
    }
}

impl From<DefFault> for RolloutFault {
    ghost from_gives = { λ f e. e ≡ of_document f };

    fn from(fault: DefFault) -> RolloutFault {
        match fault {
            DefFault::WantOfMemory => RolloutFault::WantOfMemory,
            _ => RolloutFault::TooLarge,
        }
    }
}

impl From<CheckFault> for RolloutFault {
    ghost from_gives = { λ f e. e ≡ of_check f };

    fn from(fault: CheckFault) -> RolloutFault {
        match fault {
            CheckFault::WantOfMemory => RolloutFault::WantOfMemory,
            _ => RolloutFault::TotalsSum,
        }
    }
}
