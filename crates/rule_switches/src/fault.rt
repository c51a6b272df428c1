//! Why there is nothing to compare.
ghost use Rattle.std.specs.Prelude.{◌≡◌};
ghost use Rattle.rule_switches.specs.Fault.{of_logic, of_rule};
ghost use Rattle.rule_switches.specs.declared.fault.NoRule.TheVariants.{WantOfMemory};
ghost use Rattle.rule_switches.specs.declared.fault.TallyFault.TheVariants.{WantOfMemory as TallyWant};

use bucket_core::RuleFault;
use logic_ast::LogicFault;
use std::alloc::{AllocError, AllocFailed};

/// Why a document has no literal rule at the site of a page. They are tried in this order.
#[derive(Clone, Copy, Debug, PartialEq, Eq)]
pub enum NoRule {
    /// Memory ran out.
    WantOfMemory,
    /// The document has no flag of the page's key.
    NoFlag,
    /// The flag is broken, has no targeting, or its targeting has no `fractional` operation of the page's number.
    NoSite,
    /// The operation has another bucketing expression than the page.
    OtherExpression,
    /// A bucket of the operation is not a literal name and weight.
    Computed,
    /// The weights sum to 0.
    NoWeight,
    /// The weights sum to more than 2147483647.
    TooHeavy,
}

impl From<AllocError> for NoRule {
    ghost from_gives = { λ _ e. e ≡ WantOfMemory };

    fn from(_e: AllocError) -> NoRule {
        NoRule::WantOfMemory
    }
}

impl<T: Drop> From<AllocFailed<T>> for NoRule {
    ghost from_gives = { λ _ e. e ≡ WantOfMemory };

    fn from(_e: AllocFailed<T>) -> NoRule {
        NoRule::WantOfMemory
    }
}

impl From<LogicFault> for NoRule {
    ghost from_gives = { λ f e. e ≡ of_logic f };

    fn from(fault: LogicFault) -> NoRule {
        match fault {
            LogicFault::WantOfMemory => NoRule::WantOfMemory,
            LogicFault::Computed => NoRule::Computed,
            _ => NoRule::NoSite,
        }
    }
}

impl From<RuleFault> for NoRule {
    ghost from_gives = { λ f e. e ≡ of_rule f };

    fn from(fault: RuleFault) -> NoRule {
        match fault {
            RuleFault::WantOfMemory => NoRule::WantOfMemory,
            RuleFault::NoWeight => NoRule::NoWeight,
            RuleFault::TooHeavy => NoRule::TooHeavy,
            RuleFault::BadRule => NoRule::Computed,
        }
    }
}

/// Why a tally is not compared.
#[derive(Clone, Copy, Debug, PartialEq, Eq)]
pub enum TallyFault {
    /// Memory ran out.
    WantOfMemory,
    /// The total of a rule does not divide the number of points of the tally.
    OtherTally,
}

impl From<AllocError> for TallyFault {
    ghost from_gives = { λ _ e. e ≡ TallyWant };

    fn from(_e: AllocError) -> TallyFault {
        TallyFault::WantOfMemory
    }
}
