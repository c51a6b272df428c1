//! Why a rollout is refused.
ghost use Rattle.std.specs.Prelude.{◌≡◌};
ghost use Rattle.library_rollouts.specs.Refusal.{keep_number, number_of, of_check, of_document, of_keep, of_notes, of_plan, of_price, of_rollout, of_tally, of_verdict};
ghost use Rattle.library_rollouts.specs.declared.refusal.RolloutRefusal.TheVariants as variant;

use flag_defs::DefFault;
use kept_document::KeepFault;
use note_tallies::{FilterFault, TallyFileFault};
use plan_text::PlanFileFault;
use price_core::PriceFault;
use rollout::{RolloutFault, VerifyFault};
use std::alloc::{AllocError, AllocFailed};
use transport_core::CheckFault;

/// Why a rollout is refused.
#[derive(Debug, PartialEq, Eq, Drop)]
pub enum RolloutRefusal {
    /// Memory ran out.
    WantOfMemory,
    /// The text needs more room.
    Room,
    /// The plan has no rule, since none fits the request.
    NoRule,
    /// The document is refused.
    Document(DefFault),
    /// The request is refused, or what it asks of the document and the tally.
    Rollout(RolloutFault),
    /// A note line is refused.
    Notes(FilterFault),
    /// The tally is refused.
    Tally(TallyFileFault),
    /// The plan is no plan file, or is too large for one.
    Plan(PlanFileFault),
    /// The plan is not right.
    Check(CheckFault),
    /// The document does not take the rule.
    Keep(KeepFault),
}

impl RolloutRefusal {
    /// The number of the refusal, from 1 for want of memory. No refusal of a seat has another one's number.
    pub fn number(&self) -> u32
        ensures { result ≡ number_of self.now }
    {
        match self {
            RolloutRefusal::WantOfMemory => 1,
            RolloutRefusal::Room => 3,
            RolloutRefusal::NoRule => 9,
            RolloutRefusal::Document(fault) => 10 + fault.number(),
            RolloutRefusal::Rollout(fault) => 50 + fault.number(),
            RolloutRefusal::Notes(fault) => 70 + fault.number(),
            RolloutRefusal::Tally(fault) => 80 + fault.number(),
            RolloutRefusal::Plan(fault) => 90 + fault.number(),
            RolloutRefusal::Check(fault) => 100 + fault.number(),
            RolloutRefusal::Keep(fault) => 110 + keep_number(*fault),
        }
    }
}

/// The number of a document that does not take a rule.
fn keep_number(fault: KeepFault) -> u32
    ensures { result ≡ keep_number fault }
{
    match fault {
        KeepFault::WantOfMemory => 0,
        KeepFault::Shared => 1,
        KeepFault::TooLong => 2,
        KeepFault::Differs => 3,
    }
}

impl From<AllocError> for RolloutRefusal {
    ghost from_gives = { λ _ e. e ≡ variant.WantOfMemory };

    fn from(_e: AllocError) -> RolloutRefusal {
        RolloutRefusal::WantOfMemory
    }
}

impl<T: Drop> From<AllocFailed<T>> for RolloutRefusal {
    ghost from_gives = { λ _ e. e ≡ variant.WantOfMemory };

    fn from(_e: AllocFailed<T>) -> RolloutRefusal {
        RolloutRefusal::WantOfMemory
    }
}

impl From<DefFault> for RolloutRefusal {
    ghost from_gives = { λ f e. e ≡ of_document f };

    fn from(fault: DefFault) -> RolloutRefusal {
        match fault {
            DefFault::WantOfMemory => RolloutRefusal::WantOfMemory,
            fault => RolloutRefusal::Document(fault),
        }
    }
}

impl From<RolloutFault> for RolloutRefusal {
    ghost from_gives = { λ f e. e ≡ of_rollout f };

    fn from(fault: RolloutFault) -> RolloutRefusal {
        match fault {
            RolloutFault::WantOfMemory => RolloutRefusal::WantOfMemory,
            fault => RolloutRefusal::Rollout(fault),
        }
    }
}

impl From<PriceFault> for RolloutRefusal {
    ghost from_gives = { λ f e. e ≡ of_price f };

    fn from(fault: PriceFault) -> RolloutRefusal {
        RolloutRefusal::from(RolloutFault::from(fault))
    }
}

impl From<FilterFault> for RolloutRefusal {
    ghost from_gives = { λ f e. e ≡ of_notes f };

    fn from(fault: FilterFault) -> RolloutRefusal {
        match fault {
            FilterFault::WantOfMemory => RolloutRefusal::WantOfMemory,
            fault => RolloutRefusal::Notes(fault),
        }
    }
}

impl From<TallyFileFault> for RolloutRefusal {
    ghost from_gives = { λ f e. e ≡ of_tally f };

    fn from(fault: TallyFileFault) -> RolloutRefusal {
        match fault {
            TallyFileFault::WantOfMemory => RolloutRefusal::WantOfMemory,
            fault => RolloutRefusal::Tally(fault),
        }
    }
}

impl From<PlanFileFault> for RolloutRefusal {
    ghost from_gives = { λ f e. e ≡ of_plan f };

    fn from(fault: PlanFileFault) -> RolloutRefusal {
        match fault {
            PlanFileFault::WantOfMemory => RolloutRefusal::WantOfMemory,
            fault => RolloutRefusal::Plan(fault),
        }
    }
}

impl From<CheckFault> for RolloutRefusal {
    ghost from_gives = { λ f e. e ≡ of_check f };

    fn from(fault: CheckFault) -> RolloutRefusal {
        match fault {
            CheckFault::WantOfMemory => RolloutRefusal::WantOfMemory,
            fault => RolloutRefusal::Check(fault),
        }
    }
}

impl From<VerifyFault> for RolloutRefusal {
    ghost from_gives = { λ f e. e ≡ of_verdict f };

    fn from(fault: VerifyFault) -> RolloutRefusal {
        match fault {
            VerifyFault::Request(fault) => RolloutRefusal::from(fault),
            VerifyFault::Check(fault) => RolloutRefusal::from(fault),
        }
    }
}

impl From<KeepFault> for RolloutRefusal {
    ghost from_gives = { λ f e. e ≡ of_keep f };

    fn from(fault: KeepFault) -> RolloutRefusal {
        match fault {
            KeepFault::WantOfMemory => RolloutRefusal::WantOfMemory,
            fault => RolloutRefusal::Keep(fault),
        }
    }
}
