//! Why the command `apply --keep` refuses what it read.
ghost use Rattle.std.specs.Prelude.{◌≡◌};
ghost use Rattle.flagops_rollouts.specs.Keeping.{fault_name, fault_number, name_of, number_of, verdict_number};

use kept_document::KeepFault;
use rollout::{RolloutFault, VerifyFault};

/// Why the rule of a plan file is not put into a document.
#[derive(Debug, Drop)]
pub enum KeepRefusal {
    /// The answer of the plan file is not right, or its request is refused.
    Verify(VerifyFault),
    /// The document does not take the rule.
    Document(KeepFault),
}

impl KeepRefusal {
    /// The number that a refusal is written with, from 0 for want of memory.
    pub fn number(&self) -> u32
        ensures { result ≡ number_of self.now }
    {
        match self {
            KeepRefusal::Verify(fault) => verdict_number(fault),
            KeepRefusal::Document(fault) => fault_number(*fault),
        }
    }

    /// The name that a refusal is written with: that of the fault's variant.
    pub fn name(&self) -> &'static str
        ensures { result.now ≡ name_of self.now }
    {
        match self {
            KeepRefusal::Verify(fault) => fault.name(),
            KeepRefusal::Document(fault) => fault_name(*fault),
        }
    }
}

/// That of another tally stands behind those of a document, of which `Shared` has its own number 11.
fn verdict_number(fault: &VerifyFault) -> u32
    ensures { result ≡ verdict_number fault.now }
{
    match fault {
        VerifyFault::Request(RolloutFault::OtherTally) => 14,
        _ => fault.number(),
    }
}

/// The numbers go on behind those of a rollout.
fn fault_number(fault: KeepFault) -> u32
    ensures { result ≡ fault_number fault }
{
    match fault {
        KeepFault::WantOfMemory => 0,
        KeepFault::Shared => 11,
        KeepFault::TooLong => 12,
        KeepFault::Differs => 13,
    }
}

fn fault_name(fault: KeepFault) -> &'static str
    ensures { result.now ≡ fault_name fault }
{
    match fault {
        KeepFault::WantOfMemory => "WantOfMemory",
        KeepFault::Shared => "Shared",
        KeepFault::TooLong => "TooLong",
        KeepFault::Differs => "Differs",
    }
}
