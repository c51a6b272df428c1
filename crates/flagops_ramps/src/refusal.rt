//! Why the commands on steps refuse.
ghost use Rattle.std.specs.Prelude.{◌≡◌, IfOk, string_bytes};
ghost use Rattle.flagops_ramps.specs.FileLines.{file_line};
ghost use Rattle.flagops_ramps.specs.Refusal.{call_name, is_unread, is_want, line_of};
ghost use Rattle.flagops_ramps.specs.declared.refusal.RampRefusal.TheVariants.{Load, Ramp, Read, Rollout, Verify};

use flagops_files::{Refusal, fault_line, number_item, rollout_items};
use flagops_rollouts::{Doubt, RolloutRefusal, is_want_of_verify, verify_items};
use flagops_shell::CommandRefusal;
use plan_text::PlanFileFault;
use ramp::RampFileFault;
use rollout::{RolloutFault, VerifyFault};
use std::alloc::{AllocError, Global};

/// The commands on steps whose answers may be doubted.
#[derive(Clone, Copy, Debug)]
pub enum StepCall {
    /// `ramp`.
    Ramp,
    /// `verify-ramp`.
    VerifyRamp,
    /// `apply --step --keep`.
    Apply,
}

impl StepCall {
    /// The name of the command.
    pub fn name(self) -> &'static str
        ensures { result.now ≡ call_name self }
    {
        match self {
            StepCall::Ramp => "ramp",
            StepCall::VerifyRamp => "verify-ramp",
            StepCall::Apply => "apply",
        }
    }
}

/// Why a command on steps refuses.
#[derive(Debug, Drop)]
pub enum RampRefusal {
    /// A file is refused as every other command refuses it.
    Load(Refusal),
    /// The rule of an answer is refused as `apply` refuses it.
    Rollout(RolloutRefusal),
    /// The steps are refused, or one of them.
    Ramp(RolloutFault),
    /// The answers are too large for a file.
    Print(PlanFileFault),
    /// A file is none of answers to steps.
    Read(RampFileFault),
    /// An answer is not right for its step, or the steps are refused.
    Verify(VerifyFault),
    /// All answers that are there are right, but there are fewer or more than steps.
    Lines,
    /// There is no answer to the step that is applied.
    NoStep,
    /// The document has another rule than the one that the step before left.
    OtherRule,
    /// The answers are doubted, and that is to be refused.
    Doubted(StepCall, Doubt),
}

impl From<RolloutRefusal> for RampRefusal {
    ghost from_gives = { λ r e. e ≡ Rollout r };

    fn from(refusal: RolloutRefusal) -> RampRefusal {
        RampRefusal::Rollout(refusal)
    }
}

impl From<Refusal> for RampRefusal {
    ghost from_gives = { λ r e. e ≡ Load r };

    fn from(refusal: Refusal) -> RampRefusal {
        RampRefusal::Load(refusal)
    }
}

impl CommandRefusal for RampRefusal {
    ghost is_want = { is_want };

    ghost is_unread = { is_unread };

    ghost line_of = { line_of };

    fn is_want(&self) -> bool {
        match self {
            RampRefusal::Load(refusal) => refusal.is_want(),
            RampRefusal::Rollout(refusal) => refusal.is_want(),
            RampRefusal::Verify(fault) => is_want_of_verify(fault),
            RampRefusal::Ramp(RolloutFault::WantOfMemory)
            | RampRefusal::Print(PlanFileFault::WantOfMemory)
            | RampRefusal::Read(RampFileFault::WantOfMemory) => true,
            _ => false,
        }
    }

    fn line(&self, alloc: Global) -> Result<String, AllocError> {
        match self {
            RampRefusal::Load(refusal) => refusal.line(alloc),
            RampRefusal::Rollout(refusal) => refusal.line(alloc),
            RampRefusal::Ramp(fault) => ramp_line(alloc, fault),
            RampRefusal::Print(fault) => {
                fault_line(alloc, "print_ramp", fault.number(), fault.name(), "")
            }
            RampRefusal::Read(fault) => read_line(alloc, fault),
            RampRefusal::Verify(fault) => verify_line(alloc, fault),
            RampRefusal::Lines => fault_line(alloc, "verify-ramp", 14, "Lines", ""),
            RampRefusal::NoStep => fault_line(alloc, "apply", 15, "NoStep", ""),
            RampRefusal::OtherRule => fault_line(alloc, "apply", 20, "OtherRule", ""),
            RampRefusal::Doubted(call, doubt) => {
                fault_line(alloc, call.name(), doubt.number(), doubt.name(), "")
            }
        }
    }

    ghost unread_lines = { file_line };
}

/// The line of steps that are refused.
fn ramp_line(alloc: Global, fault: &RolloutFault) -> Result<String, AllocError>
    ensures { IfOk result (λ s. string_bytes s ≡ line_of (Ramp fault.now)) }
{
    let items = rollout_items(alloc, fault)?;
    fault_line(alloc, "ramp", fault.number(), fault.name(), items.as_str())
}

fn read_line(alloc: Global, fault: &RampFileFault) -> Result<String, AllocError>
    ensures { IfOk result (λ s. string_bytes s ≡ line_of (Read fault.now)) }
{
    let (number, name) = (fault.number(), fault.name());
    match fault {
        RampFileFault::Line(n) => {
            let item = number_item(alloc, *n)?;
            fault_line(alloc, "read_ramp", number, name, item.as_str())
        }
        _ => fault_line(alloc, "read_ramp", number, name, ""),
    }
}

/// The line of an answer that is not right: what `verify` says of it, under the name of this command.
fn verify_line(alloc: Global, fault: &VerifyFault) -> Result<String, AllocError>
    ensures { IfOk result (λ s. string_bytes s ≡ line_of (Verify fault.now)) }
{
    let items = verify_items(alloc, fault)?;
    fault_line(
        alloc,
        "verify-ramp",
        fault.number(),
        fault.name(),
        items.as_str(),
    )
}
