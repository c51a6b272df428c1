//! Why the commands on rollouts refuse, and the line that each refusal is written as.
ghost use Rattle.std.specs.Prelude.{◌≡◌, IfOk, string_bytes};
ghost use Rattle.flagops_shell.specs.declared.refused.Remark.TheVariants.{Short};
ghost use Rattle.rollout.specs.VerifyFault.{is_want as is_want_of_verify};
ghost use Rattle.flagops_rollouts.specs.FileLines.{file_line};
ghost use Rattle.flagops_rollouts.specs.Refusal.{call_name, call_of, doubt_name, doubt_number, is_unread, is_want, keep_line, line_of, rollout_line, verify_line};
ghost use Rattle.flagops_rollouts.specs.declared.refusal.RolloutRefusal.TheVariants.{Load};

use crate::keep_refusal::KeepRefusal;
use crate::payload::verify_items;
use flagops_files::{Call, Refusal, fault_line, rollout_items};
use flagops_shell::{CommandRefusal, Remark};
use kept_document::KeepFault;
use plan_text::PlanFileFault;
use rollout::{RolloutFault, VerifyFault};
use std::alloc::{AllocError, Global};
use transport_core::CheckFault;

/// A call that can refuse, by the name that a refusal's line has.
#[derive(Clone, Copy, Debug)]
pub enum RolloutCall {
    /// A call by which a file is read or written.
    Load(Call),
    /// `rollout::verify` and the command around it.
    Verify,
    /// `rollout::apply` and the command around it.
    Apply,
    /// `rollout::plan` and the command around it.
    Plan,
    /// `plan_text::print_planned`.
    PrintPlanned,
}

impl RolloutCall {
    /// The name of the call.
    pub fn name(self) -> &'static str
        ensures { result.now ≡ call_name self }
    {
        match self {
            RolloutCall::Load(call) => call.name(),
            RolloutCall::Verify => "verify",
            RolloutCall::Apply => "apply",
            RolloutCall::Plan => "plan",
            RolloutCall::PrintPlanned => "print_planned",
        }
    }
}

/// What is doubted of an answer to a request: that it is the one that was meant.
#[derive(Clone, Copy, Debug)]
pub enum Doubt {
    /// The request has a member that is not read.
    Unread,
    /// The book has no input on the page of the request, so no recorded user counts.
    Unrecorded,
    /// The book has an input on that page which is none of its flag.
    Foreign,
}

impl Doubt {
    /// The number that a refusal is written with: one that no fault of a call has.
    pub fn number(&self) -> u32
        ensures { result ≡ doubt_number self.now }
    {
        match self {
            Doubt::Unread => 16,
            Doubt::Unrecorded => 17,
            Doubt::Foreign => 18,
        }
    }

    /// The name that a refusal is written with: the variant's.
    pub fn name(&self) -> &'static str
        ensures { result.now ≡ doubt_name self.now }
    {
        match self {
            Doubt::Unread => "Unread",
            Doubt::Unrecorded => "Unrecorded",
            Doubt::Foreign => "Foreign",
        }
    }
}

/// Why a command on rollouts was refused: the call that refused, with its fault.
#[derive(Debug, Drop)]
pub enum RolloutRefusal {
    /// A file is refused as every other command refuses it.
    Load(Refusal),
    /// A command ran out of memory between its calls.
    WantOfMemory(RolloutCall),
    /// The answer of a plan file is not right, or its request is refused.
    Verify(VerifyFault),
    /// The rule of a plan file cannot be put at the site.
    Apply(RolloutFault),
    /// The rule of a plan file is not put into the document.
    Keep(KeepRefusal),
    /// The printed form of the document leaves something out, which is to be refused.
    Omitted,
    /// The request is refused, or no answer to it was found.
    Plan(RolloutFault),
    /// The answer is too large for a plan file.
    PrintPlanned(PlanFileFault),
    /// The answer of this call is doubted, and what is doubted is to be refused.
    Doubted(RolloutCall, Doubt),
}

impl RolloutRefusal {
    /// The call that refused.
    pub fn call(&self) -> RolloutCall
        ensures { result ≡ call_of self.now }
    {
        match self {
            RolloutRefusal::Load(refusal) => RolloutCall::Load(refusal.call()),
            RolloutRefusal::WantOfMemory(call) | RolloutRefusal::Doubted(call, _) => *call,
            RolloutRefusal::Verify(_) => RolloutCall::Verify,
            RolloutRefusal::Apply(_) | RolloutRefusal::Keep(_) | RolloutRefusal::Omitted => {
                RolloutCall::Apply
            }
            RolloutRefusal::Plan(_) => RolloutCall::Plan,
            RolloutRefusal::PrintPlanned(_) => RolloutCall::PrintPlanned,
        }
    }
}

/// A refusal of a command on rollouts, with what a person is told of it.
pub type Refused = flagops_shell::Refused<RolloutRefusal>;

/// The refusal of a call that ran out of memory.
pub fn out_of_memory(call: RolloutCall) -> Refused
    ensures refusal { result.refusal ≡ RolloutRefusal.WantOfMemory call }
    ensures remark { result.remark ≡ Short }
{
    Refused {
        refusal: RolloutRefusal::WantOfMemory(call),
        remark: Remark::Short,
    }
}

impl From<Refusal> for RolloutRefusal {
    ghost from_gives = { λ r e. e ≡ Load r };

    fn from(refusal: Refusal) -> RolloutRefusal {
        RolloutRefusal::Load(refusal)
    }
}

impl CommandRefusal for RolloutRefusal {
    ghost is_want = { is_want };

    ghost is_unread = { is_unread };

    ghost line_of = { line_of };

    fn is_want(&self) -> bool {
        match self {
            RolloutRefusal::Load(refusal) => refusal.is_want(),
            RolloutRefusal::Verify(fault) | RolloutRefusal::Keep(KeepRefusal::Verify(fault)) => {
                is_want_of_verify(fault)
            }
            RolloutRefusal::WantOfMemory(_)
            | RolloutRefusal::Apply(RolloutFault::WantOfMemory)
            | RolloutRefusal::Keep(KeepRefusal::Document(KeepFault::WantOfMemory))
            | RolloutRefusal::Plan(RolloutFault::WantOfMemory)
            | RolloutRefusal::PrintPlanned(PlanFileFault::WantOfMemory) => true,
            _ => false,
        }
    }

    fn line(&self, alloc: Global) -> Result<String, AllocError> {
        match self {
            RolloutRefusal::Load(refusal) => refusal.line(alloc),
            RolloutRefusal::WantOfMemory(call) => {
                fault_line(alloc, call.name(), 0, "WantOfMemory", "")
            }
            RolloutRefusal::Verify(fault) => verify_line(alloc, fault),
            RolloutRefusal::Apply(fault) => rollout_line(alloc, "apply", fault),
            RolloutRefusal::Keep(refusal) => keep_line(alloc, refusal),
            RolloutRefusal::Omitted => fault_line(alloc, "apply", 19, "Omitted", ""),
            RolloutRefusal::Plan(fault) => rollout_line(alloc, "plan", fault),
            RolloutRefusal::PrintPlanned(fault) => {
                fault_line(alloc, "print_planned", fault.number(), fault.name(), "")
            }
            RolloutRefusal::Doubted(call, doubt) => {
                fault_line(alloc, call.name(), doubt.number(), doubt.name(), "")
            }
        }
    }

    ghost unread_lines = { file_line };
}

/// Whether memory ran out while an answer was verified.
pub fn is_want_of_verify(fault: &VerifyFault) -> bool
    ensures { result ≡ is_want_of_verify fault.now }
{
    match fault {
        VerifyFault::Request(RolloutFault::WantOfMemory)
        | VerifyFault::Check(CheckFault::WantOfMemory) => true,
        _ => false,
    }
}

fn verify_line(alloc: Global, fault: &VerifyFault) -> Result<String, AllocError>
    ensures { IfOk result (λ s. string_bytes s ≡ verify_line fault.now) }
{
    let items = verify_items(alloc, fault)?;
    fault_line(
        alloc,
        "verify",
        fault.number(),
        fault.name(),
        items.as_str(),
    )
}

fn rollout_line(alloc: Global, call: &str, fault: &RolloutFault) -> Result<String, AllocError>
    ensures { IfOk result (λ s. string_bytes s ≡ rollout_line call.now fault.now) }
{
    let items = rollout_items(alloc, fault)?;
    fault_line(alloc, call, fault.number(), fault.name(), items.as_str())
}

fn keep_line(alloc: Global, refusal: &KeepRefusal) -> Result<String, AllocError>
    ensures { IfOk result (λ s. string_bytes s ≡ keep_line refusal.now) }
{
    match refusal {
        KeepRefusal::Verify(fault) => {
            let items = verify_items(alloc, fault)?;
            fault_line(
                alloc,
                "apply",
                refusal.number(),
                refusal.name(),
                items.as_str(),
            )
        }
        KeepRefusal::Document(_) => {
            fault_line(alloc, "apply", refusal.number(), refusal.name(), "")
        }
    }
}
