//! Why a call is refused.
ghost use Rattle.std.specs.Prelude.{◌≡◌, IfOk, string_bytes};
ghost use Rattle.control_answers.specs.Refusal.{call_of, keep_name, keep_number, logs_name, logs_number, name_of, number_of, of_check, of_keep, of_logs, of_price, of_printed, of_read, of_rollout, of_verdict, of_verdict_of_token, refusal_text, status_of};
ghost use Rattle.control_answers.specs.declared.refusal.ControlRefusal.TheVariants.{WantOfMemory};

use crate::texts::quoted;
use kept_document::KeepFault;
use note_streams::LogTallyFault;
use plan_text::PlanFileFault;
use price_core::PriceFault;
use rollout::{RolloutFault, VerifyFault};
use std::alloc::{AllocError, AllocFailed, Global};
use transport_core::CheckFault;

/// Why a call is refused: as the command refuses that does the same on files.
#[derive(Debug, PartialEq, Eq, Drop)]
pub enum ControlRefusal {
    /// Memory ran out.
    WantOfMemory,
    /// The request is refused, or what it asks of the flags and of what is recorded.
    Rollout(RolloutFault),
    /// The log files have no tally of the page.
    Logs(LogTallyFault),
    /// What was handed over as a plan is none.
    ReadPlan(PlanFileFault),
    /// The plan is too large for a file.
    PrintPlan(PlanFileFault),
    /// The plan is not right.
    Check(CheckFault),
    /// The plan of a token is of another total than the rule that stands at the site.
    OtherTally,
    /// The document does not take the rule of the plan.
    Keep(KeepFault),
    /// A member of the request of a token is passed over, so it may ask something else than was meant.
    Unread,
    /// Nothing is recorded on the page of the request of a token, so its plan says of nobody that he keeps what he has.
    Unrecorded,
    /// The service keeps no log, so it has no record.
    NoRecord,
    /// What was handed over as a token is none.
    BadToken,
    /// The document is another than the one that the plan of the token was made for.
    OtherDocument,
    /// The plan of a token has no rule, or no one document means the flags of the snapshot.
    NoDocument,
}

impl ControlRefusal {
    /// The number of the refusal, from 0 for want of memory: that of the command.
    pub fn number(&self) -> u32
        ensures { result ≡ number_of self.now }
    {
        match self {
            ControlRefusal::WantOfMemory => 0,
            ControlRefusal::Rollout(fault) => fault.number(),
            ControlRefusal::Logs(fault) => logs_number(*fault),
            ControlRefusal::ReadPlan(fault) => fault.number(),
            ControlRefusal::PrintPlan(fault) => fault.number(),
            ControlRefusal::Check(fault) => fault.number(),
            ControlRefusal::OtherTally => 14,
            ControlRefusal::Keep(fault) => keep_number(*fault),
            ControlRefusal::Unread => 16,
            ControlRefusal::Unrecorded => 17,
            ControlRefusal::NoRecord => 1,
            ControlRefusal::BadToken => 2,
            ControlRefusal::OtherDocument => 3,
            ControlRefusal::NoDocument => 4,
        }
    }

    /// The name of the refusal.
    pub fn name(&self) -> &'static str
        ensures { result.now ≡ name_of self.now }
    {
        match self {
            ControlRefusal::WantOfMemory => "WantOfMemory",
            ControlRefusal::Rollout(fault) => fault.name(),
            ControlRefusal::Logs(fault) => logs_name(*fault),
            ControlRefusal::ReadPlan(fault) => fault.name(),
            ControlRefusal::PrintPlan(fault) => fault.name(),
            ControlRefusal::Check(fault) => fault.name(),
            ControlRefusal::OtherTally => "OtherTally",
            ControlRefusal::Keep(fault) => keep_name(*fault),
            ControlRefusal::Unread => "Unread",
            ControlRefusal::Unrecorded => "Unrecorded",
            ControlRefusal::NoRecord => "NoRecord",
            ControlRefusal::BadToken => "BadToken",
            ControlRefusal::OtherDocument => "OtherDocument",
            ControlRefusal::NoDocument => "NoDocument",
        }
    }

    /// The call that refuses, where this one is asked.
    fn call<'a>(&self, asked: &'a str) -> &'a str
        ensures { result.now ≡ call_of asked.now self.now }
    {
        match self {
            ControlRefusal::WantOfMemory => asked,
            ControlRefusal::Rollout(_) => asked,
            ControlRefusal::Logs(_) => "tally",
            ControlRefusal::ReadPlan(_) => "read_planned",
            ControlRefusal::PrintPlan(_) => "print_planned",
            ControlRefusal::Check(_) => asked,
            ControlRefusal::OtherTally => asked,
            ControlRefusal::Keep(_) => asked,
            ControlRefusal::Unread => asked,
            ControlRefusal::Unrecorded => asked,
            ControlRefusal::NoRecord => "control",
            ControlRefusal::BadToken => "control",
            ControlRefusal::OtherDocument => "control",
            ControlRefusal::NoDocument => "control",
        }
    }

    /// The status of the answer (RFC 9110, 15.5): 409 where the service has no record, or the document has changed; 500 for want of
    /// memory; else 400.
    pub fn status(&self) -> u16
        ensures { result ≡ status_of self.now }
    {
        match self {
            ControlRefusal::WantOfMemory => 500,
            ControlRefusal::NoRecord => 409,
            ControlRefusal::OtherDocument => 409,
            _ => 400,
        }
    }

    /// The body that tells the refusal of a call that was asked by this name, with words for a person. Want of memory is its one
    /// fault.
    pub fn text(&self, alloc: Global, asked: &str, details: &str) -> Result<String, AllocError>
        ensures { IfOk result (λ s. string_bytes s ≡ refusal_text asked.now self.now details.now) }
    {
        let call = self.call(asked);
        let number = self.number();
        let name = self.name();
        let details = quoted(alloc, details)?;
        format!(in alloc;
            "{{\"refused\":\"{call}\",\"number\":{number},\"name\":\"{name}\",\"details\":{details}}}\n"
        )
    }
}

/// The number of the command `tally` for what is wrong with log files.
fn logs_number(fault: LogTallyFault) -> u32
    ensures { result ≡ logs_number fault }
{
    match fault {
        LogTallyFault::WantOfMemory => 0,
        LogTallyFault::Line(_, _) => 1,
        LogTallyFault::TooMany => 3,
        LogTallyFault::Mixed => 6,
    }
}

/// Its name.
fn logs_name(fault: LogTallyFault) -> &'static str
    ensures { result.now ≡ logs_name fault }
{
    match fault {
        LogTallyFault::WantOfMemory => "WantOfMemory",
        LogTallyFault::Line(_, _) => "Line",
        LogTallyFault::TooMany => "TooMany",
        LogTallyFault::Mixed => "Mixed",
    }
}

/// The number of the command `apply --keep` for a document that does not take a rule.
fn keep_number(fault: KeepFault) -> u32
    ensures { result ≡ keep_number fault }
{
    match fault {
        KeepFault::WantOfMemory => 0,
        KeepFault::Shared => 11,
        KeepFault::TooLong => 12,
        KeepFault::Differs => 13,
    }
}

/// Its name.
fn keep_name(fault: KeepFault) -> &'static str
    ensures { result.now ≡ keep_name fault }
{
    match fault {
        KeepFault::WantOfMemory => "WantOfMemory",
        KeepFault::Shared => "Shared",
        KeepFault::TooLong => "TooLong",
        KeepFault::Differs => "Differs",
    }
}

/// Why a document does not take a rule.
pub(crate) fn of_keep(fault: KeepFault) -> ControlRefusal
    ensures { result ≡ of_keep fault }
{
    match fault {
        KeepFault::WantOfMemory => ControlRefusal::WantOfMemory,
        _ => ControlRefusal::Keep(fault),
    }
}

/// Why the plan of a token is not right.
pub(crate) fn of_verdict_of_token(fault: VerifyFault) -> ControlRefusal
    ensures { result ≡ of_verdict_of_token fault }
{
    match fault {
        VerifyFault::Request(RolloutFault::OtherTally) => ControlRefusal::OtherTally,
        fault => ControlRefusal::from(fault),
    }
}

/// Why what was handed over as a plan is refused.
pub(crate) fn of_read(fault: PlanFileFault) -> ControlRefusal
    ensures { result ≡ of_read fault }
{
    match fault {
        PlanFileFault::WantOfMemory => ControlRefusal::WantOfMemory,
        _ => ControlRefusal::ReadPlan(fault),
    }
}

/// Why a plan is not printed.
pub(crate) fn of_printed(fault: PlanFileFault) -> ControlRefusal
    ensures { result ≡ of_printed fault }
{
    match fault {
        PlanFileFault::WantOfMemory => ControlRefusal::WantOfMemory,
        _ => ControlRefusal::PrintPlan(fault),
    }
}

impl From<AllocError> for ControlRefusal {
    ghost from_gives = { λ _ e. e ≡ WantOfMemory };

    fn from(_e: AllocError) -> ControlRefusal {
        ControlRefusal::WantOfMemory
    }
}

impl<T: Drop> From<AllocFailed<T>> for ControlRefusal {
    ghost from_gives = { λ _ e. e ≡ WantOfMemory };

    fn from(_e: AllocFailed<T>) -> ControlRefusal {
        ControlRefusal::WantOfMemory
    }
}

impl From<RolloutFault> for ControlRefusal {
    ghost from_gives = { λ f e. e ≡ of_rollout f };

    fn from(fault: RolloutFault) -> ControlRefusal {
        match fault {
            RolloutFault::WantOfMemory => ControlRefusal::WantOfMemory,
            _ => ControlRefusal::Rollout(fault),
        }
    }
}

impl From<PriceFault> for ControlRefusal {
    ghost from_gives = { λ f e. e ≡ of_price f };

    fn from(fault: PriceFault) -> ControlRefusal {
        ControlRefusal::from(RolloutFault::from(fault))
    }
}

impl From<LogTallyFault> for ControlRefusal {
    ghost from_gives = { λ f e. e ≡ of_logs f };

    fn from(fault: LogTallyFault) -> ControlRefusal {
        match fault {
            LogTallyFault::WantOfMemory => ControlRefusal::WantOfMemory,
            _ => ControlRefusal::Logs(fault),
        }
    }
}

impl From<CheckFault> for ControlRefusal {
    ghost from_gives = { λ f e. e ≡ of_check f };

    fn from(fault: CheckFault) -> ControlRefusal {
        match fault {
            CheckFault::WantOfMemory => ControlRefusal::WantOfMemory,
            fault => ControlRefusal::Check(fault),
        }
    }
}

impl From<VerifyFault> for ControlRefusal {
    ghost from_gives = { λ f e. e ≡ of_verdict f };

    fn from(fault: VerifyFault) -> ControlRefusal {
        match fault {
            VerifyFault::Request(fault) => ControlRefusal::from(fault),
            VerifyFault::Check(fault) => ControlRefusal::from(fault),
        }
    }
}
