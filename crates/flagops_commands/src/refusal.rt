//! Why the listed commands refuse, and the line that each refusal is written as.
ghost use Rattle.std.specs.Prelude.{◌≡◌, IfOk, string_bytes};
ghost use Rattle.flagops_commands.specs.FileLines.{file_line};
ghost use Rattle.flagops_commands.specs.Refusal.{call_name, call_of, is_unread, is_want, line_of, loss_line, mismatch_name, mismatch_number};
ghost use Rattle.flagops_commands.specs.declared.refusal.ListedRefusal.TheVariants.{Load, Rollout};
ghost use Rattle.flagops_shell.specs.declared.refused.Remark.TheVariants.{Short};

use book_core::BookFault;
use book_share::DriveFault;
use flagops_drive::DriveRefusal;
use flagops_files::{Call, Refusal, fault_line, number_item};
use flagops_rollouts::{Doubt, RolloutCall, RolloutRefusal};
use flagops_shell::{CommandRefusal, Remark};
use price_core::PriceFault;
use std::alloc::{AllocError, Global};

/// A call that can refuse, by the name that a refusal's line has.
#[derive(Clone, Copy, Debug)]
pub enum ListedCall {
    /// A call by which a file is read or written.
    Load(Call),
    /// A call of a command on rollouts.
    Rollout(RolloutCall),
    /// The program, while it makes a script.
    Flagops,
    /// The command `bucket` itself.
    Bucket,
    /// `price_core::Request::read`.
    ReadRequest,
    /// `book_core::Book::note`.
    Note,
    /// The command `price` itself.
    Price,
    /// The command `resolve` itself.
    Resolve,
    /// `flagops_drive::drive_asks` and the command around it.
    Drive,
}

impl ListedCall {
    /// The name of the call.
    pub fn name(self) -> &'static str
        ensures { result.now ≡ call_name self }
    {
        match self {
            ListedCall::Load(call) => call.name(),
            ListedCall::Rollout(call) => call.name(),
            ListedCall::Flagops => "flagops",
            ListedCall::Bucket => "bucket",
            ListedCall::ReadRequest => "Request::read",
            ListedCall::Note => "note",
            ListedCall::Price => "price",
            ListedCall::Resolve => "resolve",
            ListedCall::Drive => "drive",
        }
    }
}

/// Why the command `price` refuses what it read.
#[derive(Clone, Copy, Debug)]
pub enum PriceMismatch {
    /// The totals of the two rules differ.
    Weight,
    /// The key file is no list of texts.
    BadKeys,
}

impl PriceMismatch {
    /// The number that a refusal is written with.
    pub fn number(&self) -> u32
        ensures { result ≡ mismatch_number self.now }
    {
        match self {
            PriceMismatch::Weight => 1,
            PriceMismatch::BadKeys => 2,
        }
    }

    /// The name that a refusal is written with: the variant's.
    pub fn name(&self) -> &'static str
        ensures { result.now ≡ mismatch_name self.now }
    {
        match self {
            PriceMismatch::Weight => "Weight",
            PriceMismatch::BadKeys => "BadKeys",
        }
    }
}

/// Why a listed command was refused: the call that refused, with its fault.
#[derive(Debug, Drop)]
pub enum ListedRefusal {
    /// A file is refused as every other command refuses it.
    Load(Refusal),
    /// `plan`, `verify` or `apply` is refused.
    Rollout(RolloutRefusal),
    /// A command ran out of memory between its calls.
    WantOfMemory(ListedCall),
    /// Bytes are no request.
    ReadRequest(PriceFault),
    /// A key is not taken.
    Note(BookFault),
    /// The rules and the keys that `price` read are not of one kind.
    Price(PriceMismatch),
    /// The asks are no asks, or were not driven.
    Drive(DriveRefusal),
    /// What `drive` answers is doubted, and what is doubted is to be refused.
    Doubted(Doubt),
    /// The book that `drive` would write lacks so many inputs of the one that it would be written over.
    WouldLose(u64),
}

impl ListedRefusal {
    /// The call that refused.
    pub fn call(&self) -> ListedCall
        ensures { result ≡ call_of self.now }
    {
        match self {
            ListedRefusal::Load(refusal) => ListedCall::Load(refusal.call()),
            ListedRefusal::Rollout(refusal) => ListedCall::Rollout(refusal.call()),
            ListedRefusal::WantOfMemory(call) => *call,
            ListedRefusal::ReadRequest(_) => ListedCall::ReadRequest,
            ListedRefusal::Note(_) => ListedCall::Note,
            ListedRefusal::Price(_) => ListedCall::Price,
            ListedRefusal::Drive(_) | ListedRefusal::Doubted(_) | ListedRefusal::WouldLose(_) => {
                ListedCall::Drive
            }
        }
    }
}

/// A refusal of a listed command, with what a person is told of it.
pub type Refused = flagops_shell::Refused<ListedRefusal>;

/// The refusal of a call that ran out of memory.
pub(crate) fn out_of_memory(call: ListedCall) -> Refused
    ensures refusal { result.refusal ≡ ListedRefusal.WantOfMemory call }
    ensures remark { result.remark ≡ Short }
{
    Refused {
        refusal: ListedRefusal::WantOfMemory(call),
        remark: Remark::Short,
    }
}

impl From<Refusal> for ListedRefusal {
    ghost from_gives = { λ r e. e ≡ Load r };

    fn from(refusal: Refusal) -> ListedRefusal {
        ListedRefusal::Load(refusal)
    }
}

impl From<RolloutRefusal> for ListedRefusal {
    ghost from_gives = { λ r e. e ≡ Rollout r };

    fn from(refusal: RolloutRefusal) -> ListedRefusal {
        ListedRefusal::Rollout(refusal)
    }
}

impl CommandRefusal for ListedRefusal {
    ghost is_want = { is_want };

    ghost is_unread = { is_unread };

    ghost line_of = { line_of };

    fn is_want(&self) -> bool {
        match self {
            ListedRefusal::Load(refusal) => refusal.is_want(),
            ListedRefusal::Rollout(refusal) => refusal.is_want(),
            ListedRefusal::WantOfMemory(_)
            | ListedRefusal::ReadRequest(PriceFault::WantOfMemory)
            | ListedRefusal::Note(BookFault::WantOfMemory)
            | ListedRefusal::Drive(DriveRefusal::Drive(DriveFault::WantOfMemory)) => true,
            _ => false,
        }
    }

    fn line(&self, alloc: Global) -> Result<String, AllocError> {
        match self {
            ListedRefusal::Load(refusal) => refusal.line(alloc),
            ListedRefusal::Rollout(refusal) => refusal.line(alloc),
            ListedRefusal::WantOfMemory(call) => {
                fault_line(alloc, call.name(), 0, "WantOfMemory", "")
            }
            ListedRefusal::ReadRequest(fault) => {
                fault_line(alloc, "Request::read", fault.number(), fault.name(), "")
            }
            ListedRefusal::Note(fault) => {
                fault_line(alloc, "note", fault.number(), fault.name(), "")
            }
            ListedRefusal::Price(fault) => {
                fault_line(alloc, "price", fault.number(), fault.name(), "")
            }
            ListedRefusal::Drive(fault) => {
                fault_line(alloc, "drive", fault.number(), fault.name(), "")
            }
            ListedRefusal::Doubted(doubt) => {
                fault_line(alloc, "drive", doubt.number(), doubt.name(), "")
            }
            ListedRefusal::WouldLose(lost) => loss_line(alloc, *lost),
        }
    }

    ghost unread_lines = { file_line };
}

/// The line of a refusal to lose so many inputs.
fn loss_line(alloc: Global, lost: u64) -> Result<String, AllocError>
    ensures { IfOk result (λ s. string_bytes s ≡ loss_line lost) }
{
    let items = number_item(alloc, lost)?;
    fault_line(alloc, "drive", 7, "WouldLose", items.as_str())
}
