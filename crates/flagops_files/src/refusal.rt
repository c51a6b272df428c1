//! Refusals, and the line that each is written as.
ghost use Rattle.std.specs.Prelude.{◌≡◌};
ghost use Rattle.flagops_files.specs.FileLines.{file_line};
ghost use Rattle.flagops_shell.specs.declared.refused.Remark.TheVariants.{Short};
ghost use Rattle.flagops_files.specs.Refusal.{call_of, call_name, is_unread, is_want, number_of, name_of, line_of};

use crate::payload::payload;
use crate::tallies::name_of_tally_fault;
use book_core::BookFileFault;
use bucket_core::RuleFault;
use flag_defs::DefFault;
use flag_text::TextFault;
use flagops_shell::{CommandRefusal, LoadFault, Remark, StoreFault};
use note_tallies::TallyFileFault;
use plan_text::PlanFileFault;
use std::alloc::{AllocError, Global};

/// A call by which a file is read or written, by the name that a refusal's line has.
#[derive(Clone, Copy, Debug)]
pub enum Call {
    /// The reading of a file.
    Load,
    /// `flag_text::read_tree`.
    ReadTree,
    /// `bucket_core::read_rule`.
    ReadRule,
    /// `flag_defs::read_flags`.
    ReadFlags,
    /// `book_core::read_book`.
    ReadBook,
    /// `note_tallies::read_tally`.
    ReadTally,
    /// `plan_text::read_planned`.
    ReadPlanned,
    /// The writing of a file.
    Store,
}

impl Call {
    /// The name of the call.
    pub fn name(self) -> &'static str
        ensures { result.now ≡ call_name self }
    {
        match self {
            Call::Load => "load",
            Call::ReadTree => "read_tree",
            Call::ReadRule => "read_rule",
            Call::ReadFlags => "read_flags",
            Call::ReadBook => "read_book",
            Call::ReadTally => "read_tally",
            Call::ReadPlanned => "read_planned",
            Call::Store => "store",
        }
    }
}

/// Why a file was not read or written: the call that refused, with its fault.
#[derive(Debug, Drop)]
pub enum Refusal {
    /// The program ran out of memory between a call and the next.
    WantOfMemory(Call),
    /// A file was not read.
    Load(LoadFault),
    /// A book file is larger than 2^40 bytes, and so counts as unreadable.
    LongBook,
    /// A file is no tree.
    ReadTree(TextFault),
    /// A tree is no rule.
    ReadRule(RuleFault),
    /// Bytes are no flag document.
    ReadFlags(DefFault),
    /// Bytes are no book.
    ReadBook(BookFileFault),
    /// Bytes that begin as the file of a tally are none.
    ReadTally(TallyFileFault),
    /// Bytes are no plan file.
    ReadPlanned(PlanFileFault),
    /// A file was not written.
    Store(StoreFault),
}

impl Refusal {
    /// The call that refused.
    pub fn call(&self) -> Call
        ensures { result ≡ call_of self.now }
    {
        match self {
            Refusal::WantOfMemory(call) => *call,
            Refusal::Load(_) | Refusal::LongBook => Call::Load,
            Refusal::ReadTree(_) => Call::ReadTree,
            Refusal::ReadRule(_) => Call::ReadRule,
            Refusal::ReadFlags(_) => Call::ReadFlags,
            Refusal::ReadBook(_) => Call::ReadBook,
            Refusal::ReadTally(_) => Call::ReadTally,
            Refusal::ReadPlanned(_) => Call::ReadPlanned,
            Refusal::Store(_) => Call::Store,
        }
    }

    /// The number of the fault.
    pub fn number(&self) -> u32
        ensures { result ≡ number_of self.now }
    {
        match self {
            Refusal::WantOfMemory(_) => 0,
            Refusal::Load(fault) => fault.number(),
            Refusal::LongBook => LoadFault::Unreadable.number(),
            Refusal::ReadTree(fault) => fault.number(),
            Refusal::ReadRule(fault) => fault.number(),
            Refusal::ReadFlags(fault) => fault.number(),
            Refusal::ReadBook(fault) => fault.number(),
            Refusal::ReadTally(fault) => fault.number(),
            Refusal::ReadPlanned(fault) => fault.number(),
            Refusal::Store(fault) => fault.number(),
        }
    }

    /// The name of the fault.
    pub fn name(&self) -> &'static str
        ensures { result.now ≡ name_of self.now }
    {
        match self {
            Refusal::WantOfMemory(_) => "WantOfMemory",
            Refusal::Load(fault) => fault.name(),
            Refusal::LongBook => LoadFault::Unreadable.name(),
            Refusal::ReadTree(fault) => fault.name(),
            Refusal::ReadRule(fault) => fault.name(),
            Refusal::ReadFlags(fault) => fault.name(),
            Refusal::ReadBook(fault) => fault.name(),
            Refusal::ReadTally(fault) => name_of_tally_fault(*fault),
            Refusal::ReadPlanned(fault) => fault.name(),
            Refusal::Store(fault) => fault.name(),
        }
    }
}

/// A refusal of one of these calls, with what a person is told of it.
pub type Refused = flagops_shell::Refused<Refusal>;

/// The refusal of a call that ran out of memory.
pub fn out_of_memory(call: Call) -> Refused
    ensures refusal { result.refusal ≡ Refusal.WantOfMemory call }
    ensures remark { result.remark ≡ Short }
{
    Refused {
        refusal: Refusal::WantOfMemory(call),
        remark: Remark::Short,
    }
}

impl CommandRefusal for Refusal {
    ghost is_want = { is_want };

    ghost is_unread = { is_unread };

    ghost line_of = { line_of };

    fn is_want(&self) -> bool {
        match self {
            Refusal::WantOfMemory(_)
            | Refusal::Load(LoadFault::WantOfMemory)
            | Refusal::ReadTree(TextFault::WantOfMemory)
            | Refusal::ReadRule(RuleFault::WantOfMemory)
            | Refusal::ReadFlags(DefFault::WantOfMemory)
            | Refusal::ReadBook(BookFileFault::WantOfMemory)
            | Refusal::ReadTally(TallyFileFault::WantOfMemory)
            | Refusal::ReadPlanned(PlanFileFault::WantOfMemory)
            | Refusal::Store(StoreFault::WantOfMemory) => true,
            _ => false,
        }
    }

    #[tactic(auto, unfolding(crate::specs::Refusal::line_of))]
    fn line(&self, alloc: Global) -> Result<String, AllocError> {
        let call = self.call().name();
        let number = self.number();
        let name = self.name();
        let payload = payload(alloc, self)?;
        format!(in alloc; "refused {call} {number} {name}{payload}\n")
    }

    ghost unread_lines = { file_line };
}
