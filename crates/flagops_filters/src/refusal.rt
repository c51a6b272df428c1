//! Why a filter refuses.
ghost use Rattle.std.specs.Prelude.{◌≡◌, IfOk, codes, decimal, string_bytes};
ghost use Rattle.flagops_files.specs.Refusal.{line_with};
ghost use Rattle.note_tallies.specs.FilterFault as filters;
ghost use Rattle.flagops_filters.specs.FileLines.{file_line};
ghost use Rattle.flagops_filters.specs.Refusal.{filter_items, filter_name, is_unread, is_want, join_name, join_number, line_of, record_name};
ghost use Rattle.flagops_filters.specs.declared.refusal.FilterRefusal.TheVariants.{Load, Flag, Record, Tally};

use flagops_files::{Refusal, fault_line, number_item, rollout_items};
use flagops_shell::CommandRefusal;
use note_streams::{RecordStop, TallyStop};
use note_tallies::{FilterFault, JoinFault};
use rollout::RolloutFault;
use std::alloc::{AllocError, Global};

/// Why a filter refuses.
#[derive(Debug, Drop)]
pub enum FilterRefusal {
    /// A file is refused as every other command refuses it.
    Load(Refusal),
    /// A flag or a site of it is refused, as `plan` refuses it.
    Flag(RolloutFault),
    /// A line of the standard input is no context, or the input is not read to its end.
    Record(RecordStop),
    /// A line of the standard input is not tallied, or the input is not read to its end.
    Tally(TallyStop),
    /// Tallies are not joined.
    Join(JoinFault),
}

impl From<Refusal> for FilterRefusal {
    ghost from_gives = { λ r e. e ≡ Load r };

    fn from(refusal: Refusal) -> FilterRefusal {
        FilterRefusal::Load(refusal)
    }
}

impl CommandRefusal for FilterRefusal {
    ghost is_want = { is_want };

    ghost is_unread = { is_unread };

    ghost line_of = { line_of };

    fn is_want(&self) -> bool {
        match self {
            FilterRefusal::Load(refusal) => refusal.is_want(),
            FilterRefusal::Flag(fault) => matches!(fault, RolloutFault::WantOfMemory),
            FilterRefusal::Record(stop) => matches!(stop, RecordStop::WantOfMemory),
            FilterRefusal::Tally(TallyStop::Filter(fault)) => {
                matches!(fault, FilterFault::WantOfMemory)
            }
            FilterRefusal::Tally(TallyStop::Unreadable | TallyStop::TooLong) => false,
            FilterRefusal::Join(_) => false,
        }
    }

    fn line(&self, alloc: Global) -> Result<String, AllocError> {
        match self {
            FilterRefusal::Load(refusal) => refusal.line(alloc),
            FilterRefusal::Flag(fault) => flag_line(alloc, fault),
            FilterRefusal::Record(stop) => record_line(alloc, stop),
            FilterRefusal::Tally(stop) => tally_line(alloc, stop),
            FilterRefusal::Join(fault) => {
                fault_line(alloc, "join", join_number(fault), join_name(fault), "")
            }
        }
    }

    ghost unread_lines = { file_line };
}

/// The line of a flag or a site that is refused, under the name of `plan`.
fn flag_line(alloc: Global, fault: &RolloutFault) -> Result<String, AllocError>
    ensures { IfOk result (λ s. string_bytes s ≡ line_of (Flag fault.now)) }
{
    let items = rollout_items(alloc, fault)?;
    fault_line(alloc, "plan", fault.number(), fault.name(), items.as_str())
}

fn record_line(alloc: Global, stop: &RecordStop) -> Result<String, AllocError>
    ensures { IfOk result (λ s. string_bytes s ≡ line_of (Record stop.now)) }
{
    let name = record_name(stop);
    match stop {
        RecordStop::Line(n) => {
            let item = number_item(alloc, *n)?;
            fault_line(alloc, "record", 1, name, item.as_str())
        }
        _ => fault_line(alloc, "record", stop.number(), name, ""),
    }
}

fn record_name(stop: &RecordStop) -> &'static str
    ensures { result.now ≡ record_name stop.now }
{
    match stop {
        RecordStop::WantOfMemory => "WantOfMemory",
        RecordStop::Line(_) => "Line",
        RecordStop::Unreadable => "Unreadable",
        RecordStop::TooLong => "TooLong",
        RecordStop::Broken => "Broken",
    }
}

fn tally_line(alloc: Global, stop: &TallyStop) -> Result<String, AllocError>
    ensures { IfOk result (λ s. string_bytes s ≡ line_of (Tally stop.now)) }
{
    match stop {
        TallyStop::Filter(fault) => filter_line(alloc, fault),
        TallyStop::Unreadable => fault_line(alloc, "tally", 4, "Unreadable", ""),
        TallyStop::TooLong => fault_line(alloc, "tally", 5, "TooLong", ""),
    }
}

fn filter_line(alloc: Global, fault: &FilterFault) -> Result<String, AllocError>
    ensures { IfOk result (λ s. string_bytes s ≡ line_with (codes "tally") (decimal (filters.number_of fault.now)) (filter_name fault.now) (filter_items fault.now)) }
{
    let name = filter_name(fault);
    match fault {
        FilterFault::Line(n) => {
            let item = number_item(alloc, *n)?;
            fault_line(alloc, "tally", 1, name, item.as_str())
        }
        FilterFault::Order(n) => {
            let item = number_item(alloc, *n)?;
            fault_line(alloc, "tally", 2, name, item.as_str())
        }
        FilterFault::Mixed(n) => {
            let item = number_item(alloc, *n)?;
            fault_line(alloc, "tally", 6, name, item.as_str())
        }
        _ => fault_line(alloc, "tally", fault.number(), name, ""),
    }
}

fn filter_name(fault: &FilterFault) -> &'static str
    ensures { result.now ≡ filter_name fault.now }
{
    match fault {
        FilterFault::WantOfMemory => "WantOfMemory",
        FilterFault::Line(_) => "Line",
        FilterFault::Order(_) => "Order",
        FilterFault::TooMany => "TooMany",
        FilterFault::Mixed(_) => "Mixed",
    }
}

fn join_number(fault: &JoinFault) -> u32
    ensures { result ≡ join_number fault.now }
{
    match fault {
        JoinFault::Page => 1,
        JoinFault::Order => 2,
        JoinFault::TooMany => 3,
    }
}

fn join_name(fault: &JoinFault) -> &'static str
    ensures { result.now ≡ join_name fault.now }
{
    match fault {
        JoinFault::Page => "Page",
        JoinFault::Order => "Order",
        JoinFault::TooMany => "TooMany",
    }
}
