//! What the line of a refusal says beyond the name of its fault.
ghost use Rattle.std.specs.Prelude.{◌≡◌, IfOk, string_bytes};
ghost use Rattle.flagops_files.specs.Payload.{fault_items, file_items, number_item, rollout_items, tally_items};
ghost use Rattle.flagops_files.specs.Refusal.{payload_of};

use crate::refusal::Refusal;
use book_core::BookFileFault;
use note_tallies::TallyFileFault;
use rollout::RolloutFault;
use std::alloc::{AllocError, Global};

/// The items of a refusal's payload, a blank before each: numbers in decimal.
pub fn payload(alloc: Global, refusal: &Refusal) -> Result<String, AllocError>
    ensures { IfOk result (λ s. string_bytes s ≡ payload_of refusal.now) }
{
    match refusal {
        Refusal::ReadBook(fault) => file_items(alloc, fault),
        Refusal::ReadTally(fault) => tally_items(alloc, fault),
        _ => Ok(String::new(alloc)),
    }
}

/// The line of a book at fault.
fn file_items(alloc: Global, fault: &BookFileFault) -> Result<String, AllocError>
    ensures { IfOk result (λ s. string_bytes s ≡ file_items fault.now) }
{
    match fault {
        BookFileFault::Line(n)
        | BookFileFault::Order(n)
        | BookFileFault::InputTooLong(n)
        | BookFileFault::PageFull(n) => number_item(alloc, *n),
        _ => Ok(String::new(alloc)),
    }
}

/// The line of a tally at fault.
fn tally_items(alloc: Global, fault: &TallyFileFault) -> Result<String, AllocError>
    ensures { IfOk result (λ s. string_bytes s ≡ tally_items fault.now) }
{
    match fault {
        TallyFileFault::Line(n) | TallyFileFault::Order(n) => number_item(alloc, u64::from(*n)),
        _ => Ok(String::new(alloc)),
    }
}

/// A number, behind a blank.
pub fn number_item(alloc: Global, n: u64) -> Result<String, AllocError>
    ensures { IfOk result (λ s. string_bytes s ≡ number_item n) }
{
    format!(in alloc; " {n}")
}

/// The fault of a request, behind a blank, where a request is at fault.
pub fn rollout_items(alloc: Global, fault: &RolloutFault) -> Result<String, AllocError>
    ensures { IfOk result (λ s. string_bytes s ≡ rollout_items fault.now) }
{
    match fault {
        RolloutFault::Request(inner) => fault_items(alloc, inner.number(), inner.name()),
        _ => Ok(String::new(alloc)),
    }
}

/// The number and the name of a fault, each behind a blank.
fn fault_items(alloc: Global, number: u32, name: &str) -> Result<String, AllocError>
    ensures { IfOk result (λ s. string_bytes s ≡ fault_items number name.now) }
{
    format!(in alloc; " {number} {name}")
}
