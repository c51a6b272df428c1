//! From a file to its tally.
ghost use Rattle.std.specs.Prelude.{◌≡◌, ◌≢◌, ◌++◌, ◌↔◌, Err, ℕ, List, length, IsTrue, MatchOption};
ghost use Rattle.book_core.specs.Printing.{line_text};
ghost use Rattle.note_tallies.specs.File.{header_shape};
ghost use Rattle.note_tallies.specs.Counts.{AddsCounts, ReadsCounts};
ghost use Rattle.note_tallies.specs.Reading.{IsHead, ReadsTally};

use crate::PageTally;
use crate::counts::{add_up, read_counts};
use crate::file_fault::TallyFileFault;
use crate::head::{Head, take_head};
use crate::print::HEADER;
use std::alloc::Global;

/// The tally whose file these bytes are. Only what [`print_tally`](crate::print_tally) gives is the file of a tally: with
/// a blank, another escape or another order of members it is none.
///
/// Refusals, in this order: `Header`, which takes no memory, and `Page`; `Line` and `Order` for the first line at fault;
/// `Inputs`. Cost: linear.
pub fn read_tally(alloc: Global, bytes: &[u8]) -> Result<PageTally, TallyFileFault>
    ensures exact { ReadsTally bytes.now result }
    ensures header { ((rest : List ℕ) → bytes.now ≢ line_text header_shape ++ rest) → result ≡ Err TallyFileFault.Header }
{
    let Some(rest) = after_header(bytes) else {
        return Err(TallyFileFault::Header);
    };
    match take_head(alloc, rest)? {
        None => Err(TallyFileFault::Page),
        Some((head, rest)) => with_counts(alloc, head, rest),
    }
}

/// The bytes after the first line of a tally.
fn after_header(bytes: &[u8]) -> Option<&[u8]>
    ensures { MatchOption result ((rest : List ℕ) → bytes.now ≢ line_text header_shape ++ rest) (λ rest. bytes.now ≡ line_text header_shape ++ rest.now) }
{
    let header = HEADER.as_bytes();
    if bytes.len() < header.len() {
        return None;
    }
    let (front, rest) = bytes.split_at(header.len());
    if is_same(front, header) {
        Some(rest)
    } else {
        None
    }
}

fn is_same(one: &[u8], other: &[u8]) -> bool
    ensures { IsTrue result ↔ (one.now ≡ other.now) }
{
    one == other
}

/// The tally with this second line and these bytes after it.
fn with_counts(alloc: Global, head: Head, bytes: &[u8]) -> Result<PageTally, TallyFileFault>
    requires { IsHead head }
    ensures { ReadsCounts head bytes.now result }
{
    match read_counts(alloc, bytes, head.total) {
        Err(fault) => Err(fault),
        Ok(counts) => with_inputs(head, counts),
    }
}

/// The tally with these inputs on its points.
fn with_inputs(head: Head, counts: Vec<u32>) -> Result<PageTally, TallyFileFault>
    requires head { IsHead head }
    requires whole { length counts.items ≡ head.total }
    ensures { AddsCounts head counts.items result }
{
    if !add_up(counts.as_slice(), head.inputs) {
        return Err(TallyFileFault::Inputs);
    }
    Ok(PageTally {
        page: head.page,
        total: head.total,
        first: head.first,
        last: head.last,
        inputs: head.inputs,
        counts,
    })
}
