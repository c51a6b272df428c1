//! The lines of a stream, tallied with their numbers.
ghost use Rattle.std.specs.Prelude.{◌≡◌, ◌≢◌, ◌<◌, ◌+◌, ◌++◌, ◌∷◌, [], ◌^◌, ℕ, List, true, false, IfOk, Ok, Err};
ghost use Rattle.note_tallies.specs.Tally.{IsTallyTotal};
ghost use Rattle.note_tallies.specs.Lines.{untallied, finished};
ghost use Rattle.note_tallies.specs.Blank.{is_blank};
ghost use Rattle.note_tallies.specs.Filter.{TakesLine, numbered, numbered_answer};

use crate::filter_fault::FilterFault;
use crate::{LineTally, LineTallyFault, PageTally};
use book_core::Page;
use std::alloc::{AllocError, Global};
use std::marker::Model;

/// The tally of one page, of the lines of a stream so far.
#[derive(Drop)]
pub struct TallyFilter {
    tally: LineTally,
    lines: u64,
}

impl Model for TallyFilter {
    ghost use Rattle.note_tallies.specs.Filter.{Filtered};

    ghost Value = { Filtered };

    ghost view = { λ f. record { tally = f.tally; lines = f.lines } };
}

impl TallyFilter {
    /// A filter that has taken no line yet. The condition is a total from 1 to 1,000,000.
    pub fn new(alloc: Global, page: Page, total: u32) -> Result<TallyFilter, AllocError>
        requires { IsTallyTotal total }
        ensures { IfOk result (λ f. f ≡ record { tally = untallied page total; lines = 0 }) }
    {
        Ok(TallyFilter {
            tally: LineTally::new(alloc, page, total)?,
            lines: 0,
        })
    }

    /// Takes the next line, with its line feed. One that has nothing but blanks is passed over. The condition is fewer than
    /// 2^64-1 lines so far.
    ///
    /// Refusals, in this order: `Line`, `Order`, `Mixed`, `TooMany`. That a line is blank, and that one without a line feed is that of no
    /// note, takes no memory.
    pub fn take(&mut self, alloc: Global, line: &[u8]) -> Result<(), FilterFault>
        requires { self.old.lines + 1 < 2 ^ 64 }
        ensures exact { TakesLine self.old line.now result self.new }
        ensures blank { is_blank line.now ≡ true → result ≡ Ok tt }
        ensures unended { is_blank line.now ≡ false → ((text : List ℕ) → line.now ≢ text ++ 10 ∷ []) → result ≡ Err (FilterFault.Line (self.old.lines + 1)) }
    {
        self.lines += 1;
        if is_blank(line) {
            return Ok(());
        }
        numbered(self.tally.take(alloc, line), self.lines)
    }

    /// The number of lines so far.
    pub fn lines(&self) -> u64
        ensures { result ≡ self.now.lines }
    {
        self.lines
    }

    /// The tally of the lines so far.
    pub fn finish(self) -> PageTally
        ensures { result ≡ finished self.tally }
    {
        self.tally.finish()
    }
}

/// The answer of the line of this number.
fn numbered(taken: Result<(), LineTallyFault>, line: u64) -> Result<(), FilterFault>
    ensures { result ≡ numbered_answer taken line }
{
    match taken {
        Ok(()) => Ok(()),
        Err(fault) => Err(fault_at(fault, line)),
    }
}

/// The fault of the line of this number.
fn fault_at(fault: LineTallyFault, line: u64) -> FilterFault
    ensures { result ≡ numbered fault line }
{
    match fault {
        LineTallyFault::WantOfMemory => FilterFault::WantOfMemory,
        LineTallyFault::Line => FilterFault::Line(line),
        LineTallyFault::Order => FilterFault::Order(line),
        LineTallyFault::TooMany => FilterFault::TooMany,
        LineTallyFault::Mixed => FilterFault::Mixed(line),
    }
}

/// Whether a line has nothing but blanks.
fn is_blank(line: &[u8]) -> bool
    ensures { result ≡ is_blank line.now }
{
    line.iter().all(|b| *b == b' ' || *b == b'\t' || *b == b'\r' || *b == b'\n')
}
