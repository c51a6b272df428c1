//! A book by the bytes of its file, with no text for each input.
ghost use Rattle.std.specs.Prelude.{◌≡◌, ◌==◌, Ok, IfOk};
ghost use Rattle.std.specs.List.{list_all};
ghost use Rattle.bucket_core.specs.Rule.{IsRuleTotal};
ghost use Rattle.flag_text.specs.Outcome.{GivesUnless};
ghost use Rattle.book_core.specs.Book.{Contents, inputs_on};
ghost use Rattle.book_core.specs.Counts.{counts_of};
ghost use Rattle.book_core.specs.Listing.{has_none};
ghost use Rattle.book_core.specs.Reading.{book_of};

use crate::read::read_tally;
use crate::recorded::Recorded;
use book_core::{BookFileFault, Page};
use std::alloc::{AllocError, Global};
use std::marker::Model;
use std::thread::Threads;

/// A book that a file holds: the bytes of the file, and the tally of one page at one total.
#[derive(Drop)]
pub struct BookFile {
    bytes: Vec<u8>,
    page: Page,
    total: u32,
    counts: Vec<u32>,
}

impl Model for BookFile {
    ghost use Rattle.book_core.specs.Book.{Contents};
    ghost use Rattle.book_core.specs.Reading.{book_of};
    ghost use Rattle.page_tally.specs.File.{IsFile, contents_in};

    ghost Value = { Contents };

    ghost view = { λ f. contents_in (book_of f.bytes.items) };

    ghost invariant = { λ f. IsFile f.bytes.items f.page f.total f.counts.items };
}

impl BookFile {
    /// The book of a file, with its first line at fault as by `book_core::read_book`. The whole file is judged, and the
    /// inputs of a page are counted at a total, so that this tally costs no second reading. The condition is a total of a
    /// rule.
    pub fn read<R: Threads>(
        rt: &R,
        alloc: Global,
        bytes: Vec<u8>,
        page: Page,
        total: u32,
    ) -> Result<BookFile, BookFileFault>
        requires { IsRuleTotal total }
        ensures { GivesUnless BookFileFault.WantOfMemory (λ f. f) result (book_of bytes.items) }
    {
        match read_tally(rt, alloc, bytes.as_slice(), &page, total) {
            Ok(counts) => Ok(BookFile {
                bytes,
                page,
                total,
                counts,
            }),
            Err(fault) => Err(fault),
        }
    }

    /// The bytes of the file.
    pub fn bytes(&self) -> &[u8]
        ensures { book_of result.now ≡ Ok self.now }
    {
        self.bytes.as_slice()
    }

    /// Whether no input stands on a page. Want of memory is its one fault.
    pub fn has_none<R: Threads>(
        &self,
        rt: &R,
        alloc: Global,
        page: &Page,
    ) -> Result<bool, AllocError>
        ensures { IfOk result (λ none. none ≡ has_none (inputs_on self.now page.now)) }
    {
        if *page == self.page {
            return Ok(are_zero(self.counts.as_slice()));
        }
        let counts = self.counted(rt, alloc, page, 1)?;
        Ok(are_zero(counts.as_slice()))
    }

    /// The tally of a page, by reading the file again.
    fn counted<R: Threads>(
        &self,
        rt: &R,
        alloc: Global,
        page: &Page,
        total: u32,
    ) -> Result<Vec<u32>, AllocError>
        requires { IsRuleTotal total }
        ensures { IfOk result (λ counts. counts.items ≡ counts_of (inputs_on self.now page.now) total) }
    {
        match read_tally(rt, alloc, self.bytes.as_slice(), page, total) {
            Ok(counts) => Ok(counts),
            Err(fault) => match fault {
                BookFileFault::WantOfMemory => Err(AllocError),
                // The file was read before.
                _ => unreachable!(),
            },
        }
    }
}

/// Whether each number is 0.
fn are_zero(counts: &[u32]) -> bool
    ensures { result ≡ list_all (λ count. count == 0) counts.now }
{
    counts.iter().all(|count| *count == 0)
}

/// Equal numbers.
fn copied(alloc: Global, counts: &[u32]) -> Result<Vec<u32>, AllocError>
    ensures { IfOk result (λ copy. copy.items ≡ counts.now) }
{
    counts.to_vec(alloc)
}

impl Recorded for BookFile {
    ghost contents = { λ file. file };

    fn tally<R: Threads + Sync>(
        &self,
        rt: &R,
        alloc: Global,
        page: &Page,
        total: u32,
    ) -> Result<Vec<u32>, AllocError> {
        if *page == self.page && total == self.total {
            return copied(alloc, self.counts.as_slice());
        }
        self.counted(rt, alloc, page, total)
    }
}
