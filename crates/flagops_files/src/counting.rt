//! How many inputs of a book another one does not have.
ghost use Rattle.std.specs.Prelude.{◌≡◌, IfOk};
ghost use Rattle.book_core.specs.Reading.{line_of, lines_of, pages_in};
ghost use Rattle.flagops_files.specs.LostLines.{IsCounted, has_line};
ghost use Rattle.flagops_files.specs.Losses.{lost_inputs};

use book_core::{Book, BookFileFault, Line, Page, cut_line, print_book, read_as_tree};
use flag_text::plain_text;
use page_tally::next_page;
use std::alloc::{AllocError, Global};

/// How many inputs of the old book do not stand on the same page of the new one. Want of memory is its one fault. Cost: the old
/// book is printed, and each of its inputs is looked for as by [`Book::has`].
#[tactic(auto, using(crate::proofs::Counted::no_book))]
pub fn lost_inputs(alloc: Global, old: &Book, new: &Book) -> Result<u64, AllocError>
    ensures { IfOk result (λ n. n ≡ lost_inputs old.now new.now) }
{
    let file = print_book(alloc, old)?;
    match cut_line(file.as_slice()) {
        Some((_header, lines)) => lost_on(alloc, lines, new),
        // No book: it has a line at least.
        None => Ok(0),
    }
}

/// The same of the pages that begin on lines.
#[tactic(auto, using(crate::proofs::Counted::goes_over, crate::proofs::Counted::goes_all))]
fn lost_on(alloc: Global, lines: &[u8], new: &Book) -> Result<u64, AllocError>
    ensures { IfOk result (λ n. n ≡ lost_inputs (pages_in (lines_of lines.now)) new.now) }
{
    let mut lost = 0;
    let mut rest = lines;
    'pages: while let Some((page, behind)) = next_page(alloc, rest)? {
        let (count, left) = lost_first(alloc, &page, behind, new)?;
        lost += count;
        rest = left;
    }
    Ok(lost)
}

/// How many of the inputs that stand first among the bytes the page of the new book does not have, and the bytes behind them.
#[tactic(auto, using(crate::proofs::Counted::none_yet))]
fn lost_first<'a>(
    alloc: Global,
    page: &Page,
    bytes: &'a [u8],
    new: &Book,
) -> Result<(u64, &'a [u8]), AllocError>
    ensures { IfOk result (λ r. IsCounted new.now page.now bytes.now r.0 r.1.now) }
{
    let mut lost = 0;
    let mut rest = bytes;
    'inputs: loop {
        let Some((line, behind)) = cut_line(rest) else {
            return Ok((lost, rest));
        };
        let found = has_line(alloc, new, page, line)?;
        match found {
            Some(is_kept) => lost += u64::from(!is_kept),
            None => return Ok((lost, rest)),
        }
        rest = behind;
    }
}

/// Whether the input of a line stands on a page of a book; `None` where the line is that of no input.
#[tactic(auto, unfolding(book_core::specs::Reading::line_of))]
fn has_line(
    alloc: Global,
    book: &Book,
    page: &Page,
    line: &[u8],
) -> Result<Option<bool>, AllocError>
    ensures { IfOk result (λ r. r ≡ has_line book.now page.now (line_of line.now)) }
{
    if let Some(text) = plain_text(line) {
        return Ok(Some(book.has(page, text)));
    }
    match read_as_tree(alloc, line) {
        Ok(Line::Input(text)) => Ok(Some(book.has(page, text.as_str()))),
        Ok(Line::Page(_)) => Ok(None),
        Ok(Line::Other) => Ok(None),
        Err(fault) => match fault {
            BookFileFault::WantOfMemory => Err(AllocError),
            // Reading a line has no other fault.
            _ => unreachable!(),
        },
    }
}
