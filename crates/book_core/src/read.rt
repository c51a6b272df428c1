//! From the bytes of a file to a book.
ghost use Rattle.std.specs.Prelude.{◌≡◌, ◌≢◌, ◌≤◌, ◌++◌, List, [], ◌∷◌, length, true, None, Some, IfErr, IfOk, OnOk, MatchOption, ◌+◌, map, string_bytes};
ghost use Rattle.std.specs.List.{list_all};
ghost use Rattle.std.specs.List.Sorted.{IsStrictlySortedBy};
ghost use Rattle.std.specs.Map.{keys_of};
ghost use Rattle.std.specs.Ordering.{is_lt};
ghost use Rattle.flag_text.specs.Outcome.{GivesUnless};
ghost use Rattle.book_core.specs.Book.{inputs_view, contents_view};
ghost use Rattle.book_core.specs.Lines.{TakesInputs, last_of, with_line, with_page};
ghost use Rattle.book_core.specs.Page.{PageName, bytes_cmp, page_cmp};
ghost use Rattle.book_core.specs.Reading.{FileLine, book_of, comes_after, ends_page, first_fault, unended_fault, input_fault, lines_book, lines_of};

use crate::book::Book;
use crate::fault::BookFileFault;
use crate::inputs::{PageInputs, is_above};
use crate::line::{Line, Lines, cut_line, is_header};
use crate::page::Page;
use limits::{INPUT_BYTES, PAGE_INPUTS};
use std::alloc::Global;
use std::collections::BTreeMap;

/// The book of a file: a line for each page and for each of its inputs, after a first line. Lines are numbered from 1,
/// and the first line at fault answers: Header where the first line is not the JSON value `{"book":1}`; Line where a
/// line is neither a page nor an input, has no line feed, is an input before a page, or is a page without inputs;
/// InputTooLong above 1024 bytes; Order where pages, or the inputs of a page, do not rise strictly; PageFull where the
/// page has 1000000 inputs before; on one line in this order. Cost: linear in the file, but for the comparisons of the
/// ordered maps; beside the bytes the book and one line are held.
pub fn read_book(alloc: Global, bytes: &[u8]) -> Result<Book, BookFileFault>
    ensures { GivesUnless BookFileFault.WantOfMemory (λ book. book) result (book_of bytes.now) }
{
    match cut_line(bytes) {
        None => Err(unended(is_header(alloc, bytes)?)),
        Some((first, rest)) => {
            if !is_header(alloc, first)? {
                return Err(BookFileFault::Header);
            }
            let mut lines = Lines { rest, taken: 1 };
            let pages = read_pages(alloc, &mut lines)?;
            Ok(Book::of_pages(pages))
        }
    }
}

/// The fault of a file that is its first line, without a line feed.
fn unended(header: bool) -> BookFileFault
    ensures { result ≡ unended_fault header }
{
    if header {
        BookFileFault::Line(1)
    } else {
        BookFileFault::Header
    }
}

/// Reads the pages.
fn read_pages(
    alloc: Global,
    lines: &mut Lines<'_>,
) -> Result<BTreeMap<Page, PageInputs>, BookFileFault>
    requires { lines.old.taken ≡ 1 }
    ensures { GivesUnless BookFileFault.WantOfMemory (λ pages. contents_view pages.entries) result (lines_book (lines_of lines.old.rest.now)) }
{
    let mut pages = BTreeMap::new(alloc);
    let mut next = first_page(alloc, lines)?;
    'pages: while let Some(page) = next {
        let number = lines.taken;
        let first = lines.take(alloc)?;
        if ends_page(&first) {
            return Err(BookFileFault::Line(number));
        }
        if !comes_after(&pages, &page) {
            return Err(BookFileFault::Order(number));
        }
        let (inputs, after) = read_inputs(alloc, lines, first)?;
        pages.insert(page, inputs)?;
        next = after;
    }
    Ok(pages)
}

/// Takes the line of the first page, where there is one.
fn first_page(alloc: Global, lines: &mut Lines<'_>) -> Result<Option<Page>, BookFileFault>
    ensures page { IfOk result (λ next. lines_of lines.old.rest.now ≡ with_page next (lines_of lines.new.rest.now)) }
    ensures number { IfOk result (λ next. MatchOption next (lines.new ≡ lines.old) (λ page. lines.new.taken ≡ lines.old.taken + 1)) }
    ensures fault { IfErr result (λ e. e ≢ BookFileFault.WantOfMemory →
        first_fault (lines.old.taken + 1) None (lines_of lines.old.rest.now) ≡ Some e) }
{
    match lines.take(alloc)? {
        None => Ok(None),
        Some(Line::Page(page)) => Ok(Some(page)),
        Some(Line::Input(_)) => Err(BookFileFault::Line(lines.taken)),
        Some(Line::Other) => Err(BookFileFault::Line(lines.taken)),
    }
}

/// Whether a page that stands before this line has no inputs.
fn ends_page(line: &Option<Line>) -> bool
    ensures { (after : List FileLine) → result ≡ ends_page (with_line line.now after) }
{
    match line {
        None => true,
        Some(Line::Page(_)) => true,
        Some(Line::Input(_)) => false,
        Some(Line::Other) => false,
    }
}

/// Whether the page comes after the last one.
fn comes_after(pages: &BTreeMap<Page, PageInputs>, page: &Page) -> bool
    ensures last { result ≡ comes_after (last_of (contents_view pages.now.entries)) page.now }
    ensures all { result ≡ true → list_all (λ other. is_lt (page_cmp other page.now)) (keys_of pages.now.entries) ≡ true }
{
    match pages.last_key_value() {
        None => true,
        Some((last, _)) => last < page,
    }
}

/// Reads the inputs of a page from this line on, up to the line of the next page.
fn read_inputs(
    alloc: Global,
    lines: &mut Lines<'_>,
    first: Option<Line>,
) -> Result<(PageInputs, Option<Page>), BookFileFault>
    ensures taken { IfOk result (λ r. TakesInputs lines.old.taken (with_line first (lines_of lines.old.rest.now))
        (inputs_view r.0) lines.new.taken (with_page r.1 (lines_of lines.new.rest.now))) }
    ensures shorter { OnOk result (length lines.new.rest.now ≤ length lines.old.rest.now) }
    ensures fault { IfErr result (λ e. e ≢ BookFileFault.WantOfMemory → (page : PageName) →
        first_fault lines.old.taken (Some (page, [])) (with_line first (lines_of lines.old.rest.now)) ≡ Some e) }
{
    let mut inputs = Vec::new(alloc);
    let mut line = first;
    'lines: loop {
        match line {
            None => return Ok((PageInputs::Listed(inputs), None)),
            Some(Line::Page(page)) => return Ok((PageInputs::Listed(inputs), Some(page))),
            Some(Line::Other) => return Err(BookFileFault::Line(lines.taken)),
            Some(Line::Input(input)) => {
                add_input(&mut inputs, input, lines.taken)?;
                line = lines.take(alloc)?;
            }
        }
    }
}

/// Adds an input, from the line of this number, to those of its page.
fn add_input(inputs: &mut Vec<String>, input: String, number: u64) -> Result<(), BookFileFault>
    requires { IsStrictlySortedBy bytes_cmp (map string_bytes inputs.old.items) }
    ensures added { OnOk result (map string_bytes inputs.new.items ≡ map string_bytes inputs.old.items ++ string_bytes input ∷ []) }
    ensures rising { OnOk result (IsStrictlySortedBy bytes_cmp (map string_bytes inputs.new.items)) }
    ensures faultless { OnOk result (input_fault number (map string_bytes inputs.old.items) (string_bytes input) ≡ None) }
    ensures fault { IfErr result (λ e. e ≢ BookFileFault.WantOfMemory → input_fault number (map string_bytes inputs.old.items) (string_bytes input) ≡ Some e) }
{
    if input.len() > INPUT_BYTES {
        return Err(BookFileFault::InputTooLong(number));
    }
    if !is_above(inputs.as_slice(), input.as_str()) {
        return Err(BookFileFault::Order(number));
    }
    if inputs.len() >= PAGE_INPUTS {
        return Err(BookFileFault::PageFull(number));
    }
    inputs.push(input)?;
    Ok(())
}
