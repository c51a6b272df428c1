//! One book of two.
ghost use Rattle.std.specs.Prelude.{◌≡◌, Ok, map, string_bytes};
ghost use Rattle.flag_text.specs.Outcome.{GivesUnless};
ghost use Rattle.book_core.specs.Book.{contents_view, inputs_view};
ghost use Rattle.book_core.specs.Union.{with_inputs, with_pages};

use crate::book::Book;
use crate::fault::BookFault;
use crate::inputs::PageInputs;
use crate::page::Page;
use std::alloc::Global;
use std::collections::{BTreeMap, BTreeSet};

/// The book with the inputs of these pages.
pub(crate) fn with_pages(
    alloc: Global,
    book: Book,
    pages: &BTreeMap<Page, PageInputs>,
) -> Result<Book, BookFault>
    ensures { GivesUnless BookFault.WantOfMemory (λ both. both) result (with_pages (Ok book) (contents_view pages.now.entries)) }
{
    let mut both = book;
    for (page, inputs) in pages {
        both = with_inputs(alloc, both, page, inputs)?;
    }
    Ok(both)
}

/// The book with these inputs on a page.
fn with_inputs(
    alloc: Global,
    book: Book,
    page: &Page,
    inputs: &PageInputs,
) -> Result<Book, BookFault>
    ensures { GivesUnless BookFault.WantOfMemory (λ both. both) result (with_inputs book page.now (inputs_view inputs.now)) }
{
    match inputs {
        PageInputs::Listed(list) => with_list(alloc, book, page, list.as_slice()),
        PageInputs::Gathered(set) => with_set(alloc, book, page, set),
    }
}

fn with_list(alloc: Global, book: Book, page: &Page, list: &[String]) -> Result<Book, BookFault>
    ensures { GivesUnless BookFault.WantOfMemory (λ both. both) result (with_inputs book page.now (map string_bytes list.now)) }
{
    let mut both = book;
    for input in list {
        both.note(alloc, page, input.as_str())?;
    }
    Ok(both)
}

fn with_set(
    alloc: Global,
    book: Book,
    page: &Page,
    set: &BTreeSet<String>,
) -> Result<Book, BookFault>
    ensures { GivesUnless BookFault.WantOfMemory (λ both. both) result (with_inputs book page.now (map string_bytes set.now.keys)) }
{
    let mut both = book;
    for input in set {
        both.note(alloc, page, input.as_str())?;
    }
    Ok(both)
}
