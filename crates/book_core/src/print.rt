//! From a book to its file.
ghost use Rattle.std.specs.Prelude.{◌≡◌, ◌≤◌, ◌<◌, ◌^◌, ◌++◌, true, Ok, IfOk, OnOk, flat_map, map, string_bytes};
ghost use Rattle.std.specs.List.{AllByRecursion};
ghost use Rattle.flag_text.specs.Reading.{max_levels};
ghost use Rattle.flag_text.specs.Shape.{is_whole, levels, text};
ghost use Rattle.flag_text.specs.View.{view};
ghost use Rattle.book_core.specs.Book.{contents_view, inputs_view};
ghost use Rattle.book_core.specs.Printing.{Reads, ReadsPage, by_shape, line_text, inputs_text, header_shape, page_shape, page_text, book_text};
ghost use Rattle.book_core.specs.Reading.{book_of};

use crate::book::Book;
use crate::inputs::PageInputs;
use crate::page::Page;
use flag_text::{Tree, print_tree, push_text};
use std::alloc::{AllocError, Global};
use std::collections::{BTreeMap, BTreeSet};

/// The file of a book, which reads as the book: the line `{"book":1}`, then a line for each page and for each of its
/// inputs, in their order.
pub fn print_book(alloc: Global, book: &Book) -> Result<Vec<u8>, AllocError>
    ensures text { IfOk result (λ bytes. bytes.items ≡ book_text book.now) }
    ensures reads_back { IfOk result (λ bytes. book_of bytes.items ≡ Ok book.now) }
{
    let mut out = Vec::new(alloc);
    push_line(alloc, &mut out, &header_tree(alloc)?)?;
    push_pages(alloc, &mut out, book.pages())?;
    Ok(out)
}

/// Adds the lines of the pages.
fn push_pages(
    alloc: Global,
    out: &mut Vec<u8>,
    pages: &BTreeMap<Page, PageInputs>,
) -> Result<(), AllocError>
    ensures text { OnOk result (out.new.items ≡ out.old.items ++ flat_map page_text (contents_view pages.now.entries)) }
    ensures reads { OnOk result (AllByRecursion ReadsPage (contents_view pages.now.entries)) }
{
    for (page, inputs) in pages {
        push_page(alloc, out, page, inputs)?;
    }
    Ok(())
}

/// Adds the line of a page and those of its inputs.
fn push_page(
    alloc: Global,
    out: &mut Vec<u8>,
    page: &Page,
    inputs: &PageInputs,
) -> Result<(), AllocError>
    ensures text { OnOk result (out.new.items ≡ out.old.items ++ page_text (page.now, inputs_view inputs.now)) }
    ensures reads { OnOk result (ReadsPage (page.now, inputs_view inputs.now)) }
{
    push_line(alloc, out, &page_tree(alloc, page)?)?;
    push_inputs(alloc, out, inputs)
}

/// Adds a line for each input.
fn push_inputs(alloc: Global, out: &mut Vec<u8>, inputs: &PageInputs) -> Result<(), AllocError>
    ensures text { OnOk result (out.new.items ≡ out.old.items ++ inputs_text (inputs_view inputs.now)) }
    ensures reads { OnOk result (AllByRecursion (λ input. Reads (text input)) (inputs_view inputs.now)) }
{
    match inputs {
        PageInputs::Listed(list) => push_list(alloc, out, list.as_slice()),
        PageInputs::Gathered(set) => push_set(alloc, out, set),
    }
}

fn push_list(alloc: Global, out: &mut Vec<u8>, list: &[String]) -> Result<(), AllocError>
    ensures text { OnOk result (out.new.items ≡ out.old.items ++ inputs_text (map string_bytes list.now)) }
    ensures reads { OnOk result (AllByRecursion (λ input. Reads (text input)) (map string_bytes list.now)) }
{
    for input in list {
        push_input(alloc, out, input.as_str())?;
    }
    Ok(())
}

fn push_set(alloc: Global, out: &mut Vec<u8>, set: &BTreeSet<String>) -> Result<(), AllocError>
    ensures text { OnOk result (out.new.items ≡ out.old.items ++ inputs_text (map string_bytes set.now.keys)) }
    ensures reads { OnOk result (AllByRecursion (λ input. Reads (text input)) (map string_bytes set.now.keys)) }
{
    for input in set {
        push_input(alloc, out, input.as_str())?;
    }
    Ok(())
}

/// Adds the text of an input and a line feed.
fn push_input(alloc: Global, out: &mut Vec<u8>, input: &str) -> Result<(), AllocError>
    ensures text { OnOk result (out.new.items ≡ out.old.items ++ line_text (text input.now)) }
    ensures reads { OnOk result (Reads (text input.now)) }
{
    push_text(alloc, out, input)?;
    out.push(b'\n')?;
    Ok(())
}

/// Adds the text of a tree and a line feed.
fn push_line(alloc: Global, out: &mut Vec<u8>, tree: &Tree) -> Result<(), AllocError>
    requires whole { is_whole (view tree.now) ≡ true }
    requires shallow { levels (view tree.now) ≤ max_levels }
    ensures text { OnOk result (out.new.items ≡ out.old.items ++ line_text (view tree.now)) }
    ensures reads { OnOk result (Reads (view tree.now)) }
{
    let text = print_tree(alloc, tree)?;
    out.extend_from_slice(text.as_bytes())?;
    out.push(b'\n')?;
    Ok(())
}

fn header_tree(alloc: Global) -> Result<Tree, AllocError>
    ensures { IfOk result (λ tree. view tree ≡ header_shape) }
{
    let mut members = Vec::with_capacity(alloc, 1)?;
    members.push((String::from_str(alloc, "book")?, Tree::Whole(1)))?;
    Ok(Tree::Object(members))
}

fn page_tree(alloc: Global, page: &Page) -> Result<Tree, AllocError>
    ensures tree { IfOk result (λ tree. view tree ≡ page_shape page.now) }
    ensures site { page.now.site < 2 ^ 32 }
{
    let site = Tree::Whole(i64::from(page.site));
    let flag = Tree::Text(String::from_str(alloc, page.flag.as_str())?);
    let by = by_tree(alloc, page)?;
    let mut members = Vec::with_capacity(alloc, 3)?;
    members.push((String::from_str(alloc, "by")?, by))?;
    members.push((String::from_str(alloc, "flag")?, flag))?;
    members.push((String::from_str(alloc, "site")?, site))?;
    Ok(Tree::Object(members))
}

fn by_tree(alloc: Global, page: &Page) -> Result<Tree, AllocError>
    ensures { IfOk result (λ tree. view tree ≡ by_shape page.now.by) }
{
    match &page.by {
        None => Ok(Tree::Null),
        Some(text) => Ok(Tree::Text(String::from_str(alloc, text.as_str())?)),
    }
}
