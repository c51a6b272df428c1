//! The map from pages to inputs that a book keeps.
ghost use Rattle.std.specs.Prelude.{◌≡◌, ◌≢◌, [], Ok, IfOk, IsOk, OnOk, OnErr, None};
ghost use Rattle.std.specs.BTreeMap.{get};
ghost use Rattle.std.specs.BTreeSet.{insert_key};
ghost use Rattle.std.specs.List.Sorted.{IsStrictlySortedBy};
ghost use Rattle.flag_text.specs.Outcome.{GivesUnless};
ghost use Rattle.book_core.specs.Page.{bytes_cmp, page_cmp};
ghost use Rattle.book_core.specs.Book.{IsBook, input_count, inputs_on, is_among, page_reply, reply_to, with_input, inputs_view, contents_view};

use crate::fault::BookFault;
use crate::inputs::PageInputs;
use crate::noted::Noted;
use crate::page::Page;
use exposures::Exposure;
use limits::{INPUT_BYTES, PAGE_INPUTS};
use std::alloc::{AllocError, Global};
use std::collections::BTreeMap;

/// Notes an input on a page that has these inputs.
pub(crate) fn note_on(
    alloc: Global,
    inputs: &mut PageInputs,
    input: &str,
) -> Result<Noted, BookFault>
    requires { IsStrictlySortedBy bytes_cmp (inputs_view inputs.old) }
    ensures exact { GivesUnless BookFault.WantOfMemory (λ reply. reply) result (page_reply (inputs_view inputs.old) input.now) }
    ensures noted { OnOk result (inputs_view inputs.new ≡ insert_key bytes_cmp (inputs_view inputs.old) input.now) }
    ensures refused { OnErr result (inputs_view inputs.new ≡ inputs_view inputs.old) }
    ensures no_memory { page_reply (inputs_view inputs.old) input.now ≢ Ok Noted.New → result ≡ page_reply (inputs_view inputs.old) input.now }
{
    if input.len() > INPUT_BYTES {
        return Err(BookFault::InputTooLong);
    }
    let full = inputs.len() >= PAGE_INPUTS;
    if inputs.contains(input) {
        return Ok(Noted::Again);
    }
    if full {
        return Err(BookFault::PageFull);
    }
    inputs.insert(alloc, String::from_str(alloc, input)?)?;
    Ok(Noted::New)
}

/// Notes an input on its page.
pub(crate) fn note_in(
    alloc: Global,
    pages: &mut BTreeMap<Page, PageInputs>,
    page: &Page,
    input: &str,
) -> Result<Noted, BookFault>
    requires { IsBook (contents_view pages.old.entries) }
    ensures exact { GivesUnless BookFault.WantOfMemory (λ reply. reply) result (reply_to (contents_view pages.old.entries) page.now input.now) }
    ensures noted { OnOk result (contents_view pages.new.entries ≡ with_input (contents_view pages.old.entries) page.now input.now) }
    ensures refused { OnErr result (contents_view pages.new.entries ≡ contents_view pages.old.entries) }
    ensures no_memory { reply_to (contents_view pages.old.entries) page.now input.now ≢ Ok Noted.New → result ≡ reply_to (contents_view pages.old.entries) page.now input.now }
{
    match pages.get_mut(page) {
        Some(inputs) => note_on(alloc, inputs, input),
        None => note_first(alloc, pages, page, input),
    }
}

/// Notes the first input of a page that is not there yet.
fn note_first(
    alloc: Global,
    pages: &mut BTreeMap<Page, PageInputs>,
    page: &Page,
    input: &str,
) -> Result<Noted, BookFault>
    requires { get page_cmp pages.old page.now ≡ None }
    ensures exact { GivesUnless BookFault.WantOfMemory (λ reply. reply) result (reply_to (contents_view pages.old.entries) page.now input.now) }
    ensures noted { OnOk result (contents_view pages.new.entries ≡ with_input (contents_view pages.old.entries) page.now input.now) }
    ensures refused { OnErr result (contents_view pages.new.entries ≡ contents_view pages.old.entries) }
    ensures no_memory { reply_to (contents_view pages.old.entries) page.now input.now ≢ Ok Noted.New → result ≡ reply_to (contents_view pages.old.entries) page.now input.now }
{
    if input.len() > INPUT_BYTES {
        return Err(BookFault::InputTooLong);
    }
    let inputs = PageInputs::of_one(alloc, String::from_str(alloc, input)?)?;
    pages.insert(page.copy(alloc)?, inputs)?;
    Ok(Noted::New)
}

/// Whether an input stands on a page.
pub(crate) fn has_input(pages: &BTreeMap<Page, PageInputs>, page: &Page, input: &str) -> bool
    requires { IsBook (contents_view pages.now.entries) }
    ensures { result ≡ is_among input.now (inputs_on (contents_view pages.now.entries) page.now) }
{
    match pages.get(page) {
        Some(inputs) => inputs.contains(input),
        None => false,
    }
}

/// The inputs on a page.
pub(crate) fn inputs_of(
    alloc: Global,
    pages: &BTreeMap<Page, PageInputs>,
    page: &Page,
) -> Result<Exposure, AllocError>
    requires { IsBook (contents_view pages.now.entries) }
    ensures inputs { IfOk result (λ inputs. inputs ≡ inputs_on (contents_view pages.now.entries) page.now) }
    ensures none { inputs_on (contents_view pages.now.entries) page.now ≡ [] → IsOk result }
{
    match pages.get(page) {
        None => Ok(Exposure::of_rising(Vec::new(alloc))),
        Some(inputs) => inputs.exposure(alloc),
    }
}

/// The number of inputs on all pages.
pub(crate) fn count_inputs(pages: &BTreeMap<Page, PageInputs>) -> u128
    requires { IsBook (contents_view pages.now.entries) }
    ensures { result ≡ input_count (contents_view pages.now.entries) }
{
    let mut count: u128 = 0;
    for inputs in pages.values() {
        count += inputs.len() as u128;
    }
    count
}
