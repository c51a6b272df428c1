//! Which pages a book has.
ghost use Rattle.std.specs.Prelude.{◌≡◌, IfOk, map};
ghost use Rattle.book_core.specs.Book.{contents_view, inputs_on};
ghost use Rattle.book_core.specs.Listing.{has_none, pages_of};

use crate::book::Book;
use crate::inputs::PageInputs;
use crate::page::Page;
use std::alloc::{AllocError, Global};
use std::collections::BTreeMap;

impl Book {
    /// Whether no input stands on a page. It takes no memory. Cost: O(log pages) comparisons.
    pub fn has_none(&self, page: &Page) -> bool
        ensures { result ≡ has_none (inputs_on self.now page.now) }
    {
        has_no_input(self.pages(), page)
    }

    /// The pages of a flag, in their order. Want of memory is its one fault. Cost: O(pages).
    pub fn pages_of(&self, alloc: Global, flag: &str) -> Result<Vec<&Page>, AllocError>
        ensures { IfOk result (λ v. map (λ p. p.now) v.items ≡ pages_of flag.now self.now) }
    {
        pages_named(alloc, self.pages(), flag)
    }
}

fn has_no_input(pages: &BTreeMap<Page, PageInputs>, page: &Page) -> bool
    ensures { result ≡ has_none (inputs_on (contents_view pages.now.entries) page.now) }
{
    match pages.get(page) {
        Some(inputs) => inputs.len() == 0,
        None => true,
    }
}

fn pages_named<'a>(
    alloc: Global,
    pages: &'a BTreeMap<Page, PageInputs>,
    flag: &str,
) -> Result<Vec<&'a Page>, AllocError>
    ensures { IfOk result (λ v. map (λ p. p.now) v.items ≡ pages_of flag.now (contents_view pages.now.entries)) }
{
    let mut named = Vec::new(alloc);
    for (page, _) in pages {
        if page.flag.as_str() == flag {
            named.push(page)?;
        }
    }
    Ok(named)
}
