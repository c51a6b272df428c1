ghost use Rattle.std.specs.Prelude.{◌≡◌, ◌≢◌, [], Ok, IfOk, IsOk, OnOk, OnErr};
ghost use Rattle.flag_text.specs.Outcome.{GivesUnless};
ghost use Rattle.book_core.specs.Book.{IsBook, contents_view, inputs_on, input_count, is_among, reply_to, with_input};
ghost use Rattle.book_core.specs.Union.{Unites};

use crate::fault::BookFault;
use crate::inputs::PageInputs;
use crate::noted::Noted;
use crate::page::Page;
use crate::pages::{count_inputs, has_input, inputs_of, note_in};
use crate::union::with_pages;
use exposures::Exposure;
use std::alloc::{AllocError, Global};
use std::collections::BTreeMap;
use std::marker::Model;

/// The inputs that reached each `fractional` operation, each once on its page.
#[derive(Drop)]
pub struct Book {
    pages: BTreeMap<Page, PageInputs>,
}

impl Model for Book {
    ghost use Rattle.book_core.specs.Book.{Contents, IsBook, contents_view};

    ghost Value = { Contents };

    ghost view = { λ b. contents_view b.pages.entries };

    ghost invariant = { λ b. IsBook (contents_view b.pages.entries) };
}

impl Book {
    /// The book without pages. It takes no memory yet.
    pub fn new(alloc: Global) -> Book
        ensures { result ≡ [] }
    {
        Book {
            pages: BTreeMap::new(alloc),
        }
    }

    /// Notes an input on a page: New where it did not stand there, else Again. A new input is refused
    /// with InputTooLong where it has more than 1024 bytes, and with PageFull where the page has
    /// 1000000 inputs. A refusal leaves the book as it was. Cost: O(log pages + log inputs) comparisons, and once for
    /// each page, at its first new input that does not come after those before it, a pass over them; memory is taken
    /// for a new input alone, so that every other answer is given whatever is left of it.
    pub fn note(&mut self, alloc: Global, page: &Page, input: &str) -> Result<Noted, BookFault>
        ensures exact { GivesUnless BookFault.WantOfMemory (λ reply. reply) result (reply_to self.old page.now input.now) }
        ensures noted { OnOk result (self.new ≡ with_input self.old page.now input.now) }
        ensures refused { OnErr result (self.new ≡ self.old) }
        ensures no_memory { reply_to self.old page.now input.now ≢ Ok Noted.New → result ≡ reply_to self.old page.now input.now }
    {
        note_in(alloc, &mut self.pages, page, input)
    }

    /// A copy of the inputs on a page, none where the book does not have the page. Want of memory is its one fault, and none where
    /// there is no input. Cost: O(inputs of the page).
    pub fn exposure(&self, alloc: Global, page: &Page) -> Result<Exposure, AllocError>
        ensures inputs { IfOk result (λ inputs. inputs ≡ inputs_on self.now page.now) }
        ensures none { inputs_on self.now page.now ≡ [] → IsOk result }
    {
        inputs_of(alloc, &self.pages, page)
    }

    /// Whether an input stands on a page. It takes no memory. Cost: O(log pages + log inputs) comparisons.
    pub fn has(&self, page: &Page, input: &str) -> bool
        ensures { result ≡ is_among input.now (inputs_on self.now page.now) }
    {
        has_input(&self.pages, page, input)
    }

    /// The number of inputs on all pages. Cost: O(pages).
    pub fn inputs(&self) -> u128
        ensures count { result ≡ input_count self.now }
        ensures lawful { IsBook self.now }
    {
        count_inputs(&self.pages)
    }

    /// The book of the notes of this book and of another one: each page has the inputs that stand there in either. It is
    /// refused with PageFull where both together have more than 1000000 inputs of a page. Cost: as a note for each input
    /// of the other.
    pub fn union(self, alloc: Global, other: &Book) -> Result<Book, BookFault>
        ensures { Unites self other.now result }
    {
        let _ = &self.pages;
        with_pages(alloc, self, other.pages())
    }

    /// The book of these pages.
    pub(crate) fn of_pages(pages: BTreeMap<Page, PageInputs>) -> Book
        requires { IsBook (contents_view pages.entries) }
        ensures { result ≡ contents_view pages.entries }
    {
        Book { pages }
    }

    /// The pages with their inputs.
    pub(crate) fn pages(&self) -> &BTreeMap<Page, PageInputs>
        ensures contents { contents_view result.now.entries ≡ self.now }
        ensures lawful { IsBook self.now }
    {
        &self.pages
    }
}
