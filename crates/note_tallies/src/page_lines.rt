//! The lines of one page's notes, which begin alike.
ghost use Rattle.std.specs.Prelude.{◌≡◌, IfOk, IfSome};
ghost use Rattle.note_lines.specs.Note.{IsNote, note_line};

use book_core::Page;
use flag_text::plain_text;
use limits::INPUT_BYTES;
use note_lines::note_line;
use std::alloc::{AllocError, Global};
use std::marker::Model;

/// A page, with what the lines of its notes begin with.
#[derive(Drop)]
pub(crate) struct PageLines {
    page: Page,
    // the line of a note up to its input
    head: Vec<u8>,
}

impl Model for PageLines {
    ghost use Rattle.book_core.specs.Page.{PageName};
    ghost use Rattle.note_tallies.specs.Head.{IsHead};

    ghost Value = { PageName };

    ghost view = { λ t. t.page };

    ghost invariant = { λ t. IsHead t.page t.head.items };
}

impl PageLines {
    /// Those of a page. Want of memory is the one fault.
    pub(crate) fn new(alloc: Global, page: Page) -> Result<PageLines, AllocError>
        ensures { IfOk result (λ lines. lines ≡ page) }
    {
        let mut head = note_line(alloc, &page, "")?;
        head.truncate(head.len() - b"\"\"]\n".len());
        Ok(PageLines { page, head })
    }

    /// The page.
    pub(crate) fn page(&self) -> &Page
        ensures { result.now ≡ self.now }
    {
        &self.page
    }

    /// The page.
    pub(crate) fn into_page(self) -> Page
        ensures { result ≡ self }
    {
        self.page
    }

    /// The input of the note that a line is of, where the note is of the page and its input is spelled without an escape. `None`
    /// says no more of the line: [`read_note`](note_lines::read_note) decides. Cost: two passes over the line, and no memory.
    pub(crate) fn plain_input<'a>(&self, line: &'a [u8]) -> Option<&'a str>
        ensures { IfSome result (λ input. IsNote (record { page = self.now; input = input.now }) × (line.now ≡ note_line (record { page = self.now; input = input.now }))) }
    {
        let rest = line.strip_prefix(self.head.as_slice())?;
        let input = plain_text(rest.strip_suffix(b"]\n")?)?;
        if input.len() > INPUT_BYTES {
            return None;
        }
        Some(input)
    }
}
