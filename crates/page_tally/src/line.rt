//! What a line of a book file stands for.
ghost use Rattle.std.specs.Prelude.{◌≡◌, Ok};
ghost use Rattle.flag_text.specs.Outcome.{GivesUnless};
ghost use Rattle.book_core.specs.Lines.{line_view as file_line_view};
ghost use Rattle.book_core.specs.Reading.{line_of};
ghost use Rattle.page_tally.specs.Lines.{line_view};

use crate::input::Input;
use book_core::{BookFileFault, Line as FileLine, Page, read_as_tree};
use flag_text::plain_text;
use std::alloc::Global;

/// What a line stands for.
#[derive(Drop)]
pub(crate) enum Line<'a> {
    Page(Page),
    Input(Input<'a>),
    Other,
}

/// What a line stands for. A plain text between two quotes, as most lines of a book are, is its own reading.
#[tactic(auto, unfolding(book_core::specs::Reading::line_of))]
pub(crate) fn read_line<'a>(alloc: Global, bytes: &'a [u8]) -> Result<Line<'a>, BookFileFault>
    ensures { GivesUnless BookFileFault.WantOfMemory line_view result (Ok (line_of bytes.now)) }
{
    match plain_text(bytes) {
        Some(text) => Ok(Line::Input(Input::Plain(text.as_bytes()))),
        None => {
            let line = read_as_tree(alloc, bytes)?;
            Ok(owned(line))
        }
    }
}

/// A line that borrows nothing.
fn owned<'a>(line: FileLine) -> Line<'a>
    ensures { line_view result ≡ file_line_view line }
{
    match line {
        FileLine::Page(page) => Line::Page(page),
        FileLine::Input(text) => Line::Input(Input::Text(text)),
        FileLine::Other => Line::Other,
    }
}
