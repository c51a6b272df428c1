//! The lines of a book, with no text for an input that stands for itself.
ghost use Rattle.std.specs.Prelude.{◌≡◌, ◌<◌, [], ◌∷◌, List, length, Ok, IfOk, IfSome, MatchOption};
ghost use Rattle.flag_text.specs.Outcome.{GivesUnless};
ghost use Rattle.book_core.specs.Lines.{line_view as file_line_view};
ghost use Rattle.book_core.specs.Reading.{FileLine, adds, leading, line_of, lines_of};
ghost use Rattle.page_tally.specs.BookLines.{line_view};

use book_core::{BookFileFault, Line as BookLine, Page, cut_line, read_as_tree};
use flag_text::plain_text;
use std::alloc::{AllocError, Global};

/// What a line stands for: a page, an input, or neither. The bytes of an input without escapes are those of the file.
#[derive(Drop)]
pub enum Line<'a> {
    Page(Page),
    Plain(&'a [u8]),
    Text(String),
    Other,
}

impl<'a> Line<'a> {
    /// The input, where it is one.
    pub fn input(&self) -> Option<&[u8]>
        ensures { MatchOption result ((after : List FileLine) → leading (line_view self.now ∷ after) ≡ []) (λ input. line_view self.now ≡ adds input.now) }
    {
        match self {
            Line::Plain(bytes) => Some(*bytes),
            Line::Text(text) => Some(text.as_bytes()),
            Line::Page(_) => None,
            Line::Other => None,
        }
    }
}

/// The line that stands first, where there is one, with the bytes behind it.
pub fn first_line<'a>(
    alloc: Global,
    bytes: &'a [u8],
) -> Result<Option<(Line<'a>, &'a [u8])>, AllocError>
    ensures next { IfOk result (λ r. MatchOption r (lines_of bytes.now ≡ []) (λ p. lines_of bytes.now ≡ line_view p.0 ∷ lines_of p.1.now)) }
    ensures shorter { IfOk result (λ r. IfSome r (λ p. length p.1.now < length bytes.now)) }
{
    if bytes.is_empty() {
        return Ok(None);
    }
    match cut_line(bytes) {
        Some((line, rest)) => {
            let line = read_line(alloc, line)?;
            Ok(Some((line, rest)))
        }
        None => Ok(Some((Line::Other, &bytes[bytes.len()..]))),
    }
}

/// What a line stands for. It fails only where memory runs out.
#[tactic(auto, unfolding(book_core::specs::Reading::line_of))]
fn read_line<'a>(alloc: Global, bytes: &'a [u8]) -> Result<Line<'a>, AllocError>
    ensures { IfOk result (λ line. line_view line ≡ line_of bytes.now) }
{
    if let Some(text) = plain_text(bytes) {
        return Ok(Line::Plain(text.as_bytes()));
    }
    match read_as_tree(alloc, bytes) {
        Ok(line) => Ok(owned(line)),
        Err(fault) => match fault {
            BookFileFault::WantOfMemory => Err(AllocError),
            // Reading a line has no other fault.
            _ => unreachable!(),
        },
    }
}

/// A line that borrows nothing.
fn owned<'a>(line: BookLine) -> Line<'a>
    ensures { line_view result ≡ file_line_view line }
{
    match line {
        BookLine::Page(page) => Line::Page(page),
        BookLine::Input(text) => Line::Text(text),
        BookLine::Other => Line::Other,
    }
}
