//! From the bytes of note lines to a book.
ghost use Rattle.std.specs.Prelude.{◌≡◌, ◌≤◌, ℕ, length, IfErr, IsOk, OnOk, Ok, Err, if◌then◌else◌};
ghost use Rattle.book_core.specs.Book.{reply_to, with_input};
ghost use Rattle.book_core.specs.declared.fault.BookFault.TheVariants as noting;
ghost use Rattle.note_lines.specs.Note.{most_noted};
ghost use Rattle.note_lines.specs.Lines.{TakesNotes};
ghost use Rattle.note_lines.specs.Line.{TakesLine};
ghost use Rattle.note_lines.specs.Notes.{IsBookOf, Notes};
ghost use Rattle.note_lines.specs.declared.fault.NotesFault.TheVariants.{Line, PageFull};

use crate::blank::is_blank;
use crate::fault::{NotesFault, of_note};
use crate::read_note;
use book_core::{Book, Page};
use byte_streams::cut_line;
use std::alloc::Global;

/// The notes of a file, with those of a book.
#[derive(Drop)]
pub struct NotesTaken {
    /// The book of all.
    pub book: Book,
    /// How many lines that are none were passed over.
    pub passed: u64,
    /// Whether bytes stood behind the last line, which were passed over.
    pub torn: bool,
}

/// Adds the notes of a file of note lines to a book. A blank line is passed over, and so is a last line without its end; where
/// `passing`, so is every other line that is the line of no note.
///
/// Refusals, of the first line that is refused, in this order: `Line` where it is the line of no note; `PageFull`. Cost: linear
/// in the bytes, and a note each.
pub fn take_notes(
    alloc: Global,
    before: Book,
    bytes: &[u8],
    passing: bool,
) -> Result<NotesTaken, NotesFault>
    ensures { (all : Notes) → IsBookOf all before → TakesNotes passing all bytes.now result }
{
    let mut book = before;
    let mut lines = 0u64;
    let mut passed = 0u64;
    let mut rest = bytes;
    'lines: while let Some((line, behind)) = cut_line(rest) {
        lines += 1;
        if take_line(alloc, &mut book, line, lines, passing)? {
            passed += 1;
        }
        rest = behind;
    }
    Ok(NotesTaken {
        book,
        passed,
        torn: !rest.is_empty(),
    })
}

/// Takes the line of this number, with its line feed, and says whether it was passed over as the line of no note.
fn take_line(
    alloc: Global,
    book: &mut Book,
    line: &[u8],
    number: u64,
    passing: bool,
) -> Result<bool, NotesFault>
    ensures { TakesLine passing line.now number book.old book.new result }
{
    if is_blank(line) {
        return Ok(false);
    }
    let Some(note) = read_note(alloc, line)? else {
        return stray(number, passing);
    };
    add(alloc, book, &note.page, note.input.as_str())?;
    Ok(false)
}

/// What comes of the line of no note.
fn stray(number: u64, passing: bool) -> Result<bool, NotesFault>
    ensures { result ≡ (if passing then Ok passing else Err (Line number)) }
{
    if passing {
        Ok(true)
    } else {
        Err(NotesFault::Line(number))
    }
}

/// Adds the input of a note to a book.
fn add(alloc: Global, book: &mut Book, page: &Page, input: &str) -> Result<(), NotesFault>
    requires { length input.now ≤ most_noted }
    ensures taken { OnOk result (IsOk (reply_to book.old page.now input.now)) }
    ensures added { OnOk result (book.new ≡ with_input book.old page.now input.now) }
    ensures full { IfErr result (λ e. e ≡ PageFull → reply_to book.old page.now input.now ≡ Err noting.PageFull) }
    ensures one { IfErr result (λ e. (n : ℕ) → e ≡ Line n → ⊥) }
{
    match book.note(alloc, page, input) {
        Ok(_) => Ok(()),
        Err(fault) => Err(of_note(fault)),
    }
}
