//! Diagnostics of books.
ghost use Rattle.std.specs.Prelude.{IfOk, string_bytes};
ghost use Rattle.file_diagnostics.specs.Named.{Names};

use crate::ends::Ends;
use crate::lines::{Lines, Opening};
use book_core::BookFileFault;
use std::alloc::{AllocError, Global};
use std::fmt::Display;

/// Explains why the file at `path`, whose ends are known, is not a book.
pub fn of_book(
    alloc: Global,
    path: &str,
    ends: Ends,
    fault: BookFileFault,
) -> Result<String, AllocError>
    ensures names { IfOk result (λ s. Names path.now (string_bytes s)) }
{
    let is_cut = match fault {
        BookFileFault::Line(line) => ends.is_cut_at(line),
        _ => false,
    };
    let mut lines = Lines::new(alloc);
    match ends {
        Ends::Empty => write!(lines, " is empty, which is not a book\n"),
        Ends::Marked => write!(
            lines,
            " begins with a byte order mark, so it is not a book\n  save it as UTF-8 without the mark\n",
        ),
        _ => put_misread(&mut lines, "book", is_cut, fault, taken(fault)),
    }
    lines.headed(Opening::Error, path)
}

/// The fault of a file with lines, and what is taken in place of it; or that the line at fault is the last one, which has no
/// line feed.
pub(crate) fn put_misread<F: Display + Drop>(
    lines: &mut Lines,
    what: &str,
    is_cut: bool,
    fault: F,
    taken: &str,
) {
    if is_cut {
        write!(
            lines,
            " is not a {what}: its last line has no line feed ({fault})\n  was it cut off? each line of a {what} ends with a line feed, the last one too\n",
        );
    } else {
        write!(lines, " is not a {what}: {fault}\n  {taken}\n");
    }
}

/// What is taken in place of a fault.
fn taken(fault: BookFileFault) -> &'static str {
    match fault {
        BookFileFault::Header => "a book begins with the line {\"book\":1}",
        BookFileFault::Line(_) => {
            "a page is {\"by\":null,\"flag\":\"KEY\",\"site\":0}, an input a JSON text, each on a line of its own with a line feed"
        }
        BookFileFault::Order(_) => {
            "pages are sorted by flag, site and by, inputs by their bytes, each once"
        }
        BookFileFault::InputTooLong(_) | BookFileFault::PageFull(_) => {
            "leave inputs out, or have the program write the book"
        }
        BookFileFault::WantOfMemory => "memory ran out as it was read",
    }
}

/// Explains why the file at `path` is not replaced by a book: it is not one itself.
pub fn of_other_file(alloc: Global, path: &str, fault: BookFileFault) -> Result<String, AllocError>
    ensures names { IfOk result (λ s. Names path.now (string_bytes s)) }
{
    let mut lines = Lines::new(alloc);
    write!(
        lines,
        " is a file that is not a book, and stays as it is: {fault}\n  give the path of a book, of an empty file, or a path where no file is yet\n",
    );
    lines.headed(Opening::Error, path)
}

/// Explains why the book at `path` is not added to: a page would have more than 1,000,000 inputs.
pub fn of_full_book(alloc: Global, path: &str) -> Result<String, AllocError>
    ensures names { IfOk result (λ s. Names path.now (string_bytes s)) }
{
    let mut lines = Lines::new(alloc);
    write!(
        lines,
        " cannot take the other inputs: a page would have more than 1,000,000\n  begin another book, or plan on a part of the users\n",
    );
    lines.headed(Opening::Error, path)
}
