//! What the line of a note has of its input.
ghost use Rattle.std.specs.Prelude.{◌≡◌, IfOk};
ghost use Rattle.note_lines.specs.Hashed.{line_as};

use crate::hashed::hashed_line;
use crate::print::note_line;
use book_core::Page;
use murmur_core::hash;
use std::alloc::{AllocError, Global};

/// What the line of a note has of its input.
#[derive(Clone, Copy, Debug, PartialEq, Eq)]
pub enum NoteForm {
    /// The input.
    Input,
    /// The 32-bit hash of the input, and not the input.
    Hash,
}

/// The line of a note in this form. Want of memory is its one fault.
pub fn line_as(
    alloc: Global,
    form: NoteForm,
    page: &Page,
    input: &str,
) -> Result<Vec<u8>, AllocError>
    ensures { IfOk result (λ line. line.items ≡ line_as form (record { page = page.now; input = input.now })) }
{
    match form {
        NoteForm::Input => note_line(alloc, page, input),
        NoteForm::Hash => hashed_line(alloc, page, hash(input.as_bytes(), 0)),
    }
}
