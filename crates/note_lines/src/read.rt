//! From a line to its note.
ghost use Rattle.std.specs.Prelude.{◌≡◌, ◌≢◌, ◌≤◌, ◌↔◌, ℕ, [], ◌∷◌, ◌++◌, List, length, None, Ok, IfOk, OnOk, IfSome, IsTrue, MatchOption};
ghost use Rattle.flag_text.specs.Reading.{tree_of};
ghost use Rattle.flag_text.specs.Shape.{Shape};
ghost use Rattle.flag_text.specs.View.{view};
ghost use Rattle.note_lines.specs.Note.{Noted, IsNote, most_noted, note_shape, note_line};
ghost use Rattle.note_lines.specs.Reading.{Reads};

use crate::note::{Note, tree_note};
use crate::print::note_line;
use flag_text::{TextFault, Tree, read_tree};
use limits::INPUT_BYTES;
use std::alloc::{AllocError, Global};

/// The note whose line this is, with its line feed: none where it is the line of no note. A list that is spelled
/// otherwise than [`note_line`](crate::note_line) spells it, with a blank or another escape, is no line of a note, and so is
/// one with an input above 1,024 bytes. Want of memory is the one fault; a line without a line feed is known to be none
/// without any.
pub fn read_note(alloc: Global, line: &[u8]) -> Result<Option<Note>, AllocError>
    ensures exact { IfOk result (Reads line.now) }
    ensures unended { ((text : List ℕ) → line.now ≢ text ++ 10 ∷ []) → result ≡ Ok None }
{
    let Some(text) = before_feed(line) else {
        return Ok(None);
    };
    let Some(tree) = tree_in(alloc, text)? else {
        return Ok(None);
    };
    spelled_note(alloc, &tree, line)
}

/// The bytes before the line feed that ends a line.
pub(crate) fn before_feed(line: &[u8]) -> Option<&[u8]>
    ensures { MatchOption result ((text : List ℕ) → line.now ≢ text ++ 10 ∷ []) (λ text. line.now ≡ text.now ++ 10 ∷ []) }
{
    match line {
        [text @ .., b'\n'] => Some(text),
        _ => None,
    }
}

/// The tree of a text, where it has one.
pub(crate) fn tree_in(alloc: Global, text: &[u8]) -> Result<Option<Tree>, AllocError>
    ensures { IfOk result (λ r. MatchOption r ((tree : Shape) → tree_of text.now (length text.now) ≢ Ok tree) (λ tree. tree_of text.now (length text.now) ≡ Ok (view tree))) }
{
    match read_tree(alloc, text, text.len()) {
        Ok(tree) => Ok(Some(tree)),
        Err(TextFault::WantOfMemory) => Err(AllocError),
        Err(_) => Ok(None),
    }
}

/// The note that a tree stands for, where its line is this one and its input is not too long.
fn spelled_note(alloc: Global, tree: &Tree, line: &[u8]) -> Result<Option<Note>, AllocError>
    ensures note { IfOk result (λ r. IfSome r (λ note. IsNote note × (line.now ≡ note_line note))) }
    ensures none { IfOk result (λ r. r ≡ None → (note : Noted) → IsNote note → line.now ≡ note_line note → view tree.now ≢ note_shape note) }
{
    let Some(note) = tree_note(alloc, tree)? else {
        return Ok(None);
    };
    if note.input.len() > INPUT_BYTES {
        return Ok(None);
    }
    if has_line(alloc, &note, line)? {
        Ok(Some(note))
    } else {
        Ok(None)
    }
}

/// Whether the line of a note is this one.
fn has_line(alloc: Global, note: &Note, line: &[u8]) -> Result<bool, AllocError>
    ensures line { IfOk result (λ same. IsTrue same ↔ (line.now ≡ note_line note.now)) }
    ensures note { OnOk result (length note.now.input ≤ most_noted → IsNote note.now) }
{
    let own = note_line(alloc, &note.page, note.input.as_str())?;
    Ok(own.as_slice() == line)
}
