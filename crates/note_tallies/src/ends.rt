//! The least and the greatest line of a tally.
ghost use Rattle.std.specs.Prelude.{◌≡◌, ◌++◌, ◌∷◌, [], ◌↔◌, Some, option_map, IfOk, IfSome, IsTrue};
ghost use Rattle.flag_text.specs.Shape.{text};
ghost use Rattle.flag_text.specs.View.{view};
ghost use Rattle.note_tallies.specs.Tally.{AreEnds, IsHashLineOn, IsLineOn};
ghost use Rattle.note_tallies.specs.File.{end_shape, without_feed};
ghost use Rattle.note_tallies.specs.Ends.{IsTextLine};

use book_core::Page;
use flag_text::Tree;
use note_lines::{has_hash, read_hashed_note, read_note};
use std::alloc::{AllocError, Global};
use std::str;

/// Whether these are the first and the last line of so many inputs of a page.
pub(crate) fn are_ends(
    alloc: Global,
    page: &Page,
    inputs: u64,
    first: &Option<Vec<u8>>,
    last: &Option<Vec<u8>>,
) -> Result<bool, AllocError>
    ensures { IfOk result (λ are. IsTrue are ↔ AreEnds page.now inputs (option_map (λ v. v.items) first.now) (option_map (λ v. v.items) last.now)) }
{
    match (first, last) {
        (None, None) => Ok(inputs == 0),
        (Some(first), Some(last)) => {
            are_lines(alloc, page, inputs, first.as_slice(), last.as_slice())
        }
        (None, Some(_)) => Ok(false),
        (Some(_), None) => Ok(false),
    }
}

/// The same of two lines.
fn are_lines(
    alloc: Global,
    page: &Page,
    inputs: u64,
    first: &[u8],
    last: &[u8],
) -> Result<bool, AllocError>
    ensures { IfOk result (λ are. IsTrue are ↔ AreEnds page.now inputs (Some first.now) (Some last.now)) }
{
    if inputs == 0 || !first.cmp(last).is_le() || has_hash(first) != has_hash(last) {
        return Ok(false);
    }
    if !is_line_on(alloc, page, first)? {
        return Ok(false);
    }
    is_line_on(alloc, page, last)
}

/// Whether a line is that of an input of a page, or that of a hash.
fn is_line_on(alloc: Global, page: &Page, line: &[u8]) -> Result<bool, AllocError>
    ensures { IfOk result (λ is. IsTrue is ↔ IsLineOn page.now line.now) }
{
    match read_note(alloc, line)? {
        None => is_hash_line_on(alloc, page, line),
        Some(note) => Ok(note.page == *page),
    }
}

/// Whether a line is that of a hash.
fn is_hash_line_on(alloc: Global, page: &Page, line: &[u8]) -> Result<bool, AllocError>
    ensures { IfOk result (λ is. IsTrue is ↔ IsHashLineOn page.now line.now) }
{
    match read_hashed_note(alloc, line)? {
        None => Ok(false),
        Some(note) => Ok(note.page == *page),
    }
}

/// The text of a line without its line feed, null where there is no line.
pub(crate) fn end_tree(alloc: Global, line: &Option<Vec<u8>>) -> Result<Tree, AllocError>
    requires { IfSome line.now (λ v. IsTextLine v.items) }
    ensures { IfOk result (λ tree. view tree ≡ end_shape (option_map (λ v. v.items) line.now)) }
{
    match line {
        None => Ok(Tree::Null),
        Some(line) => text_tree(alloc, line.as_slice()),
    }
}

/// The same of a line.
fn text_tree(alloc: Global, line: &[u8]) -> Result<Tree, AllocError>
    requires { IsTextLine line.now }
    ensures { IfOk result (λ tree. view tree ≡ text (without_feed line.now)) }
{
    Ok(Tree::Text(String::from_str(alloc, text_of(line))?))
}

/// The text of a line.
fn text_of(line: &[u8]) -> &str
    requires { IsTextLine line.now }
    ensures { result.now ≡ without_feed line.now }
{
    str::from_utf8(&line[..line.len() - 1]).unwrap()
}
