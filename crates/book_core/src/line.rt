//! The lines of a book file, one at a time.
ghost use Rattle.std.specs.Prelude.{◌≡◌, ◌+◌, ◌<◌, ◌^◌, [], ◌∷◌, length, MatchOption, IfSome, Ok, IfOk, IfErr};
ghost use Rattle.std.specs.List.{position, slice_split};
ghost use Rattle.flag_text.specs.Outcome.{GivesUnless};
ghost use Rattle.flag_text.specs.View.{view, members_view};
ghost use Rattle.flag_text.specs.Reading.{tree_of};
ghost use Rattle.book_core.specs.Lines.{line_view};
ghost use Rattle.book_core.specs.Reading.{is_feed, is_header, is_book_shape, is_book_member, is_one, page_of, page_line, shape_line, line_of, lines_of};

use crate::fault::BookFileFault;
use crate::members::page_in;
use crate::page::Page;
use flag_text::{TextFault, Tree, plain_text, read_tree};
use std::alloc::Global;

/// What a line of a book file stands for.
#[derive(Drop)]
pub enum Line {
    /// The page that the lines behind it are of.
    Page(Page),
    /// An input of that page.
    Input(String),
    /// What no book has.
    Other,
}

/// The bytes that are left of a file, and the number of lines that were taken before them.
#[derive(Drop)]
pub(crate) struct Lines<'a> {
    pub(crate) rest: &'a [u8],
    pub(crate) taken: u64,
    ghost counted: { taken + length rest.now < 2 ^ 64 },
}

impl<'a> Lines<'a> {
    /// Takes the next line, where there is one.
    pub(crate) fn take(&mut self, alloc: Global) -> Result<Option<Line>, BookFileFault>
        ensures next { IfOk result (λ r. MatchOption r (lines_of self.old.rest.now ≡ [])
            (λ line. lines_of self.old.rest.now ≡ line_view line ∷ lines_of self.new.rest.now)) }
        ensures number { IfOk result (λ r. MatchOption r (self.new ≡ self.old)
            (λ line. self.new.taken ≡ self.old.taken + 1)) }
        ensures shorter { IfOk result (λ r. MatchOption r (self.new ≡ self.old)
            (λ line. length self.new.rest.now < length self.old.rest.now)) }
        ensures want { IfErr result (λ e. e ≡ BookFileFault.WantOfMemory) }
    {
        let bytes = self.rest;
        if bytes.is_empty() {
            return Ok(None);
        }
        self.taken += 1;
        match cut_line(bytes) {
            Some((line, rest)) => {
                self.rest = rest;
                Ok(Some(read_line(alloc, line)?))
            }
            None => {
                self.rest = &bytes[bytes.len()..];
                Ok(Some(Line::Other))
            }
        }
    }
}

/// The bytes before the first line feed, and those after it; None where there is no line feed.
pub fn cut_line(bytes: &[u8]) -> Option<(&[u8], &[u8])>
    ensures parts { MatchOption result (slice_split is_feed bytes.now ≡ bytes.now ∷ [])
        (λ r. slice_split is_feed bytes.now ≡ r.0.now ∷ slice_split is_feed r.1.now) }
    ensures lengths { IfSome result (λ r. length r.0.now + length r.1.now + 1 ≡ length bytes.now) }
{
    match feed_at(bytes) {
        None => None,
        Some(at) => Some((&bytes[..at], &bytes[at + 1..])),
    }
}

/// Where the first line feed stands.
pub fn feed_at(bytes: &[u8]) -> Option<usize>
    ensures { result ≡ position is_feed bytes.now }
{
    bytes.iter().position(|b| *b == b'\n')
}

/// What a line stands for. A plain text between two quotes, as most lines of a book are, is its own reading.
#[tactic(auto, unfolding(crate::specs::Reading::line_of))]
fn read_line(alloc: Global, bytes: &[u8]) -> Result<Line, BookFileFault>
    ensures { GivesUnless BookFileFault.WantOfMemory line_view result (Ok (line_of bytes.now)) }
{
    match plain_text(bytes) {
        Some(text) => Ok(Line::Input(String::from_str(alloc, text)?)),
        None => read_as_tree(alloc, bytes),
    }
}

/// What a line stands for, by its tree. It fails only where memory runs out.
#[tactic(auto, unfolding(crate::specs::Reading::line_of))]
pub fn read_as_tree(alloc: Global, bytes: &[u8]) -> Result<Line, BookFileFault>
    ensures { GivesUnless BookFileFault.WantOfMemory line_view result (Ok (line_of bytes.now)) }
{
    match read_tree(alloc, bytes, bytes.len()) {
        Ok(tree) => tree_line(alloc, tree),
        Err(TextFault::WantOfMemory) => Err(BookFileFault::WantOfMemory),
        Err(_) => Ok(Line::Other),
    }
}

fn tree_line(alloc: Global, tree: Tree) -> Result<Line, BookFileFault>
    ensures { GivesUnless BookFileFault.WantOfMemory line_view result (Ok (shape_line (view tree))) }
{
    match tree {
        Tree::Text(text) => Ok(Line::Input(text)),
        Tree::Object(members) => page_line(alloc, &Tree::Object(members)),
        _ => Ok(Line::Other),
    }
}

fn page_line(alloc: Global, tree: &Tree) -> Result<Line, BookFileFault>
    ensures { GivesUnless BookFileFault.WantOfMemory line_view result (Ok (page_line (page_of (view tree.now)))) }
{
    match page_in(alloc, tree)? {
        Some(page) => Ok(Line::Page(page)),
        None => Ok(Line::Other),
    }
}

/// Whether a line is the first one of a book. It fails only where memory runs out.
pub fn is_header(alloc: Global, bytes: &[u8]) -> Result<bool, BookFileFault>
    ensures { GivesUnless BookFileFault.WantOfMemory (λ b. b) result (Ok (is_header (tree_of bytes.now (length bytes.now)))) }
{
    match read_tree(alloc, bytes, bytes.len()) {
        Ok(tree) => Ok(is_book_object(&tree)),
        Err(TextFault::WantOfMemory) => Err(BookFileFault::WantOfMemory),
        Err(_) => Ok(false),
    }
}

fn is_book_object(tree: &Tree) -> bool
    ensures { result ≡ is_book_shape (view tree.now) }
{
    match tree {
        Tree::Object(members) => is_book_member(members.as_slice()),
        _ => false,
    }
}

fn is_book_member(members: &[(String, Tree)]) -> bool
    ensures { result ≡ is_book_member (members_view members.now) }
{
    match members {
        [] => false,
        [(name, value)] => name.as_str() == "book" && is_one(value),
        [_, _, ..] => false,
    }
}

fn is_one(tree: &Tree) -> bool
    ensures { result ≡ is_one (view tree.now) }
{
    matches!(tree, Tree::Whole(1))
}
