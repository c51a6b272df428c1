//! Notes without their inputs, and their lines.
ghost use Rattle.std.specs.Prelude.{◌≡◌, ◌≢◌, ◌↔◌, ℕ, [], ◌∷◌, ◌++◌, List, None, Ok, IfOk, OnOk, IfSome, IsTrue};
ghost use Rattle.flag_text.specs.View.{view};
ghost use Rattle.note_lines.specs.Hashed.{Hashed, IsHashed, hashed_line, hashed_shape};
ghost use Rattle.note_lines.specs.Reading.{ReadsHashed, shape_hashed};

use crate::parts::page_and_last;
use crate::print::line_with;
use crate::read::{before_feed, tree_in};
use book_core::{Page, site_of};
use flag_text::Tree;
use std::alloc::{AllocError, Global};
use std::marker::Model;

/// That an input with this hash reached the `fractional` operation of a page.
#[derive(Debug, Drop)]
pub struct HashedNote {
    /// The operation.
    pub page: Page,
    /// The 32-bit hash of the input.
    pub hash: u32,
}

impl Model for HashedNote {
    ghost use Rattle.note_lines.specs.Hashed.{Hashed};

    ghost Value = { Hashed };

    ghost view = { λ n. record { page = n.page; hash = n.hash } };
}

/// The line of a note without its input: the compact JSON text `[FLAG,SITE,BY,HASH]` and a line feed. Want of memory is its
/// one fault.
#[tactic(auto, unfolding(book_core::specs::Hashed::hashed_line))]
pub fn hashed_line(alloc: Global, page: &Page, hash: u32) -> Result<Vec<u8>, AllocError>
    ensures text { IfOk result (λ line. line.items ≡ hashed_line (record { page = page.now; hash = hash })) }
    ensures note { OnOk result (IsHashed (record { page = page.now; hash = hash })) }
{
    line_with(alloc, page, Tree::Whole(i64::from(hash)))
}

/// The note whose line this is, with its line feed, where that has no input but a hash: none where it is the line of no such
/// note, as where the hash is spelled otherwise than [`hashed_line`] spells it. Want of memory is the one fault; a line
/// without a line feed is known to be none without any.
pub fn read_hashed_note(alloc: Global, line: &[u8]) -> Result<Option<HashedNote>, AllocError>
    ensures exact { IfOk result (ReadsHashed line.now) }
    ensures unended { ((text : List ℕ) → line.now ≢ text ++ 10 ∷ []) → result ≡ Ok None }
{
    let Some(text) = before_feed(line) else {
        return Ok(None);
    };
    let Some(tree) = tree_in(alloc, text)? else {
        return Ok(None);
    };
    spelled_note(alloc, &tree, line)
}

/// The note that a tree stands for, where its line is this one.
fn spelled_note(alloc: Global, tree: &Tree, line: &[u8]) -> Result<Option<HashedNote>, AllocError>
    ensures note { IfOk result (λ r. IfSome r (λ note. IsHashed note × (line.now ≡ hashed_line note))) }
    ensures none { IfOk result (λ r. r ≡ None → (note : Hashed) → IsHashed note → line.now ≡ hashed_line note → view tree.now ≢ hashed_shape note) }
{
    let Some(note) = tree_note(alloc, tree)? else {
        return Ok(None);
    };
    if has_line(alloc, &note, line)? {
        Ok(Some(note))
    } else {
        Ok(None)
    }
}

/// The note of a list `[FLAG,SITE,BY,HASH]`.
fn tree_note(alloc: Global, tree: &Tree) -> Result<Option<HashedNote>, AllocError>
    ensures { IfOk result (λ note. note ≡ shape_hashed (view tree.now)) }
{
    let Some((page, last)) = page_and_last(alloc, tree)? else {
        return Ok(None);
    };
    let Some(hash) = site_of(last) else {
        return Ok(None);
    };
    Ok(Some(HashedNote { page, hash }))
}

/// Whether the line of a note is this one.
fn has_line(alloc: Global, note: &HashedNote, line: &[u8]) -> Result<bool, AllocError>
    ensures line { IfOk result (λ same. IsTrue same ↔ (line.now ≡ hashed_line note.now)) }
    ensures note { OnOk result (IsHashed note.now) }
{
    let own = hashed_line(alloc, &note.page, note.hash)?;
    Ok(own.as_slice() == line)
}
