//! The bytes of the value at a path.
ghost use Rattle.std.specs.Prelude.{◌≡◌, ◌≤◌, drop, length, IfOk, IfSome, option_map};
ghost use Rattle.text_spans.specs.Path.{place_of};
ghost use Rattle.text_spans.specs.View.{IsFound, path_of};

use crate::Cursor;
use crate::places::value_place;
use crate::steps::Step;
use json::{Scratch, is_valid};
use std::alloc::{AllocError, Global};

/// The bytes that a value takes in its text, from `start` up to `end`, in bytes from the text's first one.
#[derive(Clone, Copy, Debug, Drop, PartialEq, Eq)]
pub struct Span {
    pub start: usize,
    pub end: usize,
}

/// Where the value at the path stands in a JSON text: nowhere in a text that is none, or whose value has no such part.
///
/// It reads the text twice, and takes memory for the longest name or string with escapes.
pub fn find(alloc: Global, text: &str, path: &[Step<'_>]) -> Result<Option<Span>, AllocError>
    ensures exact { IfOk result (λ o. option_map (λ s. (drop s.start text.now, drop s.end text.now)) o ≡ place_of (path_of path.now) text.now) }
    ensures bounds { IfOk result (λ o. IfSome o (λ s. (s.start ≤ s.end) × (s.end ≤ length text.now))) }
    ensures stands { IfOk result (IsFound text.now (path_of path.now)) }
{
    let mut scratch = Scratch::new(alloc);
    if !is_valid(text, &mut scratch)? {
        return Ok(None);
    }
    let mut cursor = Cursor::new(text, &mut scratch)?;
    match value_place(&mut cursor, path) {
        Some(ends) => Ok(Some(Span {
            start: text.len() - ends.from.len(),
            end: text.len() - ends.behind.len(),
        })),
        None => Ok(None),
    }
}
