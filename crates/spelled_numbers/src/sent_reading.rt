//! From the bytes of a text to a tree.
ghost use Rattle.std.specs.Prelude.{◌≡◌, ◌<◌, ◌≤◌, ◌↔◌, true, false, length, IfOk, IsErrOf, Ok};
ghost use Rattle.std.specs.Str.{is_utf8};
ghost use Rattle.flag_text.specs.Outcome.{GivesUnless, seen_as};
ghost use Rattle.flag_text.specs.Shape.{is_tidy};
ghost use Rattle.flag_text.specs.View.{view};
ghost use Rattle.flag_text.specs.Reading.{if_json, json_of};
ghost use Rattle.spelled_numbers.specs.Sent.{if_shallow, respelled, sent_of, sent_tree_of};

use crate::levels::{fits, without_spelling};
use crate::respelling::respelled;
use crate::walk::are_spelled_whole;
use flag_text::{TREE_LEVELS, TextFault, Tree, read_doc_with};
use json::Scratch;
use simdutf8::basic;
use std::alloc::Global;

/// The tree that the bytes of a JSON text stand for. A number whose decimal value is whole and from -(2^53-1) to 2^53-1 is that whole
/// number however it is spelled; any other is an object of one member, `Other`, whose name is a point and the spelling. `max` is the most
/// bytes that are read.
///
/// Refusals, in this order: `TooLarge`, before anything is read; `NotJson`. The first, and the second of bytes that are not UTF-8,
/// take no memory.
pub fn read_sent(alloc: Global, bytes: &[u8], max: usize) -> Result<Tree, TextFault>
    ensures exact { GivesUnless TextFault.WantOfMemory view result (sent_of bytes.now max) }
    ensures tidy { IfOk result (λ t. is_tidy (view t) ≡ true) }
    ensures large { IsErrOf result TextFault.TooLarge ↔ (max < length bytes.now) }
    ensures no_text { length bytes.now ≤ max → is_utf8 bytes.now ≡ false → IsErrOf result TextFault.NotJson }
{
    read_sent_with(alloc, bytes, max, &mut Scratch::new(alloc))
}

/// As [`read_sent`], with room that the caller keeps from text to text. What the room holds makes no difference.
pub fn read_sent_with(
    alloc: Global,
    bytes: &[u8],
    max: usize,
    scratch: &mut Scratch,
) -> Result<Tree, TextFault>
    ensures exact { GivesUnless TextFault.WantOfMemory view result (sent_of bytes.now max) }
    ensures tidy { IfOk result (λ t. is_tidy (view t) ≡ true) }
    ensures large { IsErrOf result TextFault.TooLarge ↔ (max < length bytes.now) }
    ensures no_text { length bytes.now ≤ max → is_utf8 bytes.now ≡ false → IsErrOf result TextFault.NotJson }
{
    if bytes.len() > max {
        return Err(TextFault::TooLarge);
    }
    match basic::from_utf8(bytes) {
        Ok(text) => respelled_tree(alloc, text.as_bytes(), scratch),
        Err(_) => Err(TextFault::NotJson),
    }
}

/// The tree that a text stands for once it is respelled, which most are as themselves.
fn respelled_tree(alloc: Global, text: &[u8], scratch: &mut Scratch) -> Result<Tree, TextFault>
    ensures exact { GivesUnless TextFault.WantOfMemory view result (if_json (json_of (respelled text.now))) }
    ensures tidy { IfOk result (λ t. is_tidy (view t) ≡ true) }
{
    if are_spelled_whole(text) {
        return read_doc_with(alloc, text, usize::MAX, scratch);
    }
    let respelled = respelled(alloc, text)?;
    read_doc_with(alloc, respelled.as_slice(), usize::MAX, scratch)
}

/// The tree that the bytes of a JSON text stand for, as [`read_sent`] reads them, where it has at most 120 levels, as a context may.
///
/// Refusals, in this order: `TooLarge`, before anything is read; `NotJson`; `TooDeep`. The first, and the second of bytes that are not
/// UTF-8, take no memory.
pub fn read_sent_tree(alloc: Global, bytes: &[u8], max: usize) -> Result<Tree, TextFault>
    ensures exact { GivesUnless TextFault.WantOfMemory view result (sent_tree_of bytes.now max) }
    ensures tidy { IfOk result (λ t. is_tidy (view t) ≡ true) }
    ensures large { IsErrOf result TextFault.TooLarge ↔ (max < length bytes.now) }
    ensures no_text { length bytes.now ≤ max → is_utf8 bytes.now ≡ false → IsErrOf result TextFault.NotJson }
{
    shallow(read_sent(alloc, bytes, max)?)
}

/// The tree, where it has at most 120 levels; else `TooDeep`. An object that stands for a number is no level, and alone it is `Other`.
pub fn shallow(tree: Tree) -> Result<Tree, TextFault>
    requires { is_tidy (view tree) ≡ true }
    ensures exact { seen_as view result ≡ if_shallow (Ok (view tree)) }
    ensures tidy { IfOk result (λ t. is_tidy (view t) ≡ true) }
{
    if fits(&tree, TREE_LEVELS) {
        Ok(without_spelling(tree))
    } else {
        Err(TextFault::TooDeep)
    }
}
