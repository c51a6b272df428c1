//! From the bytes of a text to a tree.
ghost use Rattle.std.specs.Prelude.{◌≡◌, ◌<◌, ◌≤◌, ◌↔◌, ◌≢◌, true, false, length, Ok, Err, IfOk, IsErrOf};
ghost use Rattle.std.specs.Str.{is_utf8};
ghost use Rattle.serde_json.specs.Read.{read};
ghost use Rattle.flag_text.specs.Outcome.{GivesUnless, seen_as};
ghost use Rattle.flag_text.specs.Reading.{max_levels, if_json, doc_of, if_whole, tree_of};
ghost use Rattle.flag_text.specs.Shape.{is_tidy, is_whole, levels};
ghost use Rattle.flag_text.specs.View.{view};

use crate::fault::TextFault;
use crate::tokens::read_value;
use crate::tree::{Tree, fits, has_other};
use json::{Reader, Scratch};
use simdutf8::basic;
use std::alloc::Global;

/// How deep lists and objects of a JSON text nest at most, as `serde_json` reads it.
pub const JSON_LEVELS: usize = 127;

/// How deep lists and objects of a context, a request or another text of whole numbers nest at most.
pub const TREE_LEVELS: usize = 120;

/// The tree that the bytes of a JSON text stand for, with `Other` for each number that is not whole.
/// A member that is repeated under its name takes the place of the one before. `max` is the most bytes
/// that are read.
///
/// Refusals, in this order: `TooLarge`, before anything is read; `NotJson`. The first, and the second
/// of bytes that are not UTF-8, take no memory. The cost is two passes over the bytes, and a
/// comparison of names for each step of a sorted insert.
pub fn read_doc(alloc: Global, bytes: &[u8], max: usize) -> Result<Tree, TextFault>
    ensures exact { GivesUnless TextFault.WantOfMemory view result (doc_of bytes.now max) }
    ensures tidy { IfOk result (λ t. is_tidy (view t) ≡ true) }
    ensures large { IsErrOf result TextFault.TooLarge ↔ (max < length bytes.now) }
    ensures no_text { length bytes.now ≤ max → is_utf8 bytes.now ≡ false → IsErrOf result TextFault.NotJson }
{
    read_doc_with(alloc, bytes, max, &mut Scratch::new(alloc))
}

/// As [`read_doc`], with room that the caller keeps from text to text. What the room holds makes no difference.
pub fn read_doc_with(
    alloc: Global,
    bytes: &[u8],
    max: usize,
    scratch: &mut Scratch,
) -> Result<Tree, TextFault>
    ensures exact { GivesUnless TextFault.WantOfMemory view result (doc_of bytes.now max) }
    ensures tidy { IfOk result (λ t. is_tidy (view t) ≡ true) }
    ensures large { IsErrOf result TextFault.TooLarge ↔ (max < length bytes.now) }
    ensures no_text { length bytes.now ≤ max → is_utf8 bytes.now ≡ false → IsErrOf result TextFault.NotJson }
{
    if bytes.len() > max {
        return Err(TextFault::TooLarge);
    }
    match basic::from_utf8(bytes) {
        Ok(text) => text_tree(alloc, text, scratch),
        Err(_) => Err(TextFault::NotJson),
    }
}

/// The tree that a JSON text stands for.
fn text_tree(alloc: Global, text: &str, scratch: &mut Scratch) -> Result<Tree, TextFault>
    ensures exact { GivesUnless TextFault.WantOfMemory view result (if_json (read text.now)) }
    ensures kind { result ≢ Err TextFault.TooLarge }
{
    let mut reader = Reader::new(text, scratch)?;
    let tree = read_value(alloc, &mut reader, JSON_LEVELS)?;
    if reader.next().is_some() {
        return Err(TextFault::NotJson);
    }
    Ok(tree)
}

/// As [`read_doc`], for texts whose numbers are all whole and that have at most 120 levels.
///
/// Refusals, in this order: `TooLarge`, `NotJson`, `TooDeep`, `NotWhole`. The last two are those of
/// [`whole_tree`], which takes no memory.
pub fn read_tree(alloc: Global, bytes: &[u8], max: usize) -> Result<Tree, TextFault>
    ensures exact { GivesUnless TextFault.WantOfMemory view result (tree_of bytes.now max) }
    ensures whole { IfOk result (λ t. is_whole (view t) ≡ true) }
    ensures shallow { IfOk result (λ t. levels (view t) ≤ max_levels) }
    ensures large { IsErrOf result TextFault.TooLarge ↔ (max < length bytes.now) }
    ensures no_text { length bytes.now ≤ max → is_utf8 bytes.now ≡ false → IsErrOf result TextFault.NotJson }
{
    whole_tree(read_doc(alloc, bytes, max)?)
}

/// The tree itself, where it has at most 120 levels and its numbers are all whole. It takes no memory.
///
/// Refusals, in this order: `TooDeep`, `NotWhole`.
pub fn whole_tree(tree: Tree) -> Result<Tree, TextFault>
    ensures exact { seen_as view result ≡ if_whole (Ok (view tree)) }
    ensures whole { is_tidy (view tree) ≡ true → IfOk result (λ t. is_whole (view t) ≡ true) }
    ensures shallow { IfOk result (λ t. levels (view t) ≤ max_levels) }
{
    if !fits(&tree, TREE_LEVELS) {
        return Err(TextFault::TooDeep);
    }
    if has_other(&tree) {
        return Err(TextFault::NotWhole);
    }
    Ok(tree)
}
