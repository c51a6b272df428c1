//! The file of asks, as it is read.
ghost use Rattle.std.specs.Prelude.{◌≡◌, ◌≤◌, ◌<◌, ◌↔◌, true, false, length, IfOk, IsErrOf};
ghost use Rattle.std.specs.Str.{is_utf8};
ghost use Rattle.flag_text.specs.Outcome.{GivesUnless};
ghost use Rattle.flag_text.specs.Reading.{tree_of};
ghost use Rattle.flag_text.specs.Shape.{is_whole};
ghost use Rattle.flagops_drive.specs.File.{file_view};

use crate::plain_ask::PlainAsk;
use crate::plain_asks::plain_asks;
use crate::unplain::Unplain;
use flag_text::{TextFault, Tree, read_tree};
use json::Scratch;
use std::alloc::Global;

/// What a file of asks holds: the asks, where each has the five members in the order of the documentation and no others, and
/// else the tree that the file is.
#[derive(Drop)]
pub enum AsksFile<'a> {
    Plain(Vec<PlainAsk<'a>>),
    Tree(Tree),
}

/// What the bytes of a file of asks hold. `max` is the most bytes that are read; the scratch holds the keys with escapes.
///
/// Refusals, as those of `read_tree`: `TooLarge`, `NotJson`, `TooDeep`, `NotWhole`. Cost: a pass over the bytes for their
/// encoding, one over the tokens, and the trees of the defaults and of the contexts; of bytes in another form also those of
/// `read_tree`.
pub fn read_asks<'a>(
    alloc: Global,
    bytes: &'a [u8],
    max: usize,
    scratch: &'a mut Scratch,
) -> Result<AsksFile<'a>, TextFault>
    ensures exact { GivesUnless TextFault.WantOfMemory file_view result (tree_of bytes.now max) }
    ensures whole { IfOk result (λ file. is_whole (file_view file) ≡ true) }
    ensures large { IsErrOf result TextFault.TooLarge ↔ (max < length bytes.now) }
    ensures no_text { length bytes.now ≤ max → is_utf8 bytes.now ≡ false → IsErrOf result TextFault.NotJson }
{
    match plain_asks(alloc, bytes, max, scratch) {
        Ok(asks) => Ok(AsksFile::Plain(asks)),
        Err(Unplain::WantOfMemory) => Err(TextFault::WantOfMemory),
        Err(Unplain::Otherwise) => Ok(AsksFile::Tree(read_tree(alloc, bytes, max)?)),
    }
}
