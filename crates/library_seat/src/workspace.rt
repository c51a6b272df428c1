//! Memory that a seat keeps from call to call.
ghost use Rattle.std.specs.Prelude.{◌≡◌, ◌<◌, ◌≤◌, ◌↔◌, true, false, length, IfOk, IsErrOf};
ghost use Rattle.std.specs.Str.{is_utf8};
ghost use Rattle.flag_text.specs.Outcome.{GivesUnless};
ghost use Rattle.flag_text.specs.Reading.{tree_of};
ghost use Rattle.flag_text.specs.Shape.{is_tidy, is_whole};
ghost use Rattle.flag_text.specs.View.{view};
ghost use Rattle.library_seat.specs.Question.{max_text};
ghost use Rattle.spelled_numbers.specs.Sent.{sent_tree_of};

use flag_text::{TextFault, Tree, read_doc_with, read_tree, whole_tree};
use json::Scratch;
use limits::TEXT_BYTES;
use spelled_numbers::{read_sent_tree, read_sent_with, shallow};
use std::alloc::Global;

/// Memory that a seat keeps from call to call, so that a call clears and takes less of it. What it holds makes no difference.
#[derive(Drop)]
pub(crate) struct Workspace {
    /// What texts are read in, from the first of them on: 16 KB, and as much as the longest has.
    scratch: Option<Box<Scratch>>,
    /// What answers are written in.
    pub(crate) answer: String,
}

impl Workspace {
    /// None yet.
    pub(crate) fn new(alloc: Global) -> Workspace {
        Workspace {
            scratch: None,
            answer: String::new(alloc),
        }
    }

    /// The tree of a text of whole numbers, as [`read_tree`] reads it.
    pub(crate) fn read_tree(&mut self, alloc: Global, bytes: &[u8]) -> Result<Tree, TextFault>
        ensures exact { GivesUnless TextFault.WantOfMemory view result (tree_of bytes.now max_text) }
        ensures whole { IfOk result (λ t. is_whole (view t) ≡ true) }
        ensures large { IsErrOf result TextFault.TooLarge ↔ (max_text < length bytes.now) }
        ensures no_text { length bytes.now ≤ max_text → is_utf8 bytes.now ≡ false → IsErrOf result TextFault.NotJson }
    {
        self.make_scratch(alloc);
        match &mut self.scratch {
            Some(scratch) => whole_tree(read_doc_with(alloc, bytes, TEXT_BYTES, &mut **scratch)?),
            None => read_tree(alloc, bytes, TEXT_BYTES),
        }
    }

    /// The tree of a text as an application sends it, as [`read_sent_tree`] reads it.
    pub(crate) fn read_sent_tree(&mut self, alloc: Global, bytes: &[u8]) -> Result<Tree, TextFault>
        ensures exact { GivesUnless TextFault.WantOfMemory view result (sent_tree_of bytes.now max_text) }
        ensures tidy { IfOk result (λ t. is_tidy (view t) ≡ true) }
        ensures large { IsErrOf result TextFault.TooLarge ↔ (max_text < length bytes.now) }
        ensures no_text { length bytes.now ≤ max_text → is_utf8 bytes.now ≡ false → IsErrOf result TextFault.NotJson }
    {
        self.make_scratch(alloc);
        match &mut self.scratch {
            Some(scratch) => shallow(read_sent_with(alloc, bytes, TEXT_BYTES, &mut **scratch)?),
            None => read_sent_tree(alloc, bytes, TEXT_BYTES),
        }
    }

    /// Takes what texts are read in, where there is none yet. Without memory for it each text is read in a room of its own.
    fn make_scratch(&mut self, alloc: Global) {
        if self.scratch.is_none() {
            self.scratch = new_scratch(alloc);
        }
    }
}

/// What texts are read in, where there is memory for it.
fn new_scratch(alloc: Global) -> Option<Box<Scratch>> {
    Box::new(alloc, Scratch::new(alloc)).ok()
}
