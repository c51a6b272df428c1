//! Lines that wait to be written.
ghost use Rattle.std.specs.Prelude.{◌≡◌, ◌++◌, []};
ghost use Rattle.std.specs.Bool.{MatchBool};
ghost use Rattle.service_layers.specs.Waiting.{left_out_after};

use std::alloc::Global;
use std::mem;

/// The most bytes of lines that wait to be written. Those beyond are left out.
const MOST_BYTES: usize = 16_777_216;

/// Lines that wait to be written, and how many were left out.
#[derive(Drop)]
pub struct WaitingLines {
    text: Vec<u8>,
    left_out: u64,
}

impl WaitingLines {
    /// No line waits, and none was left out.
    pub(crate) fn none(alloc: Global) -> WaitingLines
        ensures text { result.text.items ≡ [] }
        ensures left_out { result.left_out ≡ 0 }
    {
        WaitingLines {
            text: Vec::new(alloc),
            left_out: 0,
        }
    }

    /// Takes all lines.
    pub fn take(&mut self, alloc: Global) -> Vec<u8>
        ensures taken { result ≡ self.old.text }
        ensures left { self.new.text.items ≡ [] }
        ensures left_out { self.new.left_out ≡ self.old.left_out }
    {
        mem::replace(&mut self.text, Vec::new(alloc))
    }

    /// How many lines were left out, since memory ran out or too many waited.
    pub fn left_out(&self) -> u64
        ensures { result ≡ self.now.left_out }
    {
        self.left_out
    }

    /// Adds lines behind the others, so many of them, of a service which has left out so many others, and says whether there was room.
    /// Where there was none they are left out too.
    pub(crate) fn add(&mut self, own: &mut Vec<u8>, count: u64, left_out: u64) -> bool
        ensures text { MatchBool result (self.new.text.items ≡ self.old.text.items ++ own.old.items) (self.new.text.items ≡ self.old.text.items) }
        ensures left_out { self.new.left_out ≡ left_out_after result count left_out self.old.left_out }
        ensures own { own.new.items ≡ [] }
    {
        self.left_out = self.left_out.saturating_add(left_out);
        if self.append(own) {
            return true;
        }
        self.left_out = self.left_out.saturating_add(count);
        own.clear();
        false
    }

    /// Adds lines behind the others, and says whether there was room for them. Where there was none they are where they were.
    fn append(&mut self, own: &mut Vec<u8>) -> bool
        ensures added { MatchBool result ((self.new.text.items ≡ self.old.text.items ++ own.old.items) × (own.new.items ≡ [])) ((self.new.text.items ≡ self.old.text.items) × (own.new.items ≡ own.old.items)) }
        ensures left_out { self.new.left_out ≡ self.old.left_out }
    {
        if own.len() > MOST_BYTES.saturating_sub(self.text.len()) {
            return false;
        }
        self.text.append(own).is_ok()
    }
}
