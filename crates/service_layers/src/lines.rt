//! The lines of many services, until they are written.
ghost use Rattle.std.specs.Prelude.{◌≡◌, []};
ghost use Rattle.std.specs.Bool.{MatchBool};

use crate::waiting::WaitingLines;
use std::alloc::Global;
use std::sync::{Mutex, MutexGuard, Wait};

/// The lines of many services, until they are written.
#[derive(Drop)]
pub struct AccessLines {
    waiting: Mutex<WaitingLines>,
}

impl AccessLines {
    /// No line waits.
    pub fn new(alloc: Global) -> AccessLines {
        AccessLines {
            waiting: Mutex::new(WaitingLines::none(alloc)),
        }
    }

    /// The lines that wait, each behind those of its service that came before it. While they are held no service hands any over.
    pub fn waiting<R: Wait>(&self, rt: &R) -> MutexGuard<'_, WaitingLines> {
        self.waiting.lock(rt)
    }

    /// Hands over lines, so many of them, of a service which has left out so many others, and says whether it did: where others are
    /// handing over just now they stay. Where too many wait they are left out too.
    pub(crate) fn hand_over(&self, own: &mut Vec<u8>, count: u64, left_out: u64) -> bool
        ensures { MatchBool result (own.new.items ≡ []) (own.new ≡ own.old) }
    {
        let Some(waiting) = self.waiting.try_lock() else {
            return false;
        };
        let mut waiting = waiting;
        waiting.add(own, count, left_out);
        true
    }
}
