//! Whose turn it is.
ghost use Rattle.std.specs.Prelude.{◌≡◌, ◌+◌, IfNone, IfSome, MatchOption};
ghost use Rattle.control_desk.specs.Obstacles.{Grows, IsTaken, met_by};

use crate::obstacles::Obstacles;
use std::sync::atomic::{AtomicBool, Ordering};
use std::sync::{Mutex, MutexGuard};
use std::thread;
use std::time::{Clock, Duration};

/// How often one that waits looks for its turn, and the milliseconds between.
const LOOKS: u32 = 500;

const PAUSE_MILLIS: u64 = 20;

/// The turn of desks that share it: one has it at a time, and one waits for it.
#[derive(Drop)]
pub(crate) struct Turn {
    held: Mutex<()>,
    is_awaited: AtomicBool,
}

impl Turn {
    /// Nobody has it.
    pub(crate) fn new() -> Turn {
        Turn {
            held: Mutex::new(()),
            is_awaited: AtomicBool::new(false),
        }
    }

    /// Takes it, and waits for it for ten seconds where another has it. None where it does not come by then, or another waits.
    pub(crate) fn take<R: Clock>(&self, rt: &R, met: &mut Obstacles) -> Option<MutexGuard<'_, ()>>
        ensures none { IfNone result (IsTaken (met_by met.old) (met_by met.new)) }
        ensures grows { Grows (met_by met.old) (met_by met.new) }
    {
        if let Some(held) = self.try_take(met) {
            return Some(held);
        }
        if self.is_awaited.swap(true, Ordering::SeqCst) {
            met.meet_awaited();
            return None;
        }
        let held = self.wait(rt, met);
        self.is_awaited.store(false, Ordering::SeqCst);
        held
    }

    /// Takes it where nobody has it.
    fn try_take(&self, met: &mut Obstacles) -> Option<MutexGuard<'_, ()>>
        ensures none { IfNone result ((met_by met.new).taken ≡ (met_by met.old).taken + 1) }
        ensures grows { Grows (met_by met.old) (met_by met.new) }
    {
        let held = self.held.try_lock();
        if held.is_none() {
            met.meet_taken();
        }
        held
    }

    /// Takes it once nobody has it; none where another has it for ten seconds.
    fn wait<R: Clock>(&self, rt: &R, met: &mut Obstacles) -> Option<MutexGuard<'_, ()>>
        ensures none { IfNone result ((met_by met.new).taken ≡ (met_by met.old).taken + 500) }
        ensures grows { Grows (met_by met.old) (met_by met.new) }
    {
        for _look in 0..LOOKS {
            thread::sleep(rt, Duration::from_millis(PAUSE_MILLIS));
            if let Some(held) = self.try_take(met) {
                return Some(held);
            }
        }
        None
    }
}
