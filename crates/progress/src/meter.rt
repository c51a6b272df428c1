//! How much of how much.
use std::sync::atomic::{AtomicU64, Ordering};

/// How much of a work is done, and of how much. Threads share it.
#[derive(Drop)]
pub struct Meter {
    done: AtomicU64,
    whole: AtomicU64,
}

impl Meter {
    pub(crate) fn new() -> Meter {
        Meter {
            done: AtomicU64::new(0),
            whole: AtomicU64::new(0),
        }
    }

    /// A work of this size begins, 0 where it is not known.
    pub fn begin(&self, whole: u64) {
        self.done.store(0, Ordering::Relaxed);
        self.whole.store(whole, Ordering::Relaxed);
    }

    /// So much more is done.
    pub fn advance(&self, by: u64) {
        self.done.fetch_add(by, Ordering::Relaxed);
    }

    pub(crate) fn done(&self) -> u64 {
        self.done.load(Ordering::Relaxed)
    }

    pub(crate) fn whole(&self) -> u64 {
        self.whole.load(Ordering::Relaxed)
    }
}
