//! How the workers of a listener share the connections that come.
use service_layers::Traffic;
use std::sync::atomic::{AtomicUsize, Ordering};

/// How many workers take the connections of a listener, and how many connections they hold together.
#[derive(Drop)]
pub struct Load {
    workers: AtomicUsize,
    held: AtomicUsize,
}

impl Load {
    /// No worker has begun.
    pub fn new() -> Load {
        Load {
            workers: AtomicUsize::new(0),
            held: AtomicUsize::new(0),
        }
    }
}

/// What one worker holds of the load of all.
#[derive(Drop)]
pub(crate) struct LoadShare<'a> {
    load: &'a Load,
    traffic: &'a Traffic,
    held: usize,
}

impl<'a> LoadShare<'a> {
    /// The share of a worker that begins.
    pub(crate) fn begin(load: &'a Load, traffic: &'a Traffic) -> LoadShare<'a> {
        load.workers.fetch_add(1, Ordering::SeqCst);
        LoadShare {
            load,
            traffic,
            held: 0,
        }
    }

    /// The worker holds so many connections now.
    pub(crate) fn tell(&mut self, held: usize) {
        if held > self.held {
            self.load.held.fetch_add(held - self.held, Ordering::SeqCst);
        } else if held < self.held {
            self.load.held.fetch_sub(self.held - held, Ordering::SeqCst);
        }
        self.traffic.move_open(self.held, held);
        self.held = held;
    }

    /// Whether a further connection is for this worker: it holds at most one, or no more than the mean of all. There is always such
    /// a worker.
    pub(crate) fn is_next(&self) -> bool {
        let workers = self.load.workers.load(Ordering::SeqCst);
        match self.load.held.load(Ordering::SeqCst).checked_div(workers) {
            Some(mean) => self.held <= mean.max(1),
            None => true,
        }
    }

    /// The worker has ended, and its connections with it.
    pub(crate) fn end(&mut self) {
        self.tell(0);
        self.load.workers.fetch_sub(1, Ordering::SeqCst);
    }
}
