//! How many requests were answered with each status.
ghost use Rattle.std.specs.Prelude.{◌<◌};

use crate::families::{Kind, begin_family};
use std::alloc::AllocError;
use std::sync::atomic::{AtomicU64, Ordering};

/// The statuses that are counted each for itself. Any other is a failure, as 500 is.
const STATUSES: [u16; 16] = [
    200, 204, 304, 400, 401, 403, 404, 405, 408, 413, 414, 415, 431, 501, 503, 500,
];

/// The place of 500 among them.
const FAILURE: usize = 15;

/// How many requests were answered with each status.
#[derive(Drop)]
pub(crate) struct Statuses {
    counts: [AtomicU64; 16],
}

impl Statuses {
    /// No request was answered yet.
    pub(crate) fn new() -> Statuses {
        Statuses {
            counts: [
                AtomicU64::new(0),
                AtomicU64::new(0),
                AtomicU64::new(0),
                AtomicU64::new(0),
                AtomicU64::new(0),
                AtomicU64::new(0),
                AtomicU64::new(0),
                AtomicU64::new(0),
                AtomicU64::new(0),
                AtomicU64::new(0),
                AtomicU64::new(0),
                AtomicU64::new(0),
                AtomicU64::new(0),
                AtomicU64::new(0),
                AtomicU64::new(0),
                AtomicU64::new(0),
            ],
        }
    }

    /// Counts a request that is answered with this status.
    pub(crate) fn count(&self, status: u16) {
        self.counts[place_of(status)].fetch_add(1, Ordering::Relaxed);
    }

    /// Adds them to a text for Prometheus.
    pub(crate) fn push(&self, text: &mut String) -> Result<(), AllocError> {
        begin_family(
            text,
            "ofrep_requests_total",
            Kind::Counter,
            "Requests that were answered, by the status of the answer.",
        )?;
        for place in 0..STATUSES.len() {
            let status = STATUSES[place];
            let count = self.counts[place].load(Ordering::Relaxed);
            write!(
                text,
                "ofrep_requests_total{{status=\"{status}\"}} {count}\n"
            )?;
        }
        Ok(())
    }
}

/// Where a status is counted.
fn place_of(status: u16) -> usize
    ensures { result < 16 }
{
    for place in 0..FAILURE {
        if STATUSES[place] == status {
            return place;
        }
    }
    FAILURE
}
