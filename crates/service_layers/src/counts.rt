//! What the workers of a service count together.
use crate::families::{Kind, begin_family, push_one};
use crate::statuses::Statuses;
use crate::times::{AllTimes, Times};
use std::alloc::AllocError;
use std::sync::atomic::{AtomicU64, Ordering};

/// The version of the program.
const VERSION: &str = "0.1.0";

/// Why the service closes a connection that its client has left open.
#[derive(Clone, Copy, Debug, PartialEq, Eq)]
pub enum Closing {
    /// It had nothing to do for too long.
    Idle,
    /// A request was not whole after too long.
    Late,
    /// It had had nothing to do for the longest time, and another one came.
    Displaced,
}

/// The requests that were answered, by status and by how long that took, and the connections.
#[derive(Drop)]
pub struct Traffic {
    statuses: Statuses,
    times: AllTimes,
    /// How many connections are open, and how many were taken.
    open: AtomicU64,
    taken: AtomicU64,
    /// How many were closed, by the reason.
    idle: AtomicU64,
    late: AtomicU64,
    displaced: AtomicU64,
}

impl Traffic {
    /// Nothing was counted yet.
    pub fn new() -> Traffic {
        Traffic {
            statuses: Statuses::new(),
            times: AllTimes::new(),
            open: AtomicU64::new(0),
            taken: AtomicU64::new(0),
            idle: AtomicU64::new(0),
            late: AtomicU64::new(0),
            displaced: AtomicU64::new(0),
        }
    }

    /// Counts a request that is answered with this status.
    pub fn count_status(&self, status: u16) {
        self.statuses.count(status);
    }

    /// Adds how long the answers of a worker took, which begins anew.
    pub fn add_times(&self, times: &mut Times) {
        self.times.add(times);
    }

    /// Counts a connection that was taken.
    pub fn count_taken(&self) {
        self.taken.fetch_add(1, Ordering::Relaxed);
    }

    /// Counts a connection that is closed.
    pub fn count_closing(&self, closing: Closing) {
        let count = match closing {
            Closing::Idle => &self.idle,
            Closing::Late => &self.late,
            Closing::Displaced => &self.displaced,
        };
        count.fetch_add(1, Ordering::Relaxed);
    }

    /// A worker that had `old` connections open has `new` now.
    pub fn move_open(&self, old: usize, new: usize) {
        if new > old {
            self.open.fetch_add((new - old) as u64, Ordering::Relaxed);
        } else if new < old {
            self.open.fetch_sub((old - new) as u64, Ordering::Relaxed);
        }
    }

    /// Adds what was counted to a text for Prometheus, and the version of the program.
    pub fn push(&self, text: &mut String) -> Result<(), AllocError> {
        self.statuses.push(text)?;
        self.times.push(text)?;
        self.push_connections(text)?;
        begin_family(
            text,
            "flagops_build_info",
            Kind::Gauge,
            "The version of the program; the number is 1.",
        )?;
        write!(text, "flagops_build_info{{version=\"{VERSION}\"}} 1\n")
    }

    /// Adds the connections.
    fn push_connections(&self, text: &mut String) -> Result<(), AllocError> {
        push_one(
            text,
            "ofrep_connections",
            Kind::Gauge,
            "Connections that are open.",
            &self.open,
        )?;
        push_one(
            text,
            "ofrep_connections_total",
            Kind::Counter,
            "Connections that were taken.",
            &self.taken,
        )?;
        begin_family(
            text,
            "ofrep_connections_closed_total",
            Kind::Counter,
            "Connections that the service closed though their clients had not, by the reason.",
        )?;
        push_closing(text, "idle", &self.idle)?;
        push_closing(text, "late", &self.late)?;
        push_closing(text, "displaced", &self.displaced)
    }
}

/// Adds how many connections were closed for a reason.
fn push_closing(text: &mut String, reason: &str, count: &AtomicU64) -> Result<(), AllocError> {
    let count = count.load(Ordering::Relaxed);
    write!(
        text,
        "ofrep_connections_closed_total{{reason=\"{reason}\"}} {count}\n"
    )
}
