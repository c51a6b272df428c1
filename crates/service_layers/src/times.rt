//! How long answers take.
ghost use Rattle.std.specs.Prelude.{◌≤◌};

use crate::families::{Kind, begin_family};
use std::alloc::AllocError;
use std::sync::atomic::{AtomicU64, Ordering};
use std::time::Duration;

/// The bounds of the groups in microseconds: an answer that took no longer is in a group. The last group has all answers.
const BOUNDS: [u64; 11] = [
    25, 50, 100, 250, 500, 1_000, 2_500, 10_000, 50_000, 250_000, 1_000_000,
];

/// The same in seconds, as they are printed.
const LABELS: [&str; 11] = [
    "0.000025", "0.00005", "0.0001", "0.00025", "0.0005", "0.001", "0.0025", "0.01", "0.05",
    "0.25", "1",
];

/// The digits of a number of microseconds below a second, by what they stand for.
const DIGITS: [u64; 6] = [100_000, 10_000, 1_000, 100, 10, 1];

/// How long the answers of one worker took since that was last added up.
#[derive(Drop)]
pub struct Times {
    groups: [u64; 12],
    micros: u64,
    is_counted: bool,
}

impl Times {
    /// Nothing was answered yet.
    pub fn new() -> Times {
        Times {
            groups: [0; 12],
            micros: 0,
            is_counted: false,
        }
    }

    /// Counts an answer that took so long.
    pub fn count(&mut self, taken: Duration) {
        let micros = micros_of(taken);
        let place = place_of(micros);
        self.groups[place] = self.groups[place].saturating_add(1);
        self.micros = self.micros.saturating_add(micros);
        self.is_counted = true;
    }
}

/// How long the answers of all workers took.
#[derive(Drop)]
pub(crate) struct AllTimes {
    groups: [AtomicU64; 12],
    micros: AtomicU64,
}

impl AllTimes {
    /// Nothing was answered yet.
    pub(crate) fn new() -> AllTimes {
        AllTimes {
            groups: [
                AtomicU64::new(0),
                AtomicU64::new(0),
                AtomicU64::new(0),
                AtomicU64::new(0),
                AtomicU64::new(0),
                AtomicU64::new(0),
                AtomicU64::new(0),
                AtomicU64::new(0),
                AtomicU64::new(0),
                AtomicU64::new(0),
                AtomicU64::new(0),
                AtomicU64::new(0),
            ],
            micros: AtomicU64::new(0),
        }
    }

    /// Adds those of a worker, which begins anew.
    pub(crate) fn add(&self, times: &mut Times) {
        if !times.is_counted {
            return;
        }
        for place in 0..12 {
            let more = times.groups[place];
            if more > 0 {
                self.groups[place].fetch_add(more, Ordering::Relaxed);
            }
        }
        self.micros.fetch_add(times.micros, Ordering::Relaxed);
        *times = Times::new();
    }

    /// Adds them to a text for Prometheus.
    pub(crate) fn push(&self, text: &mut String) -> Result<(), AllocError> {
        begin_family(
            text,
            "ofrep_request_duration_seconds",
            Kind::Histogram,
            "How long answers took, from the whole request to the whole answer.",
        )?;
        let mut all: u64 = 0;
        for place in 0..LABELS.len() {
            let label = LABELS[place];
            all = all.saturating_add(self.groups[place].load(Ordering::Relaxed));
            write!(
                text,
                "ofrep_request_duration_seconds_bucket{{le=\"{label}\"}} {all}\n"
            )?;
        }
        all = all.saturating_add(self.groups[11].load(Ordering::Relaxed));
        self.push_sum(text, all)
    }

    /// Adds how many there are, and how long they took together.
    fn push_sum(&self, text: &mut String, all: u64) -> Result<(), AllocError> {
        let micros = self.micros.load(Ordering::Relaxed);
        let seconds = micros / 1_000_000;
        write!(
            text,
            "ofrep_request_duration_seconds_bucket{{le=\"+Inf\"}} {all}\nofrep_request_duration_seconds_sum {seconds}."
        )?;
        for unit in DIGITS {
            let digit = micros / unit % 10;
            write!(text, "{digit}")?;
        }
        write!(text, "\nofrep_request_duration_seconds_count {all}\n")
    }
}

/// The microseconds of a duration, as far as a number holds them.
fn micros_of(taken: Duration) -> u64 {
    taken
        .as_secs()
        .saturating_mul(1_000_000)
        .saturating_add(u64::from(taken.subsec_micros()))
}

/// The group of an answer that took so many microseconds.
fn place_of(micros: u64) -> usize
    ensures { result ≤ 11 }
{
    for place in 0..BOUNDS.len() {
        if micros <= BOUNDS[place] {
            return place;
        }
    }
    11
}
