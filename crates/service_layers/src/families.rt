//! The text format of Prometheus.
use std::alloc::AllocError;
use std::sync::atomic::{AtomicU64, Ordering};

/// What the numbers of a family are.
#[derive(Clone, Copy, Debug, PartialEq, Eq)]
pub enum Kind {
    /// It only rises while the process lives.
    Counter,
    /// It rises and falls.
    Gauge,
    /// It counts values by their size.
    Histogram,
}

impl Kind {
    fn name(self) -> &'static str {
        match self {
            Kind::Counter => "counter",
            Kind::Gauge => "gauge",
            Kind::Histogram => "histogram",
        }
    }
}

/// Adds the lines that begin a family: what it is for people, and of which kind its numbers are.
pub fn begin_family(
    text: &mut String,
    name: &str,
    kind: Kind,
    help: &str,
) -> Result<(), AllocError> {
    let kind = kind.name();
    write!(text, "# HELP {name} {help}\n# TYPE {name} {kind}\n")
}

/// Adds a family of one number.
pub(crate) fn push_one(
    text: &mut String,
    name: &str,
    kind: Kind,
    help: &str,
    count: &AtomicU64,
) -> Result<(), AllocError> {
    begin_family(text, name, kind, help)?;
    let count = count.load(Ordering::Relaxed);
    write!(text, "{name} {count}\n")
}
