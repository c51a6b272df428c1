//! What the workers of a service count, as text for Prometheus.
ghost use Rattle.std.specs.Prelude.{◌≡◌, ◌++◌, IfOk, OnOk, string_bytes};
ghost use Rattle.ofrep_worker.specs.Counted.{EndsWithSizes, gauge_text, sizes_text};

use crate::counts::{Counts, bit_of};
use service_layers::{Kind, begin_family};
use std::alloc::{AllocError, Global};
use std::sync::atomic::{AtomicU64, Ordering};

/// The most documents that are told of.
const MOST_DOCUMENTS: u64 = 64;

impl Counts {
    /// The text of what is counted, with the number of the snapshot, how many flags it has, and how many of these are broken.
    pub(crate) fn text(
        &self,
        alloc: Global,
        snapshot: u64,
        flags: usize,
        broken: usize,
    ) -> Result<String, AllocError>
        ensures { IfOk result (λ text. EndsWithSizes (string_bytes text)) }
    {
        let mut text = String::new(alloc);
        self.traffic.push(&mut text)?;
        self.push_evaluations(&mut text)?;
        self.push_notes(&mut text)?;
        self.push_reopened(&mut text)?;
        self.push_failures(&mut text)?;
        self.push_documents(&mut text)?;
        push_flags(&mut text, snapshot, flags as u64, broken as u64)?;
        let log_bytes = self.log_bytes.load(Ordering::Relaxed);
        let memory = self.memory.load(Ordering::Relaxed);
        push_sizes(alloc, &mut text, log_bytes, memory)?;
        Ok(text)
    }

    /// Adds how many evaluations ended with each reason.
    fn push_evaluations(&self, text: &mut String) -> Result<(), AllocError> {
        begin_family(
            text,
            "ofrep_evaluations_total",
            Kind::Counter,
            "Evaluations of a flag, by the reason of their result.",
        )?;
        push_reason(text, "STATIC", &self.fixed)?;
        push_reason(text, "TARGETING_MATCH", &self.targeting_match)?;
        push_reason(text, "DEFAULT", &self.default)?;
        push_reason(text, "DISABLED", &self.disabled)?;
        push_reason(text, "ERROR", &self.error)
    }

    /// Adds how many notes were written, and how many inputs were too long for one.
    fn push_notes(&self, text: &mut String) -> Result<(), AllocError> {
        push_counter(
            text,
            "ofrep_notes_total",
            "Notes that were written to the logs.",
            &self.notes,
        )?;
        push_counter(
            text,
            "ofrep_inputs_too_long_total",
            "Hash inputs that were too long for a note.",
            &self.inputs_too_long,
        )
    }

    /// Adds how often logs were opened anew, and how often they could not be.
    fn push_reopened(&self, text: &mut String) -> Result<(), AllocError> {
        begin_family(
            text,
            "ofrep_log_reopened_total",
            Kind::Counter,
            "Log files that were made anew, by what had become of the one before.",
        )?;
        push_loss(text, "missing", &self.missing)?;
        push_loss(text, "replaced", &self.replaced)?;
        push_loss(text, "shorter", &self.shorter)?;
        push_loss(text, "unseen", &self.unseen)?;
        push_loss(text, "removed", &self.removed)?;
        push_counter(
            text,
            "ofrep_log_unopened_total",
            "Log files that were lost and could not be made anew, by the looks for them.",
            &self.unopened,
        )
    }

    /// Adds how many logs can't be written, how often one began to fail, and how many answers were given without their notes.
    fn push_failures(&self, text: &mut String) -> Result<(), AllocError> {
        begin_family(
            text,
            "ofrep_log_failing",
            Kind::Gauge,
            "Logs that can't be written now, by the reason.",
        )?;
        let lost = self.lost.load(Ordering::Relaxed);
        let unwritten = self.unwritten.load(Ordering::Relaxed);
        write!(
            text,
            "ofrep_log_failing{{reason=\"lost\"}} {lost}\nofrep_log_failing{{reason=\"unwritten\"}} {unwritten}\n"
        )?;
        push_counter(
            text,
            "ofrep_log_failures_total",
            "How often a log that could be written began to fail.",
            &self.failures,
        )?;
        push_counter(
            text,
            "ofrep_unrecorded_total",
            "Answers that were given though their notes could not be written.",
            &self.unrecorded,
        )
    }

    /// Adds which documents are refused, by their places from 1, and when one was last accepted.
    fn push_documents(&self, text: &mut String) -> Result<(), AllocError> {
        begin_family(
            text,
            "flagops_documents_refused",
            Kind::Gauge,
            "Whether a document was refused when it was last read, by its place.",
        )?;
        let refused = self.refused.load(Ordering::Relaxed);
        for place in 0..self.documents.load(Ordering::Relaxed).min(MOST_DOCUMENTS) {
            let number = place + 1;
            let is_refused = u64::from(refused & bit_of(place as usize) != 0);
            write!(
                text,
                "flagops_documents_refused{{place=\"{number}\"}} {is_refused}\n"
            )?;
        }
        push_gauge(
            text,
            "flagops_documents_accepted_timestamp_seconds",
            "When a document was last accepted, in seconds since 1970; 0 where that is not known.",
            self.accepted.load(Ordering::Relaxed),
        )
    }
}

/// Adds the flags that are answered from.
fn push_flags(text: &mut String, snapshot: u64, flags: u64, broken: u64) -> Result<(), AllocError> {
    push_gauge(
        text,
        "flagops_flags_broken",
        "Flags that are broken, which each evaluation answers with an error.",
        broken,
    )?;
    push_gauge(
        text,
        "ofrep_snapshot",
        "The number of the snapshot that is answered from.",
        snapshot,
    )?;
    push_gauge(text, "ofrep_flags", "Flags of the snapshot.", flags)
}

/// Adds how many bytes the logs have, and the memory of the process.
#[tactic(auto, unfolding(crate::specs::Counted::sizes_text))]
fn push_sizes(
    alloc: Global,
    text: &mut String,
    log_bytes: u64,
    memory: u64,
) -> Result<(), AllocError>
    ensures { OnOk result (string_bytes text.new ≡ string_bytes text.old ++ sizes_text log_bytes memory) }
{
    let logs = gauge_text(
        alloc,
        "ofrep_log_bytes",
        "Bytes of the logs together, as last looked at.",
        log_bytes,
    )?;
    let resident = gauge_text(
        alloc,
        "process_resident_memory_bytes",
        "Resident memory size in bytes.",
        memory,
    )?;
    write!(text, "{logs}{resident}")
}

/// A family of one number that rises and falls.
#[tactic(auto, unfolding(crate::specs::Counted::gauge_text))]
fn gauge_text(alloc: Global, name: &str, help: &str, value: u64) -> Result<String, AllocError>
    ensures { IfOk result (λ text. string_bytes text ≡ gauge_text name.now help.now value) }
{
    format!(in alloc; "# HELP {name} {help}\n# TYPE {name} gauge\n{name} {value}\n")
}

/// Adds a family of one number that only rises.
fn push_counter(
    text: &mut String,
    name: &str,
    help: &str,
    count: &AtomicU64,
) -> Result<(), AllocError> {
    begin_family(text, name, Kind::Counter, help)?;
    let count = count.load(Ordering::Relaxed);
    write!(text, "{name} {count}\n")
}

/// Adds a family of one number.
fn push_gauge(text: &mut String, name: &str, help: &str, value: u64) -> Result<(), AllocError> {
    begin_family(text, name, Kind::Gauge, help)?;
    write!(text, "{name} {value}\n")
}

/// Adds how many evaluations ended with a reason.
fn push_reason(text: &mut String, reason: &str, count: &AtomicU64) -> Result<(), AllocError> {
    let count = count.load(Ordering::Relaxed);
    write!(
        text,
        "ofrep_evaluations_total{{reason=\"{reason}\"}} {count}\n"
    )
}

/// Adds how often a log was opened anew after a loss.
fn push_loss(text: &mut String, loss: &str, count: &AtomicU64) -> Result<(), AllocError> {
    let count = count.load(Ordering::Relaxed);
    write!(
        text,
        "ofrep_log_reopened_total{{reason=\"{loss}\"}} {count}\n"
    )
}
