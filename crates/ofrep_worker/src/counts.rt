//! What the workers of a service count together.
use http::StatusCode;
use log_file::{Look, Loss};
use note_log::Trouble;
use ofrep_answers::Reasons;
use service_layers::Traffic;
use std::sync::atomic::{AtomicU64, Ordering};

/// The requests and the connections, how many evaluations ended with each reason, how many notes were written, how
/// often a log was opened anew after each kind of loss, and how many logs can't be written now.
#[derive(Drop)]
pub struct Counts {
    pub(crate) traffic: Traffic,
    pub(crate) error: AtomicU64,
    pub(crate) disabled: AtomicU64,
    pub(crate) fixed: AtomicU64,
    pub(crate) default: AtomicU64,
    pub(crate) targeting_match: AtomicU64,
    pub(crate) notes: AtomicU64,
    pub(crate) inputs_too_long: AtomicU64,
    pub(crate) missing: AtomicU64,
    pub(crate) replaced: AtomicU64,
    pub(crate) shorter: AtomicU64,
    pub(crate) unseen: AtomicU64,
    pub(crate) removed: AtomicU64,
    pub(crate) unopened: AtomicU64,
    /// How many logs can't be written now, by the reason, and how often one began to fail.
    pub(crate) lost: AtomicU64,
    pub(crate) unwritten: AtomicU64,
    pub(crate) failures: AtomicU64,
    pub(crate) unrecorded: AtomicU64,
    /// How many documents are answered from, a bit for each whose text was refused when it was last read, and the second since 1970
    /// in which one was last accepted.
    pub(crate) documents: AtomicU64,
    pub(crate) refused: AtomicU64,
    pub(crate) accepted: AtomicU64,
    /// How many bytes the logs have, and the memory of the process, as last looked at.
    pub(crate) log_bytes: AtomicU64,
    pub(crate) memory: AtomicU64,
}

impl Counts {
    /// Nothing was counted yet.
    pub fn new() -> Counts {
        Counts {
            traffic: Traffic::new(),
            error: AtomicU64::new(0),
            disabled: AtomicU64::new(0),
            fixed: AtomicU64::new(0),
            default: AtomicU64::new(0),
            targeting_match: AtomicU64::new(0),
            notes: AtomicU64::new(0),
            inputs_too_long: AtomicU64::new(0),
            missing: AtomicU64::new(0),
            replaced: AtomicU64::new(0),
            shorter: AtomicU64::new(0),
            unseen: AtomicU64::new(0),
            removed: AtomicU64::new(0),
            unopened: AtomicU64::new(0),
            lost: AtomicU64::new(0),
            unwritten: AtomicU64::new(0),
            failures: AtomicU64::new(0),
            unrecorded: AtomicU64::new(0),
            documents: AtomicU64::new(0),
            refused: AtomicU64::new(0),
            accepted: AtomicU64::new(0),
            log_bytes: AtomicU64::new(0),
            memory: AtomicU64::new(0),
        }
    }

    /// Counts a request that is answered with this status.
    pub(crate) fn count(&self, status: StatusCode) {
        self.traffic.count_status(status.as_u16());
    }

    /// Where requests and connections are counted.
    pub fn traffic(&self) -> &Traffic {
        &self.traffic
    }

    /// A document was accepted in this second since 1970.
    pub fn accept_document(&self, second: u64) {
        self.accepted.store(second, Ordering::Relaxed);
    }

    /// The logs have so many bytes together.
    pub fn show_log_bytes(&self, bytes: u64) {
        self.log_bytes.store(bytes, Ordering::Relaxed);
    }

    /// So many bytes of the process's memory are resident.
    pub fn show_memory(&self, bytes: u64) {
        self.memory.store(bytes, Ordering::Relaxed);
    }

    /// Counts evaluations that ended with these reasons, and, where notes of them were to be made, the inputs that are too long for a note.
    pub(crate) fn count_evaluations(&self, reasons: Reasons, has_notes: bool) {
        if has_notes {
            add(&self.inputs_too_long, reasons.inputs_too_long);
        }
        add(&self.error, reasons.error);
        add(&self.disabled, reasons.disabled);
        add(&self.fixed, reasons.fixed);
        add(&self.default, reasons.default);
        add(&self.targeting_match, reasons.targeting_match);
    }

    /// Counts notes that were written.
    pub(crate) fn count_notes(&self, notes: u64) {
        add(&self.notes, notes);
    }

    /// Counts an answer that was given without its notes, where it was.
    pub(crate) fn count_given(&self, recorded: bool, is_given: bool) {
        add(&self.unrecorded, u64::from(is_given && !recorded));
    }

    /// Counts that a log which could not be written for one reason can't be now for another, or can.
    pub(crate) fn count_trouble(&self, old: Option<Trouble>, new: Option<Trouble>) {
        if old == new {
            return;
        }
        if let Some(trouble) = new {
            add(self.count_in(trouble), 1);
            add(&self.failures, u64::from(old.is_none()));
        }
        if let Some(trouble) = old {
            self.count_in(trouble).fetch_sub(1, Ordering::Relaxed);
        }
    }

    fn count_in(&self, trouble: Trouble) -> &AtomicU64 {
        match trouble {
            Trouble::Lost => &self.lost,
            Trouble::Unwritten => &self.unwritten,
        }
    }

    /// Why a log can't be written now, where one can't.
    pub fn trouble(&self) -> Option<Trouble> {
        if self.lost.load(Ordering::Relaxed) > 0 {
            return Some(Trouble::Lost);
        }
        if self.unwritten.load(Ordering::Relaxed) > 0 {
            return Some(Trouble::Unwritten);
        }
        None
    }

    /// How often a log that could be written began to fail.
    pub fn failures(&self) -> u64 {
        self.failures.load(Ordering::Relaxed)
    }

    /// So many documents are answered from.
    pub fn watch_documents(&self, documents: usize) {
        self.documents.store(documents as u64, Ordering::Relaxed);
    }

    /// The document at a place was refused when its text was last read, or was not.
    pub fn refuse_document(&self, place: usize, is_refused: bool) {
        let bit = bit_of(place);
        let others = self.refused.load(Ordering::Relaxed) & !bit;
        let own = if is_refused { bit } else { 0 };
        self.refused.store(others | own, Ordering::Relaxed);
    }

    /// Counts what a look for a log came to.
    pub(crate) fn count_look(&self, look: Look) {
        match look {
            Look::Stands => {}
            Look::Reopened(loss) => add(self.count_of(loss), 1),
            Look::Lost(_, _) => add(&self.unopened, 1),
        }
    }

    fn count_of(&self, loss: Loss) -> &AtomicU64 {
        match loss {
            Loss::Missing => &self.missing,
            Loss::Replaced => &self.replaced,
            Loss::Shorter => &self.shorter,
            Loss::Unseen => &self.unseen,
            Loss::Removed => &self.removed,
        }
    }

    /// How often a log was opened anew after such a loss.
    pub fn reopened(&self, loss: Loss) -> u64 {
        self.count_of(loss).load(Ordering::Relaxed)
    }

    /// How often a log that was lost could not be opened anew.
    pub fn unopened(&self) -> u64 {
        self.unopened.load(Ordering::Relaxed)
    }
}

/// The bit of a document, by its place.
pub(crate) fn bit_of(place: usize) -> u64 {
    1u64 << (place % 64)
}

/// Adds to a number that all workers share, where there is something to add: an addition of nothing would have the processors
/// hand the number round all the same.
fn add(count: &AtomicU64, more: u64) {
    if more > 0 {
        count.fetch_add(more, Ordering::Relaxed);
    }
}
