//! What the threads of a service tell each other.
ghost use Rattle.std.specs.Prelude.{◌≡◌, IfSome, Some, is_some, option_map};
ghost use Rattle.std.specs.Sync.Mutex.{mutex_guard_value};

use control_desk::{DeskPost, DeskRules};
use log_file::Loss;
use note_lines::NoteForm;
use note_log::{SharedMemory, Trouble};
use ofrep_connections::Load;
use ofrep_guards::{KeyRing, Keys, LaterKeys, Paths};
use ofrep_worker::{Counts, WithoutRecord};
use service_layers::{AccessLines, WaitingLines};
use std::sync::atomic::{AtomicBool, AtomicU64, Ordering};
use std::sync::{MutexGuard, Wait};

/// How long a worker keeps a connection on which nothing comes, in seconds, and the most bytes of a body that it takes.
#[derive(Clone, Copy, Debug, PartialEq, Eq)]
pub struct ConnectionLimits {
    pub idle_seconds: u64,
    pub body_bytes: usize,
}

/// What the threads of a service tell each other: what the workers count, how many connections they hold, which snapshot was
/// published last, whether they are to end; and what becomes of answers that can't be recorded, the memory of their logs, what the lines
/// of notes have of the inputs, the pages of which origins may ask, the keys of which a request shows one, where one
/// is wanted, what the workers serve, and the limits of their connections; and what the desks of operations share.
#[derive(Drop)]
pub struct Board {
    pub(crate) counts: Counts,
    pub(crate) load: Load,
    /// The workers are to end.
    pub(crate) is_stopping: AtomicBool,
    /// All other threads are.
    pub(crate) is_over: AtomicBool,
    published: AtomicU64,
    pub(crate) without_record: WithoutRecord,
    pub(crate) memory: SharedMemory,
    pub(crate) form: NoteForm,
    pub(crate) origins: Vec<String>,
    pub(crate) keys: Option<KeyRing>,
    pub(crate) paths: Paths,
    /// The lines of requests, where they are wanted.
    pub(crate) lines: Option<AccessLines>,
    pub(crate) limits: ConnectionLimits,
    pub(crate) desks: DeskPost,
    /// How many connections those of operations hold.
    pub(crate) operations: Load,
}

impl Board {
    /// A board where nothing was counted or published yet. This becomes of answers that can't be recorded, the logs of the workers
    /// share this memory, and their lines have this form, the pages of these origins may ask, or with `*` any, a request shows one of
    /// the keys, where there are some, the workers serve these paths, the lines of requests go there, where they are wanted,
    /// connections have these limits, and the desks of operations go by these rules.
    pub fn new(
        without_record: WithoutRecord,
        memory: SharedMemory,
        form: NoteForm,
        origins: Vec<String>,
        keys: Option<Keys>,
        paths: Paths,
        lines: Option<AccessLines>,
        limits: ConnectionLimits,
        rules: DeskRules,
    ) -> Board
        ensures without { result.without_record ≡ without_record }
        ensures memory { result.memory ≡ memory }
        ensures form { result.form ≡ form }
        ensures origins { result.origins ≡ origins }
        ensures keys { option_map (λ ring. ring.first) result.keys ≡ keys }
        ensures paths { result.paths ≡ paths }
        ensures lines { result.lines ≡ lines }
        ensures limits { result.limits ≡ limits }
        ensures desks { result.desks.rules ≡ rules }
    {
        let keys = match keys {
            Some(keys) => Some(KeyRing::new(keys)),
            None => None,
        };
        Board {
            counts: Counts::new(),
            load: Load::new(),
            is_stopping: AtomicBool::new(false),
            is_over: AtomicBool::new(false),
            published: AtomicU64::new(0),
            without_record,
            memory,
            form,
            origins,
            keys,
            paths,
            lines,
            limits,
            desks: DeskPost::new(rules),
            operations: Load::new(),
        }
    }

    /// The snapshot of this number was published.
    pub fn publish(&self, number: u64) {
        self.published.store(number, Ordering::SeqCst);
    }

    /// The number of the snapshot that was published last, 0 where none was.
    pub(crate) fn published(&self) -> u64 {
        self.published.load(Ordering::SeqCst)
    }

    /// How often the path of a log was opened anew after such a loss of its file.
    pub fn logs_reopened(&self, loss: Loss) -> u64 {
        self.counts.reopened(loss)
    }

    /// How often the path of a log whose file was lost could not be opened anew.
    pub fn logs_unopened(&self) -> u64 {
        self.counts.unopened()
    }

    /// So many documents are answered from.
    pub fn watch_documents(&self, documents: usize) {
        self.counts.watch_documents(documents);
    }

    /// The document at a place was refused when its text was last read, or was not.
    pub fn refuse_document(&self, place: usize, is_refused: bool) {
        self.counts.refuse_document(place, is_refused);
    }

    /// A document was accepted in this second since 1970.
    pub fn accept_document(&self, second: u64) {
        self.counts.accept_document(second);
    }

    /// Sets other keys, where a request shows one, and returns what holds them then. Once that is let go a request shows one of these.
    pub fn replace_keys<R: Wait>(&self, rt: &R, keys: Keys) -> Option<MutexGuard<'_, LaterKeys>>
        ensures wanted { is_some result ≡ is_some self.now.keys }
        ensures keys { IfSome result (λ held. (mutex_guard_value held).keys ≡ Some keys) }
    {
        match &self.keys {
            Some(ring) => Some(ring.replace(rt, keys)),
            None => None,
        }
    }

    /// The lines of requests that wait to be written, where they are wanted.
    pub fn waiting_lines<R: Wait>(&self, rt: &R) -> Option<MutexGuard<'_, WaitingLines>>
        ensures { is_some result ≡ is_some self.now.lines }
    {
        match &self.lines {
            Some(lines) => Some(lines.waiting(rt)),
            None => None,
        }
    }

    /// The logs have so many bytes together.
    pub fn show_log_bytes(&self, bytes: u64) {
        self.counts.show_log_bytes(bytes);
    }

    /// So many bytes of the process's memory are resident.
    pub fn show_memory(&self, bytes: u64) {
        self.counts.show_memory(bytes);
    }

    /// What becomes of answers that can't be recorded.
    pub fn without_record(&self) -> WithoutRecord
        ensures { result ≡ self.now.without_record }
    {
        self.without_record
    }

    /// Why a log can't be written now, where one can't.
    pub fn log_trouble(&self) -> Option<Trouble> {
        self.counts.trouble()
    }

    /// How often a log that could be written began to fail.
    pub fn log_failures(&self) -> u64 {
        self.counts.failures()
    }

    /// Whether the workers are to end, as where the listener for operations was asked to stop the service.
    pub fn is_stopping(&self) -> bool {
        self.is_stopping.load(Ordering::SeqCst)
    }

    /// All threads are to end.
    pub(crate) fn end(&self) {
        self.is_stopping.store(true, Ordering::SeqCst);
        self.is_over.store(true, Ordering::SeqCst);
    }

    /// Whether the threads beside the workers are to end.
    pub(crate) fn is_over(&self) -> bool {
        self.is_over.load(Ordering::SeqCst)
    }
}
