//! What a worker of the evaluation service does with a request: it answers it, and records first what the answer rests on.
//!
//! An [`OfrepWorker`] is a `Service` of `http_server`. It answers from the last snapshot that its seat knows, and where it tells
//! something of flags, with 200 or 304, the hash inputs that the evaluations reached stand in its log, or in another of the process,
//! before the answer is given, where it keeps one.
//!
//! Proved, over the definitions of `specs/`: each answer is that of `ofrep_answers` to the request at some moment, of the flags
//! of the last snapshot that the seat then knows, and the log was given the notes of what it reached (`Answers`); or the log
//! failed, and nothing is told but that, unless what can't be recorded is to be answered; or memory ran out, and the answer is
//! empty. While its log can't be written the worker says of the service that it is not ready. What is told with 200 or 304 rests
//! on notes that stand in what its log's files were handed, or those of other logs that were open when it relied on them, then and ever
//! after (`Stands`). Where no log is kept no note is made.
#![tactic(auto)]

mod answering;
mod asked;
mod counts;
mod failing;
mod filling;
mod metrics;
mod moment;
mod notes;
mod recording;
mod standing;
mod unrecorded;
mod worker;

pub use counts::Counts;
pub use unrecorded::WithoutRecord;
pub use worker::OfrepWorker;
