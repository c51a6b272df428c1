//! Streams of any length in bounded memory: contexts that are recorded as note lines, and note lines that are tallied.
//!
//! [`record_stream`] reads contexts, one a line, and writes the note lines of what the evaluation of a flag reaches in each;
//! [`tally_stream`] reads note lines in rising order and gives the tally of one page. Both hold one batch of lines, read with
//! few calls and written with one, however long the stream is.
//!
//! Proved, over the definitions of `specs/`, for a stream whose bytes are known: what is written is the fold over its lines, up
//! to the first that is no context, whose number is told (`Recorded`); what is tallied are its lines, or the first is told that
//! is refused (`Tallied`), and without a refusal each input of the page, or each hash, is tallied once ([`a_stream_is_of_its_lines`]); a stream counts as unreadable only where a read of it failed.
//!
//! # Recording: what the evaluation of a flag reaches in each of many contexts, as note lines
//!
//! Each line is a context, one JSON object. For each there are the note lines of the hash inputs that the evaluation of the
//! flag reaches, in the order of contexts and then of reaching. What is recorded of some lines and what is recorded of those
//! behind them are what is recorded of all. Beside the note lines it is counted what came of the contexts, each of which has one
//! [`Outcome`].
//!
//! Proved, over the definitions of `specs/`: what is recorded of lines is the fold over them, up to the first that is no
//! context (`Record`), which [`record_lines`] gives.
//!
//! # What log files hold of a page, as the tally that a rollout is planned on
//!
//! A service writes the note lines of what it answers into the logs of its workers, so an input stands in several files and
//! more than once, in no order. [`tally_files`] sorts the lines of all files, takes each once, and counts the inputs of one page at
//! their points. It keeps an address and a length for each line, and nothing of the lines themselves. [`count_notes`] counts the notes
//! of all pages in the same way.
//!
//! ```rust
//! use note_streams::{LogFile, tally_files};
//!
//! let files = [LogFile { name: "worker-1.log", bytes: b"[\"color\",0,null,\"test\"]\n" }];
//! let tally = tally_files(alloc, page, 100, files.as_slice())?;
//! assert!(rt; tally.inputs == 1);
//! ```
//!
//! Proved, over the definitions of `specs/`: the tally is that of exactly the inputs whose note lines are in the files, each once, or
//! of exactly the hashes, where the notes have no inputs (`LogRecorded`), and then each line is blank or that of a note, all of one
//! kind. Else a line that is neither is named by its file and its number, the first of all (`Stray`), or it is said that there are
//! notes of both kinds, or that there are too many, in this order (`Tallies`).
#![tactic(auto)]

mod counting;
mod distinct;
mod file;
mod laws;
mod lines;
mod log_fault;
mod log_tallying;
mod outcomes;
mod recorded;
mod recorder;
mod recording;
mod refusal;
mod runs;
mod scene;
mod stop;
mod stray;
mod tallying;

pub use counting::count_notes;
pub use file::LogFile;
pub use laws::{a_stream_is_of_its_inputs, a_stream_is_of_its_lines};
pub use lines::record_lines;
pub use log_fault::LogTallyFault;
pub use log_tallying::tally_files;
pub use outcomes::{Outcome, Outcomes};
pub use recorded::Recorded;
pub use recorder::RecordFault;
pub use recording::{Counted, record_stream};
pub use scene::Recorder;
pub use stop::{RecordStop, TallyStop};
pub use tallying::{StreamTally, tally_stream};
