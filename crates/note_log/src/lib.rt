//! A log of notes: hash inputs, each a line of its own, appended to a file that may take less than it is given, and that others may
//! take away.
//!
//! A [`NoteLog`] stands over a `Journal` of `log_file`. [`NoteLog::record`] hands it the lines of notes, those left out that the logs of
//! the process are known to have handed over, and says whether all of them stand in a file. What was not taken of a line goes first
//! at the next call. A log's lines have the inputs, or the hashes of the inputs in their place (`NoteForm` of `note_lines`).
//! [`NoteLog::look`] looks whether the file is still there, and where it is not no line of it counts as known.
//!
//! Proved, over the definitions of `specs/Log.antt`: what is handed over is whole lines of the notes that were given, one after the
//! other, and nothing else; where the answer is true, the line of each of these notes stands among what the file that is open was
//! handed, which stood at its path when that was last looked for, or among what the files were handed that the logs of the process had
//! open when the memory was asked. It is false only where the file is lost or a write has failed. The lines that are counted are those
//! that the files have taken whole.
//!
//! # What the logs of a process remember of the lines that they have handed to their files, together
//!
//! A [`SharedMemory`] is a [`NoteMemory`] under a lock: a table of so many lines, of which it forgets the least recently used first, each
//! with the number of the file that it was handed to. A [`NumberedJournal`] is a journal of `log_file` with the number of the file that
//! it has open. A file that is lost is closed, and the one that is opened in its place gets another number, so no line of the lost one
//! counts as known, and none has to be looked for.
//!
//! Proved, over the definitions of `specs/`: a line is remembered only where it stands in what a journal has handed to the file of its
//! number, or has read of it (`Handed` of `log_file`, which a journal alone makes); a line counts as known exactly where it is there, of a
//! file that is open, and then it stands in what that was handed; no number is given twice; lines that were read of a file are remembered,
//! where there is room for them. What a call did to the memory under the lock is said of the calls of [`NoteMemory`] alone.
#![tactic(auto)]

mod batch;
mod files;
mod handing;
mod log;
mod memory;
mod numbered;
mod recalled;
mod shared;
mod table;
mod trouble;
mod unknown;

pub use files::{FileNumber, Files};
pub use log::NoteLog;
pub use memory::NoteMemory;
pub use numbered::NumberedJournal;
pub use shared::SharedMemory;
pub use trouble::Trouble;
pub use unknown::Unknown;
