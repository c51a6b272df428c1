//! The commands on records of any size: `record` prints the hash inputs that a flag's evaluation reaches in each of many contexts,
//! `tally` counts those of a site by their points, `join` makes one tally of several.
//!
//! [`record()`] and [`tally()`] are filters: they read the standard input and hold one batch of it, however long it is. They take the
//! words after the program's name, of which their own name is the first, the files and the console. [`Joining`] is the command
//! `join` with its words, which `flagops_shell::run` reads, answers and reports. What they then do is `note_streams` and `note_tallies`.
//!
//! ```rust
//! use flag_text::WriteOutlet;
//! use flagops_files::SystemFiles;
//! use flagops_filters::{OpenedInlet, record};
//! use flagops_shell::Console;
//! use byte_streams::ReadInlet;
//!
//! let words = ["record", "flags.json", "checkout"];
//! let mut input = OpenedInlet::new(ReadInlet::new(rt.stdin()));
//! let mut console = Console::new(WriteOutlet::new(rt.stdout()), WriteOutlet::new(rt.stderr()));
//! let status = record(&rt, words.as_slice(), &mut input, &mut SystemFiles::new(&rt), &mut console);
//! ```
//!
//! Proved, over the definitions in `specs/`: of words with a mistake, that it is told; else, over files and a standard input whose
//! bytes are known, that the output is what they make (`Record`, `Tally`, `Join`), or a front of it, or that memory ran out, with
//! its status; that a person is told of a refusal by the name of what is refused (`Remarks`); that a file that could not be read is
//! what is reported; and that files are only read. What is joined of the tallies of sets of inputs is the tally of their union
//! ([`joined_files_are_of_all`]).
#![tactic(auto)]

mod asked;
mod clock;
mod joining;
mod laws;
mod misread;
mod moment;
mod opening;
mod recording;
mod refusal;
mod remarks;
mod start;
mod tallying;
mod target;
mod unrecorded;
mod usage;
mod words;

pub use asked::Joining;
pub use laws::joined_files_are_of_all;
pub use opening::{OpenedInlet, Opening};
pub use recording::record;
pub use refusal::FilterRefusal;
pub use tallying::tally;
