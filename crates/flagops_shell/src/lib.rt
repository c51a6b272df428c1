//! What all commands of the program share: the files and the console that they see, how what they come to is reported, and the
//! one function that runs them.
//!
//! - A [`FileSet`] is what a command sees of files; a [`Console`] has its output and its error output.
//! - A [`Command`] reads its words by `clap` and answers them over a file set: with an [`Outcome`], its whole output with a
//!   [`Status`] and perhaps a [`Remark`] for a person, or [`Refused`] for a [`CommandRefusal`] of its own, which has a line.
//! - [`run`] reads the words, has the command answer, and writes what that came to.
//!
//! ```rust
//! use flagops_shell::{Console, run};
//!
//! let mut console = Console::new(out, err);
//! let status = run::<_, _, Check<'_>, _, _>(&rt, words, &mut files, &mut console);
//! ```
//!
//! Proved, over the definitions of `specs/`, of each command alike: the output is the report of what it may come to over the
//! files, or the line of a call that ran out of memory; a read or a write that failed is what is reported; where a file has changed,
//! the command did what it was asked; the files are left as it may leave them; and what a person is told is one of its remarks,
//! whatever becomes of the output.
#![tactic(auto)]

mod beginning;
mod command;
mod command_refusal;
mod console;
mod files;
mod outcome;
mod refused;
mod reports;
mod running;
mod usage;

pub use beginning::{ends_line, first_line, may_begin_record, may_note};
pub use command::Command;
pub use command_refusal::CommandRefusal;
pub use console::Console;
pub use files::{FIRST_PIECE, FileSet, LoadFault, NOTES_PIECE, StoreFault};
pub use outcome::{Outcome, Status};
pub use refused::{Refused, Remark};
pub use reports::{report, tell, want, write_three};
pub use running::{refuse, run};
pub use usage::{complain, report_usage};
