//! The commands `bucket`, `price`, `resolve`, `plan`, `verify`, `apply`, `drive` and `completions`, over whatever files and outlets
//! they are given.
//!
//! Each command is one function from the files and its words to its whole output or its refusal; `flagops_shell::run` reads the
//! words of [`Listed`], does the command and writes its report.
//!
//! ```rust
//! use flag_text::WriteOutlet;
//! use flagops_commands::Listed;
//! use flagops_files::SystemFiles;
//! use flagops_shell::{Console, run};
//!
//! let words = ["bucket", "rule.json", "test"];
//! let mut console = Console::new(WriteOutlet::new(rt.stdout()), WriteOutlet::new(rt.stderr()));
//! let status = run::<_, _, _, Listed<'_>, _, _>(&rt, words.as_slice(), &mut SystemFiles::new(&rt), &mut console);
//! ```
//!
//! Proved of [`Listed`]: what a command comes to is what its definition (`specs/Commands.antt`) gives over the files, unless memory
//! ran out; `flagops_shell` has what is then written. A command has a definition of its own in `specs/`; `plan` and `verify` answer on a tally as on the book whose inputs
//! it counts ([`tallies_answer_as_books`]). What a person is told of a refusal begins with the path or the
//! word that was refused, the first in the command's order (`specs/Attempts.antt`).
#![tactic(auto)]

mod books;
mod commands;
mod completions;
mod flags;
mod listed;
mod loading;
mod refusal;
mod rollouts;
mod rules;

pub use listed::Listed;
pub use refusal::{ListedCall, ListedRefusal, PriceMismatch, Refused};
