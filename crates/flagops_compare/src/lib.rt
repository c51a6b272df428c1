//! The command `compare`: how many recorded users an edit of a document gives another variant, and which.
//!
//! [`Comparing`] is the command with its words, which `flagops_shell::run` reads, answers and reports.
//!
//! ```rust
//! use flag_text::WriteOutlet;
//! use flagops_compare::Comparing;
//! use flagops_files::SystemFiles;
//! use flagops_shell::{Console, run};
//!
//! let words = ["compare", "flags.json", "edited.json", "book.txt"];
//! let mut console = Console::new(WriteOutlet::new(rt.stdout()), WriteOutlet::new(rt.stderr()));
//! let status = run::<_, _, _, Comparing<'_>, _, _>(&rt, words.as_slice(), &mut SystemFiles::new(&rt), &mut console);
//! ```
//!
//! Proved, over the definitions in `specs/`, of [`Comparing`]: over files whose bytes are known it comes to what the edit does on
//! the pages of the book, or on the page of the tally (`Report`), unless memory ran out; what is printed is `Printed`; a page that
//! has no rules to compare is told with the reason and the document, a flag that is asked for and has no page by its key (`Told`),
//! and a refusal by the file that is refused; no file changes but that of the picture, where one is asked for and `--strict` doubts
//! nothing (`Drawn`).
#![tactic(auto)]

mod asked;
mod command;
mod comparing;
mod drawing;
mod loading;
mod objects;
mod printing;
mod reasons;
mod refusal;
mod telling;
mod usage;
mod words;

pub use asked::Comparing;
pub use refusal::CompareRefusal;
