//! The command `check`: which flags of documents are good and which are broken, and what is doubted of them.
//!
//! [`Checking`] is the command with its words, which `flagops_shell::run` reads, answers and reports.
//!
//! ```rust
//! use flag_text::WriteOutlet;
//! use flagops_checks::Checking;
//! use flagops_files::SystemFiles;
//! use flagops_shell::{Console, run};
//!
//! let words = ["check", "--strict", "flags/shop.json", "flags/search.json"];
//! let mut console = Console::new(WriteOutlet::new(rt.stdout()), WriteOutlet::new(rt.stderr()));
//! let status = run::<_, _, _, Checking<'_>, _, _>(&rt, words.as_slice(), &mut SystemFiles::new(&rt), &mut console);
//! ```
//!
//! Proved, over the definitions in `specs/`, of [`Checking`]: over files whose bytes are known it comes to the report of all
//! documents (`Report`, `Printed`), unless memory ran out; what is judged of a flag is what its definition means and what
//! `flag_doubts` doubts of it (`Judged`), and of its sites (`Sites`); with `--strict` the status is 1 exactly where a flag of any document is broken or doubted,
//! or a member of a document is not read or stands more than once; a person is told a line for each flag that is broken, and one for
//! each doubt of each flag with the document's path, the flag's key and the doubt's name (`Told`). The first document that is
//! refused refuses all, and is named. Files are only read.
#![tactic(auto)]

mod asked;
mod checked;
mod command;
mod form;
mod gathering;
mod judging;
mod loading;
mod names;
mod objects;
mod places;
mod printing;
mod reasons;
mod refusal;
mod remark_lines;
mod sites;
mod telling;
mod usage;
mod words;

pub use asked::Checking;
pub use refusal::{CheckCall, CheckRefusal, Refused};
