//! The command `book`: one book of what several files note, which are books, or files of note lines as the logs of `ofrep` and what
//! `record` prints.
//!
//! [`Uniting`] is the command with its words, which `flagops_shell::run` reads, answers and reports.
//!
//! ```rust
//! use flag_text::WriteOutlet;
//! use flagops_books::Uniting;
//! use flagops_files::SystemFiles;
//! use flagops_shell::{Console, run};
//!
//! let words = ["book", "all.txt", "notes-0.jsonl", "book.txt"];
//! let mut console = Console::new(WriteOutlet::new(rt.stdout()), WriteOutlet::new(rt.stderr()));
//! let status = run::<_, _, _, Uniting<'_>, _, _>(&rt, words.as_slice(), &mut SystemFiles::new(&rt), &mut console);
//! ```
//!
//! Proved, over the definitions in `specs/`, of [`Uniting`]: over files whose bytes are known it comes to what the files make
//! (`Report`), unless memory ran out; the book that is written has the notes of all files and nothing else (`Union`;
//! [`a_book_is_the_union_of_its_files`]); a refusal names the first file at fault, and the line in it, and leaves all files as they
//! were; and of each file in which lines were passed over a person is told how many.
#![tactic(auto)]

mod asked;
mod command;
mod laws;
mod lines;
mod loading;
mod refusal;
mod storing;
mod uniting;
mod usage;
mod words;

pub use asked::Uniting;
pub use laws::a_book_is_the_union_of_its_files;
pub use refusal::{BookCall, BookRefusal, Refused};
