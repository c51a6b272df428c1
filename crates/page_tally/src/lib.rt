//! The inputs of a book file without a text for each: how many of one page fall on each point, and the lines that they stand on.
//!
//! Proved, over the definitions of `specs/`: [`read_tally`] gives what `counts` of `book_core` gives of the page's
//! exposure in the book of the file, or that file's first fault (`Tally`). It is a fold over the lines that keeps of
//! those before the page, the last input, the line's number and the counts (`Folding`), and a run of lines at fault in
//! nothing changes only these (`Runs`). Long runs are read in parts by all processors, each part before it is known what
//! stands before it (`Parts`), and counted by the points of their inputs (`Points`). [`BookFile::has_foreign`] says whether an
//! input of a page is none of its flag (`Foreign`).
//!
//! # The lines of a book file, with no text for an input that stands for itself
//!
//! Whoever goes over the inputs of a book that is known to be one needs neither its pages in memory nor a text for each input.
//! [`next_page`] finds the page that begins first, and [`first_line`] the line that stands first, each with the bytes behind it.
//!
//! Proved, over the definitions of `book_core`: they give the lines of the bytes and the pages that begin on them.
#![tactic(auto)]

mod ascii;
mod book_line;
mod counter;
mod file;
mod foreign;
mod input;
mod line;
mod lines;
mod pages;
mod part;
mod parts;
mod plain;
mod read;
mod recorded;
mod run;
mod stretch;

pub use book_line::{Line, first_line};
pub use file::BookFile;
pub use pages::next_page;
pub use read::read_tally;
pub use recorded::Recorded;
