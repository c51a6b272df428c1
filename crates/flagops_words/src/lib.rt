//! What the words of the command line ask for.
//!
//! [`read_words`] gives the command that the words name, with each of its words, or the mistake that `clap` finds in them.
//! [`Asked`] has a variant for each command; [`Moment`] and [`Factor`] are the numbers that a word may spell,
//! [`Shell`] the shells whose completion of these words can be printed.
//!
//! ```rust
//! use flagops_words::{Asked, read_words};
//!
//! let words = ["bucket", "rule.json", "test"];
//! let Ok(Asked::Bucket { rule, key }) = read_words(alloc, words.as_slice()) else {
//!     return Err("a bucket is asked for")?;
//! };
//! assert!(rt; rule == "rule.json" && key == "test");
//! ```
//!
//! A command that reads its words apart from the program tells `clap` of its [`arguments`], and reads by [`matches`] what
//! is given for them; `specs/Alone.antt` says what the words then ask for.
//!
//! Proved, over the definitions of `specs/`: the command is the one of `Words.asked_by`, which is stated in terms of what
//! `clap` is proved to read; an error has the kind of one of the words' faults, or memory ran out. Words without a fault ask
//! for a command.
#![tactic(auto)]

pub mod about;
pub mod arguments;
mod asked;
pub mod example;
mod kinds;
pub mod matches;
mod numbers;
mod shell;
mod table;
mod usage;
mod words;

pub use asked::Asked;
pub use numbers::{Factor, LARGEST_32, LARGEST_PORT, Moment, factor_number, factor_of, spelled};
pub use shell::Shell;
pub use words::read_words;
