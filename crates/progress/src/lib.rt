//! How far a command is, for people who watch a terminal.
//!
//! Whoever does the work moves the [`Meter`]s of a [`Progress`] on, and waits for nobody. [`Counted`] is a reader whose bytes move
//! one on. Another thread has a [`TerminalLine`] tell them; a [`BesideLine`] is a writer before whose writes the line is erased.
//!
//! ```rust
//! progress.begin_file(alloc, "book.txt", 300_000_000);
//! progress.file().advance(120_000_000);
//! progress.line(alloc, "planning")?    // reading "book.txt": 120 of 300 MB
//! ```
//!
//! Proved: a counted reader has the bytes left of its reader, and a writer beside the line holds the bytes of its writer. The
//! lines are for people, and no clause says what they are.
#![tactic(auto)]

mod amounts;
mod beside;
mod counted;
mod meter;
mod progress;
mod terminal;

pub use beside::BesideLine;
pub use counted::Counted;
pub use meter::Meter;
pub use progress::Progress;
pub use terminal::TerminalLine;
