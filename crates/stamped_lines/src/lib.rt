//! The lines that are written to an output, each behind the moment when it began and a level.
//!
//! Proved, over the definitions of `specs/`: through a [`StampedLines`] the writer inside gets just what is written, and where there are
//! stamps no write of it has more than one line that needs one (`piece`), so that each such line begins a write; its level is
//! `level_of` it (`level`), by its first word or that of the line with which its report began. Not proved: the moment, and that the
//! stamp stands before its line: it goes past the writer, on another one of the same output.
#![tactic(auto)]

mod level;
mod line;
mod stamped;

pub use stamped::StampedLines;
