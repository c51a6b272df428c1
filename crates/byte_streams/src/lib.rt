//! Streams of bytes: their lines in batches of bounded size, and calls that are made again after a signal.
//!
//! A stream is an [`Inlet`]: a reader, and whether a read of it has failed. [`fill`] reads on until a batch is full or the
//! stream ends, and [`cut_lines`] cuts the lines that ended, and the bytes behind them; [`cut_line`] the first of them. So
//! a filter holds one batch, however long its input is.
//!
//! Proved, over the definitions of `specs/`: a batch grows by the bytes that the stream gives, and stops short of its size
//! only where the stream ends (`Fill`); what is cut are the lines before each line feed, whatever follows (`Lines`).
//!
//! # Readers and writers whose calls are made again where a signal interrupts them
//!
//! Signals interrupt them when a process is stopped and goes on.
//!
//! Proved: what is left of such a reader, and what such a writer holds, is what the one inside has or holds.
#![tactic(auto)]

mod cut;
mod filling;
mod inlet;
mod input;
mod output;

pub use cut::{cut_line, cut_lines};
pub use filling::{FillFault, fill};
pub use inlet::{Inlet, ReadInlet};
pub use input::PersistentInput;
pub use output::PersistentOutput;
