//! The command `drive`: from an asks file to the lines that are printed and the file of the book.
//!
//! [`read_asks`] reads the file of the asks: token by token where each ask has its five members in the order of the
//! documentation and no others, and else as a tree. [`asks_of`] gives the asks of what was read; [`drive_asks`] has
//! `book_share::drive` answer them by so many workers, and gives the whole output of the command, a [`DriveOutput`]: a line for each
//! resolution, five counts, and the file of the book, with a [`Tally`] of how many asks ended in what. [`refusal_of`] is what
//! is refused before an ask is answered, [`Misfit::of`] what keeps a tree from being a list of asks, and where, and
//! [`has_unread_ask`] whether an ask has a member that nobody reads.
//!
//! ```rust
//! use flag_defs::read_flags;
//! use flagops_drive::{drive_asks, read_asks};
//! use json::Scratch;
//!
//! let flags = read_flags(alloc, br#"{"flags":{}}"#)?;
//! let asks = br#"[{"key":"color","want":"text","default":"d","context":{"key":"test"},"moment":0}]"#;
//! let mut scratch = Scratch::new(alloc);
//! let asks = read_asks(alloc, asks, 1000, &mut scratch)?;
//! let drove = drive_asks(&rt, alloc, &flags, &asks, 8, None, false, None)?;
//! ```
//!
//! Proved, over the definitions of `specs/`: what was read, in either form, is the tree that `flag_text` reads of the bytes
//! (`File.file_view`), and is refused as that is; the asks are those of `Asks.asks_of`, and are refused with BadAsks exactly
//! where it gives none, and then there is a misfit to tell of (`Misfit.misfit_of`); the lines are `Lines.drive_text` of what
//! the flags resolve the asks to, in their order; and the file is that of a book which, where no page was full, has just the
//! inputs that the asks reached, and those that a book had before if one is given (`Driven.IsDriveOutput`). The tally is of the
//! resolutions that are printed (`Tally.IsTallied`), and has as many inputs as the asks reached. It is refused with PageFull
//! only where no book holds both. The gate lets each ask start at once, so Stalled does not come.
#![tactic(auto)]

mod asks;
mod asks_file;
mod command;
mod fault;
mod gate;
mod laws;
mod lines;
mod misfit;
mod plain_ask;
mod plain_asks;
mod plain_members;
mod reading;
mod tally;
mod unplain;
mod unread;
mod wants;

pub use asks::asks_of;
pub use asks_file::{AsksFile, read_asks};
pub use command::{DriveOutput, Rest, drive_asks, refusal_of};
pub use fault::DriveRefusal;
pub use laws::{a_misfit_is_all_that_refuses, floats_change_nothing};
pub use misfit::{AskMember, Misfit};
pub use plain_ask::PlainAsk;
pub use tally::{Endings, Tally};
pub use unread::has_unread_ask;
