//! Writes and reads streams of snapshots.
//!
//! [`serve_stream`] writes frames of the current snapshot to an [`flag_text::Outlet`] as numbers come; [`follow_stream`]
//! reads frames from an [`Inlet`], that of `byte_streams`, and hands each snapshot to a [`Sink`] when its last byte has come; [`read_stream`] is the
//! case with a list. None of them knows of sockets or threads.
//!
//! ```rust
//! use sync_server::{ReadEnd, ReadInlet, read_stream};
//!
//! let frame = b"\x00\x00\x00\x14\x00\x00\x00\x00\x00\x00\x00\x01{\"flags\":{}}";
//! let mut inlet = ReadInlet::new(frame.as_slice());
//! let (snapshots, end) = read_stream(alloc, &mut inlet, 1000);
//! assert!(rt; snapshots.len() == 1 && end == ReadEnd::Ended);
//! ```
//!
//! What is proved, over the definitions in `specs/`:
//! - what [`serve_stream`] wrote is whole frames of snapshots that its source knows, with rising numbers, as many as it
//!   says; where the writer failed a part of one more may follow (`Served`).
//! - what [`follow_stream`] and [`read_stream`] hand on is all that is whole in the bytes that they read, and their
//!   [`ReadEnd`] says how those bytes and the reading ended (`Ends`, `Follows`).
#![tactic(auto)]

mod end;
mod follow;
mod next;
mod read;
mod serve;
mod sink;

pub use byte_streams::{Inlet, ReadInlet};
pub use end::{ReadEnd, StreamEnd};
pub use follow::follow_stream;
pub use next::NextNumber;
pub use read::read_stream;
pub use serve::serve_stream;
pub use sink::Sink;
