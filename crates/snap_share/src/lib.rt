//! The current snapshot, for many readers that never go back, and one publisher.
//!
//! [`share`] makes a [`Publisher`] and [`ReadSeat`]s. The current snapshot with its frame, made once, is shared by two stamps
//! (`left_right`) and all who read it: reading takes no lock, copies no flags and waits for nobody, publishing waits for
//! readers that still take the stamp. What a publisher [`Publisher::tell`]s, a seat
//! can [`ReadSeat::learn`], and from then on sees no less.
//!
//! ```rust
//! use flag_defs::Flags;
//! use snap_share::{Current, History, ShareName, share};
//!
//! fn newest<J: ShareName, R: Wait>(rt: &R, alloc: Global, first: Flags, later: Flags) -> Result<u64, Fail> {
//!     let (mut publisher, mut seats) = share::<J, R>(rt, alloc, History::new(), first, 2)?;
//!     let published = publisher.publish(rt, alloc, later);    // 2
//!     let mut seen = 0;
//!     for seat in seats.iter_mut() {
//!         seat.learn(publisher.tell());
//!         seen = seat.current().map_or(0, |snapshot| snapshot.number());    // no less than what was told
//!     }
//!     publisher.close(rt);    // a publisher ends here alone
//!     published?;
//!     Ok(seen)
//! }
//! ```
//!
//! What is proved: publisher, seat and what was told each know a list of published flags, a beginning of one history that
//! exists in proofs alone (`History`). A publisher's list is the history up to the stamp that the shown copy has (`Shown`).
//! Publishing puts the flags behind that list, and answers its length. A seat's list only
//! grows: a snapshot that it answers is the last of its list, with the list's length as its number (`Known`).
#![tactic(auto)]

mod cell;
mod current;
mod fault;
mod front;
mod history;
mod publisher;
mod seat;
mod sharing;
mod stamp;

pub use cell::Handover;
pub use current::Current;
pub use fault::ShareFault;
pub use history::{History, ShareName};
pub use publisher::{Publisher, Told};
pub use seat::ReadSeat;
pub use sharing::share;
pub use stamp::Stamp;
