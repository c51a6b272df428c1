//! Asks, answered by threads that share the book of `book_lock`.
//!
//! ```rust
//! use book_share::{Ask, Driven, OpenGate, drive};
//! use flag_defs::Flags;
//!
//! fn driven<R: Threads + Wait + Sync>(rt: &R, alloc: Global, flags: &Flags, asks: &[Ask<'_>]) -> Result<Driven, Fail> {
//!     Ok(drive(rt, alloc, flags, asks, 8, &OpenGate)?)    // by 8 workers, each in a thread where one can be made
//! }
//! ```
//!
//! Proved, over the definitions of `specs/`: the answers are what the flags resolve the asks to, in their order (`Asked`),
//! and the book has just the inputs that they reach, none of which was noted to no avail where no page was full
//! (`Driven`), for any number of workers. What the seats saw says it: nothing is compared at the end. Not proved: that more
//! than one thread ran.
//!
//! # Calls that run side by side, each in a thread whose stack has a fixed size, whatever the system's limit is (`ulimit -s`)
//!
//! [`join`] and [`map_vec`] are those of `std::thread`, with the same contracts, but for the stack and that they wait: a thread
//! that borrows has a scope, whose end is waited for.
//!
//! ```rust
//! use book_share::map_vec;
//!
//! let lengths = map_vec(rt, names, &|name: String| name.len())?;
//! ```
//!
//! Proved: what each call gave is what a call of the closure gives, in the order of the jobs, whether it ran in a thread of its own
//! or here.
#![tactic(auto)]

mod ask;
mod drive_fault;
mod driving;
mod fork;
mod gate;
mod gather;
mod jobs;
mod known;
mod order;
mod reach;
mod worker;

pub use ask::Ask;
pub use book_lock::{Blanks, BookName, SealFault, SealRefused, Seat, SeatsFault, SharedBook, seal};
pub use drive_fault::DriveFault;
pub use driving::{Driven, drive};
pub use fork::join;
pub use gate::{Attempt, Gate, OpenGate};
pub use jobs::map_vec;
