//! The book of `book_core`, shared by threads under a lock of one word.
//!
//! The word is 0, or says which seat holds; the book lies in the slot beside it. Each thread notes through a seat of its
//! own, which keeps two counts and nothing else, whatever number of calls it makes.
//!
//! ```rust
//! use book_core::{Noted, Page};
//! use book_lock::{Blanks, BookName, SharedBook};
//!
//! fn noted<L: BookName, R: Wait>(rt: &R, alloc: Global, blanks: Blanks, page: &Page) -> Result<(Noted, Noted), Fail> {
//!     let (book, mut seats) = SharedBook::<L>::new(alloc, blanks)?;
//!     let mut second = seats.pop().ok_or("two seats")?;
//!     let mut first = seats.pop().ok_or("two seats")?;
//!     let one = book.note(rt, alloc, &mut first, page, "a")?;     // New
//!     let two = book.note(rt, alloc, &mut second, page, "a")?;    // Again: this seat has then seen the call of the other
//!     Ok((one, two))
//! }
//! ```
//!
//! Proved, over the definitions of `specs/`: there is one list of the calls that the book accepted, each with the reply
//! that comes after those before it (`Seen`); each seat has seen a beginning of it, which has all its own calls, and a
//! note or a look lets it see more, its own call last (`Notes`); each step on the word and the slot keeps the rule
//! (`Rule`); the sealed book is what the whole list leaves (`Sealed`), so just what the seats were told, each input New to
//! one seat, once (`Told`). A seal compares nothing and takes no memory. Not proved: that a note which tries again comes
//! to its turn.
#![tactic(auto)]

mod blanks;
mod call;
mod fault;
mod laws;
mod lock;
mod name;
mod rule;
mod sealing;
mod seat;
mod shared;

pub use blanks::Blanks;
pub use call::{Call, Sight, View};
pub use fault::{SealFault, SeatsFault};
pub use laws::a_legal_list_has_first_sightings;
pub use lock::{Board, BookLock, Place};
pub use name::BookName;
pub use rule::{Accepted, Orders};
pub use sealing::{SealRefused, seal};
pub use seat::Seat;
pub use shared::SharedBook;
