//! Seats: what one thread of an application resolves flags with, in the application's own process.
//!
//! A [`Seat`] has the flags of a document, which it may share with other seats, a context that was read once for many
//! resolutions, and the note lines of what its resolutions reached, until they are taken. It has no thread, no file and no
//! clock, and it is told apart from the C library that stands over it by nothing but the form of its arguments.
//!
//! Proved, over the definitions of `specs/`: each call answers what `flag_resolve` resolves of its arguments, or the first
//! refusal in its order (`Question`); what is written into a room is the whole answer or nothing (`Room`); a refusal leaves
//! the seat and all that is passed as it was; and each note line of what was reached is kept, or the seat says that one was
//! not (`Seat`).
//!
//! # Lines that are kept until somebody takes them: each once, in the order in which they came, up to so many bytes
//!
//! What does not fit is left out, and whoever takes the lines is told so: no line is lost in silence
//! ([`no_line_is_lost_in_silence`]).
#![tactic(auto)]

mod answer;
mod asked;
mod feeding;
mod held;
mod kept;
mod keys;
mod laws;
mod lines;
mod opening;
mod question;
mod refusal;
mod resolving;
mod room;
mod seat;
mod taking;
mod workspace;

pub use answer::Details;
pub use asked::Asked;
pub use kept::KeptLines;
pub use laws::no_line_is_lost_in_silence;
pub use refusal::Refusal;
pub use room::put;
pub use seat::Seat;
