//! The library for programs in C, and for whatever calls C: `library/flagops.h` says what each call does.
//!
//! Each export calls the method of its name of a [`library_seat::Seat`], or the call of its name of [`library_rollouts`], and
//! answers with the number of what that answers: 0, or the number of the refusal. C holds a seat as a [`handle::Handle`], which is
//! none, or owns the box of a seat.
#![tactic(auto)]

mod about;
mod exports;
mod feeding;
mod handle;
mod numbers;
mod resolving;
mod rollouts;
mod sharing;
