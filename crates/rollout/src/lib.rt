//! Rollouts: the answer to a rollout request, whether an answer is right, whoever made it, and the flags with the new rule.
//!
//! A [`Planned`] is a new rule with the certificate of its cost, or a set of names which shows that no rule fits. It stands in
//! the file that [`print_planned`] writes and [`read_planned`] reads.
//!
//! ```rust
//! use book_core::Book;
//! use flag_defs::read_flags;
//! use rollout::{Planned, apply, plan, verify};
//!
//! let document = br#"{"flags":{"color":{"state":"ENABLED","variants":{"red":"r","blue":"b"},"defaultVariant":"red",
//!     "targeting":{"fractional":[{"var":"key"},["red",5],["blue",5]]}}}}"#;
//! let flags = read_flags(alloc, document)?;
//! let request = br#"{"plan":1,"flag":"color","totals":{"red":3,"blue":7}}"#;
//! let book = Book::new(alloc);
//! let planned = plan(&rt, alloc, &flags, request, &book)?;
//! verify(&rt, alloc, &flags, request, &book, &planned)?;
//! if let Planned::Emit(rule, certificate) = &planned {
//!     assert!(rt; rule.total_of("blue") == 7 && certificate.cost == 0);
//!     let changed = apply(alloc, &flags, "color", 0, rule)?;
//! }
//! ```
//!
//! Proved, over the definitions of `specs/`:
//! - [`apply`] gives the flags with a rule at a site, or its first refusal (`Applied`): one flag changes, all others stay, and
//!   what chooses alike under both rules resolves as before (`Change`).
//! - [`plan`] and [`plan_refined`] answer a lawful request with a canonical rule that costs the recorded inputs the least of
//!   all that fit, and a certificate that proves it, or with a set of names which shows that none fits; a set under its low
//!   limits only where no set is over its high ones (`Plan`). A lawful request is always decided: memory that runs out is
//!   all that can hinder it. What is answered can be printed and read again, and is told as valid ([`plans_are_valid`]). Where
//!   the request is not lawful, they refuse as [`verify`] does.
//! - [`plan_tally`] answers so on a tally, for all inputs of which so many fall on each point (`Plan`). It has the answers to
//!   give that [`plan_refined`] has on a book with these inputs (`Tallied`, [`tallies_plan_as_books`]).
//! - [`plan_file`] and [`plan_file_on_tally`] answer as these, of a request that was read ([`RequestFile`]).
//!
//! # What a rollout request asks of a flag document and of recorded inputs, and whether an answer to it is right, whoever made it
//!
//! [`RequestFile`] is the file of a request, read once. [`problem_of`] looks up the flag, its site and the page of its inputs,
//! and refuses what is no lawful request; [`verify_file`] checks an answer on it, [`verify`] and [`verify_refined`] do on the
//! bytes of a request.
//!
//! Proved, over the definitions of `specs/`:
//! - [`RequestFile`] holds what reading its bytes gives (`RequestFile`), so that whoever is handed it answers as the bytes say.
//! - [`verify`], [`verify_refined`] and [`verify_file`] accept an answer exactly where the request is lawful (`Lawful`) and the
//!   checks accept the answer (`Verified`): then the rule costs the recorded inputs the least of all rules that fit, or none
//!   fits. Each refusal comes first in its order.
//! - [`verify_tally`], [`verify_tally_refined`] and [`verify_file_on_tally`] do the same on a tally, for all inputs of which so
//!   many fall on each point (`CheckedTally`).
//! - [`problem_of`] gives what a lawful request asks, or its first refusal (`Lawful`, `Refined`), and [`problem_of_tally`] what
//!   it asks of a tally (`CheckedTally`).
//! - [`read_book_asked`] gives the book of a file, or that file's first fault, and has counted what a request asks of it.
#![tactic(auto)]

mod application;
mod asked;
mod fault;
mod laws;
mod place;
mod planner;
mod problem;
mod refining;
mod request_file;
mod tallied;
mod verification;
mod verify_fault;

pub use application::apply;
pub use asked::{read_book_asked, read_book_for};
pub use fault::RolloutFault;
pub use laws::{applied_is_local, plans_are_valid, tallies_plan_as_books};
pub use note_tallies::PageTally;
pub use plan_text::{PlanFileFault, Planned, print_planned, print_planned_line, read_planned};
pub use planner::{plan, plan_counted, plan_file, plan_refined};
pub use problem::{Problem, problem_asked, problem_of, problem_of_tally, tally_problem_asked};
pub use refining::Refining;
pub use request_file::RequestFile;
pub use tallied::{plan_file_on_tally, plan_tally};
pub use verification::{
    verify, verify_file, verify_file_on_tally, verify_refined, verify_tally, verify_tally_refined,
};
pub use verify_fault::VerifyFault;
