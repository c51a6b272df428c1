//! Diagnostics of rollouts: lines in words, for the error outlet, on what a request, a check or an application of a rule comes to.
//!
//! ```rust
//! use price_core::Request;
//! use rollout_diagnostics::of_request;
//!
//! let bytes = br#"{"plan":1,"flag":"color","site":0}"#;
//! if let Err(fault) = Request::read(alloc, bytes) {
//!     let lines = of_request(alloc, "request.json", bytes, fault)?;
//!     assert!(rt; lines.as_str().starts_with("error: the request \"request.json\": \"totals\" is missing"));
//! }
//! ```
//!
//! Each function makes the lines of one kind of refusal, or of one kind of answer, from what is known of it: the path, the request's
//! bytes, the flags, the rule.
//! Proved: the lines begin with the path or the word that they are about (`Named` of `file_diagnostics`). The rest of their wording
//! is no one's contract; that there is a diagnostic, and when, is said by the contracts of the commands.
//! Want of memory is the one fault of all: the caller then writes a fixed sentence.
#![tactic(auto)]

mod checks;
mod computed;
mod explained;
mod kept;
mod pages;
mod place;
mod plans;
mod requests;
mod sites;
mod tallies;

pub use checks::of_check;
pub use explained::of_planned;
pub use kept::of_kept;
pub use pages::{of_foreign, of_unrecorded};
pub use plans::of_large_plan;
pub use requests::of_request;
pub use sites::{of_applied, of_rollout};
pub use tallies::{of_empty_tally, of_other_tally};
