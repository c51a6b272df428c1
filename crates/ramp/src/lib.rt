//! A rollout in steps: each step is planned on the rule that the step before left, and checked so.
//!
//! ```rust
//! use ramp::{plan_steps, verify_steps};
//!
//! let steps = ramp::read_steps(alloc, request)?;
//! let answers = plan_steps(&rt, alloc, &flags, steps.as_slice(), &book, 1)?;
//! verify_steps(&rt, alloc, &flags, steps.as_slice(), &book, None, answers.as_slice())?;
//! ```
//!
//! Proved, over the definitions of `specs/`:
//! - [`plan_steps`] answers each step as `rollout::plan` answers its request on the flags in which `rollout::apply` put the rule
//!   of the step before, and stops at the first step for which no rule fits; else it gives the first refusal and its step
//!   (`Ramp`).
//! - [`verify_steps`] accepts the answers exactly where each is right so, and tells the first that is not (`Right`). What
//!   [`plan_steps`] answers it accepts ([`ramps_are_valid`]).
//! - [`plan_steps_on_tally`] and [`verify_steps_on_tally`] do the same on a tally, for all inputs of which so many fall on each
//!   point. What they answer and tell is that of a book with these inputs ([`tallies_ramp_as_books`]).
//! - [`left_by`] gives the flags that the next step stands on.
//! - Where the steps ask for one site and forbid to leave a name, whoever is given the name is given it by each later rule, and
//!   all rules are of one total ([`nobody_falls_back`]).
//!
//! # A rollout in steps as it is written: the requests of its steps, and the answers to them
//!
//! Steps are asked for by a request that has `"steps"`, a list of 1 to 100 totals, in the place of `"totals"`: it stands for a
//! request for each of them. The answers stand one a line, `{"plan":PLAN,"step":N}` with N from 1.
//!
//! ```rust
//! use ramp::{print_ramp, read_ramp, read_steps};
//!
//! let request = br#"{"plan":1,"flag":"color","steps":[{"red":5,"blue":5},{"blue":10}]}"#;
//! let steps = read_steps(alloc, request)?;
//! assert!(rt; steps.len() == 2);
//! let ramp = b"{\"plan\":{\"none\":[\"red\"],\"plan\":1},\"step\":1}\n";
//! let answers = read_ramp(alloc, ramp)?;
//! assert!(rt; print_ramp(alloc, answers.as_slice())?.as_slice() == ramp.as_slice());
//! ```
//!
//! Proved, over the definitions of `specs/`: [`read_steps`] gives the requests that the bytes stand for, or the first refusal
//! (`Steps`); [`print_ramp`] writes the lines of the answers, which read as these where each is in order, and [`read_ramp`] reads
//! exactly the files that `Lines` says.
#![tactic(auto)]

mod basis;
mod fault;
mod file_fault;
mod laws;
mod lines;
mod planning;
mod print;
mod request;
mod standing;
mod steps;
mod verifying;

pub use fault::{RampFault, StepFault};
pub use file_fault::{RampFileFault, StepsFault};
pub use laws::{nobody_falls_back, ramps_are_valid, tallies_ramp_as_books};
pub use lines::read_ramp;
pub use planning::{plan_steps, plan_steps_on_tally};
pub use print::print_ramp;
pub use rollout::PageTally;
pub use standing::left_by;
pub use steps::read_steps;
pub use verifying::{verify_steps, verify_steps_on_tally};
