//! The inputs that reached a `fractional` operation of flagd's targeting, and how many of them fall on each point.
//!
//! An [`Exposure`] is the inputs of one page of a book, by which a change of the operation's rule is priced. [`counts`] says how
//! many of them fall on each point of a rule.
//!
//! ```rust
//! use exposures::{Exposure, counts};
//!
//! let exposure = Exposure::of_rising(vec![in alloc; String::from_str(alloc, "test")?]?);
//! assert!(rt; exposure.inputs().len() == 1);
//! assert!(rt; counts(alloc, &exposure, 100)?[72] == 1);
//! ```
//!
//! Proved, over the definitions of `specs/`: an exposure has at most 1000000 inputs of at most 1024 bytes each, in strictly rising
//! order (`Exposure`); the counts at each point are those of the hash (`Counts`).
#![tactic(auto)]

mod counting;
mod exposure;

pub use counting::counts;
pub use exposure::Exposure;
