//! Rules that give each hash input one of several names, in shares of whole points.
//!
//! A [`Rule`] is a list of names with weights, as the buckets of flagd's `fractional` operation. Its points are the
//! numbers from 0 to the sum of the weights; each entry holds as many of them in a row as its weight says. A hash
//! input falls on the point `floor(hash * total / 2^32)`, with its MurmurHash3, and is given the name there.
//!
//! ```rust
//! use bucket_core::{point, read_rule};
//! use flag_text::read_tree;
//!
//! let tree = read_tree(alloc, br#"[["red",50],["blue",50]]"#, 1000)?;
//! let rule = read_rule(alloc, &tree)?;
//! assert!(rt; point(rule.total(), "test") == 72 && rule.choose("test") == "blue");
//! ```
//!
//! Proved, over the definitions of `specs/`: which point an input falls on, which name a point has, how many points a
//! name has, that a refined rule gives each input the name that it had, that a rule made of a list of points has that
//! name at each point and is the one canonical rule that has, and which rule a tree stands for, with each refusal in
//! its order.
#![tactic(auto)]

mod entries;
mod fault;
mod from_points;
mod names;
mod placing;
mod read;
mod rule;
mod weights;

pub use entries::RuleEntries;
pub use fault::RuleFault;
pub use placing::{point, scale};
pub use read::{literal_bucket, read_rule, weight_of};
pub use rule::{MAX_TOTAL, Rule};
pub use weights::total_weight;
