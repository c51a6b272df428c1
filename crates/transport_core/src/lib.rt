//! Whether a plan is right, whoever made it: the check of a new rule with the certificate of its cost.
//!
//! Proved, over the definitions of `specs/`: `check_plan` accepts a rule exactly where it fits (`Fits`) and the
//! certificate's numbers, one for each group and name, are dual prices (`Dual`, `Certificate`) that prove its cost, and then no
//! rule of any shape that fits costs the inputs less; each refusal comes first in its order (`Refusals`).
//!
//! # What a rollout's answers are about, whoever makes them
//!
//! Instances, assignments, certificates and cuts, with the definitions of a rule that fits and costs the least, the checks of a
//! certificate's numbers, and the check of a cut.
//!
//! ```rust
//! use bucket_core::read_rule;
//! use flag_text::read_tree;
//! use price_core::Request;
//! use transport_core::{Cut, CutKind, check_cut};
//!
//! let old = read_rule(alloc, &read_tree(alloc, br#"[["red",5],["blue",5]]"#, 1000)?)?;
//! let request = br#"{"plan":1,"flag":"color","totals":{"red":3,"blue":1,"green":6},"forbid":[["red","green"]]}"#;
//! let request = Request::read(alloc, request)?;
//! let [red, blue, green] = ["red", "blue", "green"].map(|name| String::from_str(alloc, name));
//! let names = vec![in alloc; blue?, green?, red?]?;
//! let limits = request.totals(alloc, names.as_slice())?;
//! // The 5 points of red may not become green, and red and blue may have 4 in all.
//! let names = vec![in alloc; String::from_str(alloc, "red")?]?;
//! check_cut(alloc, &old, &limits, request.prices(), &Cut { kind: CutKind::Over, names })?;
//! ```
//!
//! Proved, over the definitions of `specs/`: `check_cut` accepts a set of names exactly where it is deficient (`Deficient`), and
//! then no rule fits. Whether a rule keeps its limits (`keeps_limits`), which groups its points fall into (`groups`), and
//! whether a certificate's numbers are those of the groups and names (`are_groups`, `are_names`), leave each reduced cost at 0
//! or above (`first_broken`) and sum to the cost (`sums_to`): each answers what its definition says (`Refusals`, `Certificate`).
//! The check of a plan stands on them, and on two laws, `weak_duality` and
//! `deficient_sets_fit_none`. Of the recorded inputs only how many fall on each point is asked for (`Tally`): what is proved
//! holds of all inputs of which so many do, and so does their cost (`tallies_cost`).
//!
//! An `Instance` is what a planner is given: groups of points, limits and prices, without the rule or the inputs. Proved of it:
//! `make` gives the groups of the rule (`Instance`). What shows that an assignment on it costs the least is `IsProved`
//! (`Assignment`), which planners are proved to reach.
#![tactic(auto)]

mod assignment;
mod certificate;
mod counted;
mod cut;
mod duals;
mod fault;
mod grouping;
mod instance;
mod laws;
mod plan;
mod rows;
mod slack;
mod totals;

pub use assignment::{Assignment, AssignmentRow};
pub use certificate::{Certificate, Cut, CutKind};
pub use cut::check_cut;
pub use duals::{are_groups, are_names, sums_to};
pub use fault::CheckFault;
pub use grouping::groups;
pub use instance::Instance;
pub use laws::{deficient_sets_fit_none, tallies_cost, weak_duality};
pub use plan::check_plan;
pub use rows::Row;
pub use slack::first_broken;
pub use totals::keeps_limits;
