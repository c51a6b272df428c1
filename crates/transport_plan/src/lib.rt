//! The planner: the cheapest assignment of an instance's points to names, with the certificate that proves its cost, or the names
//! of a cut; and the rule of an assignment.
//!
//! ```rust
//! use min_cost_flow::Effort;
//! use transport_core::Instance;
//! use transport_plan::{Solved, solve, spread};
//!
//! /// A rule that fits at the least cost, nothing where none fits.
//! fn least<L: Ledger>(
//!     alloc: Global, old: &Rule, counts: &[u32], instance: &Instance<'_>, effort: &mut Effort<L>,
//! ) -> Result<Option<Rule>, AllocError> {
//!     match solve(alloc, instance, effort)? {
//!         Solved::Plan(assignment, _) => Ok(Some(spread(alloc, old, counts, instance, assignment)?)),
//!         Solved::None(_) => Ok(None),
//!     }
//! }
//! ```
//!
//! Proved, over the definitions of `specs/Solved` and of `transport_core`: [`solve`] always decides, unless memory runs out. It
//! answers a plan with an assignment and a certificate such that each new rule with this assignment passes the check of the
//! certificate and no rule that fits costs the recorded inputs less, or a cut that is deficient by its kind, one under the low
//! limits only where no set of names is over the high ones. No answer is tested before it is given: the flow is proved to be the
//! cheapest one, or the search for it to leave a cut. The augmentations and settlings that it takes are counted in an `Effort`,
//! and bounded by the instance's points, groups and names. [`spread`] gives a canonical rule that has an assignment
//! (`HasAssignment`): of each group's points each name has just its number.
//!
//! The modules on the way of one plan:
//!
//! - `network`: the instance in numbers, names and groups by their places and the price of each switch as a cost (`IsNumbered`);
//!   it meets what flows ask of a problem (`IsFlowProblem`). `min_cost_flow` has its cheapest flow.
//! - `dual_prices`, `cost`, `certifying`: the certificate of a cheapest flow. A name's dual price is its potential over that of the
//!   root, and a group's the least that a switch of one of its points costs, less the dual price of the new name.
//! - `marks`, `cuts`: the names of the cut of a failed search, in order (Hall's condition; Hoffman's circulation theorem). Those
//!   above: their points outnumber the high limits of all that they may keep or change to. Those below: their low limits sum
//!   above the points that have or may take one of them, and then no set of names is over its high limits.
//! - `laws`: functions that compute nothing, whose contracts say what a flow's dual prices prove and what a failed search shows,
//!   over the definitions of the planning problem and of nothing that holds a flow.
//! - `placing`, `stretches`, `thresholds`, `dealing`, `spreading`: the rule of an assignment. Which of a group's points have which
//!   name is no promise. They are chosen so that the rule has few entries: stretches of points of one group change whole, first
//!   those between two neighbours that have the new name, then those beside one, then the others, the longest first.
#![tactic(auto)]

mod certifying;
mod cost;
mod cuts;
mod dealing;
mod dual_prices;
mod laws;
mod marks;
mod network;
mod placing;
mod solving;
mod spreading;
mod stretches;
mod thresholds;

pub use laws::{
    a_failed_search_leaves_a_cut, an_optimal_flow_is_optimal, an_optimal_flow_is_proved,
    dual_prices_of_an_optimal_flow_prove_its_cost, the_dual_prices_of_groups_are_least_offers,
};
pub use solving::{Solved, solve};
pub use spreading::spread;
