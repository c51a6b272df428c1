//! Flows of least cost: groups of points are spread over names within the limits of each name, and each switch of a point has a
//! cost for each input recorded there (Ahuja, Magnanti, Orlin, Network Flows, sections 9.2, 9.3 and 9.7). Points move along
//! shortest paths of the residual network, first until no name is above its high limit, then until none is below its low one.
//!
//! ```rust
//! use min_cost_flow::{FlowProblem, Outcome, cheapest_flow};
//! use min_cost_flow::Effort;
//!
//! /// How many points each name has at the least cost, nothing where no flow is within the limits.
//! fn totals<L: Ledger>(
//!     alloc: Global, problem: &FlowProblem, effort: &mut Effort<L>,
//! ) -> Result<Option<Vec<u32>>, AllocError> {
//!     let passed = cheapest_flow(alloc, problem, effort)?;
//!     match passed.outcome {
//!         Outcome::Cheapest => Ok(Some(passed.flow.totals)),
//!         Outcome::Over | Outcome::Under => Ok(None),
//!     }
//! }
//! ```
//!
//! The modules, each over those before it, with what is proved:
//!
//! - `problem`: [`FlowProblem`], the problem in numbers. Names are 0 to k-1, and the root is the node after them.
//! - `optimal`: two laws, which compute nothing. [`optimality`]: a flow is optimal for its totals by potentials just where
//!   no residual arc has a negative reduced cost by them. [`pushing`]: points that move along arcs of reduced cost 0 stay at
//!   names of the least cost less potential.
//! - `span`, `residual`: the arcs from a name are the cheapest moves of the points that are there (`IsRow`). Of the groups of an
//!   old variant the first or the last one with points at the name has the cheapest; these are found in a [`Span`] of the groups.
//! - `initial`, `flow`: a [`Flow`] begins as the one in which each point keeps its variant, which is optimal by potentials of 0. It
//!   stays a flow with its residual arcs (`IsFlow`) as points are pushed, so also midway along a path.
//! - `augmenting`: points move along the path that a search found, as many as its bottleneck, and stay at names of the least cost
//!   less potential.
//! - `placing`, `meeting`, `cheapest`: the two passes, at whose end [`cheapest_flow`] has an optimal flow within all limits
//!   (`IsCheapest`), or a search that failed in the first pass (`IsStuckAbove`) or in the second (`IsStuckBelow`). At W points it
//!   makes at most 2 W augmentations, and one search more, each of which settles each node at most once.
//!
//! # Shortest paths in a residual network, by reduced costs, and the potentials that they leave
//!
//! Dijkstra's algorithm with potentials (Ahuja, Magnanti, Orlin, Network Flows, section 9.7).
//!
//! ```rust
//! use min_cost_flow::{Arc, Effort, Search};
//!
//! fn nearest<L: Ledger>(alloc: Global, effort: &mut Effort<L>) -> Result<Option<usize>, AllocError> {
//!     // Of two nodes, by rows of the nodes that they leave: one arc, from node 0 to node 1.
//!     let arcs = [None, Some(Arc { cost: 3, group: 0 }), None, None];
//!     let mut search = Search::new(alloc, 2)?;
//!     let found = search.find(arcs.as_slice(), [false, true].as_slice(), 0, effort);
//!     Ok(found)    // node 1, whose predecessor is node 0; the potential of node 0 is -3 now
//! }
//! ```
//!
//! The nodes are numbered, and an arc from one to another has a cost, a whole number. Each node has a potential, of the opposite
//! sign to the book's, and no arc has a negative reduced cost: `cost + potential(from) - potential(to) >= 0`. A search settles
//! nodes in the order of their distance from the source by reduced costs, up to the first that is wanted, and lowers the
//! potential of each settled node by as much as it is nearer than that one. Proved: reduced costs stay non-negative, and those
//! on the shortest paths become 0; and where no wanted node can be reached, no arc leaves the settled nodes.
//!
//! An [`Effort`] counts augmentations and settled nodes, without a byte at run time: both counts begin at 0, and each of its two
//! methods adds one to its own and leaves the other. A search counts each node that it settles; augmentations are for the
//! caller to count.
#![tactic(auto)]

mod arc;
mod augmenting;
mod cheapest;
mod effort;
mod flow;
mod initial;
mod meeting;
mod node;
mod optimal;
mod placing;
mod problem;
mod residual;
mod search;
mod span;

pub use arc::Arc;
pub use cheapest::{Outcome, Passed, cheapest_flow};
pub use effort::Effort;
pub use flow::Flow;
pub use node::NodeState;
pub use optimal::{optimality, pushing};
pub use problem::{FlowProblem, Group};
pub use search::Search;
pub use span::Span;
