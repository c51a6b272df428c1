//! The cheapest flow, by both passes.
ghost use Rattle.std.specs.Prelude.{◌≤◌, ◌+◌, ◌*◌, IfOk};
ghost use Rattle.min_cost_flow.specs.Cheapest.{IsPassed};
ghost use Rattle.min_cost_flow.specs.Effort.{Searches, nodes_of, points_of};
ghost use Rattle.min_cost_flow.specs.Placing.{IsInFirstPass};
ghost use Rattle.min_cost_flow.specs.Problem.{IsFlowProblem};

use crate::flow::Flow;
use crate::meeting::meet_low;
use crate::placing::place_within_high;
use crate::problem::FlowProblem;
use crate::{Effort, Search};
use std::alloc::{AllocError, Global};
use std::sync::ledger::Ledger;

/// How the two passes ended.
#[derive(Clone, Copy, Debug, PartialEq, Eq)]
pub enum Outcome {
    /// Each name is within its limits, at the least cost.
    Cheapest,
    /// The first pass failed: the names that the last search settled are full, and no point may leave them.
    Over,
    /// The second pass failed: the names that the last search did not settle have no points to spare, and no point may enter them.
    Under,
}

/// The flow that the passes made, and what the last search left.
#[derive(Drop)]
pub struct Passed {
    pub outcome: Outcome,
    pub flow: Flow,
    pub search: Search,
}

/// The cheapest flow within all limits, or one that shows that there is none. Augmentations and settlings are counted: each of the
/// two passes makes at most as many augmentations as there are points. There is at most one search more than augmentations, and
/// each search settles each name and the root at most once, in `O(k^2)` steps at k names.
pub fn cheapest_flow<L: Ledger>(
    alloc: Global,
    problem: &FlowProblem,
    effort: &mut Effort<L>,
) -> Result<Passed, AllocError>
    requires { IsFlowProblem problem.now }
    ensures passed { IfOk result (λ r. IsPassed problem.now r.outcome r.flow r.search) }
    ensures augmentations { effort.new.augmentations ≤ effort.old.augmentations + 2 * points_of problem.now }
    ensures searches { Searches (nodes_of problem.now) 1 effort.old effort.new }
{
    let mut flow = Flow::initial(alloc, problem)?;
    let mut search = Search::new(alloc, problem.high.len() + 1)?;
    let outcome = pass(alloc, problem, &mut flow, &mut search, effort)?;
    Ok(Passed {
        outcome,
        flow,
        search,
    })
}

/// Both passes over a flow.
fn pass<L: Ledger>(
    alloc: Global,
    problem: &FlowProblem,
    flow: &mut Flow,
    search: &mut Search,
    effort: &mut Effort<L>,
) -> Result<Outcome, AllocError>
    requires problem { IsFlowProblem problem.now }
    requires first_pass { IsInFirstPass problem.now flow.old search.old }
    ensures passed { IfOk result (λ outcome. IsPassed problem.now outcome flow.new search.new) }
    ensures augmentations { effort.new.augmentations ≤ effort.old.augmentations + 2 * points_of problem.now }
    ensures searches { Searches (nodes_of problem.now) 1 effort.old effort.new }
{
    if !place_within_high(alloc, problem, flow, search, effort)? {
        return Ok(Outcome::Over);
    }
    if !meet_low(alloc, problem, flow, search, effort)? {
        return Ok(Outcome::Under);
    }
    Ok(Outcome::Cheapest)
}
