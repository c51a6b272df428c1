//! The first pass: all points are placed within the high limits.
ghost use Rattle.std.specs.Prelude.{◌≤◌, ◌<◌, IfOk, MatchBool, MatchOption, OnOk, slice_index};
ghost use Rattle.min_cost_flow.specs.Effort.{Augments, Spends, nodes_of};
ghost use Rattle.min_cost_flow.specs.Flow.{IsFlow, total_at};
ghost use Rattle.min_cost_flow.specs.Placing.{IsAbove, IsFilled, IsInFirstPass, IsStuckAbove, MeetsHigh, WantsRoot, excess, IsEmptied, IsPathToRoom};
ghost use Rattle.min_cost_flow.specs.Problem.{IsFlowProblem, names_of};
ghost use Rattle.min_cost_flow.specs.Spent.{HasSettledAtMost};

use crate::augmenting::augment;
use crate::flow::Flow;
use crate::problem::FlowProblem;
use crate::{Effort, Search};
use std::alloc::{AllocError, Global};
use std::sync::ledger::Ledger;

/// Moves points away from the names above their high limits. Answers whether none is above now; if not, the last search reached
/// no name with room.
pub(crate) fn place_within_high<L: Ledger>(
    alloc: Global,
    problem: &FlowProblem,
    flow: &mut Flow,
    search: &mut Search,
    effort: &mut Effort<L>,
) -> Result<bool, AllocError>
    requires problem { IsFlowProblem problem.now }
    requires first_pass { IsInFirstPass problem.now flow.old search.old }
    ensures placed { IfOk result (λ placed. MatchBool placed
        (IsInFirstPass problem.now flow.new search.new × MeetsHigh problem.now flow.new)
        (IsStuckAbove problem.now flow.new search.new × IsFlow problem.now flow.new)) }
    ensures effort { Spends (nodes_of problem.now) (excess problem.now flow.old) (excess problem.now flow.new) result effort.old effort.new }
{
    let wanted = only_root(alloc, problem)?;
    for name in 0..problem.high.len() {
        if !empty_to_high(
            alloc,
            problem,
            flow,
            search,
            wanted.as_slice(),
            name,
            effort,
        )? {
            return Ok(false);
        }
    }
    Ok(true)
}

/// Of all nodes the root alone is wanted.
fn only_root(alloc: Global, problem: &FlowProblem) -> Result<Vec<bool>, AllocError>
    requires { IsFlowProblem problem.now }
    ensures { IfOk result (λ wanted. WantsRoot problem.now wanted.items) }
{
    let mut wanted = vec![in alloc; false; problem.high.len()]?;
    wanted.push(true)?;
    Ok(wanted)
}

/// Moves points away from a name above its high limit, each time along a shortest path. Answers whether it is not above any more;
/// if not, the last search reached no name with room.
pub(crate) fn empty_to_high<L: Ledger>(
    alloc: Global,
    problem: &FlowProblem,
    flow: &mut Flow,
    search: &mut Search,
    wanted: &[bool],
    from: usize,
    effort: &mut Effort<L>,
) -> Result<bool, AllocError>
    requires problem { IsFlowProblem problem.now }
    requires first_pass { IsInFirstPass problem.now flow.old search.old }
    requires wanted { WantsRoot problem.now wanted.now }
    requires from { from < names_of problem.now }
    ensures emptied { IfOk result (λ emptied. MatchBool emptied
        (IsEmptied problem.now flow.old flow.new search.new from)
        (IsStuckAbove problem.now flow.new search.new × IsFlow problem.now flow.new)) }
    ensures effort { Spends (nodes_of problem.now) (excess problem.now flow.old) (excess problem.now flow.new) result effort.old effort.new }
{
    'points: while is_above(problem, flow, from) {
        let Some(last) = find_room(problem, flow, search, wanted, from, effort) else {
            return Ok(false);
        };
        fill(alloc, problem, flow, search, from, last, effort)?;
    }
    Ok(true)
}

/// Whether a name is above its high limit.
fn is_above(problem: &FlowProblem, flow: &Flow, name: usize) -> bool
    requires problem { IsFlowProblem problem.now }
    requires flow { IsFlow problem.now flow.now }
    requires name { name < names_of problem.now }
    ensures { MatchBool result (slice_index problem.now.high.items name < total_at flow.now name) (total_at flow.now name ≤ slice_index problem.now.high.items name) }
{
    problem.high[name] < flow.totals[name]
}

/// The nearest name with room: the predecessor of the root.
fn find_room<L: Ledger>(
    problem: &FlowProblem,
    flow: &Flow,
    search: &mut Search,
    wanted: &[bool],
    from: usize,
    effort: &mut Effort<L>,
) -> Option<usize>
    requires problem { IsFlowProblem problem.now }
    requires first_pass { IsInFirstPass problem.now flow.now search.old }
    requires wanted { WantsRoot problem.now wanted.now }
    requires above { IsAbove problem.now flow.now from }
    ensures path { MatchOption result (IsStuckAbove problem.now flow.now search.new) (λ last. IsPathToRoom problem.now flow.now search.new from last) }
    ensures effort { HasSettledAtMost (nodes_of problem.now) effort.old effort.new }
{
    match search.find(flow.arcs.as_slice(), wanted, from, effort) {
        Some(root) => Some(search.nodes[root].predecessor),
        None => None,
    }
}

/// Moves points along the path to a name with room.
fn fill<L: Ledger>(
    alloc: Global,
    problem: &FlowProblem,
    flow: &mut Flow,
    search: &Search,
    from: usize,
    last: usize,
    effort: &mut Effort<L>,
) -> Result<(), AllocError>
    requires problem { IsFlowProblem problem.now }
    requires path { IsPathToRoom problem.now flow.old search.now from last }
    requires above { slice_index problem.now.high.items from < total_at flow.old from }
    ensures filled { OnOk result (IsFilled problem.now flow.old flow.new search.now from) }
    ensures effort { Augments result effort.old effort.new }
{
    augment(
        alloc,
        problem,
        flow,
        search,
        problem.high.as_slice(),
        from,
        last,
    )?;
    effort.count_augmentation();
    Ok(())
}
