//! The second pass: names below their low limits get points from names that have more than theirs.
ghost use Rattle.std.specs.Prelude.{◌≡◌, ◌<◌, ◌+◌, IfOk, MatchBool, MatchOption, OnOk, false, length, nat_lt, slice_index, slice_index_or};
ghost use Rattle.min_cost_flow.specs.Effort.{Augments, Spends, nodes_of};
ghost use Rattle.min_cost_flow.specs.Flow.{IsFlow, total_at};
ghost use Rattle.min_cost_flow.specs.Meeting.{IsBelow, IsInSecondPass, IsStuckBelow, IsStuckIfBelow, IsPathToDeficit, MeetsLow, WantsBelow, deficit};
ghost use Rattle.min_cost_flow.specs.Problem.{IsFlowProblem, names_of};
ghost use Rattle.min_cost_flow.specs.Spent.{HasSettledAtMost};

use crate::augmenting::augment;
use crate::flow::Flow;
use crate::problem::FlowProblem;
use crate::{Effort, Search};
use std::alloc::{AllocError, Global};
use std::sync::ledger::Ledger;

/// Moves points to the names below their low limits, each time along a shortest path from the root, so from a name with points to
/// spare. Answers whether none is below now; if not, the last search reached no such name.
pub(crate) fn meet_low<L: Ledger>(
    alloc: Global,
    problem: &FlowProblem,
    flow: &mut Flow,
    search: &mut Search,
    effort: &mut Effort<L>,
) -> Result<bool, AllocError>
    requires problem { IsFlowProblem problem.now }
    requires second_pass { IsInSecondPass problem.now flow.old search.old }
    ensures met { IfOk result (λ met. MatchBool met
        (IsInSecondPass problem.now flow.new search.new × MeetsLow problem.now flow.new)
        (IsStuckBelow problem.now flow.new search.new)) }
    ensures effort { Spends (nodes_of problem.now) (deficit problem.now flow.old) (deficit problem.now flow.new) result effort.old effort.new }
{
    let mut wanted = vec![in alloc; false; problem.high.len() + 1]?;
    'points: while let Some(_) = name_below(problem, flow) {
        mark_wanted(&mut wanted, problem, flow);
        let Some(last) = find_below(problem, flow, search, wanted.as_slice(), effort) else {
            return Ok(false);
        };
        fill_below(alloc, problem, flow, search, last, effort)?;
    }
    Ok(true)
}

/// A name below its low limit, if there is one.
fn name_below(problem: &FlowProblem, flow: &Flow) -> Option<usize>
    requires problem { IsFlowProblem problem.now }
    requires flow { IsFlow problem.now flow.now }
    ensures { MatchOption result (MeetsLow problem.now flow.now) (λ v. IsBelow problem.now flow.now v) }
{
    for name in 0..problem.high.len() {
        if is_below(problem, flow, name) {
            return Some(name);
        }
    }
    None
}

/// Whether a name is below its low limit.
fn is_below(problem: &FlowProblem, flow: &Flow, name: usize) -> bool
    requires problem { IsFlowProblem problem.now }
    requires flow { IsFlow problem.now flow.now }
    requires name { name < names_of problem.now }
    ensures { result ≡ nat_lt (total_at flow.now name) (slice_index problem.now.low.items name) }
{
    flow.totals[name] < problem.low[name]
}

/// The names below their low limits are wanted.
fn mark_wanted(wanted: &mut [bool], problem: &FlowProblem, flow: &Flow)
    requires problem { IsFlowProblem problem.now }
    requires flow { IsFlow problem.now flow.now }
    requires size { length wanted.old ≡ names_of problem.now + 1 }
    requires root { slice_index_or wanted.old (names_of problem.now) false ≡ false }
    ensures { WantsBelow problem.now flow.now wanted.new }
{
    for name in 0..problem.high.len() {
        wanted[name] = is_below(problem, flow, name);
    }
}

/// The nearest name below its low limit.
fn find_below<L: Ledger>(
    problem: &FlowProblem,
    flow: &Flow,
    search: &mut Search,
    wanted: &[bool],
    effort: &mut Effort<L>,
) -> Option<usize>
    requires problem { IsFlowProblem problem.now }
    requires second_pass { IsInSecondPass problem.now flow.now search.old }
    requires wanted { WantsBelow problem.now flow.now wanted.now }
    ensures path { MatchOption result
        (IsStuckIfBelow problem.now flow.now search.new) (λ last. IsPathToDeficit problem.now flow.now search.new last) }
    ensures effort { HasSettledAtMost (nodes_of problem.now) effort.old effort.new }
{
    search.find(flow.arcs.as_slice(), wanted, problem.high.len(), effort)
}

/// Moves points along the path to a name below its low limit.
fn fill_below<L: Ledger>(
    alloc: Global,
    problem: &FlowProblem,
    flow: &mut Flow,
    search: &Search,
    last: usize,
    effort: &mut Effort<L>,
) -> Result<(), AllocError>
    requires problem { IsFlowProblem problem.now }
    requires path { IsPathToDeficit problem.now flow.old search.now last }
    ensures second_pass { OnOk result (IsInSecondPass problem.now flow.new search.now) }
    ensures fewer { OnOk result (deficit problem.now flow.new < deficit problem.now flow.old) }
    ensures effort { Augments result effort.old effort.new }
{
    augment(
        alloc,
        problem,
        flow,
        search,
        problem.low.as_slice(),
        problem.high.len(),
        last,
    )?;
    effort.count_augmentation();
    Ok(())
}
