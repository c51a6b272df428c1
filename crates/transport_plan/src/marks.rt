//! Which names are in a cut.
ghost use Rattle.std.specs.Map.{keys_of};
ghost use Rattle.std.specs.Prelude.{◌≡◌, ◌≤◌, ◌<◌, ◌+◌, ℕ, false, IfOk, MatchBool, length, slice_index_or};
ghost use Rattle.bucket_core.specs.Rule.{names_view};
ghost use Rattle.min_cost_flow.specs.Flow.{IsFlow, groups_of};
ghost use Rattle.min_cost_flow.specs.Placing.{IsStuckAbove};
ghost use Rattle.min_cost_flow.specs.Problem.{IsFlowProblem, names_of};
ghost use Rattle.price_core.specs.Limits.{limits_view};
ghost use Rattle.min_cost_flow.specs.Found.{HasSize};
ghost use Rattle.transport_plan.specs.Chosen.{chosen};
ghost use Rattle.transport_plan.specs.Marked.{AreHeld, AreUnsettled, StandsInside, StandsOutside};

use min_cost_flow::{Flow, FlowProblem, Search};
use price_core::Limit;
use std::alloc::{AllocError, Global};

/// Marks the old names of the groups that have points at settled names.
pub(crate) fn mark_held(marks: &mut [bool], problem: &FlowProblem, flow: &Flow, search: &Search)
    requires size { length marks.old ≡ names_of problem.now }
    requires none { (u : ℕ) → u < length marks.old → slice_index_or marks.old u false ≡ false }
    requires lawful { IsFlowProblem problem.now }
    requires flow { IsFlow problem.now flow.now }
    requires stuck { IsStuckAbove problem.now flow.now search.now }
    ensures { AreHeld problem.now flow.now search.now marks.new }
{
    for group in 0..problem.groups.len() {
        if stands_inside(problem, flow, search, group) {
            marks[problem.groups[group].variant] = true;
        }
    }
}

/// Whether a group has points at a settled name.
fn stands_inside(problem: &FlowProblem, flow: &Flow, search: &Search, group: usize) -> bool
    requires flow { IsFlow problem.now flow.now }
    requires few { names_of problem.now ≤ 64 }
    requires search { HasSize (names_of problem.now + 1) search.now }
    requires group { group < groups_of problem.now }
    ensures { MatchBool result (StandsInside problem.now flow.now search.now group) (StandsOutside problem.now flow.now search.now group) }
{
    let names = problem.high.len();
    for v in 0..names {
        if flow.placed[group * names + v] > 0 && search.nodes[v].settle_order <= names {
            return true;
        }
    }
    false
}

/// Marks the names that are not settled.
pub(crate) fn mark_unsettled(marks: &mut [bool], problem: &FlowProblem, search: &Search)
    requires size { length marks.old ≡ names_of problem.now }
    requires search { HasSize (names_of problem.now + 1) search.now }
    ensures { AreUnsettled problem.now search.now marks.new }
{
    let names = problem.high.len();
    for name in 0..names {
        marks[name] = names < search.nodes[name].settle_order;
    }
}

/// The names that are marked.
pub(crate) fn marked(
    alloc: Global,
    limits: &[Limit],
    marks: &[bool],
) -> Result<Vec<String>, AllocError>
    requires { length marks.now ≡ length limits.now }
    ensures { IfOk result (λ v. names_view v.items ≡ chosen (keys_of (limits_view limits.now)) (λ v. slice_index_or marks.now v false)) }
{
    let mut names = Vec::new(alloc);
    for (place, limit) in limits.iter().enumerate() {
        if marks[place] {
            names.push(limit.name.clone()?)?;
        }
    }
    Ok(names)
}
