//! The planner.
ghost use Rattle.std.specs.Prelude.{◌+◌, ◌*◌, ◌≤◌, IfOk, length};
ghost use Rattle.min_cost_flow.specs.Cheapest.{IsCheapest, IsPassed};
ghost use Rattle.min_cost_flow.specs.Meeting.{IsStuckBelow};
ghost use Rattle.min_cost_flow.specs.Placing.{IsStuckAbove};
ghost use Rattle.min_cost_flow.specs.Problem.{IsFlowProblem};
ghost use Rattle.transport_core.specs.Rows.{whole_amount};
ghost use Rattle.transport_plan.specs.Numbered.{IsFlowOf, IsNumbered};
ghost use Rattle.transport_plan.specs.Solved.{IsSolution};

use crate::certifying::certificate;
use crate::cuts::{names_over, names_under};
use crate::network::flow_problem;
use min_cost_flow::{Effort, Flow, FlowProblem, Outcome, Passed, Search, cheapest_flow};
use std::alloc::{AllocError, Global};
use std::sync::ledger::Ledger;
use transport_core::{Assignment, Certificate, Cut, CutKind, Instance};

/// What the planner answers of an instance.
#[derive(Debug, Drop)]
pub enum Solved {
    /// How many points of each group are given each name, and the dual prices that prove that no rule costs less.
    Plan(Assignment, Certificate),
    /// A set of names that shows that no rule fits.
    None(Cut),
}

/// The cheapest assignment of an instance's points with its certificate, or a cut where no rule fits: `Over` where the
/// points cannot be placed within the high limits, and else `Under`.
///
/// Each augmentation and each settling of a name in a search is counted. At W points there are at most 2 W augmentations, and
/// at most (2 W + 2) (groups + names) settlings. A search takes `O(k^2)` steps at k names.
pub fn solve<L: Ledger>(
    alloc: Global,
    instance: &Instance<'_>,
    effort: &mut Effort<L>,
) -> Result<Solved, AllocError>
    ensures solved { IfOk result (IsSolution instance.now) }
    ensures augmentations { effort.new.augmentations ≤ effort.old.augmentations + 2 * whole_amount instance.now.groups }
    ensures settlings { effort.new.settlings ≤ effort.old.settlings + (2 * whole_amount instance.now.groups + 2) * (length instance.now.groups + length instance.now.limits) }
{
    let problem = flow_problem(alloc, instance)?;
    let Passed {
        outcome,
        flow,
        search,
    } = find_flow(alloc, instance, &problem, effort)?;
    match outcome {
        Outcome::Cheapest => planned(alloc, instance, &problem, flow, &search),
        Outcome::Over => cut_over(alloc, instance, &problem, &flow, &search),
        Outcome::Under => cut_under(alloc, instance, &problem, &flow, &search),
    }
}

/// The cheapest flow of an instance's problem, with its effort bounded by the points, groups and names of the instance.
fn find_flow<L: Ledger>(
    alloc: Global,
    instance: &Instance<'_>,
    problem: &FlowProblem,
    effort: &mut Effort<L>,
) -> Result<Passed, AllocError>
    requires numbered { IsNumbered instance.now problem.now }
    requires lawful { IsFlowProblem problem.now }
    ensures passed { IfOk result (λ r. IsPassed problem.now r.outcome r.flow r.search) }
    ensures augmentations { effort.new.augmentations ≤ effort.old.augmentations + 2 * whole_amount instance.now.groups }
    ensures settlings { effort.new.settlings ≤ effort.old.settlings + (2 * whole_amount instance.now.groups + 2) * (length instance.now.groups + length instance.now.limits) }
{
    // Called for what its contract says: there is a group.
    let _groups = instance.groups();
    cheapest_flow(alloc, problem, effort)
}

/// The plan of a cheapest flow.
fn planned(
    alloc: Global,
    instance: &Instance<'_>,
    problem: &FlowProblem,
    flow: Flow,
    search: &Search,
) -> Result<Solved, AllocError>
    requires flow { IsFlowOf instance.now problem.now flow }
    requires cheapest { IsCheapest problem.now flow search.now }
    ensures { IfOk result (IsSolution instance.now) }
{
    // Called for what its contract says of the points and of the limits, on which what is proved of each rule rests.
    let _groups = instance.groups();
    let certificate = certificate(alloc, instance, problem, &flow, search)?;
    let numbers = flow.placed;
    Ok(Solved::Plan(Assignment { numbers }, certificate))
}

/// The cut over the high limits that the failed search of the first pass left.
fn cut_over(
    alloc: Global,
    instance: &Instance<'_>,
    problem: &FlowProblem,
    flow: &Flow,
    search: &Search,
) -> Result<Solved, AllocError>
    requires flow { IsFlowOf instance.now problem.now flow.now }
    requires stuck { IsStuckAbove problem.now flow.now search.now }
    ensures { IfOk result (IsSolution instance.now) }
{
    let names = names_over(alloc, instance, problem, flow, search)?;
    Ok(Solved::None(Cut {
        kind: CutKind::Over,
        names,
    }))
}

/// The cut under the low limits that the failed search of the second pass left. All points are within the high limits by then.
fn cut_under(
    alloc: Global,
    instance: &Instance<'_>,
    problem: &FlowProblem,
    flow: &Flow,
    search: &Search,
) -> Result<Solved, AllocError>
    requires flow { IsFlowOf instance.now problem.now flow.now }
    requires stuck { IsStuckBelow problem.now flow.now search.now }
    ensures { IfOk result (IsSolution instance.now) }
{
    let names = names_under(alloc, instance, problem, flow, search)?;
    Ok(Solved::None(Cut {
        kind: CutKind::Under,
        names,
    }))
}
