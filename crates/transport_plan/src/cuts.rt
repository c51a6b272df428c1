//! The names of the cut that a failed search leaves.
ghost use Rattle.std.specs.Cmp.Lexicographic.{slice_cmp};
ghost use Rattle.std.specs.List.Sorted.{IsStrictlySortedBy};
ghost use Rattle.std.specs.Ordering.{nat_cmp};
ghost use Rattle.std.specs.Prelude.{◌<◌, ℕ, IfOk, List, false};
ghost use Rattle.bucket_core.specs.Rule.{Entries, names_view};
ghost use Rattle.min_cost_flow.specs.Meeting.{IsStuckBelow};
ghost use Rattle.min_cost_flow.specs.Placing.{IsStuckAbove};
ghost use Rattle.transport_core.specs.Deficient.{IsOver, IsUnder};
ghost use Rattle.transport_core.specs.Groups.{AreSizes};
ghost use Rattle.transport_plan.specs.Numbered.{IsFlowOf};
ghost use Rattle.transport_plan.specs.Solved.{IsNeverOver};

use crate::marks::{mark_held, mark_unsettled, marked};
use min_cost_flow::{Flow, FlowProblem, Search};
use std::alloc::{AllocError, Global};
use transport_core::Instance;

/// The names of a cut over high limits: the old names of the points that stand at the names that the last search settled. It takes
/// `O(groups * k)` steps at k names.
pub(crate) fn names_over(
    alloc: Global,
    instance: &Instance<'_>,
    problem: &FlowProblem,
    flow: &Flow,
    search: &Search,
) -> Result<Vec<String>, AllocError>
    requires flow { IsFlowOf instance.now problem.now flow.now }
    requires stuck { IsStuckAbove problem.now flow.now search.now }
    ensures over { IfOk result (λ v. (old : Entries) (inputs : List (List ℕ)) → AreSizes old inputs instance.now.groups → IsOver old instance.now.limits instance.now.pricing (names_view v.items)) }
    ensures ordered { IfOk result (λ v. IsStrictlySortedBy (slice_cmp nat_cmp) (names_view v.items)) }
{
    let limits = instance.totals().entries();
    let mut held = vec![in alloc; false; flow.totals.len()]?;
    let marks = held.as_mut_slice();
    mark_held(marks, problem, flow, search);
    marked(alloc, limits, marks)
}

/// The names of a cut under low limits: those that the last search did not settle. All points stand within the high limits, so no
/// set of names is over these. It takes `O(k)` steps at k names.
pub(crate) fn names_under(
    alloc: Global,
    instance: &Instance<'_>,
    problem: &FlowProblem,
    flow: &Flow,
    search: &Search,
) -> Result<Vec<String>, AllocError>
    requires flow { IsFlowOf instance.now problem.now flow.now }
    requires stuck { IsStuckBelow problem.now flow.now search.now }
    ensures under { IfOk result (λ v. (old : Entries) (inputs : List (List ℕ)) → AreSizes old inputs instance.now.groups → IsUnder old instance.now.limits instance.now.pricing (names_view v.items)) }
    ensures never { IsNeverOver instance.now }
    ensures ordered { IfOk result (λ v. IsStrictlySortedBy (slice_cmp nat_cmp) (names_view v.items)) }
{
    let limits = instance.totals().entries();
    let mut unsettled = vec![in alloc; false; flow.totals.len()]?;
    let marks = unsettled.as_mut_slice();
    mark_unsettled(marks, problem, search);
    marked(alloc, limits, marks)
}
