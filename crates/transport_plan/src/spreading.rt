//! From an assignment to a rule: of each group's points those change that make the fewest entries.
ghost use Rattle.std.specs.Cmp.Lexicographic.{slice_cmp};
ghost use Rattle.std.specs.List.Sorted.{IsStrictlySortedBy};
ghost use Rattle.std.specs.Map.{keys_of};
ghost use Rattle.std.specs.Ordering.{nat_cmp};
ghost use Rattle.std.specs.Prelude.{◌≡◌, ◌≤◌, ℕ, List, true, length, slice_index, IfOk};
ghost use Rattle.exposures.specs.Counts.{counts_of};
ghost use Rattle.bucket_core.specs.Canonical.{IsCanonical};
ghost use Rattle.bucket_core.specs.Rule.{names_view, total_weight};
ghost use Rattle.price_core.specs.Limits.{limits_view};
ghost use Rattle.transport_core.specs.Assignment.{HasAssignment, arc_flows, flows_of, spends_all};
ghost use Rattle.transport_core.specs.Groups.{AreSizesBy, rows_view};
ghost use Rattle.transport_core.specs.Instance.{max_names, max_planned_total};
ghost use Rattle.transport_core.specs.Tally.{IsTally};

use crate::dealing::deal;
use crate::placing::groups_of;
use bucket_core::Rule;
use price_core::Limit;
use std::alloc::{AllocError, Global};
use transport_core::{Assignment, Instance};

/// The rule whose points have the names of the assignment, and which has no other rule's shape: no entry has weight 0, and
/// neighbours have different names. Which of a group's points change is no promise: those do that make few entries. It goes
/// over the points some times, and takes `O(log n)` steps at n groups where the name or the number is another than at the
/// point before. The conditions are that the groups are those of the old rule, where so many inputs fall on each point, and
/// that the numbers of each group sum to its points.
pub fn spread(
    alloc: Global,
    old: &Rule,
    counts: &[u32],
    instance: &Instance<'_>,
    assignment: Assignment,
) -> Result<Rule, AllocError>
    requires tally { IsTally (total_weight old.now) counts.now }
    requires sizes { AreSizesBy old.now (slice_index counts.now) instance.now.groups }
    requires spent { spends_all instance.now.groups (length instance.now.limits) assignment.numbers.items ≡ true }
    ensures canonical { IfOk result IsCanonical }
    ensures assigned { IfOk result (λ rule. (inputs : List (List ℕ)) → counts.now ≡ counts_of inputs (total_weight old.now) → HasAssignment old.now rule inputs (flows_of instance.now assignment.numbers.items)) }
{
    let names = names_of(alloc, instance.totals().entries())?;
    let groups = instance.groups();
    spread_over(
        alloc,
        old,
        counts,
        groups,
        names.as_slice(),
        assignment.numbers,
    )
}

/// The same, by the groups and the names alone.
fn spread_over(
    alloc: Global,
    old: &Rule,
    counts: &[u32],
    groups: &[((&str, u32), u32)],
    names: &[String],
    numbers: Vec<u32>,
) -> Result<Rule, AllocError>
    requires tally { IsTally (total_weight old.now) counts.now }
    requires sizes { AreSizesBy old.now (slice_index counts.now) (rows_view groups.now) }
    requires few { length groups.now ≤ max_planned_total }
    requires names { length names.now ≤ max_names }
    requires rise { IsStrictlySortedBy (slice_cmp nat_cmp) (names_view names.now) }
    requires spent { spends_all (rows_view groups.now) (length names.now) numbers.items ≡ true }
    ensures canonical { IfOk result IsCanonical }
    ensures assigned { IfOk result (λ rule. (inputs : List (List ℕ)) → counts.now ≡ counts_of inputs (total_weight old.now) → HasAssignment old.now rule inputs (arc_flows (keys_of (rows_view groups.now)) (names_view names.now) numbers.items)) }
{
    // Called for what its contract says, on which what is dealt out rests: a rule's total is from 1 to 2^31-1.
    let _total = old.total();
    let points = groups_of(alloc, old, counts, groups)?;
    let items = deal(alloc, points, numbers, groups.len(), names.len())?;
    Rule::from_points(alloc, items.as_slice(), names)
}

fn names_of(alloc: Global, limits: &[Limit]) -> Result<Vec<String>, AllocError>
    ensures { IfOk result (λ v. names_view v.items ≡ keys_of (limits_view limits.now)) }
{
    let mut names = Vec::with_capacity(alloc, limits.len())?;
    for limit in limits {
        names.push(limit.name.clone()?)?;
    }
    Ok(names)
}
