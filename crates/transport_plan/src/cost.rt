//! What a flow costs the inputs.
ghost use Rattle.std.specs.Prelude.{◌≡◌, ◌<◌, ◌≤◌, ◌*◌, ℕ, ℤ, Some, length};
ghost use Rattle.min_cost_flow.specs.Flow.{cell_at};
ghost use Rattle.min_cost_flow.specs.Offered.{IsSwitchCost};
ghost use Rattle.min_cost_flow.specs.Problem.{AreGroups, AreSupplies, AreSwitchCosts, group_at, max_count, sum_to};
ghost use Rattle.transport_plan.specs.Costs.{IsRowCost, all_cost, unit_of};

use min_cost_flow::Group;

/// The cost of a flow, whose numbers stand by group and then by name.
pub(crate) fn cost_of(groups: &[Group], costs: &[Option<i64>], placed: &[u32], names: usize) -> u64
    requires few { names ≤ 64 }
    requires groups { AreGroups names costs.now groups.now }
    requires costs { AreSwitchCosts names costs.now }
    requires placed { length placed.now ≡ length groups.now * names }
    requires spent { (g : ℕ) → g < length groups.now → sum_to names (cell_at placed.now names g) ≡ (group_at groups.now g).points }
    ensures { result ≡ all_cost groups.now costs.now placed.now names (length groups.now) }
{
    let mut cost = 0;
    for g in 0..groups.len() {
        cost += cost_of_row(groups, costs, placed, names, g);
    }
    cost
}

/// The cost of the points of one group.
fn cost_of_row(
    groups: &[Group],
    costs: &[Option<i64>],
    placed: &[u32],
    names: usize,
    g: usize,
) -> u64
    requires few { names ≤ 64 }
    requires g { g < length groups.now }
    requires supplies { AreSupplies names costs.now groups.now }
    requires placed { length placed.now ≡ length groups.now * names }
    requires spent { sum_to names (cell_at placed.now names g) ≡ (group_at groups.now g).points }
    ensures { IsRowCost groups.now costs.now placed.now names g result }
{
    let Group { variant, count, .. } = groups[g];
    let mut cost = 0;
    for v in 0..names {
        cost += u64::from(placed[g * names + v]) * unit(count, costs[variant * names + v]);
    }
    cost
}

/// What a switch costs the inputs of a point, and 0 where it is forbidden.
fn unit(count: u32, switch_cost: Option<i64>) -> u64
    requires count { count ≤ max_count }
    requires switch_cost { (z : ℤ) → switch_cost ≡ Some z → IsSwitchCost z }
    ensures { result ≡ unit_of count switch_cost }
{
    match switch_cost {
        Some(switch_cost) => u64::from(count) * switch_cost.unsigned_abs(),
        None => 0,
    }
}
