//! The dual prices of names and groups.
ghost use Rattle.std.specs.Prelude.{◌≡◌, ◌<◌, ◌+◌, ◌*◌, ◌^◌, ℕ, ℤ, pos, ◌+ℤ◌, ◌*ℤ◌, ◌≤ℤ◌, length, slice_index_or, ◌-ℤ◌, IfOk};
ghost use Rattle.min_cost_flow.specs.Offered.{IsSwitchCost};
ghost use Rattle.min_cost_flow.specs.Problem.{AreGroups, AreSwitchCosts};
ghost use Rattle.transport_plan.specs.Offers.{IsDualSize, MayTake, HasSlack, IsTight};
ghost use Rattle.transport_plan.specs.DualPrices.{IsLeastAt, IsNear};

use min_cost_flow::Group;
use std::alloc::{AllocError, Global};

/// The least offer to a point of a group: what a switch costs its inputs, less the dual price of the new name, over all names that
/// it may take. `O(k)` at k names.
pub(crate) fn least_offer(costs: &[Option<i64>], count: u32, name_duals: &[i64]) -> i64
    requires same { length name_duals.now ≡ length costs.now }
    requires cheap { (v : ℕ) (c : ℤ) → MayTake costs.now v c → IsSwitchCost c }
    requires small { (v : ℕ) → v < length name_duals.now → IsDualSize (slice_index_or name_duals.now v (pos 0)) }
    requires some { (v : ℕ) × ((c : ℤ) × MayTake costs.now v c) }
    ensures slack { (v : ℕ) (c : ℤ) → MayTake costs.now v c → HasSlack name_duals.now count result v c }
    ensures tight { (v : ℕ) × ((c : ℤ) × (MayTake costs.now v c × IsTight name_duals.now count result v c)) }
{
    let mut least = i64::MAX;
    for v in 0..costs.len() {
        if let Some(switch_cost) = costs[v] {
            let offered = offer(switch_cost, count, name_duals[v]);
            if offered < least {
                least = offered;
            }
        }
    }
    least
}

/// What a switch costs the inputs of a point, less the dual price of the new name.
fn offer(switch_cost: i64, count: u32, dual: i64) -> i64
    requires switch_cost { IsSwitchCost switch_cost }
    requires dual { IsDualSize dual }
    ensures value { (result +ℤ dual) ≡ (pos count *ℤ switch_cost) }
    ensures small { (result +ℤ dual) ≤ℤ pos (2 ^ 32 * 1000000) }
{
    i64::from(count) * switch_cost - dual
}

/// The dual price of each name: its potential over that of the root, which is the node after the names.
pub(crate) fn name_dual_prices(
    alloc: Global,
    potentials: &[i64],
    names: usize,
) -> Result<Vec<i64>, AllocError>
    requires size { length potentials.now ≡ names + 1 }
    requires near { (v : ℕ) → v < names + 1 → IsNear (slice_index_or potentials.now v (pos 0)) }
    ensures size { IfOk result (λ b. length b.items ≡ names) }
    ensures each { IfOk result (λ b. (v : ℕ) → v < names → slice_index_or b.items v (pos 0) ≡ (slice_index_or potentials.now v (pos 0) -ℤ slice_index_or potentials.now names (pos 0))) }
{
    let mut duals = Vec::with_capacity(alloc, names)?;
    for name in 0..names {
        duals.push(over(potentials[name], potentials[names]))?;
    }
    Ok(duals)
}

/// A potential over that of the root.
fn over(potential: i64, root: i64) -> i64
    requires potential { IsNear potential }
    requires root { IsNear root }
    ensures { result ≡ (potential -ℤ root) }
{
    potential - root
}

/// The dual price of each group: the least that a switch of one of its points costs, less the dual price of the new name.
pub(crate) fn group_dual_prices(
    alloc: Global,
    groups: &[Group],
    costs: &[Option<i64>],
    name_duals: &[i64],
) -> Result<Vec<i64>, AllocError>
    requires groups { AreGroups (length name_duals.now) costs.now groups.now }
    requires costs { AreSwitchCosts (length name_duals.now) costs.now }
    requires small { (v : ℕ) → v < length name_duals.now → IsDualSize (slice_index_or name_duals.now v (pos 0)) }
    ensures size { IfOk result (λ a. length a.items ≡ length groups.now) }
    ensures each { IfOk result (λ a. (g : ℕ) → g < length groups.now → IsLeastAt groups.now costs.now (length name_duals.now) name_duals.now g (slice_index_or a.items g (pos 0))) }
{
    let mut duals = Vec::with_capacity(alloc, groups.len())?;
    for g in 0..groups.len() {
        duals.push(group_dual_price(groups, costs, name_duals, g))?;
    }
    Ok(duals)
}

/// The dual price of a group: the least offer by the costs of the switches from its old variant.
fn group_dual_price(groups: &[Group], costs: &[Option<i64>], name_duals: &[i64], g: usize) -> i64
    requires g { g < length groups.now }
    requires groups { AreGroups (length name_duals.now) costs.now groups.now }
    requires costs { AreSwitchCosts (length name_duals.now) costs.now }
    requires small { (v : ℕ) → v < length name_duals.now → IsDualSize (slice_index_or name_duals.now v (pos 0)) }
    ensures { IsLeastAt groups.now costs.now (length name_duals.now) name_duals.now g result }
{
    let Group { variant, count, .. } = groups[g];
    let first = variant * name_duals.len();
    least_offer(&costs[first..first + name_duals.len()], count, name_duals)
}
