//! A planning problem in numbers: names and groups by their places, and the price of each switch as a cost.
ghost use Rattle.std.specs.List.{All, Contains, flat_map};
ghost use Rattle.std.specs.Map.{keys_of};
ghost use Rattle.std.specs.Prelude.{◌≡◌, ◌++◌, IfOk, OnOk, Some, map, slice_get};
ghost use Rattle.min_cost_flow.specs.Problem.{IsFlowProblem};
ghost use Rattle.price_core.specs.Limits.{limits_view};
ghost use Rattle.transport_core.specs.Groups.{rows_view};
ghost use Rattle.transport_plan.specs.Network.{AreGroups, price_row, switch_price};
ghost use Rattle.transport_plan.specs.Numbered.{IsNumbered, IsPriced};

use min_cost_flow::{FlowProblem, Group};
use price_core::{Limit, Prices};
use std::alloc::{AllocError, Global};
use transport_core::Instance;

/// The problem of an instance in numbers: each name by its place among the limits, and groups by old variant and then by count.
pub(crate) fn flow_problem(
    alloc: Global,
    instance: &Instance<'_>,
) -> Result<FlowProblem, AllocError>
    ensures numbered { IfOk result (IsNumbered instance.now) }
    ensures lawful { IfOk result IsFlowProblem }
{
    let limits = instance.totals().entries();
    let groups = groups(alloc, instance.groups(), limits)?;
    let costs = price_table(alloc, limits, instance.prices())?;
    let low = low_limits(alloc, limits)?;
    let high = high_limits(alloc, limits)?;
    Ok(FlowProblem {
        groups,
        costs,
        low,
        high,
    })
}

/// The low limit of each name.
fn low_limits(alloc: Global, limits: &[Limit]) -> Result<Vec<u32>, AllocError>
    ensures { IfOk result (λ v. v.items ≡ map (λ l. l.1.0) (limits_view limits.now)) }
{
    let mut low = Vec::with_capacity(alloc, limits.len())?;
    for limit in limits {
        low.push(limit.low)?;
    }
    Ok(low)
}

/// The high limit of each name.
fn high_limits(alloc: Global, limits: &[Limit]) -> Result<Vec<u32>, AllocError>
    ensures { IfOk result (λ v. v.items ≡ map (λ l. l.1.1) (limits_view limits.now)) }
{
    let mut high = Vec::with_capacity(alloc, limits.len())?;
    for limit in limits {
        high.push(limit.high)?;
    }
    Ok(high)
}

/// The groups, with the places of their old variants among the names, which stand in the same order.
fn groups(
    alloc: Global,
    rows: &[((&str, u32), u32)],
    limits: &[Limit],
) -> Result<Vec<Group>, AllocError>
    requires listed { All (λ g. Contains (keys_of (limits_view limits.now)) g.0.0) (rows_view rows.now) }
    ensures { IfOk result (λ v. AreGroups (keys_of (limits_view limits.now)) (rows_view rows.now) v.items) }
{
    let mut groups = Vec::with_capacity(alloc, rows.len())?;
    let mut variant = 0;
    for ((name, count), points) in rows {
        variant = place_from(limits, variant, name);
        groups.push(Group {
            variant,
            count: *count,
            points: *points,
        })?;
    }
    Ok(groups)
}

/// The place of a name, which is often the one of the row before.
fn place_from(limits: &[Limit], before: usize, name: &str) -> usize
    requires listed { Contains (keys_of (limits_view limits.now)) name.now }
    ensures { slice_get (keys_of (limits_view limits.now)) result ≡ Some name.now }
{
    if before < limits.len() && limits[before].name.as_str() == name {
        before
    } else {
        index_of(limits, name)
    }
}

/// The place of a name.
fn index_of(limits: &[Limit], name: &str) -> usize
    requires listed { Contains (keys_of (limits_view limits.now)) name.now }
    ensures { slice_get (keys_of (limits_view limits.now)) result ≡ Some name.now }
{
    for (place, limit) in limits.iter().enumerate() {
        if limit.name.as_str() == name {
            return place;
        }
    }
    limits.len()
}

/// The price of each switch, by rows of the old names.
fn price_table(
    alloc: Global,
    limits: &[Limit],
    prices: &Prices,
) -> Result<Vec<Option<i64>>, AllocError>
    ensures table { IfOk result (λ v. v.items ≡ flat_map (price_row prices.now (keys_of (limits_view limits.now))) (keys_of (limits_view limits.now))) }
    ensures priced { IfOk result (λ v. All IsPriced v.items) }
{
    let mut table = Vec::new(alloc);
    for old in limits {
        push_row(&mut table, old.name.as_str(), limits, prices)?;
    }
    Ok(table)
}

/// Adds the price of each switch from one name.
fn push_row(
    table: &mut Vec<Option<i64>>,
    old: &str,
    limits: &[Limit],
    prices: &Prices,
) -> Result<(), AllocError>
    requires { All IsPriced table.old.items }
    ensures row { OnOk result (table.new.items ≡ table.old.items ++ price_row prices.now (keys_of (limits_view limits.now)) old.now) }
    ensures priced { OnOk result (All IsPriced table.new.items) }
{
    for new in limits {
        table.push(switch(prices, old, new.name.as_str()))?;
    }
    Ok(())
}

/// The price of a switch for an input, and none where it is forbidden.
fn switch(prices: &Prices, old: &str, new: &str) -> Option<i64>
    ensures value { result ≡ switch_price prices.now old.now new.now }
    ensures priced { IsPriced result }
{
    if prices.forbidden(old, new) {
        None
    } else {
        Some(prices.price(old, new) as i64)
    }
}
