//! The certificate of a cheapest flow.
ghost use Rattle.std.specs.List.{zip};
ghost use Rattle.std.specs.Map.{keys_of};
ghost use Rattle.std.specs.Prelude.{◌≡◌, IfOk, length, true};
ghost use Rattle.min_cost_flow.specs.Cheapest.{IsCheapest};
ghost use Rattle.transport_core.specs.WrittenCertificate.{has_whole_numbers};
ghost use Rattle.price_core.specs.Limits.{limits_view};
ghost use Rattle.transport_core.specs.Assignment.{IsProved};
ghost use Rattle.transport_core.specs.Certificate.{alpha_view, beta_view, certificate_view};
ghost use Rattle.transport_core.specs.Groups.{rows_view};
ghost use Rattle.transport_plan.specs.Numbered.{IsFlowOf};

use crate::cost::cost_of;
use crate::dual_prices::{group_dual_prices, name_dual_prices};
use min_cost_flow::{Flow, FlowProblem, Search};
use price_core::Limit;
use std::alloc::{AllocError, Global};
use transport_core::{Certificate, Instance};

/// The certificate of a cheapest flow of an instance, with the potentials that the last search left. A plan file can hold its
/// numbers. It takes `O(groups * k)` steps at k names.
pub(crate) fn certificate(
    alloc: Global,
    instance: &Instance<'_>,
    problem: &FlowProblem,
    flow: &Flow,
    search: &Search,
) -> Result<Certificate, AllocError>
    requires flow { IsFlowOf instance.now problem.now flow.now }
    requires cheapest { IsCheapest problem.now flow.now search.now }
    ensures proved { IfOk result (λ c. IsProved instance.now flow.now.placed.items (certificate_view c)) }
    ensures whole { IfOk result (λ c. has_whole_numbers (certificate_view c) ≡ true) }
{
    let width = problem.high.len();
    let name_duals = name_dual_prices(alloc, &search.potentials, width)?;
    let group_duals = group_dual_prices(alloc, &problem.groups, &problem.costs, &name_duals)?;
    let cost = cost_of(&problem.groups, &problem.costs, &flow.placed, width);
    let alpha = alpha_rows(alloc, instance.groups(), &group_duals)?;
    let beta = beta_rows(alloc, instance.totals().entries(), &name_duals)?;
    Ok(Certificate { alpha, beta, cost })
}

/// Each group's variant and number of inputs, with its dual price.
fn alpha_rows(
    alloc: Global,
    groups: &[((&str, u32), u32)],
    duals: &[i64],
) -> Result<Vec<(String, u32, i64)>, AllocError>
    requires { length duals.now ≡ length groups.now }
    ensures { IfOk result (λ rows. alpha_view rows.items ≡ zip (keys_of (rows_view groups.now)) duals.now) }
{
    let mut rows = Vec::with_capacity(alloc, groups.len())?;
    for (place, dual) in duals.iter().enumerate() {
        let (name, count) = groups[place].0;
        rows.push((String::from_str(alloc, name)?, count, *dual))?;
    }
    Ok(rows)
}

/// Each name with its dual price.
fn beta_rows(
    alloc: Global,
    limits: &[Limit],
    duals: &[i64],
) -> Result<Vec<(String, i64)>, AllocError>
    requires { length duals.now ≡ length limits.now }
    ensures { IfOk result (λ rows. beta_view rows.items ≡ zip (keys_of (limits_view limits.now)) duals.now) }
{
    let mut rows = Vec::with_capacity(alloc, limits.len())?;
    for (place, dual) in duals.iter().enumerate() {
        rows.push((limits[place].name.clone()?, *dual))?;
    }
    Ok(rows)
}
