//! What a new rule costs, and where it is forbidden.
ghost use Rattle.std.specs.Prelude.{◌≡◌, ◌≤◌, ◌<◌, length, map, string_bytes, IfOk, IfSome};
ghost use Rattle.limits.specs.Limits.{page_inputs};
ghost use Rattle.bucket_core.specs.Rule.{total_weight};
ghost use Rattle.price_core.specs.Cost.{cost_of, input_cost, first_forbidden_of};
ghost use Rattle.price_core.specs.Pricing.{IsPricing};

use crate::prices::Prices;
use crate::switching::Switching;
use bucket_core::Rule;
use exposures::Exposure;
use rayon::prelude::*;
use std::alloc::{AllocError, Global};
use std::thread::Threads;

/// The least point whose change is forbidden, of two rules of one total. It goes from run to run of
/// points with equal old and new names, and takes `O(runs · log entries)` steps and no memory. A
/// [`Switching`] finds it in `O(entries)` steps.
pub fn first_forbidden(old: &Rule, new: &Rule, prices: &Prices) -> Option<u32>
    requires { total_weight old.now ≡ total_weight new.now }
    ensures exact { result ≡ first_forbidden_of old.now new.now prices.now }
    ensures inside { IfSome result (λ p. p < total_weight old.now) }
{
    let total = old.total();
    let mut point = 0;
    while point < total {
        let from = old.entry_at(point);
        let to = new.entry_at(point);
        if prices.forbidden(old.entry_name(from), new.entry_name(to)) {
            return Some(point);
        }
        point = old.end_of(from).min(new.end_of(to));
    }
    None
}

fn cost_over(rt: &(impl Threads + Sync), switching: &Switching<'_>, inputs: &[String]) -> u64
    requires few { length inputs.now ≤ page_inputs }
    requires lawful { IsPricing switching.now.2 }
    ensures { result ≡ cost_of switching.now.0 switching.now.1 (map string_bytes inputs.now) switching.now.2 }
{
    inputs
        .par_iter()
        .map(
            |input: &String| -> u64
                ensures { result ≡ input_cost switching.entry.now.0 switching.entry.now.1 switching.entry.now.2 (string_bytes input.now) }
            { switching.cost(input.as_str()) },
        )
        .sum(rt)
}

fn cost_over_lent(rt: &(impl Threads + Sync), switching: &Switching<'_>, inputs: &[&str]) -> u64
    requires few { length inputs.now ≤ page_inputs }
    requires lawful { IsPricing switching.now.2 }
    ensures { result ≡ cost_of switching.now.0 switching.now.1 (map (λ s. s.now) inputs.now) switching.now.2 }
{
    inputs
        .par_iter()
        .map(
            |input: &&str| -> u64
                ensures { result ≡ input_cost switching.entry.now.0 switching.entry.now.1 switching.entry.now.2 input.now.now }
            { switching.cost(input) },
        )
        .sum(rt)
}

/// The sum of what the inputs cost, each hashed once, added up by as many threads as there are
/// processors. The rules may differ in their totals. No two texts are compared for an input: equal
/// names of the two rules share a number, and the prices are looked up by numbers.
pub fn switch_cost(
    rt: &(impl Threads + Sync),
    alloc: Global,
    old: &Rule,
    new: &Rule,
    exposure: &Exposure,
    prices: &Prices,
) -> Result<u64, AllocError>
    ensures exact { IfOk result (λ cost. cost ≡ cost_of old.now new.now exposure.now prices.now) }
{
    let switching = Switching::of(alloc, old, new, prices)?;
    Ok(cost_over(rt, &switching, exposure.inputs()))
}

/// As [`switch_cost`], for inputs where they lie, 1,000,000 at most. One that stands among them twice is paid for twice.
pub fn switch_cost_of(
    rt: &(impl Threads + Sync),
    alloc: Global,
    old: &Rule,
    new: &Rule,
    inputs: &[&str],
    prices: &Prices,
) -> Result<u64, AllocError>
    requires few { length inputs.now ≤ page_inputs }
    ensures exact { IfOk result (λ cost. cost ≡ cost_of old.now new.now (map (λ s. s.now) inputs.now) prices.now) }
{
    let switching = Switching::of(alloc, old, new, prices)?;
    Ok(cost_over_lent(rt, &switching, inputs))
}
