//! The check of a plan and its certificate.
ghost use Rattle.std.specs.Prelude.{◌≡◌, ◌≢◌, ◌<◌, ◌^◌, ℕ, List, length, sum_by, IfOk, OnOk, IfErr, IsErrOf, MatchResult};
ghost use Rattle.exposures.specs.Counts.{counts_of};
ghost use Rattle.bucket_core.specs.Rule.{total_weight};
ghost use Rattle.transport_core.specs.Certificate.{IsCertified, certificate_view};
ghost use Rattle.transport_core.specs.Fits.{Fits, IsLeast};
ghost use Rattle.transport_core.specs.Refusals.{Refuses, RefusesRule, ChecksDuals};
ghost use Rattle.transport_core.specs.Tally.{IsTally};

use crate::{
    Certificate, CheckFault, are_groups, are_names, first_broken, groups, keeps_limits, sums_to,
};
use bucket_core::Rule;
use price_core::{Prices, Switching, Totals};
use std::alloc::Global;

/// Checks that a new rule fits the request and that a certificate proves its cost for the inputs, of which so many fall on
/// each point, so that no rule which fits costs less. It refuses, in this order, with `Weight` (the rules differ in their
/// totals), `Totals` (a total is outside its limits), `Forbidden` (the least point whose change is), `Groups` (the numbers are
/// not those of exactly the groups and names), `Slack` (the first group and name whose numbers sum to more than the change
/// costs), `Sum` (the numbers do not sum to the cost), `Cost` (the rule's cost is another). It goes over points, runs of points
/// and groups, in `O(n log n)` steps at n points and entries, and `O(k)` look-ups of a price for each group, at k names.
pub fn check_plan(
    alloc: Global,
    old: &Rule,
    new: &Rule,
    totals: &Totals,
    prices: &Prices,
    counts: &[u32],
    certificate: &Certificate,
) -> Result<(), CheckFault>
    requires { IsTally (total_weight old.now) counts.now }
    ensures weight { total_weight new.now ≢ total_weight old.now → IsErrOf result CheckFault.Weight }
    ensures certified { OnOk result ((inputs : List (List ℕ)) → counts.now ≡ counts_of inputs (total_weight old.now) → IsCertified old.now new.now totals.now prices.now inputs (certificate_view certificate.now)) }
    ensures least { OnOk result ((inputs : List (List ℕ)) → counts.now ≡ counts_of inputs (total_weight old.now) → IsLeast old.now new.now totals.now prices.now inputs) }
    ensures refused { IfErr result (λ fault. (inputs : List (List ℕ)) → counts.now ≡ counts_of inputs (total_weight old.now) → Refuses old.now new.now totals.now prices.now inputs (certificate_view certificate.now) fault) }
    ensures exact { IfErr result (λ fault. fault ≢ CheckFault.WantOfMemory → (inputs : List (List ℕ)) → counts.now ≡ counts_of inputs (total_weight old.now) → ¬ (IsCertified old.now new.now totals.now prices.now inputs (certificate_view certificate.now))) }
{
    // Called for what their contracts say: a rule's total is from 1 to 2^31-1, and limits are lawful.
    let _total = old.total();
    let _limits = totals.entries();
    let switching = check_rule(alloc, old, new, totals, prices)?;
    check_duals(alloc, old, totals, prices, counts, certificate)?;
    let cost = switching.tally_cost(counts);
    if cost != certificate.cost {
        return Err(CheckFault::Cost);
    }
    Ok(())
}

/// Checks that the new rule fits, and gives the two rules ready for the cost.
fn check_rule<'a>(
    alloc: Global,
    old: &'a Rule,
    new: &'a Rule,
    totals: &Totals,
    prices: &'a Prices,
) -> Result<Switching<'a>, CheckFault>
    ensures exact { MatchResult result (λ _. Fits old.now new.now totals.now prices.now) (RefusesRule old.now new.now totals.now prices.now) }
    ensures rules { IfOk result (λ s. s ≡ (old.now, new.now, prices.now)) }
    ensures weight { total_weight new.now ≢ total_weight old.now → IsErrOf result CheckFault.Weight }
{
    if new.total() != old.total() {
        return Err(CheckFault::Weight);
    }
    if !keeps_limits(alloc, new, totals)? {
        return Err(CheckFault::Totals);
    }
    let switching = Switching::of(alloc, old, new, prices)?;
    match switching.first_forbidden() {
        Some(point) => Err(CheckFault::Forbidden(point)),
        None => Ok(switching),
    }
}

/// Checks the numbers of a certificate, where the low limits sum to at most a rule's total.
fn check_duals(
    alloc: Global,
    old: &Rule,
    totals: &Totals,
    prices: &Prices,
    counts: &[u32],
    certificate: &Certificate,
) -> Result<(), CheckFault>
    requires points { length counts.now ≡ total_weight old.now }
    requires lows { sum_by (λ l. l.1.0) totals.now < 2 ^ 32 }
    ensures { (inputs : List (List ℕ)) → counts.now ≡ counts_of inputs (total_weight old.now) → ChecksDuals old.now totals.now prices.now inputs (certificate_view certificate.now) result }
{
    let limits = totals.entries();
    let alpha = certificate.alpha.as_slice();
    let beta = certificate.beta.as_slice();
    let sizes = groups(alloc, old, counts)?;
    let groups = sizes.as_slice();
    if !are_groups(alpha, groups) {
        return Err(CheckFault::Groups);
    }
    if !are_names(beta, limits) {
        return Err(CheckFault::Groups);
    }
    if let Some((group, name)) = first_broken(alpha, beta, prices) {
        return Err(CheckFault::Slack(group.0.clone()?, group.1, name.0.clone()?));
    }
    if !sums_to(groups, alpha, limits, beta, certificate.cost) {
        return Err(CheckFault::Sum);
    }
    Ok(())
}
