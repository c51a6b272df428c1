//! The totals of a rule's names, and whether they are within their limits.
ghost use Rattle.std.specs.Prelude.{◌≡◌, ◌≤◌, ◌<◌, ◌+◌, ◌^◌, List, ℕ, Bool, IfOk, OnOk, MatchBool, sum_by, if◌then◌else◌};
ghost use Rattle.std.specs.Cmp.Lexicographic.{slice_cmp};
ghost use Rattle.std.specs.List.Sorted.{IsStrictlySortedBy};
ghost use Rattle.std.specs.Map.{keys_of};
ghost use Rattle.std.specs.Ordering.{nat_cmp};
ghost use Rattle.price_core.specs.Limits.{high_of, limits_view};
ghost use Rattle.transport_core.specs.Refusals.{KeepsLimits, BreaksLimit};
ghost use Rattle.transport_core.specs.Rows.{AreTotals, BreakHigh, BreakLow, KeepHigh, KeepLow, total_in, totals_view, whole_amount};

use bucket_core::Rule;
use price_core::{Limit, Totals};
use std::alloc::{AllocError, Global};
use std::collections::{BTreeMap, HashMap};

/// Whether the total of each name is within its limits. It takes `O(n)` steps at n entries, and `O(k)` for each of k names.
pub fn keeps_limits(alloc: Global, rule: &Rule, limits: &Totals) -> Result<bool, AllocError>
    ensures { IfOk result (λ kept. MatchBool kept (KeepsLimits rule.now limits.now) ((name : List ℕ) × BreaksLimit rule.now limits.now name)) }
{
    let totals = totals(alloc, rule)?;
    let limits = limits.entries();
    if !keeps_high(totals.as_slice(), limits) {
        return Ok(false);
    }
    Ok(keeps_low(totals.as_slice(), limits))
}

/// The total of each name of a rule, by name. It takes `O(n + k log k)` steps at n entries of k names.
pub(crate) fn totals<'a>(alloc: Global, rule: &'a Rule) -> Result<Vec<(&'a str, u32)>, AllocError>
    ensures { IfOk result (λ v. AreTotals rule.now (totals_view v.items)) }
{
    // Called for what its contract says: no sum of a rule's weights is above 2^31-1.
    let _total = rule.total();
    let mut sums = HashMap::new(alloc);
    for (name, weight) in rule.entries() {
        count_points(&mut sums, name, weight as u32)?;
    }
    by_name(alloc, sums)
}

/// The totals in the order of the names.
fn by_name<'a>(
    alloc: Global,
    sums: HashMap<&'a str, u32>,
) -> Result<Vec<(&'a str, u32)>, AllocError>
    requires { whole_amount sums.entries < 2 ^ 32 }
    ensures rise { IfOk result (λ v. IsStrictlySortedBy (slice_cmp nat_cmp) (keys_of (totals_view v.items))) }
    ensures sums { IfOk result (λ v. (test : List ℕ → Bool) → sum_by (λ r. if test r.0 then r.1 else 0) (totals_view v.items)
        ≡ sum_by (λ r. if test r.0 then r.1 else 0) (totals_view sums.entry.entries)) }
{
    let mut sorted = BTreeMap::new(alloc);
    for (name, total) in sums {
        add_points(&mut sorted, name, total)?;
    }
    let mut totals = Vec::new(alloc);
    for total in sorted {
        totals.push(total)?;
    }
    Ok(totals)
}

/// Adds points to the sum of a name.
fn count_points<'a>(
    sums: &mut HashMap<&'a str, u32>,
    name: &'a str,
    points: u32,
) -> Result<(), AllocError>
    requires { whole_amount sums.old.entries + points < 2 ^ 32 }
    ensures { OnOk result ((test : List ℕ → Bool) → sum_by (λ r. if test r.0 then r.1 else 0) (totals_view sums.new.entries)
        ≡ sum_by (λ r. if test r.0 then r.1 else 0) (totals_view sums.old.entries) + (if test name.now then points else 0)) }
{
    if let Some(sum) = sums.get_mut(name) {
        *sum += points;
        return Ok(());
    }
    sums.insert(name, points)?;
    Ok(())
}

/// Adds points to the total of a name.
fn add_points<'a>(
    totals: &mut BTreeMap<&'a str, u32>,
    name: &'a str,
    points: u32,
) -> Result<(), AllocError>
    requires { whole_amount totals.old.entries + points < 2 ^ 32 }
    ensures { OnOk result ((test : List ℕ → Bool) → sum_by (λ r. if test r.0 then r.1 else 0) (totals_view totals.new.entries)
        ≡ sum_by (λ r. if test r.0 then r.1 else 0) (totals_view totals.old.entries) + (if test name.now then points else 0)) }
{
    if let Some(total) = totals.get_mut(name) {
        *total += points;
        return Ok(());
    }
    totals.insert(name, points)?;
    Ok(())
}

fn keeps_high(totals: &[(&str, u32)], limits: &[Limit]) -> bool
    requires { IsStrictlySortedBy (slice_cmp nat_cmp) (keys_of (totals_view totals.now)) }
    ensures { MatchBool result
        (KeepHigh (totals_view totals.now) (limits_view limits.now)) (BreakHigh (totals_view totals.now) (limits_view limits.now)) }
{
    for (name, total) in totals {
        if high_of(limits, name) < *total {
            return false;
        }
    }
    true
}

fn keeps_low(totals: &[(&str, u32)], limits: &[Limit]) -> bool
    requires { IsStrictlySortedBy (slice_cmp nat_cmp) (keys_of (limits_view limits.now)) }
    ensures { MatchBool result
        (KeepLow (totals_view totals.now) (limits_view limits.now)) (BreakLow (totals_view totals.now) (limits_view limits.now)) }
{
    for limit in limits {
        if total_in(totals, limit.name.as_str()) < limit.low {
            return false;
        }
    }
    true
}

/// The high limit of a text, 0 where it is not listed.
fn high_of(limits: &[Limit], name: &str) -> u32
    ensures { result ≡ high_of (limits_view limits.now) name.now }
{
    for limit in limits {
        if name == limit.name.as_str() {
            return limit.high;
        }
    }
    0
}

/// The total of a text, 0 where it is not listed.
fn total_in(totals: &[(&str, u32)], name: &str) -> u32
    ensures { result ≡ total_in (totals_view totals.now) name.now }
{
    for (other, total) in totals {
        if name == *other {
            return *total;
        }
    }
    0
}
