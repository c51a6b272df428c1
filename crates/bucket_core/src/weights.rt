//! Sums over the entries of a rule.
ghost use Rattle.std.specs.Prelude.{◌≡◌, ◌<◌, ◌≤◌, ◌^◌, ◌*◌, ◌↔◌, ◌≢◌, ⊤, IfOk, IsTrue, SomeIff, MatchOption, map, sum_by};
ghost use Rattle.bucket_core.specs.Canonical.{IsCanonical};
ghost use Rattle.bucket_core.specs.Rule.{total_weight, total_of, ends_from, entries_view};

use crate::entries::RuleEntries;
use crate::rule::MAX_TOTAL;
use std::alloc::{AllocError, Global};

/// The sum of the weights, which is exact.
pub fn total_weight(entries: &[(String, u64)]) -> u128
    ensures value { result ≡ total_weight (entries_view entries.now) }
{
    let mut sum = 0u128;
    for (_, weight) in entries {
        sum += u128::from(*weight);
    }
    sum
}

/// The sum of the weights, where it is 0 or one that a rule may have.
pub(crate) fn weigh<N>(entries: &[(N, u64)]) -> Option<u32>
    ensures { SomeIff result (sum_by (λ e. e.1) entries.now < 2 ^ 31) (sum_by (λ e. e.1) entries.now) }
{
    let mut total = 0;
    for (_, weight) in entries {
        if *weight > u64::from(MAX_TOTAL - total) {
            return None;
        }
        total += *weight as u32;
    }
    Some(total)
}

/// The cumulative weights, and their last, which is the sum.
pub(crate) fn ends_of(
    alloc: Global,
    entries: RuleEntries<'_>,
) -> Result<(Vec<u32>, u32), AllocError>
    requires { total_weight entries < 2 ^ 31 }
    ensures ends { IfOk result (λ sums. sums.0.items ≡ ends_from 0 entries.entry) }
    ensures total { IfOk result (λ sums. sums.1 ≡ total_weight entries.entry) }
{
    let mut ends = Vec::with_capacity(alloc, entries.len())?;
    let mut end = 0u32;
    for (_, weight) in entries {
        end += weight as u32;
        ends.push(end)?;
    }
    Ok((ends, end))
}

/// The sum of the weights of one name.
pub(crate) fn weight_of(entries: RuleEntries<'_>, name: &str) -> u64
    requires { total_weight entries < 2 ^ 31 }
    ensures value { result ≡ total_of entries.entry name.now }
    ensures bound { result ≤ total_weight entries.entry }
{
    let mut total = 0;
    for (other, weight) in entries {
        if other == name {
            total += weight;
        }
    }
    total
}

/// The entries, each weight times m.
pub(crate) fn refined(
    alloc: Global,
    entries: &[(usize, u64)],
    m: u32,
) -> Result<Vec<(usize, u64)>, AllocError>
    requires { sum_by (λ e. e.1) entries.now * m < 2 ^ 31 }
    ensures { IfOk result (λ v. v.items ≡ map (λ e. (e.0, e.1 * m)) entries.now) }
{
    let mut refined = Vec::with_capacity(alloc, entries.len())?;
    for (place, weight) in entries {
        refined.push((*place, *weight * u64::from(m)))?;
    }
    Ok(refined)
}

/// Whether no weight is 0 and neighbours have different names.
pub(crate) fn is_canonical(entries: RuleEntries<'_>) -> bool
    ensures { IsTrue result ↔ IsCanonical entries.entry }
{
    let mut before: Option<&str> = None;
    for (name, weight) in entries {
        if weight == 0 || !is_apart(before, name) {
            return false;
        }
        before = Some(name);
    }
    true
}

/// Whether a name is another than the one before it, if there is one.
fn is_apart(before: Option<&str>, name: &str) -> bool
    ensures { IsTrue result ↔ MatchOption before.entry ⊤ (λ other. name.now ≢ other.now) }
{
    match before {
        None => true,
        Some(other) => name != other,
    }
}
