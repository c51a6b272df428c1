//! Cuts: sets of names that show that no rule fits.
ghost use Rattle.std.specs.Prelude.{◌≡◌, ◌≢◌, ◌<◌, ◌≤◌, ◌||◌, ◌↔◌, List, ℕ, IsTrue, IfErr, IsErrOf, OnOk, sum_by, if◌then◌else◌};
ghost use Rattle.std.specs.List.{All, Contains, list_any, list_all};
ghost use Rattle.std.specs.Map.{keys_of};
ghost use Rattle.std.specs.Str.{bytes_eq};
ghost use Rattle.bucket_core.specs.Rule.{Entries, names_view};
ghost use Rattle.price_core.specs.Limits.{limits_view};
ghost use Rattle.transport_core.specs.Deficient.{may_become, is_among, IsDeficient, Outnumbers};
ghost use Rattle.transport_core.specs.Fits.{Fits};
ghost use Rattle.transport_core.specs.Rows.{totals_view};

use crate::certificate::{Cut, CutKind};
use crate::fault::CheckFault;
use crate::totals::totals;
use bucket_core::Rule;
use price_core::{Limit, Prices, Totals};
use std::alloc::Global;

/// Checks that the set of a cut is deficient by its kind, so that no rule fits. Else it refuses with `NotDeficient`, also
/// where a name of the set has no limits. It takes `O(n log n)` steps at n entries, and `O(k)` look-ups of a price for each
/// of k names.
pub fn check_cut(
    alloc: Global,
    old: &Rule,
    limits: &Totals,
    prices: &Prices,
    cut: &Cut,
) -> Result<(), CheckFault>
    ensures unlisted { ¬ (All (Contains (keys_of limits.now)) (names_view cut.now.names.items)) → IsErrOf result CheckFault.NotDeficient }
    ensures deficient { OnOk result (IsDeficient cut.now.kind old.now limits.now prices.now (names_view cut.now.names.items)) }
    ensures none { OnOk result ((rule : Entries) → Fits old.now rule limits.now prices.now → ⊥) }
    ensures refused { IfErr result (λ fault. fault ≢ CheckFault.WantOfMemory
        → (fault ≡ CheckFault.NotDeficient) × ¬ (IsDeficient cut.now.kind old.now limits.now prices.now (names_view cut.now.names.items))) }
{
    let limits = limits.entries();
    let names = cut.names.as_slice();
    if !are_listed(names, limits) {
        return Err(CheckFault::NotDeficient);
    }
    let totals = totals(alloc, old)?;
    if outnumbers(cut.kind, totals.as_slice(), limits, prices, names) {
        Ok(())
    } else {
        Err(CheckFault::NotDeficient)
    }
}

/// Whether the set is deficient by its kind, where its names have limits.
pub(crate) fn outnumbers(
    kind: CutKind,
    totals: &[(&str, u32)],
    limits: &[Limit],
    prices: &Prices,
    names: &[String],
) -> bool
    ensures { IsTrue result ↔ Outnumbers kind (totals_view totals.now) (limits_view limits.now) prices.now (names_view names.now) }
{
    match kind {
        CutKind::Over => room(limits, prices, names) < held(totals, names),
        CutKind::Under => reach(totals, prices, names) < demand(limits, names),
    }
}

/// Whether each name of the set has limits.
pub(crate) fn are_listed(names: &[String], limits: &[Limit]) -> bool
    ensures { result ≡ list_all (λ name. list_any (bytes_eq name) (keys_of (limits_view limits.now))) (names_view names.now) }
{
    for name in names {
        if !is_listed(name.as_str(), limits) {
            return false;
        }
    }
    true
}

/// Whether each name of a rule has limits.
pub(crate) fn names_are_listed(rule: &Rule, limits: &[Limit]) -> bool
    ensures { result ≡ list_all (λ name. list_any (bytes_eq name) (keys_of (limits_view limits.now))) (keys_of rule.now) }
{
    for (name, _) in rule.entries() {
        if !is_listed(name, limits) {
            return false;
        }
    }
    true
}

fn is_listed(name: &str, limits: &[Limit]) -> bool
    ensures { result ≡ list_any (bytes_eq name.now) (keys_of (limits_view limits.now)) }
{
    for limit in limits {
        if name == limit.name.as_str() {
            return true;
        }
    }
    false
}

/// The high limits of all names that some member of the set may keep or change to.
fn room(limits: &[Limit], prices: &Prices, names: &[String]) -> u128
    ensures { result ≡ sum_by (λ l. if list_any (λ from. may_become prices.now from l.0) (names_view names.now) then l.1.1 else 0) (limits_view limits.now) }
{
    let mut room = 0;
    for limit in limits {
        if is_reached(prices, names, limit.name.as_str()) {
            room += u128::from(limit.high);
        }
    }
    room
}

/// The points whose name is in the set.
fn held(totals: &[(&str, u32)], names: &[String]) -> u128
    ensures { result ≡ sum_by (λ r. if is_among (names_view names.now) r.0 then r.1 else 0) (totals_view totals.now) }
{
    let mut held = 0;
    for (name, total) in totals {
        if is_among(names, name) {
            held += u128::from(*total);
        }
    }
    held
}

/// The low limits of the set.
fn demand(limits: &[Limit], names: &[String]) -> u128
    ensures { result ≡ sum_by (λ l. if is_among (names_view names.now) l.0 then l.1.0 else 0) (limits_view limits.now) }
{
    let mut demand = 0;
    for limit in limits {
        if is_among(names, limit.name.as_str()) {
            demand += u128::from(limit.low);
        }
    }
    demand
}

/// The points whose name is in the set or may change to one of it.
fn reach(totals: &[(&str, u32)], prices: &Prices, names: &[String]) -> u128
    ensures { result ≡ sum_by (λ r. if is_among (names_view names.now) r.0 || list_any (may_become prices.now r.0) (names_view names.now) then r.1 else 0) (totals_view totals.now) }
{
    let mut reach = 0;
    for (name, total) in totals {
        if is_among(names, name) || reaches(prices, name, names) {
            reach += u128::from(*total);
        }
    }
    reach
}

fn is_among(names: &[String], name: &str) -> bool
    ensures { result ≡ is_among (names_view names.now) name.now }
{
    for other in names {
        if name == other.as_str() {
            return true;
        }
    }
    false
}

/// Whether some member of the set may keep or change to the name.
fn is_reached(prices: &Prices, names: &[String], to: &str) -> bool
    ensures { result ≡ list_any (λ from. may_become prices.now from to.now) (names_view names.now) }
{
    for from in names {
        if !prices.forbidden(from.as_str(), to) {
            return true;
        }
    }
    false
}

/// Whether the name may be kept as or changed to some member of the set.
fn reaches(prices: &Prices, from: &str, names: &[String]) -> bool
    ensures { result ≡ list_any (may_become prices.now from.now) (names_view names.now) }
{
    for to in names {
        if !prices.forbidden(from, to.as_str()) {
            return true;
        }
    }
    false
}
