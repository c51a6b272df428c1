//! What two rules come to side by side, looked up by numbers.
ghost use Rattle.std.specs.Prelude.{◌≡◌, ◌≤◌, ◌<◌, ℕ, List, Some, IfOk, IfSome, length, sum};
ghost use Rattle.limits.specs.Limits.{tally_inputs};
ghost use Rattle.bucket_core.specs.Rule.{IsRun, at, end_of, entry_at, entry_name, total_weight};
ghost use Rattle.price_core.specs.Cost.{first_forbidden_of, input_cost, tally_cost};
ghost use Rattle.price_core.specs.Pricing.{IsPricing, is_forbidden, price_of, max_price};

use crate::numbering::Numbering;
use crate::prices::Prices;
use bucket_core::{Rule, scale};
use murmur_core::hash;
use std::alloc::{AllocError, Global};
use std::collections::HashMap;
use std::marker::Model;

/// An old and a new rule with prices, ready to price one input, or one run of points, after
/// another. No two texts are compared for it: equal names of the two rules share a number, and
/// prices and prohibitions are looked up by numbers.
#[derive(Drop)]
pub struct Switching<'a> {
    old: &'a Rule,
    new: &'a Rule,
    prices: &'a Prices,
    // the number of each entry's name
    old_numbers: Vec<usize>,
    new_numbers: Vec<usize>,
    // the prices of `prices` that are not the usual one, by the numbers of the two names
    by_numbers: HashMap<(usize, usize), u64>,
    // the changes that `prices` forbids, by the numbers of the two names
    barred: HashMap<(usize, usize), ()>,
}

impl<'a> Model for Switching<'a> {
    ghost use Rattle.bucket_core.specs.Rule.{Entries};
    ghost use Rattle.price_core.specs.Numbering.{IsSwitching};
    ghost use Rattle.price_core.specs.Pricing.{Pricing};

    ghost Value = { Entries × Entries × Pricing };

    ghost view = { λ s. (s.old.now, s.new.now, s.prices.now) };

    ghost invariant = { λ s. IsSwitching s.old.now s.new.now s.prices.now s.old_numbers.items s.new_numbers.items s.by_numbers s.barred };
}

impl<'a> Switching<'a> {
    /// Numbers the names of the two rules, in time that rises as their entries and the prices do.
    pub fn of(
        alloc: Global,
        old: &'a Rule,
        new: &'a Rule,
        prices: &'a Prices,
    ) -> Result<Switching<'a>, AllocError>
        ensures rules { IfOk result (λ s. s ≡ (old.entry.now, new.entry.now, prices.entry.now)) }
        ensures lawful { IfOk result (λ s. IsPricing s.2) }
    {
        let mut numbering = Numbering::new(alloc);
        let old_numbers = numbering.add_all(alloc, old)?;
        let new_numbers = numbering.add_all(alloc, new)?;
        let by_numbers = numbering.between(alloc, prices.named())?;
        let barred = numbering.between(alloc, prices.barred())?;
        Ok(Switching {
            old,
            new,
            prices,
            old_numbers,
            new_numbers,
            by_numbers,
            barred,
        })
    }

    /// The least point whose change is forbidden, of two rules of one total. It goes from run to
    /// run of points with equal old and new names, in `O(entries)` steps, and takes no memory.
    pub fn first_forbidden(&self) -> Option<u32>
        requires { total_weight self.now.0 ≡ total_weight self.now.1 }
        ensures exact { result ≡ first_forbidden_of self.now.0 self.now.1 self.now.2 }
        ensures inside { IfSome result (λ p. p < total_weight self.now.0) }
    {
        let total = self.old.total();
        let mut point = 0;
        let mut from = 0;
        let mut to = 0;
        while point < total {
            from = entry_from(self.old, from, point);
            to = entry_from(self.new, to, point);
            if self.forbidden(from, to) {
                return Some(point);
            }
            point = self.old.end_of(from).min(self.new.end_of(to));
        }
        None
    }

    /// The sum of what the inputs cost, of which so many fall on each point, 8,589,934,592 in all
    /// at most. It goes from run to run of points with equal old and new names, in
    /// `O(points + entries)` steps, and takes no memory. The conditions are that the rules are of
    /// one total, and that there is a number for each point.
    pub fn tally_cost(&self, counts: &[u32]) -> u64
        requires total { total_weight self.now.1 ≡ total_weight self.now.0 }
        requires points { length counts.now ≡ total_weight self.now.0 }
        requires few { sum counts.now ≤ tally_inputs }
        ensures { result ≡ tally_cost self.now.0 self.now.1 counts.now self.now.2 }
    {
        let total = self.old.total();
        let mut point = 0;
        let mut from = 0;
        let mut to = 0;
        let mut cost = 0;
        while point < total {
            from = entry_from(self.old, from, point);
            to = entry_from(self.new, to, point);
            let end = self.old.end_of(from).min(self.new.end_of(to));
            let price = self.price(from, to);
            cost += price * inputs_on(&counts[point as usize..end as usize]);
            point = end;
        }
        cost
    }

    /// What the input costs. It is hashed once, and takes `O(log n)` steps at rules of n entries.
    pub(crate) fn cost(&self, input: &str) -> u64
        ensures value { result ≡ input_cost self.now.0 self.now.1 self.now.2 input.now }
        ensures small { result ≤ max_price }
    {
        let hash = hash(input.as_bytes(), 0);
        let from = self.old.entry_at(scale(self.old.total(), hash));
        let to = self.new.entry_at(scale(self.new.total(), hash));
        self.price(from, to)
    }

    /// The price of a change from entry i of the old rule to entry j of the new one.
    fn price(&self, i: usize, j: usize) -> u64
        requires from { i < length self.now.0 }
        requires to { j < length self.now.1 }
        ensures value { (x y : List ℕ) → entry_name self.now.0 i ≡ Some x → entry_name self.now.1 j ≡ Some y → result ≡ price_of self.now.2 x y }
        ensures small { result ≤ max_price }
        ensures lawful { IsPricing self.now.2 }
    {
        let usual = self.prices.usual();
        let from = self.old_numbers[i];
        let to = self.new_numbers[j];
        if from == to {
            return 0;
        }
        self.by_numbers.get(&(from, to)).copied().unwrap_or(usual)
    }

    /// Whether a change from entry i of the old rule to entry j of the new one is forbidden.
    fn forbidden(&self, i: usize, j: usize) -> bool
        requires from { i < length self.now.0 }
        requires to { j < length self.now.1 }
        ensures { (x y : List ℕ) → entry_name self.now.0 i ≡ Some x → entry_name self.now.1 j ≡ Some y → result ≡ is_forbidden self.now.2 x y }
    {
        let from = self.old_numbers[i];
        let to = self.new_numbers[j];
        from != to && self.barred.contains_key(&(from, to))
    }
}

/// The entry that holds the point, as [`Rule::entry_at`] gives it, looked for from an entry on
/// that is not after it. It takes a step for each entry between the two.
fn entry_from(rule: &Rule, from: usize, point: u32) -> usize
    requires inside { point < total_weight rule.now }
    requires before { from ≤ entry_at rule.now point }
    ensures value { result ≡ entry_at rule.now point }
    ensures within { result < length rule.now }
    ensures below { point < end_of rule.now result }
    ensures name { at rule.now point ≡ entry_name rule.now result }
    ensures run { IsRun rule.now point (end_of rule.now result) }
{
    // Called for what its contract says: a rule has no more entries than a `usize` counts.
    let _count = rule.entries().len();
    let mut entry = from;
    while rule.end_of(entry) <= point {
        entry += 1;
    }
    entry
}

/// How many inputs fall on these points.
fn inputs_on(counts: &[u32]) -> u64
    requires { sum counts.now ≤ tally_inputs }
    ensures { result ≡ sum counts.now }
{
    counts.iter().map(|count| u64::from(*count)).sum()
}
