//! A rule: its making and its readers.
ghost use Rattle.std.specs.Prelude.{◌≡◌, ◌≤◌, ◌<◌, ◌^◌, ◌*◌, ◌+◌, ◌↔◌, ◌≢◌, List, ℕ, Some, IfOk, IsErrOf, IsTrue, length, slice_get};
ghost use Rattle.std.specs.List.{All, AllPairs};
ghost use Rattle.flag_text.specs.Outcome.{GivesUnless};
ghost use Rattle.bucket_core.specs.Canonical.{IsCanonical};
ghost use Rattle.bucket_core.specs.Reading.{rule_of_entries};
ghost use Rattle.bucket_core.specs.Rule.{Entries, IsRuleOf, IsRuleTotal, AreNamed, IsAround, IsRun, total_weight, points, at, total_of, choice, end_of, entry_at, entry_name, refinement, all_named, entries_view, names_view, names_at};

use crate::entries::RuleEntries;
use crate::fault::RuleFault;
use crate::from_points::runs_of;
use crate::names::{copied, numbered};
use crate::placing::point;
use crate::weights::{ends_of, is_canonical, refined, weigh, weight_of};
use std::alloc::{AllocError, Global};
use std::marker::Model;

/// The largest total of a rule, and the largest weight of a bucket.
pub const MAX_TOTAL: u32 = (1 << 31) - 1;

/// Names with weights, whose sum is from 1 to 2147483647. Entries may share a name, and an entry of weight 0 is kept.
#[derive(Drop)]
pub struct Rule {
    names: Vec<String>,
    // the place of each entry's name, and its weight
    entries: Vec<(usize, u64)>,
    // at each entry the sum of the weights up to it and its own, so that a point is found by halving
    ends: Vec<u32>,
    total: u32,
}

impl Model for Rule {
    ghost Value = { List (List ℕ × ℕ) };

    ghost view = { λ r. all_named (names_view r.names.items) r.entries.items };

    ghost invariant = { λ r. IsRuleOf (names_view r.names.items) r.entries.items r.ends.items r.total };
}

impl Rule {
    /// The rule of these entries, in their order. It refuses a sum of 0 with `NoWeight`, one above 2147483647 with
    /// `TooHeavy`.
    #[tactic(auto, using(crate::proofs::Named::weight_view))]
    pub fn make(alloc: Global, entries: Vec<(String, u64)>) -> Result<Rule, RuleFault>
        ensures exact { GivesUnless RuleFault.WantOfMemory (λ r. r) result (rule_of_entries (entries_view entries.items)) }
        ensures ok { IfOk result (λ r. r ≡ entries_view entries.items) }
        ensures no_weight { IsErrOf result RuleFault.NoWeight ↔ (total_weight (entries_view entries.items) ≡ 0) }
        ensures too_heavy { IsErrOf result RuleFault.TooHeavy ↔ (2 ^ 31 ≤ total_weight (entries_view entries.items)) }
    {
        match weigh(entries.as_slice()) {
            None => Err(RuleFault::TooHeavy),
            Some(0) => Err(RuleFault::NoWeight),
            Some(_) => {
                let (names, entries) = numbered(alloc, entries)?;
                Ok(Rule::of_named(alloc, names, entries)?)
            }
        }
    }

    /// The rule of these entries, each by the place of its name among the names, with its weight. It refuses as `make`
    /// does. So many entries can share one text. The condition is that each place is one of a name.
    #[tactic(auto, using(crate::proofs::Named::weight_named))]
    pub fn of_places(
        alloc: Global,
        names: Vec<String>,
        entries: Vec<(usize, u64)>,
    ) -> Result<Rule, RuleFault>
        requires { AreNamed (names_view names.items) entries.items }
        ensures exact { GivesUnless RuleFault.WantOfMemory (λ r. r) result (rule_of_entries (all_named (names_view names.items) entries.items)) }
        ensures no_weight { IsErrOf result RuleFault.NoWeight ↔ (total_weight (all_named (names_view names.items) entries.items) ≡ 0) }
        ensures too_heavy { IsErrOf result RuleFault.TooHeavy ↔ (2 ^ 31 ≤ total_weight (all_named (names_view names.items) entries.items)) }
    {
        match weigh(entries.as_slice()) {
            None => Err(RuleFault::TooHeavy),
            Some(0) => Err(RuleFault::NoWeight),
            Some(_) => Ok(Rule::of_named(alloc, names, entries)?),
        }
    }

    /// The rule of entries whose weights are known to make one.
    fn of_named(
        alloc: Global,
        names: Vec<String>,
        entries: Vec<(usize, u64)>,
    ) -> Result<Rule, AllocError>
        requires named { AreNamed (names_view names.items) entries.items }
        requires total { IsRuleTotal (total_weight (all_named (names_view names.items) entries.items)) }
        ensures { IfOk result (λ r. r ≡ all_named (names_view names.items) entries.items) }
    {
        let (ends, total) = ends_of(alloc, RuleEntries::of(&names, &entries))?;
        Ok(Rule {
            names,
            entries,
            ends,
            total,
        })
    }

    /// The rule whose point p has the name that item p is the index of. It is canonical: no entry has weight 0, and
    /// neighbours have different names. It takes time linear in the items, and one copy of each name.
    pub fn from_points(alloc: Global, items: &[u32], names: &[String]) -> Result<Rule, AllocError>
        requires some { 0 < length items.now }
        requires few { length items.now < 2 ^ 31 }
        requires named { All (λ i. i < length names.now) items.now }
        requires distinct { AllPairs ◌≢◌ (names_view names.now) }
        ensures named { IfOk result (λ r. points r ≡ names_at (names_view names.now) items.now) }
        ensures canonical { IfOk result IsCanonical }
        ensures only { IfOk result (λ r. (s : Entries) → IsCanonical s → points s ≡ points r → s ≡ r) }
    {
        Rule::of_named(alloc, copied(alloc, names)?, runs_of(alloc, items)?)
    }

    /// The names and weights, in their order.
    pub fn entries(&self) -> RuleEntries<'_>
        ensures value { result ≡ self.now }
    {
        RuleEntries::of(&self.names, &self.entries)
    }

    /// The names, each once or more often, and the entries in their order: the place of its name, and its weight.
    pub fn by_places(&self) -> (&[String], &[(usize, u64)])
        ensures value { all_named (names_view result.0.now) result.1.now ≡ self.now }
        ensures named { AreNamed (names_view result.0.now) result.1.now }
    {
        (self.names.as_slice(), self.entries.as_slice())
    }

    /// The sum of the weights: how many points there are.
    pub fn total(&self) -> u32
        ensures value { result ≡ total_weight self.now }
        ensures allowed { IsRuleTotal result }
    {
        self.total
    }

    /// Whether no entry has weight 0 and neighbours have different names.
    pub fn is_canonical(&self) -> bool
        ensures value { IsTrue result ↔ IsCanonical self.now }
    {
        is_canonical(self.entries())
    }

    /// The entry that holds the point, the first whose cumulative weight exceeds it. It takes `O(log n)` steps at n
    /// entries.
    pub fn entry_at(&self, p: u32) -> usize
        requires { p < total_weight self.now }
        ensures value { result ≡ entry_at self.now p }
        ensures within { result < length self.now }
        ensures below { p < end_of self.now result }
        ensures name { at self.now p ≡ entry_name self.now result }
        ensures run { IsRun self.now p (end_of self.now result) }
    {
        self.ends.partition_point(|end| *end <= p)
    }

    /// The point after the last one of entry i: the sum of the weights up to it and its own.
    pub fn end_of(&self, i: usize) -> u32
        requires { i < length self.now }
        ensures value { result ≡ end_of self.now i }
        ensures bound { result ≤ total_weight self.now }
    {
        self.ends[i]
    }

    /// Entry i: its name and its weight.
    pub fn entry(&self, i: usize) -> (&str, u64)
        requires { i < length self.now }
        ensures value { slice_get self.now i ≡ Some (result.0.now, result.1) }
    {
        let (place, weight) = self.entries[i];
        (self.names[place].as_str(), weight)
    }

    /// The name of entry i.
    pub fn entry_name(&self, i: usize) -> &str
        requires { i < length self.now }
        ensures value { entry_name self.now i ≡ Some result.now }
    {
        self.entry(i).0
    }

    /// The name at the point, that of the first entry whose cumulative weight exceeds it. It takes `O(log n)` steps at
    /// n entries.
    pub fn variant_at(&self, p: u32) -> &str
        requires { p < total_weight self.now }
        ensures value { at self.now p ≡ Some result.now }
        ensures around { IsAround self.now p result.now }
    {
        self.entry_name(self.entry_at(p))
    }

    /// The name that the hash input is given: the one at its point. It takes `O(log n)` steps at n entries, beside the
    /// hash.
    pub fn choose(&self, key: &str) -> &str
        ensures value { choice self.now key.now ≡ Some result.now }
    {
        self.variant_at(point(self.total, key))
    }

    /// How many points have the name.
    pub fn total_of(&self, name: &str) -> u64
        ensures value { result ≡ total_of self.now name.now }
        ensures bound { result ≤ total_weight self.now }
    {
        weight_of(RuleEntries::of(&self.names, &self.entries), name)
    }

    /// The rule with each weight times m, which gives each hash input the name that this one gives it. It refuses a sum
    /// above 2147483647 with `TooHeavy`, before it takes memory.
    pub fn refine(&self, alloc: Global, m: u32) -> Result<Rule, RuleFault>
        requires { 0 < m }
        ensures exact { GivesUnless RuleFault.WantOfMemory (λ r. r) result (rule_of_entries (refinement m self.now)) }
        ensures same { IfOk result (λ r. (key : List ℕ) → choice r key ≡ choice self.now key) }
        ensures total { IfOk result (λ r. total_weight r ≡ total_weight self.now * m) }
        ensures too_heavy { IsErrOf result RuleFault.TooHeavy ↔ (2 ^ 31 ≤ total_weight self.now * m) }
    {
        if u64::from(self.total()) * u64::from(m) > u64::from(MAX_TOTAL) {
            return Err(RuleFault::TooHeavy);
        }
        let names = copied(alloc, &self.names)?;
        Ok(Rule::of_named(alloc, names, refined(alloc, &self.entries, m)?)?)
    }
}
