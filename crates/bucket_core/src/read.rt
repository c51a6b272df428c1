//! From a tree to a rule.
ghost use Rattle.std.specs.Prelude.{◌≡◌, ◌<◌, ◌^◌, Some, Err, IfSome, IsErrOf, option_map, SomeIff};
ghost use Rattle.std.specs.Option.{is_some};
ghost use Rattle.flag_text.specs.Outcome.{GivesUnless};
ghost use Rattle.flag_text.specs.View.{view, items_view};
ghost use Rattle.bucket_core.specs.Reading.{weight_of, bucket_with, bucket_from, bucket_of, buckets_of, rule_of_buckets, rule_of, or_bad};
ghost use Rattle.bucket_core.specs.Rule.{Entries, total_weight, entries_view};

use crate::fault::RuleFault;
use crate::rule::{MAX_TOTAL, Rule};
use flag_text::Tree;
use std::alloc::Global;

/// The rule of a list of literal buckets: each a list of a name, or of a name and a weight from 0 to 2147483647, which
/// is 1 where it is left out. It refuses any other tree with `BadRule`, and then the weights as [`Rule::make`] does, all
/// before it takes memory.
pub fn read_rule(alloc: Global, tree: &Tree) -> Result<Rule, RuleFault>
    ensures exact { GivesUnless RuleFault.WantOfMemory (λ r. r) result (rule_of (view tree.now)) }
    ensures refused { (fault : RuleFault) → rule_of (view tree.now) ≡ Err fault → IsErrOf result fault }
{
    match tree {
        Tree::List(items) => read_buckets(alloc, items.as_slice()),
        _ => Err(RuleFault::BadRule),
    }
}

fn read_buckets(alloc: Global, items: &[Tree]) -> Result<Rule, RuleFault>
    ensures exact { GivesUnless RuleFault.WantOfMemory (λ r. r) result (rule_of_buckets (buckets_of (items_view items.now))) }
    ensures refused { (fault : RuleFault) → rule_of_buckets (buckets_of (items_view items.now)) ≡ Err fault → IsErrOf result fault }
{
    if !are_buckets(items) {
        return Err(RuleFault::BadRule);
    }
    match weigh(items) {
        None => Err(RuleFault::TooHeavy),
        Some(0) => Err(RuleFault::NoWeight),
        Some(_) => Rule::make(alloc, entries_of(alloc, items)?),
    }
}

/// Whether these are literal buckets.
fn are_buckets(items: &[Tree]) -> bool
    ensures { result ≡ is_some (buckets_of (items_view items.now)) }
{
    for item in items {
        if bucket_of(item).is_none() {
            return false;
        }
    }
    true
}

/// The sum of the weights of literal buckets, where it is 0 or one that a rule may have.
fn weigh(items: &[Tree]) -> Option<u32>
    ensures { (r : Entries) → buckets_of (items_view items.now) ≡ Some r → SomeIff result (total_weight r < 2 ^ 31) (total_weight r) }
{
    let mut total = 0;
    for item in items {
        let (_, weight) = bucket_of(item)?;
        if weight > u64::from(MAX_TOTAL - total) {
            return None;
        }
        total += weight as u32;
    }
    Some(total)
}

/// The entries of literal buckets.
fn entries_of(alloc: Global, items: &[Tree]) -> Result<Vec<(String, u64)>, RuleFault>
    ensures { GivesUnless RuleFault.WantOfMemory (λ v. entries_view v.items) result (or_bad (buckets_of (items_view items.now))) }
{
    let mut entries = Vec::with_capacity(alloc, items.len())?;
    for item in items {
        let Some((name, weight)) = bucket_of(item) else {
            return Err(RuleFault::BadRule);
        };
        entries.push((String::from_str(alloc, name)?, weight))?;
    }
    Ok(entries)
}

/// The name and the weight of a literal bucket.
fn bucket_of(tree: &Tree) -> Option<(&str, u64)>
    ensures value { option_map (λ b. (b.0.now, b.1)) result ≡ bucket_of (view tree.now) }
    ensures small { IfSome result (λ b. b.1 < 2 ^ 31) }
{
    match tree {
        Tree::List(parts) => literal_bucket(parts.as_slice()),
        _ => None,
    }
}

/// The name and the weight of a bucket of these parts, where it is literal: a name, or a name and a weight, which is 1
/// where it is left out.
pub fn literal_bucket(parts: &[Tree]) -> Option<(&str, u64)>
    ensures value { option_map (λ b. (b.0.now, b.1)) result ≡ bucket_from (items_view parts.now) }
    ensures small { IfSome result (λ b. b.1 < 2 ^ 31) }
{
    match parts {
        [] => None,
        [name] => bucket_with(name, Some(1)),
        [name, weight] => bucket_with(name, weight_of(weight)),
        [_, _, _, ..] => None,
    }
}

fn bucket_with(name: &Tree, weight: Option<u64>) -> Option<(&str, u64)>
    requires { IfSome weight (λ n. n < 2 ^ 31) }
    ensures value { option_map (λ b. (b.0.now, b.1)) result ≡ bucket_with weight (view name.now) }
    ensures small { IfSome result (λ b. b.1 < 2 ^ 31) }
{
    match (name, weight) {
        (Tree::Text(name), Some(weight)) => Some((name.as_str(), weight)),
        _ => None,
    }
}

/// The weight of a literal bucket: a whole number from 0 to 2147483647.
pub fn weight_of(tree: &Tree) -> Option<u64>
    ensures value { result ≡ weight_of (view tree.now) }
    ensures small { IfSome result (λ n. n < 2 ^ 31) }
{
    match tree {
        Tree::Whole(weight) if 0 <= *weight && *weight <= i64::from(MAX_TOTAL) => {
            Some(*weight as u64)
        }
        _ => None,
    }
}
