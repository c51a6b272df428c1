//! The names that stand more than once among some.
ghost use Rattle.std.specs.Prelude.{◌≡◌, ℕ, List, map, string_bytes, nat_lt, IfOk};
ghost use Rattle.std.specs.BTreeSet.{contains_text};
ghost use Rattle.std.specs.Cmp.Lexicographic.{slice_cmp};
ghost use Rattle.std.specs.List.{list_any};
ghost use Rattle.std.specs.List.Sorted.{IsStrictlySortedBy};
ghost use Rattle.std.specs.Ordering.{nat_cmp};
ghost use Rattle.std.specs.Str.{bytes_eq};
ghost use Rattle.flag_doubts.specs.Doubled.{count_of};

use std::alloc::{AllocError, Global};
use std::collections::BTreeSet;

/// The names that stand more than once among these, each once and in the order of their bytes.
pub(crate) fn doubled_among(alloc: Global, names: &[&str]) -> Result<Vec<String>, AllocError>
    ensures doubled { IfOk result (λ v. (key : List ℕ) → list_any (bytes_eq key) (map string_bytes v.items) ≡ nat_lt 1 (count_of key (map (λ n. n.now) names.now))) }
    ensures rising { IfOk result (λ v. IsStrictlySortedBy (slice_cmp nat_cmp) (map string_bytes v.items)) }
{
    listed(alloc, repeated(alloc, names)?)
}

/// The names that stand more than once among these.
fn repeated(alloc: Global, names: &[&str]) -> Result<BTreeSet<String>, AllocError>
    ensures { IfOk result (λ set. (key : List ℕ) → contains_text set key ≡ nat_lt 1 (count_of key (map (λ n. n.now) names.now))) }
{
    let mut met = BTreeSet::new(alloc);
    let mut met_again = BTreeSet::new(alloc);
    for name in names {
        if !met.insert(String::from_str(alloc, name)?)? {
            met_again.insert(String::from_str(alloc, name)?)?;
        }
    }
    Ok(met_again)
}

/// The keys of a set, in their order.
fn listed(alloc: Global, keys: BTreeSet<String>) -> Result<Vec<String>, AllocError>
    ensures items { IfOk result (λ v. v.items ≡ keys.keys) }
    ensures rising { IfOk result (λ v. IsStrictlySortedBy (slice_cmp nat_cmp) (map string_bytes v.items)) }
{
    let mut list = Vec::with_capacity(alloc, keys.len())?;
    for key in keys {
        list.push(key)?;
    }
    Ok(list)
}
