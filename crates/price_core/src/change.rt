//! Changes of variant, and lists in which a change is looked up.
ghost use Rattle.std.specs.Prelude.{◌≡◌, IfOk, option_copied};
ghost use Rattle.std.specs.List.Sorted.{IsStrictlySortedBy};
ghost use Rattle.std.specs.Map.{keys_of, lookup};
ghost use Rattle.flag_text.specs.Outcome.{GivesUnless};
ghost use Rattle.price_core.specs.Pricing.{pair_cmp, is_same_pair, change_view, entries_view, lent_pair};
ghost use Rattle.price_core.specs.Request.{once_each, if_written};

use crate::fault::PriceFault;
use std::alloc::{AllocError, Global};
use std::cmp::Ordering;
use std::collections::BTreeMap;

/// A change from the variant that a key had to the variant that it is given.
#[derive(PartialEq, Eq, PartialOrd, Ord, Drop)]
pub(crate) struct Change {
    pub(crate) from: String,
    pub(crate) to: String,
}

impl Change {
    /// The change between these names.
    pub(crate) fn of(alloc: Global, pair: (&str, &str)) -> Result<Change, AllocError>
        ensures { IfOk result (λ c. change_view c ≡ lent_pair pair.entry) }
    {
        let from = String::from_str(alloc, pair.0)?;
        Ok(Change {
            from,
            to: String::from_str(alloc, pair.1)?,
        })
    }

    /// How it stands to the change between these names.
    fn compare(&self, from: &str, to: &str) -> Ordering
        ensures { result ≡ pair_cmp (change_view self.now) (from.now, to.now) }
    {
        match self.from.as_str().cmp(from) {
            Ordering::Equal => self.to.as_str().cmp(to),
            unequal => unequal,
        }
    }
}

/// What is said of the change between these names, by halving.
pub(crate) fn find<'a, X>(entries: &'a [(Change, X)], from: &str, to: &str) -> Option<&'a X>
    requires { IsStrictlySortedBy pair_cmp (keys_of (entries_view entries.now)) }
    ensures { option_copied result ≡ lookup (is_same_pair (from.now, to.now)) (entries_view entries.now) }
{
    match entries.binary_search_by(|entry| entry.0.compare(from, to)) {
        Ok(place) => Some(&entries[place].1),
        Err(_) => None,
    }
}

/// The entries in the order of their changes; `BadRequest` where a change stands twice.
pub(crate) fn once_each<X: Drop>(
    alloc: Global,
    entries: Vec<(Change, X)>,
) -> Result<Vec<(Change, X)>, PriceFault>
    ensures exact { GivesUnless PriceFault.WantOfMemory (λ v. entries_view v.items) result (if_written (once_each (entries_view entries.items))) }
    ensures rise { IfOk result (λ v. IsStrictlySortedBy pair_cmp (keys_of (entries_view v.items))) }
{
    let mut entries = entries;
    let mut by_change = BTreeMap::new(alloc);
    while let Some((change, said)) = entries.pop() {
        if by_change.insert(change, said)?.is_some() {
            return Err(PriceFault::BadRequest);
        }
    }
    let mut ordered = Vec::new(alloc);
    for entry in by_change {
        ordered.push(entry)?;
    }
    Ok(ordered)
}
