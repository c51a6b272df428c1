//! From the name of each point to the entries that hold them.
ghost use Rattle.std.specs.Prelude.{◌≡◌, ◌<◌, ◌≤◌, ◌≢◌, ◌==◌, ℕ, List, IfOk, length};
ghost use Rattle.std.specs.List.{All, AllPairs, prefix_len};
ghost use Rattle.bucket_core.specs.Canonical.{IsCanonical};
ghost use Rattle.bucket_core.specs.Rule.{AreNamed, all_named, points, names_at};

use std::alloc::{AllocError, Global};

/// The runs of equal items, each with its length.
pub(crate) fn runs_of(alloc: Global, items: &[u32]) -> Result<Vec<(usize, u64)>, AllocError>
    ensures named { IfOk result (λ v. (names : List (List ℕ)) → All (λ i. i < length names) items.now → AllPairs ◌≢◌ names
        → AreNamed names v.items × (points (all_named names v.items) ≡ names_at names items.now) × IsCanonical (all_named names v.items)) }
{
    let mut entries = Vec::new(alloc);
    let mut rest = items;
    while let Some(item) = rest.first() {
        let run = run_len(rest, *item);
        entries.push((*item as usize, run as u64))?;
        rest = rest.split_at(run).1;
    }
    Ok(entries)
}

/// How many items from the front on are this one.
fn run_len(items: &[u32], item: u32) -> usize
    ensures value { result ≡ prefix_len (λ i. i == item) items.now }
    ensures bound { result ≤ length items.now }
{
    items.iter().take_while(|i| **i == item).count()
}
