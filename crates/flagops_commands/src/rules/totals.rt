//! The totals of a rule's names.
ghost use Rattle.std.specs.Prelude.{◌≡◌, ◌<◌, ◌^◌, IfOk, map};
ghost use Rattle.bucket_core.specs.Rule.{total_weight};
ghost use Rattle.flagops_commands.specs.Totals.{totals_by_name};

use bucket_core::Rule;
use std::alloc::{AllocError, Global};
use std::collections::BTreeMap;

/// Each name once, in the order of their bytes, with the number of its points. It adds the weights
/// up by name, in `O(n log n)` steps at n entries.
pub fn totals_by_name(alloc: Global, rule: &Rule) -> Result<Vec<(&str, u64)>, AllocError>
    requires { total_weight rule.now < 2 ^ 31 }
    ensures { IfOk result (λ v. map (λ e. (e.0.now, e.1)) v.items ≡ totals_by_name rule.now) }
{
    let mut by_name = BTreeMap::new(alloc);
    let mut left = rule.entries().len();
    while left > 0 {
        left -= 1;
        let (name, weight) = rule.entry(left);
        let before = by_name.get(name).copied().unwrap_or(0);
        by_name.insert(name, before + weight)?;
    }
    let mut totals = Vec::new(alloc);
    for total in by_name {
        totals.push(total)?;
    }
    Ok(totals)
}
