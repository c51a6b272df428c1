//! The groups of a rule's points: of one name, with one number of inputs on each.
ghost use Rattle.std.specs.Prelude.{◌≡◌, ◌<◌, ◌^◌, List, ℕ, IfOk, length, slice_index};
ghost use Rattle.exposures.specs.Counts.{counts_of};
ghost use Rattle.bucket_core.specs.Rule.{total_weight};
ghost use Rattle.transport_core.specs.Groups.{AreSizes, AreSizesBy, rows_view};
ghost use Rattle.transport_core.specs.Rows.{whole_amount};

use crate::counted::counted_rows;
use crate::rows::{Row, joined};
use bucket_core::Rule;
use std::alloc::{AllocError, Global};

/// The groups of a rule's points with their sizes, by name and then by number of inputs, where so many inputs fall on each
/// point. It takes `O(points)` steps but for the sort of each name's numbers and of the rows. The condition is a number for
/// each point.
pub fn groups<'a>(alloc: Global, rule: &'a Rule, counts: &[u32]) -> Result<Vec<Row<'a>>, AllocError>
    requires { length counts.now ≡ total_weight rule.now }
    ensures loads { IfOk result (λ v. AreSizesBy rule.now (slice_index counts.now) (rows_view v.items)) }
    ensures sizes { IfOk result (λ v. (inputs : List (List ℕ)) → counts.now ≡ counts_of inputs (total_weight rule.now) → AreSizes rule.now inputs (rows_view v.items)) }
    ensures few { IfOk result (λ v. whole_amount v.items < 2 ^ 32) }
{
    // Called for what its contract says: a rule's total is below 2^31.
    let _total = rule.total();
    let mut rows = counted_rows(alloc, rule, counts)?;
    rows.sort_unstable();
    joined(alloc, rows.as_slice())
}
