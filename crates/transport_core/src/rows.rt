//! Rows of a key and an amount: points with one name and one number of inputs, and their sums by key.
ghost use Rattle.std.specs.Prelude.{◌≡◌, ◌<◌, ◌^◌, IfOk};
ghost use Rattle.transport_core.specs.Rows.{joined, whole_amount};

use std::alloc::{AllocError, Global};

/// So many points of one name, on each of which the same number of inputs falls.
pub type Row<'a> = ((&'a str, u32), u32);

/// Neighbours of one key joined, with the sum of their amounts.
pub(crate) fn joined<K: Copy + PartialEq>(
    alloc: Global,
    rows: &[(K, u32)],
) -> Result<Vec<(K, u32)>, AllocError>
    requires { whole_amount rows.now < 2 ^ 32 }
    ensures { IfOk result (λ v. v.items ≡ joined K.eq rows.now) }
{
    let mut joined = Vec::new(alloc);
    let Some((first, rest)) = rows.split_first() else {
        return Ok(joined);
    };
    let mut key = first.0;
    let mut amount = first.1;
    for (next, more) in rest {
        if key == *next {
            amount += *more;
        } else {
            joined.push((key, amount))?;
            key = *next;
            amount = *more;
        }
    }
    joined.push((key, amount))?;
    Ok(joined)
}
