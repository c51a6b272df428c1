//! Copies of flags that others hold, weighed before one of them is copied.
ghost use Rattle.std.specs.Prelude.{◌≡◌, ◌≤◌, length, nat_lt, IfOk};
ghost use Rattle.std.specs.Cmp.Lexicographic.{slice_cmp};
ghost use Rattle.std.specs.List.Sorted.{IsStrictlySortedBy};
ghost use Rattle.std.specs.Map.{keys_of};
ghost use Rattle.std.specs.Ordering.{nat_cmp};
ghost use Rattle.flag_defs.specs.Document.{max_bytes, max_flags, printed};
ghost use Rattle.flag_defs.specs.Flag.{entries_view, flag_view};
ghost use Rattle.flag_defs.specs.Floats.{entries_floats, lent_floats};
ghost use Rattle.flag_defs.specs.Lent.{entry_bytes, lent_view};
ghost use Rattle.flag_references.specs.Measure.{capped};

use crate::flag::Flag;
use crate::printed_bytes::with_member;
use crate::written_bytes::flag_bytes;
use limits::TEXT_BYTES;
use std::alloc::{AllocError, Global};

/// The bytes of `{"flags":{` and `}}`, less the comma that is counted with the last flag and not printed.
const BYTES_AROUND: usize = 11;

/// True if printing these flags as a document would exceed the size limit. Nothing is printed, and no memory is taken. The keys
/// must rise strictly as bytes.
pub(crate) fn are_heavy(entries: &[(&str, &Flag)]) -> bool
    requires { IsStrictlySortedBy (slice_cmp nat_cmp) (keys_of (lent_view entries.now)) }
    ensures { result ≡ nat_lt max_bytes (length (printed (lent_view entries.now))) }
{
    let mut left = TEXT_BYTES - BYTES_AROUND;
    for (key, flag) in entries {
        let bytes = entry_bytes(key, flag) as usize;
        if left < bytes {
            return true;
        }
        left -= bytes;
    }
    false
}

/// In how many bytes a flag is printed with its key and a comma, up to the most that is counted.
fn entry_bytes(key: &str, flag: &Flag) -> u32
    ensures { result ≡ capped (entry_bytes (key.now, flag_view flag.now)) }
{
    with_member(key, flag_bytes(flag), 0)
}

/// Copies flags that others hold, with their keys. Together they must be within the limits of a document, which is to be asked
/// before the first of them is copied. Fails only if memory runs out.
pub(crate) fn copy_lent(
    alloc: Global,
    entries: &[(&str, &Flag)],
) -> Result<Vec<(String, Flag)>, AllocError>
    requires few { length entries.now ≤ max_flags }
    requires light { length (printed (lent_view entries.now)) ≤ max_bytes }
    ensures value { IfOk result (λ v. entries_view v.items ≡ lent_view entries.now) }
    ensures floats { IfOk result (λ v. entries_floats v.items ≡ lent_floats entries.now) }
{
    let mut copies = Vec::with_capacity(alloc, entries.len())?;
    for (key, flag) in entries {
        copies.push((String::from_str(alloc, key)?, flag.copy(alloc)?))?;
    }
    Ok(copies)
}
