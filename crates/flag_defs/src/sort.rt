//! Flags in the order of their keys.
ghost use Rattle.std.specs.Prelude.{◌≡◌, IfOk, OnOk};
ghost use Rattle.std.specs.BTreeMap.{insert_entry};
ghost use Rattle.std.specs.Cmp.Lexicographic.{slice_cmp};
ghost use Rattle.std.specs.List.Sorted.{IsStrictlySortedBy};
ghost use Rattle.std.specs.Map.{keys_of};
ghost use Rattle.std.specs.Ordering.{nat_cmp};
ghost use Rattle.std.specs.String.{string_cmp};
ghost use Rattle.flag_defs.specs.Changes.{by_key};
ghost use Rattle.flag_defs.specs.Flag.{entries_view};
ghost use Rattle.flag_defs.specs.Floats.{entries_floats, marks_by_key};

use crate::flag::Flag;
use std::alloc::{AllocError, Global};
use std::collections::BTreeMap;

/// The entries of a list in the order of their keys as bytes, which rise strictly: of one key the last entry counts. It fails
/// only where memory runs out.
pub(crate) fn sort_entries(
    alloc: Global,
    entries: Vec<(String, Flag)>,
) -> Result<Vec<(String, Flag)>, AllocError>
    ensures value { IfOk result (λ v. entries_view v.items ≡ by_key (entries_view entries.items)) }
    ensures floats { IfOk result (λ v. entries_floats v.items ≡ marks_by_key (entries_floats entries.items)) }
    ensures rising { IfOk result (λ v. IsStrictlySortedBy (slice_cmp nat_cmp) (keys_of (entries_view v.items))) }
{
    let mut by_key = BTreeMap::new(alloc);
    for (key, flag) in entries {
        insert(&mut by_key, key, flag)?;
    }
    let mut flags = Vec::with_capacity(alloc, by_key.len())?;
    for (key, flag) in by_key {
        flags.push((key, flag))?;
    }
    Ok(flags)
}

fn insert(flags: &mut BTreeMap<String, Flag>, key: String, flag: Flag) -> Result<(), AllocError>
    ensures { OnOk result (flags.new.entries ≡ insert_entry string_cmp flags.old.entries key flag) }
{
    flags.insert(key, flag)?;
    Ok(())
}
