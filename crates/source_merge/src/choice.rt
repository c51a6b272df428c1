//! Which entry of the sources counts at each key.
ghost use Rattle.std.specs.Prelude.{◌≡◌, IfOk, OnOk, fold};
ghost use Rattle.flag_defs.specs.Changes.{by_key, with_entry};
ghost use Rattle.flag_defs.specs.Flag.{flag_view};
ghost use Rattle.flag_defs.specs.Flags.{flags_view};
ghost use Rattle.flag_defs.specs.Floats.{floats_of, floats_view, lent_floats};
ghost use Rattle.flag_defs.specs.Lent.{lent_view};
ghost use Rattle.source_merge.specs.Floats.{entries_floats, merged_marks, with_mark};
ghost use Rattle.source_merge.specs.Merge.{all_entries};
ghost use Rattle.source_merge.specs.Sources.{entries_view};

use flag_defs::{Flag, Flags};
use indexmap::IndexMap;
use std::alloc::{AllocError, Global};
use std::collections::BTreeMap;

/// The entry of the latest document that has it, at each key, in the order of the keys. Nothing is copied yet.
pub(crate) fn chosen<'a>(
    alloc: Global,
    documents: &'a IndexMap<String, Option<Flags>>,
) -> Result<Vec<(&'a str, &'a Flag)>, AllocError>
    ensures entries { IfOk result (λ v. lent_view v.items ≡ by_key (all_entries (entries_view documents.now.entries))) }
    ensures floats { IfOk result (λ v. lent_floats v.items ≡ merged_marks (entries_floats documents.now.entries)) }
{
    let mut chosen = BTreeMap::new(alloc);
    for document in documents.values() {
        if let Some(flags) = document {
            choose(&mut chosen, flags)?;
        }
    }
    in_order(alloc, chosen)
}

/// What is chosen, as a list in the order of its keys.
fn in_order<'a>(
    alloc: Global,
    chosen: BTreeMap<&'a str, &'a Flag>,
) -> Result<Vec<(&'a str, &'a Flag)>, AllocError>
    ensures { IfOk result (λ v. v.items ≡ chosen.entry.entries) }
{
    chosen.into_iter().collect(alloc)
}

/// Puts each entry of a document in the place of the one that its key has.
fn choose<'a>(chosen: &mut BTreeMap<&'a str, &'a Flag>, flags: &'a Flags) -> Result<(), AllocError>
    ensures entries { OnOk result (lent_view chosen.new.entries ≡ fold with_entry (lent_view chosen.old.entries) (flags_view flags.now)) }
    ensures floats { OnOk result (lent_floats chosen.new.entries ≡ fold with_mark (lent_floats chosen.old.entries) (floats_view flags.now)) }
{
    for i in 0..flags.len() {
        let (key, flag) = flags.entry(i);
        choose_entry(chosen, key, flag)?;
    }
    Ok(())
}

/// Puts an entry in the place of the one that its key has.
fn choose_entry<'a>(
    chosen: &mut BTreeMap<&'a str, &'a Flag>,
    key: &'a str,
    flag: &'a Flag,
) -> Result<(), AllocError>
    ensures entry { OnOk result (lent_view chosen.new.entries ≡ with_entry (lent_view chosen.old.entries) (key.now, flag_view flag.now)) }
    ensures floats { OnOk result (lent_floats chosen.new.entries ≡ with_mark (lent_floats chosen.old.entries) (key.now, floats_of flag.now)) }
{
    chosen.insert(key, flag)?;
    Ok(())
}
