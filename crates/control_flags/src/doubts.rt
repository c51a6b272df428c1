//! What is doubted of flags.
ghost use Rattle.std.specs.Prelude.{◌≡◌, ◌++◌, IfOk, OnOk, map, string_bytes};
ghost use Rattle.std.specs.List.{flat_map};
ghost use Rattle.flag_defs.specs.Flag.{flag_view};
ghost use Rattle.flag_defs.specs.Flags.{flags_view};
ghost use Rattle.control_flags.specs.Doubts.{doubt_rows, doubts_text, row_if};

use crate::joined::{joined, push_pair};
use flag_defs::{Flag, Flags};
use flag_doubts::{Doubt, doubts_of};
use flag_text::Tree;
use std::alloc::{AllocError, Global};

/// The doubts of flags by their targetings, as lists of a key and the doubt's name, in the order of the keys.
pub(crate) fn doubts_text(alloc: Global, flags: &Flags) -> Result<String, AllocError>
    ensures { IfOk result (λ s. string_bytes s ≡ doubts_text (flags_view flags.now)) }
{
    let rows = doubt_rows(alloc, flags)?;
    joined(alloc, rows.as_slice())
}

fn doubt_rows(alloc: Global, flags: &Flags) -> Result<Vec<String>, AllocError>
    ensures { IfOk result (λ v. map string_bytes v.items ≡ flat_map doubt_rows (flags_view flags.now)) }
{
    let mut rows = Vec::new(alloc);
    for i in 0..flags.len() {
        let (key, flag) = flags.at(i);
        push_doubts(alloc, &mut rows, key, flag)?;
    }
    Ok(rows)
}

/// Adds the rows of a flag.
fn push_doubts(
    alloc: Global,
    rows: &mut Vec<String>,
    key: &str,
    flag: &Flag,
) -> Result<(), AllocError>
    ensures { OnOk result (map string_bytes rows.new.items ≡ map string_bytes rows.old.items ++ doubt_rows (key.now, flag_view flag.now)) }
{
    // Of its members nothing is told here.
    let no_members = Tree::Null;
    let doubts = doubts_of(&no_members, flag);
    push_if(alloc, rows, doubts.weight, key, Doubt::Weight)?;
    push_if(alloc, rows, doubts.variant, key, Doubt::Variant)?;
    push_if(alloc, rows, doubts.never, key, Doubt::Never)
}

/// Adds the row of a doubt, where there is reason for it.
fn push_if(
    alloc: Global,
    rows: &mut Vec<String>,
    is: bool,
    key: &str,
    doubt: Doubt,
) -> Result<(), AllocError>
    ensures { OnOk result (map string_bytes rows.new.items ≡ map string_bytes rows.old.items ++ row_if is key.now doubt) }
{
    if is {
        push_pair(alloc, rows, key, doubt.name())
    } else {
        Ok(())
    }
}
