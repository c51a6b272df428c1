//! The text of metadata.
ghost use Rattle.std.specs.Prelude.{◌≡◌, ◌++◌, IfOk, OnOk, fold, option_map, string_bytes};
ghost use Rattle.flag_metadata.specs.Merged.{if_entries, metadata_text};
ghost use Rattle.flag_metadata.specs.Spelled.{entry_text, object_text, others_text, with_entry};
ghost use Rattle.flag_metadata.specs.View.{entries_view, lent_view};

use crate::member::Member;
use flag_text::push_string;
use std::alloc::{AllocError, Global};
use std::collections::BTreeMap;

/// Adds the text of an object that has the members of a list and then those of another: of one name the last counts.
pub(crate) fn push_members(
    alloc: Global,
    text: &mut String,
    first: &[Member],
    others: &[Member],
) -> Result<(), AllocError>
    ensures { OnOk result (string_bytes text.new ≡ string_bytes text.old ++ metadata_text (entries_view first.now ++ entries_view others.now)) }
{
    if first.is_empty() && others.is_empty() {
        return text.push_str("{}");
    }
    let mut by_name = BTreeMap::new(alloc);
    put_all(&mut by_name, first)?;
    put_all(&mut by_name, others)?;
    push_by_name(alloc, text, by_name)
}

/// Puts each member in the place of another of its name.
pub(crate) fn put_all<'a>(
    by_name: &mut BTreeMap<&'a str, &'a str>,
    members: &'a [Member],
) -> Result<(), AllocError>
    ensures { OnOk result (lent_view by_name.new.entries ≡ fold with_entry (lent_view by_name.old.entries) (entries_view members.now)) }
{
    for member in members {
        put(by_name, member)?;
    }
    Ok(())
}

fn put<'a>(by_name: &mut BTreeMap<&'a str, &'a str>, member: &'a Member) -> Result<(), AllocError>
    ensures { OnOk result (lent_view by_name.new.entries ≡ with_entry (lent_view by_name.old.entries) (string_bytes member.now.name, string_bytes member.now.spelling)) }
{
    by_name.insert(member.name.as_str(), member.spelling.as_str())?;
    Ok(())
}

/// Adds the text of an object with these members.
fn push_by_name<'a>(
    alloc: Global,
    text: &mut String,
    by_name: BTreeMap<&'a str, &'a str>,
) -> Result<(), AllocError>
    ensures { OnOk result (string_bytes text.new ≡ string_bytes text.old ++ object_text (lent_view by_name.entry.entries)) }
{
    let members = in_order(alloc, by_name)?;
    push_object(alloc, text, members.as_slice())
}

/// The members, in the order of their names.
pub(crate) fn in_order<'a>(
    alloc: Global,
    by_name: BTreeMap<&'a str, &'a str>,
) -> Result<Vec<(&'a str, &'a str)>, AllocError>
    ensures { IfOk result (λ v. v.items ≡ by_name.entry.entries) }
{
    by_name.into_iter().collect(alloc)
}

/// The text of an object with these members; None where there are none.
pub(crate) fn object_text(
    alloc: Global,
    members: &[(&str, &str)],
) -> Result<Option<String>, AllocError>
    ensures { IfOk result (λ text. option_map string_bytes text ≡ if_entries (lent_view members.now)) }
{
    match members {
        [] => Ok(None),
        [_, ..] => {
            let mut text = String::new(alloc);
            push_object(alloc, &mut text, members)?;
            Ok(Some(text))
        }
    }
}

fn push_object(alloc: Global, text: &mut String, members: &[(&str, &str)]) -> Result<(), AllocError>
    ensures { OnOk result (string_bytes text.new ≡ string_bytes text.old ++ object_text (lent_view members.now)) }
{
    match members {
        [] => text.push_str("{}"),
        [(name, spelling), others @ ..] => {
            text.push_str("{")?;
            push_member(alloc, text, name, spelling)?;
            push_others(alloc, text, others)
        }
    }
}

fn push_others(alloc: Global, text: &mut String, members: &[(&str, &str)]) -> Result<(), AllocError>
    ensures { OnOk result (string_bytes text.new ≡ string_bytes text.old ++ others_text (lent_view members.now)) }
{
    for (name, spelling) in members {
        text.push_str(",")?;
        push_member(alloc, text, name, spelling)?;
    }
    text.push_str("}")
}

fn push_member(
    alloc: Global,
    text: &mut String,
    name: &str,
    spelling: &str,
) -> Result<(), AllocError>
    ensures { OnOk result (string_bytes text.new ≡ string_bytes text.old ++ entry_text (name.now, spelling.now)) }
{
    push_string(alloc, text, name)?;
    text.push_str(":")?;
    text.push_str(spelling)
}
