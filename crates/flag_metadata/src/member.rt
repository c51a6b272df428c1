//! Members of metadata.
ghost use Rattle.std.specs.Prelude.{◌≡◌, IfOk, None, Some, codes, if◌then◌else◌, option_map, string_bytes};
ghost use Rattle.json.specs.Value.{members_view, value_view};
ghost use Rattle.flag_text.specs.Printing.{text_of};
ghost use Rattle.flag_text.specs.Shape.{text};
ghost use Rattle.flag_metadata.specs.Document.{in_metadata, own_entries};
ghost use Rattle.flag_metadata.specs.Spelled.{spelled, spelling};
ghost use Rattle.flag_metadata.specs.View.{entries_view};

use flag_text::push_string;
use json::Value;
use std::alloc::{AllocError, Global};

/// A member of metadata: its name, and the JSON text of its value, which is a boolean, a number as it is spelled, or a text.
#[derive(Drop)]
pub struct Member {
    pub(crate) name: String,
    pub(crate) spelling: String,
}

/// The members of the metadata of a document or of a flag; None where it is no object, or a value may not stand there.
pub(crate) fn own_members(
    alloc: Global,
    value: &Value<'_>,
) -> Result<Option<Vec<Member>>, AllocError>
    ensures { IfOk result (λ found. option_map (λ v. entries_view v.items) found ≡ own_entries (value_view value.now)) }
{
    match value.get("metadata") {
        None => Ok(Some(Vec::new(alloc))),
        Some(metadata) => members_in(alloc, metadata),
    }
}

/// The members of metadata that are there.
fn members_in(alloc: Global, metadata: &Value<'_>) -> Result<Option<Vec<Member>>, AllocError>
    ensures { IfOk result (λ found. option_map (λ v. entries_view v.items) found ≡ in_metadata (Some (value_view metadata.now))) }
{
    match metadata {
        Value::Object(members) => spelled(alloc, members),
        _ => Ok(None),
    }
}

/// The members of an object, where each value may stand in metadata.
fn spelled(
    alloc: Global,
    members: &Vec<(&str, Value<'_>)>,
) -> Result<Option<Vec<Member>>, AllocError>
    ensures { IfOk result (λ found. option_map (λ v. entries_view v.items) found ≡ spelled (members_view members.now.items)) }
{
    let mut found = Vec::with_capacity(alloc, members.len())?;
    for (name, value) in members {
        let Some(spelling) = spelling_of(alloc, value)? else {
            return Ok(None);
        };
        found.push(Member {
            name: String::from_str(alloc, name)?,
            spelling,
        })?;
    }
    Ok(Some(found))
}

/// The text of a boolean, a number or a text.
fn spelling_of(alloc: Global, value: &Value<'_>) -> Result<Option<String>, AllocError>
    ensures { IfOk result (λ found. option_map string_bytes found ≡ spelling (value_view value.now)) }
{
    match value {
        Value::Bool(holds) => Ok(Some(String::from_str(alloc, bool_text(*holds))?)),
        Value::Number(text) => Ok(Some(String::from_str(alloc, text)?)),
        Value::String(text) => Ok(Some(quoted(alloc, text)?)),
        Value::Null | Value::Array(_) | Value::Object(_) => Ok(None),
    }
}

fn bool_text(holds: bool) -> &'static str
    ensures { result.now ≡ (if holds then codes "true" else codes "false") }
{
    if holds { "true" } else { "false" }
}

/// The JSON text of a text.
fn quoted(alloc: Global, content: &str) -> Result<String, AllocError>
    ensures { IfOk result (λ s. string_bytes s ≡ text_of (text content.now)) }
{
    let mut text = String::with_capacity(alloc, content.len())?;
    push_string(alloc, &mut text, content)?;
    Ok(text)
}
