//! Which numbers are whole.
ghost use Rattle.std.specs.Prelude.{◌≡◌};
ghost use Rattle.json.specs.Value.{items_view, members_view, value_view};
ghost use Rattle.spelled_numbers.specs.Floats.{has_whole_numbers, is_whole_number, items_have_whole_numbers, members_have_whole_numbers};

use flag_text::{Tree, number_tree};
use json::Value;

/// Whether the reader of documents has the number as a whole one: so it has `5`, and neither `5.0` nor `1e3`.
fn is_whole_number(text: &str) -> bool
    ensures { result ≡ is_whole_number text.now }
{
    match number_tree(text) {
        Some(tree) => tree.as_whole().is_some(),
        None => false,
    }
}

/// Whether each number in the value is whole.
#[cycle(whole)]
pub(crate) fn has_whole_numbers(value: &Value<'_>) -> bool
    ensures { result ≡ has_whole_numbers (value_view value.now) }
{
    match value {
        Value::Null | Value::Bool(_) | Value::String(_) => true,
        Value::Number(text) => is_whole_number(text),
        Value::Array(items) => items_have_whole_numbers(items),
        Value::Object(members) => members_have_whole_numbers(members),
    }
}

#[cycle(whole)]
fn items_have_whole_numbers(items: &Vec<Value<'_>>) -> bool
    ensures { result ≡ items_have_whole_numbers (items_view items.now.items) }
{
    for item in items {
        if !has_whole_numbers(item) {
            return false;
        }
    }
    true
}

#[cycle(whole)]
fn members_have_whole_numbers(members: &Vec<(&str, Value<'_>)>) -> bool
    ensures { result ≡ members_have_whole_numbers (members_view members.now.items) }
{
    for (_, member) in members {
        if !has_whole_numbers(member) {
            return false;
        }
    }
    true
}
