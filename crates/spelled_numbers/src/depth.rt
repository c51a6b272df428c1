//! How deep variants nest.
ghost use Rattle.std.specs.Prelude.{◌≤◌, ◌↔◌, IsTrue};
ghost use Rattle.json.specs.Tree.{depth, items_depth, members_depth};
ghost use Rattle.json.specs.Value.{items_view, members_view, value_view};

use json::Value;

/// Whether lists and objects in the value nest at most so deep.
#[cycle(fits)]
fn fits(value: &Value<'_>, most: usize) -> bool
    ensures { IsTrue result ↔ (depth (value_view value.now) ≤ most) }
{
    match value {
        Value::Array(items) => most > 0 && items_fit(items, most - 1),
        Value::Object(members) => most > 0 && members_fit(members, most - 1),
        _ => true,
    }
}

#[cycle(fits)]
fn items_fit(items: &Vec<Value<'_>>, most: usize) -> bool
    ensures { IsTrue result ↔ (items_depth (items_view items.now.items) ≤ most) }
{
    for item in items {
        if !fits(item, most) {
            return false;
        }
    }
    true
}

/// The same of each member.
#[cycle(fits)]
pub(crate) fn members_fit(members: &Vec<(&str, Value<'_>)>, most: usize) -> bool
    ensures { IsTrue result ↔ (members_depth (members_view members.now.items) ≤ most) }
{
    for (_, member) in members {
        if !fits(member, most) {
            return false;
        }
    }
    true
}
