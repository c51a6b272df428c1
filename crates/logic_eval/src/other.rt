//! Whether a number that is not whole stands in a value.
ghost use Rattle.std.specs.Prelude.{◌≡◌, ◌||◌, codes, false, if◌then◌else◌, map, string_bytes};
ghost use Rattle.std.specs.Str.{bytes_eq};
ghost use Rattle.flag_text.specs.Shape.{has_other, items_have_other, members_have_other, object};
ghost use Rattle.flag_text.specs.View.{view, items_of, items_view, members_view};
ghost use Rattle.logic_eval.specs.Scope.{others_have_other};
ghost use Rattle.logic_values.specs.Objects.{with_flagd};
ghost use Rattle.logic_values.specs.Views.{value_view};

use flag_text::Tree;
use logic_values::{Root, Value};

/// Whether a number that is not whole stands in the value.
#[cycle(value)]
pub(crate) fn has_other(value: &Value) -> bool
    ensures exact { result ≡ has_other (value_view value.now) }
{
    match value {
        Value::Lent(tree) => tree_has_other(tree),
        Value::Given(part) => tree_has_other(part.tree),
        Value::Items(items) => values_have_other(items),
        Value::Context(root) => root_has_other(*root),
        Value::Fold(so_far, current) => has_other(so_far) || has_other(current),
        Value::Name(_) | Value::Null | Value::Bool(_) | Value::Whole(_) | Value::Text(_) => false,
    }
}

#[cycle(value)]
fn values_have_other(values: &Vec<Value>) -> bool
    ensures exact { result ≡ items_have_other (items_of (map value_view values.now.items)) }
{
    for value in values {
        if has_other(value) {
            return true;
        }
    }
    false
}

fn root_has_other(root: Root) -> bool
    ensures exact { result ≡ has_other (with_flagd (view root.entry.flagd.now) (object (members_view root.entry.members.now))) }
{
    tree_has_other(root.flagd) || others_have_other(root.members)
}

// The context's member `$flagd` is no part of the scope.
fn others_have_other(members: &[(String, Tree)]) -> bool
    ensures exact { result ≡ others_have_other (codes "$flagd") (members_view members.now) }
{
    for (name, member) in members {
        if name.as_str() != "$flagd" && tree_has_other(member) {
            return true;
        }
    }
    false
}

#[cycle(tree)]
fn tree_has_other(tree: &Tree) -> bool
    ensures { result ≡ has_other (view tree.now) }
{
    match tree {
        Tree::Other => true,
        Tree::List(items) => items_have_other(items),
        Tree::Object(members) => members_have_other(members),
        _ => false,
    }
}

#[cycle(tree)]
fn items_have_other(items: &Vec<Tree>) -> bool
    ensures { result ≡ items_have_other (items_view items.now.items) }
{
    for item in items {
        if tree_has_other(item) {
            return true;
        }
    }
    false
}

#[cycle(tree)]
fn members_have_other(members: &Vec<(String, Tree)>) -> bool
    ensures { result ≡ members_have_other (members_view members.now.items) }
{
    for (_, member) in members {
        if tree_has_other(member) {
            return true;
        }
    }
    false
}
