//! Lists of values: `merge`, and `in` of a list or a text.
ghost use Rattle.std.specs.Prelude.{◌≡◌, ◌++◌, true, IfOk, OnOk, flat_map, map};
ghost use Rattle.std.specs.List.{list_any};
ghost use Rattle.flag_text.specs.Shape.{items_are_tidy};
ghost use Rattle.flag_text.specs.View.{view, items_view};
ghost use Rattle.logic_values.specs.Comparison.{is_same};
ghost use Rattle.logic_values.specs.Lists.{parts_of, is_in};
ghost use Rattle.logic_values.specs.Views.{seen_view, value_view};

use crate::comparison::is_same;
use crate::part::Part;
use crate::seen::{Seen, seen_tree};
use crate::text::occurs_in;
use crate::value::Value;
use flag_text::Tree;
use smallvec::SmallVec;
use std::alloc::{AllocError, Global};

/// `merge`: one list of what the values hold: the items of a list, any other value as it is.
pub fn merged<'a>(
    alloc: Global,
    values: SmallVec<Value<'a>, 3>,
) -> Result<Vec<Value<'a>>, AllocError>
    ensures { IfOk result (λ v. map value_view v.items ≡ flat_map parts_of (map value_view values.entry.items)) }
{
    let mut items = Vec::new(alloc);
    for value in values {
        push_parts(&mut items, value)?;
    }
    Ok(items)
}

fn push_parts<'a>(items: &mut Vec<Value<'a>>, value: Value<'a>) -> Result<(), AllocError>
    ensures { OnOk result (map value_view items.new.items ≡ map value_view items.old.items ++ parts_of (value_view value.entry)) }
{
    match value {
        Value::Lent(tree) => push_tree(items, tree),
        Value::Given(part) => push_part(items, part),
        Value::Items(parts) => push_values(items, parts),
        _ => {
            items.push(value)?;
            Ok(())
        }
    }
}

fn push_tree<'a>(items: &mut Vec<Value<'a>>, tree: &'a Tree) -> Result<(), AllocError>
    ensures { OnOk result (map value_view items.new.items ≡ map value_view items.old.items ++ parts_of (view tree.now)) }
{
    match tree.as_list() {
        Some(parts) => push_lent(items, parts),
        None => {
            items.push(Value::Lent(tree))?;
            Ok(())
        }
    }
}

fn push_lent<'a>(items: &mut Vec<Value<'a>>, parts: &'a [Tree]) -> Result<(), AllocError>
    ensures { OnOk result (map value_view items.new.items ≡ map value_view items.old.items ++ map view parts.now) }
{
    for part in parts {
        items.push(Value::Lent(part))?;
    }
    Ok(())
}

fn push_part<'a>(items: &mut Vec<Value<'a>>, part: Part<'a>) -> Result<(), AllocError>
    ensures { OnOk result (map value_view items.new.items ≡ map value_view items.old.items ++ parts_of (view part.entry.tree.now)) }
{
    match part.tree.as_list() {
        Some(parts) => push_given(items, parts),
        None => {
            items.push(Value::Given(part))?;
            Ok(())
        }
    }
}

fn push_given<'a>(items: &mut Vec<Value<'a>>, parts: &'a [Tree]) -> Result<(), AllocError>
    requires { items_are_tidy (items_view parts.now) ≡ true }
    ensures { OnOk result (map value_view items.new.items ≡ map value_view items.old.items ++ map view parts.now) }
{
    for tree in parts {
        items.push(Value::Given(Part { tree }))?;
    }
    Ok(())
}

fn push_values<'a>(items: &mut Vec<Value<'a>>, parts: Vec<Value<'a>>) -> Result<(), AllocError>
    ensures { OnOk result (map value_view items.new.items ≡ map value_view items.old.items ++ map value_view parts.entry.items) }
{
    for part in parts {
        items.push(part)?;
    }
    Ok(())
}

/// `in`: an item of the list that is `===` to the value, or a text within a text.
pub fn is_in(value: Seen, whole: Seen) -> bool
    ensures { result ≡ is_in (seen_view value.entry) (seen_view whole.entry) }
{
    match whole {
        Seen::Trees(trees) => is_among_trees(value, trees),
        Seen::Values(items) => is_among(value, items),
        _ => occurs_in(value, whole),
    }
}

fn is_among_trees(value: Seen, trees: &[Tree]) -> bool
    ensures { result ≡ list_any (is_same (seen_view value.entry)) (map view trees.now) }
{
    for tree in trees {
        if is_same(value, seen_tree(tree)) {
            return true;
        }
    }
    false
}

fn is_among(value: Seen, items: &[Value]) -> bool
    ensures { result ≡ list_any (is_same (seen_view value.entry)) (map value_view items.now) }
{
    for item in items {
        if is_same(value, item.seen()) {
            return true;
        }
    }
    false
}
