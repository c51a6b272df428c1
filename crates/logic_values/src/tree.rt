//! Values as trees of their own.
ghost use Rattle.std.specs.Prelude.{◌≡◌, IfOk, OnOk, map, codes, string_bytes};
ghost use Rattle.flag_text.specs.Shape.{object, member, Members};
ghost use Rattle.flag_text.specs.View.{view, members_view};
ghost use Rattle.logic_values.specs.Objects.{reduce_scope, with_flagd};
ghost use Rattle.logic_values.specs.Views.{value_view, before};

use crate::value::Value;
use flag_text::Tree;
use std::alloc::{AllocError, Global};
use std::cmp::Ordering;

/// The value as a tree.
#[cycle(tree)]
pub(crate) fn tree_of(alloc: Global, value: Value) -> Result<Tree, AllocError>
    ensures { IfOk result (λ t. view t ≡ value_view value.entry) }
{
    match value {
        Value::Lent(tree) => tree.copy(alloc),
        Value::Given(part) => part.tree.copy(alloc),
        Value::Name(name) => Ok(Tree::Text(String::from_str(alloc, name)?)),
        Value::Null => Ok(Tree::Null),
        Value::Bool(b) => Ok(Tree::Bool(b)),
        Value::Whole(n) => Ok(Tree::Whole(n)),
        Value::Text(text) => Ok(Tree::Text(text)),
        Value::Items(items) => Ok(Tree::List(trees_of(alloc, items)?)),
        Value::Context(at) => root(alloc, at.members, at.flagd),
        Value::Fold(so_far, current) => {
            let so_far = tree_of(alloc, Box::into_inner(so_far))?;
            let current = tree_of(alloc, Box::into_inner(current))?;
            fold(alloc, so_far, current)
        }
    }
}

#[cycle(tree)]
fn trees_of(alloc: Global, values: Vec<Value>) -> Result<Vec<Tree>, AllocError>
    ensures { IfOk result (λ v. map view v.items ≡ map value_view values.entry.items) }
{
    let mut trees = Vec::with_capacity(alloc, values.len())?;
    for value in values {
        trees.push(tree_of(alloc, value)?)?;
    }
    Ok(trees)
}

fn fold(alloc: Global, so_far: Tree, current: Tree) -> Result<Tree, AllocError>
    ensures { IfOk result (λ t. view t ≡ reduce_scope (view so_far) (view current)) }
{
    let mut members = Vec::with_capacity(alloc, 2)?;
    let name = String::from_str(alloc, "accumulator")?;
    members.push((name, so_far))?;
    let name = String::from_str(alloc, "current")?;
    members.push((name, current))?;
    Ok(Tree::Object(members))
}

// The context with `$flagd` in its place by name.
fn root(alloc: Global, members: &[(String, Tree)], flagd: &Tree) -> Result<Tree, AllocError>
    ensures { IfOk result (λ t. view t ≡ with_flagd (view flagd.now) (object (members_view members.now))) }
{
    let mut all = Vec::with_capacity(alloc, members.len())?;
    for i in 0..members.len() {
        let (key, member) = &members[i];
        match "$flagd".cmp(key.as_str()) {
            Ordering::Greater => push_copy(&mut all, alloc, key, member)?,
            Ordering::Equal => {
                push_flagd(&mut all, alloc, flagd)?;
                push_copies(&mut all, alloc, &members[i + 1..])?;
                return Ok(Tree::Object(all));
            }
            Ordering::Less => {
                push_flagd(&mut all, alloc, flagd)?;
                push_copies(&mut all, alloc, &members[i..])?;
                return Ok(Tree::Object(all));
            }
        }
    }
    push_flagd(&mut all, alloc, flagd)?;
    Ok(Tree::Object(all))
}

fn push_copy(
    all: &mut Vec<(String, Tree)>,
    alloc: Global,
    key: &String,
    value: &Tree,
) -> Result<(), AllocError>
    ensures { OnOk result ((ms : Members) → before all.new.items ms ≡ before all.old.items (member (string_bytes key.now) (view value.now) ms)) }
{
    let name = key.clone()?;
    all.push((name, value.copy(alloc)?))?;
    Ok(())
}

fn push_flagd(all: &mut Vec<(String, Tree)>, alloc: Global, flagd: &Tree) -> Result<(), AllocError>
    ensures { OnOk result ((ms : Members) → before all.new.items ms ≡ before all.old.items (member (codes "$flagd") (view flagd.now) ms)) }
{
    let name = String::from_str(alloc, "$flagd")?;
    all.push((name, flagd.copy(alloc)?))?;
    Ok(())
}

fn push_copies(
    all: &mut Vec<(String, Tree)>,
    alloc: Global,
    members: &[(String, Tree)],
) -> Result<(), AllocError>
    ensures { OnOk result (members_view all.new.items ≡ before all.old.items (members_view members.now)) }
{
    for (key, member) in members {
        push_copy(all, alloc, key, member)?;
    }
    Ok(())
}
