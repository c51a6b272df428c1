//! The values of an evaluation.
ghost use Rattle.std.specs.Prelude.{◌≡◌, true, IfOk, map};
ghost use Rattle.flag_text.specs.Shape.{items_are_tidy};
ghost use Rattle.flag_text.specs.View.{view, items_view};
ghost use Rattle.logic_values.specs.Lists.{items_in};
ghost use Rattle.logic_values.specs.Objects.{reduce_scope};
ghost use Rattle.logic_values.specs.Views.{value_view};

use crate::part::Part;
use crate::root::Root;
use crate::tree::tree_of;
use flag_text::Tree;
use std::alloc::{AllocError, Global};

/// A value: lent by the expression or the context, or made by an operator. What is made lends what it holds, so that the names
/// of an object are not copied.
#[derive(Drop)]
pub enum Value<'a> {
    /// A value that the expression holds, or the names that a context gives `missing`.
    Lent(&'a Tree),
    /// A value that the context holds.
    Given(Part<'a>),
    /// A text that the expression holds: the name of a bucket.
    Name(&'a str),
    /// Null.
    Null,
    /// A boolean that was made.
    Bool(bool),
    /// A whole number that was made.
    Whole(i64),
    /// A text that was made.
    Text(String),
    /// A list that was made.
    Items(Vec<Value<'a>>),
    /// The scope of the whole expression.
    Context(Root<'a>),
    /// The scope of the body of `reduce`: the value so far and the item.
    Fold(Box<Value<'a>>, Box<Value<'a>>),
}

impl Default for Value<'_> {
    fn default() -> Self {
        Value::Null
    }
}

impl Value<'_> {
    /// The value as a tree of its own: what is lent is copied.
    pub fn into_tree(self, alloc: Global) -> Result<Tree, AllocError>
        ensures { IfOk result (λ t. view t ≡ value_view self.entry) }
    {
        tree_of(alloc, self)
    }
}

/// The value once more: what is lent stays lent.
#[cycle(copy)]
pub fn copy<'a>(alloc: Global, value: &Value<'a>) -> Result<Value<'a>, AllocError>
    ensures { IfOk result (λ v. value_view v ≡ value_view value.now) }
{
    match value {
        Value::Lent(tree) => Ok(Value::Lent(tree)),
        Value::Given(part) => Ok(Value::Given(*part)),
        Value::Name(name) => Ok(Value::Name(name)),
        Value::Null => Ok(Value::Null),
        Value::Bool(b) => Ok(Value::Bool(*b)),
        Value::Whole(n) => Ok(Value::Whole(*n)),
        Value::Text(text) => Ok(Value::Text(text.clone()?)),
        Value::Items(items) => Ok(Value::Items(copies(alloc, items)?)),
        Value::Context(root) => Ok(Value::Context(*root)),
        Value::Fold(so_far, current) => {
            let so_far = copy(alloc, so_far)?;
            let current = copy(alloc, current)?;
            fold(alloc, so_far, current)
        }
    }
}

#[cycle(copy)]
fn copies<'a>(alloc: Global, items: &Vec<Value<'a>>) -> Result<Vec<Value<'a>>, AllocError>
    ensures { IfOk result (λ v. map value_view v.items ≡ map value_view items.now.items) }
{
    let mut copies = Vec::with_capacity(alloc, items.len())?;
    for item in items {
        copies.push(copy(alloc, item)?)?;
    }
    Ok(copies)
}

/// The scope of the body of `reduce` as a value.
pub fn fold<'a>(
    alloc: Global,
    so_far: Value<'a>,
    current: Value<'a>,
) -> Result<Value<'a>, AllocError>
    ensures { IfOk result (λ v. value_view v ≡ reduce_scope (value_view so_far.entry) (value_view current.entry)) }
{
    let so_far = Box::new(alloc, so_far)?;
    Ok(Value::Fold(so_far, Box::new(alloc, current)?))
}

/// What `map` and the like go over: a list's items, of another value nothing.
#[tactic(auto, using(crate::proofs::Surfaces::in_items))]
pub fn items_of<'a>(alloc: Global, value: Value<'a>) -> Result<Vec<Value<'a>>, AllocError>
    ensures { IfOk result (λ v. map value_view v.items ≡ items_in (value_view value.entry)) }
{
    match value {
        Value::Items(items) => Ok(items),
        Value::Lent(tree) => lent_items(alloc, tree),
        Value::Given(part) => given_items(alloc, part),
        Value::Name(_) => Ok(Vec::new(alloc)),
        Value::Null => Ok(Vec::new(alloc)),
        Value::Bool(_) => Ok(Vec::new(alloc)),
        Value::Whole(_) => Ok(Vec::new(alloc)),
        Value::Text(_) => Ok(Vec::new(alloc)),
        Value::Context(_) => Ok(Vec::new(alloc)),
        Value::Fold(..) => Ok(Vec::new(alloc)),
    }
}

#[tactic(auto, using(crate::proofs::Items::items_in_list))]
fn lent_items<'a>(alloc: Global, tree: &'a Tree) -> Result<Vec<Value<'a>>, AllocError>
    ensures { IfOk result (λ v. map value_view v.items ≡ items_in (view tree.now)) }
{
    match tree {
        Tree::List(items) => lent(alloc, items.as_slice()),
        _ => Ok(Vec::new(alloc)),
    }
}

fn lent<'a>(alloc: Global, trees: &'a [Tree]) -> Result<Vec<Value<'a>>, AllocError>
    ensures { IfOk result (λ v. map value_view v.items ≡ map view trees.now) }
{
    let mut values = Vec::with_capacity(alloc, trees.len())?;
    for tree in trees {
        values.push(Value::Lent(tree))?;
    }
    Ok(values)
}

fn given_items<'a>(alloc: Global, part: Part<'a>) -> Result<Vec<Value<'a>>, AllocError>
    ensures { IfOk result (λ v. map value_view v.items ≡ items_in (view part.entry.tree.now)) }
{
    match part.tree {
        Tree::List(items) => given(alloc, items.as_slice()),
        _ => Ok(Vec::new(alloc)),
    }
}

fn given<'a>(alloc: Global, trees: &'a [Tree]) -> Result<Vec<Value<'a>>, AllocError>
    requires { items_are_tidy (items_view trees.now) ≡ true }
    ensures { IfOk result (λ v. map value_view v.items ≡ map view trees.now) }
{
    let mut values = Vec::with_capacity(alloc, trees.len())?;
    for tree in trees {
        values.push(Value::Given(Part { tree }))?;
    }
    Ok(values)
}
