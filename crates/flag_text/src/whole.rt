//! Whether a tree may be printed, and its copy.
ghost use Rattle.std.specs.Prelude.{◌≡◌, ◌<◌, length, drop, IfOk};
ghost use Rattle.flag_text.specs.Shape.{comes_first, is_whole, items_are_whole, members_are_whole};
ghost use Rattle.flag_text.specs.View.{view, items_view, members_view};

use crate::tree::{Tree, is_in_range};
use std::alloc::{AllocError, Global};

impl Tree {
    /// Whether the tree has no `Other`, each number is in the range of whole numbers, and the names of
    /// each object are sorted and distinct. Such a tree may be printed.
    pub fn is_whole(&self) -> bool
        ensures { result ≡ is_whole (view self.now) }
    {
        is_whole(self)
    }

    /// An equal tree, in memory of its own. It fails only where memory runs out.
    pub fn copy(&self, alloc: Global) -> Result<Tree, AllocError>
        ensures { IfOk result (λ t. view t ≡ view self.now) }
    {
        copy(alloc, self)
    }
}

#[cycle(whole)]
fn is_whole(tree: &Tree) -> bool
    ensures { result ≡ is_whole (view tree.now) }
{
    match tree {
        Tree::Null | Tree::Bool(_) | Tree::Text(_) => true,
        Tree::Whole(n) => is_in_range(*n),
        Tree::Other => false,
        Tree::List(items) => items_are_whole(items),
        Tree::Object(members) => members_are_whole(members),
    }
}

#[cycle(whole)]
fn items_are_whole(items: &Vec<Tree>) -> bool
    ensures { result ≡ items_are_whole (items_view items.now.items) }
{
    for item in items {
        if !is_whole(item) {
            return false;
        }
    }
    true
}

#[cycle(whole)]
fn members_are_whole(members: &Vec<(String, Tree)>) -> bool
    ensures { result ≡ members_are_whole (members_view members.now.items) }
{
    for i in 0..members.len() {
        let (name, member) = &members[i];
        if !comes_first(name.as_str(), &members[i + 1..]) || !is_whole(member) {
            return false;
        }
    }
    true
}

fn comes_first(name: &str, members: &[(String, Tree)]) -> bool
    ensures { result ≡ comes_first name.now (members_view members.now) }
{
    match members {
        [] => true,
        [(next, _), ..] => name < next.as_str(),
    }
}

#[cycle(copy)]
fn copy(alloc: Global, tree: &Tree) -> Result<Tree, AllocError>
    ensures { IfOk result (λ t. view t ≡ view tree.now) }
{
    match tree {
        Tree::Null => Ok(Tree::Null),
        Tree::Bool(b) => Ok(Tree::Bool(*b)),
        Tree::Whole(n) => Ok(Tree::Whole(*n)),
        Tree::Other => Ok(Tree::Other),
        Tree::Text(text) => Ok(Tree::Text(text.clone()?)),
        Tree::List(items) => Ok(Tree::List(copy_items(alloc, items)?)),
        Tree::Object(members) => Ok(Tree::Object(copy_members(alloc, members)?)),
    }
}

#[cycle(copy)]
fn copy_items(alloc: Global, items: &Vec<Tree>) -> Result<Vec<Tree>, AllocError>
    ensures { IfOk result (λ v. items_view v.items ≡ items_view items.now.items) }
{
    let mut copies = Vec::with_capacity(alloc, items.len())?;
    for item in items {
        copies.push(copy(alloc, item)?)?;
    }
    Ok(copies)
}

#[cycle(copy)]
fn copy_members(
    alloc: Global,
    members: &Vec<(String, Tree)>,
) -> Result<Vec<(String, Tree)>, AllocError>
    ensures { IfOk result (λ v. members_view v.items ≡ members_view members.now.items) }
{
    let mut copies = Vec::with_capacity(alloc, members.len())?;
    for (name, member) in members {
        let name = name.clone()?;
        copies.push((name, copy(alloc, member)?))?;
    }
    Ok(copies)
}
