//! Trees with their references replaced.
ghost use Rattle.std.specs.Prelude.{IfOk, OnOk};
ghost use Rattle.flag_text.specs.View.{view, items_view, members_view};
ghost use Rattle.flag_references.specs.Inlining.{IsInlined};
ghost use Rattle.flag_references.specs.Forms.{HasForm, ItemsHaveForms, MembersHaveForms, AreInlined, MembersAreInlined};

use crate::table::Evaluators;
use flag_text::Tree;
use std::alloc::{AllocError, Global};
use std::mem;

/// Replaces the references in a tree, which has a form of at most so many levels. What is no reference stays where it is, so
/// that memory is taken only for what stands in place of references. Where it runs out, the tree is anything. It takes time
/// linear in the form, and recurses no deeper than its levels.
#[cycle(expand)]
pub fn expand<'a>(
    alloc: Global,
    tree: &mut Tree,
    evaluators: &Evaluators<'a>,
    most: usize,
) -> Result<(), AllocError>
    requires { HasForm (members_view evaluators.now) most (view tree.old) }
    ensures { OnOk result (IsInlined (members_view evaluators.now) (view tree.old) (view tree.new)) }
{
    if let Some(end) = evaluators.referred_by(tree) {
        *tree = expanded(alloc, end, evaluators, most)?;
        return Ok(());
    }
    match mem::replace(tree, Tree::Null) {
        Tree::List(mut items) => {
            expand_items(alloc, &mut items, evaluators, most - 1)?;
            *tree = Tree::List(items);
        }
        Tree::Object(mut members) => {
            expand_members(alloc, &mut members, evaluators, most - 1)?;
            *tree = Tree::Object(members);
        }
        scalar => *tree = scalar,
    }
    Ok(())
}

#[cycle(expand)]
fn expand_items<'a>(
    alloc: Global,
    items: &mut Vec<Tree>,
    evaluators: &Evaluators<'a>,
    most: usize,
) -> Result<(), AllocError>
    requires { ItemsHaveForms (members_view evaluators.now) most (items_view items.old.items) }
    ensures { OnOk result (AreInlined (members_view evaluators.now) (items_view items.old.items) (items_view items.new.items)) }
{
    for item in items.iter_mut() {
        expand(alloc, item, evaluators, most)?;
    }
    Ok(())
}

#[cycle(expand)]
fn expand_members<'a>(
    alloc: Global,
    members: &mut Vec<(String, Tree)>,
    evaluators: &Evaluators<'a>,
    most: usize,
) -> Result<(), AllocError>
    requires { MembersHaveForms (members_view evaluators.now) most (members_view members.old.items) }
    ensures { OnOk result (MembersAreInlined (members_view evaluators.now) (members_view members.old.items) (members_view members.new.items)) }
{
    for member in members.iter_mut() {
        expand(alloc, &mut member.1, evaluators, most)?;
    }
    Ok(())
}

/// The inlined form of a tree that has one of at most so many levels. It takes time linear in the form, and recurses no
/// deeper than its levels: a reference costs none.
#[cycle(expanded)]
fn expanded<'a>(
    alloc: Global,
    tree: &'a Tree,
    evaluators: &Evaluators<'a>,
    most: usize,
) -> Result<Tree, AllocError>
    requires { HasForm (members_view evaluators.now) most (view tree.now) }
    ensures { IfOk result (λ t. IsInlined (members_view evaluators.now) (view tree.now) (view t)) }
{
    let end = evaluators.end_of(tree);
    match end {
        Tree::List(items) => {
            let forms = expanded_items(alloc, items, evaluators, most - 1)?;
            Ok(Tree::List(forms))
        }
        Tree::Object(members) => {
            let forms = expanded_members(alloc, members, evaluators, most - 1)?;
            Ok(Tree::Object(forms))
        }
        _ => end.copy(alloc),
    }
}

#[cycle(expanded)]
fn expanded_items<'a>(
    alloc: Global,
    items: &'a Vec<Tree>,
    evaluators: &Evaluators<'a>,
    most: usize,
) -> Result<Vec<Tree>, AllocError>
    requires { ItemsHaveForms (members_view evaluators.now) most (items_view items.now.items) }
    ensures { IfOk result (λ v. AreInlined (members_view evaluators.now) (items_view items.now.items) (items_view v.items)) }
{
    let mut forms = Vec::with_capacity(alloc, items.len())?;
    for item in items {
        let form = expanded(alloc, item, evaluators, most)?;
        forms.push(form)?;
    }
    Ok(forms)
}

#[cycle(expanded)]
fn expanded_members<'a>(
    alloc: Global,
    members: &'a Vec<(String, Tree)>,
    evaluators: &Evaluators<'a>,
    most: usize,
) -> Result<Vec<(String, Tree)>, AllocError>
    requires { MembersHaveForms (members_view evaluators.now) most (members_view members.now.items) }
    ensures { IfOk result (λ v. MembersAreInlined (members_view evaluators.now) (members_view members.now.items) (members_view v.items)) }
{
    let mut forms = Vec::with_capacity(alloc, members.len())?;
    for (name, member) in members {
        let form = expanded(alloc, member, evaluators, most)?;
        forms.push((name.clone()?, form))?;
    }
    Ok(forms)
}
