//! The way to a site in a targeting's written form.
ghost use Rattle.std.specs.Prelude.{◌≡◌, drop, IfOk};
ghost use Rattle.flag_text.specs.View.{items_view, members_view, view};
ghost use Rattle.kept_document.specs.Seeking.{buckets_from, find_site, find_in_items, find_in_member, find_in_members, of_operation, under};
ghost use Rattle.text_spans.specs.View.{step_of};
ghost use Rattle.kept_document.specs.View.{sought_view};

use flag_text::Tree;
use logic_ast::is_fractional;
use std::alloc::{AllocError, Global};
use text_spans::Step;

/// What is known of a site once a tree was gone through for it.
#[derive(Drop)]
pub(crate) enum Sought<'a> {
    /// It comes so many sites later.
    Later(usize),
    /// It is here: the way to its arguments, the last step first, and how many of them stand before its buckets.
    Here(Vec<Step<'a>>, usize),
}

/// Goes through the written form of an expression to site `left`, in preorder from 0.
#[cycle(find)]
pub(crate) fn find_site<'a>(
    alloc: Global,
    left: usize,
    tree: &'a Tree,
) -> Result<Sought<'a>, AllocError>
    ensures { IfOk result (λ s. sought_view s ≡ find_site left (view tree.now)) }
{
    match tree {
        Tree::List(items) => find_in_items(alloc, left, items.as_slice()),
        Tree::Object(members) => find_in_members(alloc, left, members.as_slice()),
        _ => Ok(Sought::Later(left)),
    }
}

/// The same of an object, which is an operation where it has one member, and else a literal.
#[cycle(find)]
fn find_in_members<'a>(
    alloc: Global,
    left: usize,
    members: &'a [(String, Tree)],
) -> Result<Sought<'a>, AllocError>
    ensures { IfOk result (λ s. sought_view s ≡ find_in_members left (members_view members.now)) }
{
    match members {
        [] => Ok(Sought::Later(left)),
        [(name, argument)] => find_in_member(alloc, left, name.as_str(), argument),
        [_, _, ..] => Ok(Sought::Later(left)),
    }
}

/// The same of an operation, whose arguments stand in a list.
#[cycle(find)]
fn find_in_member<'a>(
    alloc: Global,
    left: usize,
    name: &'a str,
    argument: &'a Tree,
) -> Result<Sought<'a>, AllocError>
    ensures { IfOk result (λ s. sought_view s ≡ find_in_member left name.now (view argument.now)) }
{
    match argument {
        Tree::List(arguments) => find_in_operation(alloc, left, name, arguments.as_slice()),
        _ => Ok(Sought::Later(left)),
    }
}

/// The same of an operation on these arguments.
#[cycle(find)]
fn find_in_operation<'a>(
    alloc: Global,
    left: usize,
    name: &'a str,
    arguments: &'a [Tree],
) -> Result<Sought<'a>, AllocError>
    ensures { IfOk result (λ s. sought_view s ≡ of_operation left name.now (items_view arguments.now) (λ m. find_in_items 0 m (items_view arguments.now))) }
{
    if !is_fractional(name) {
        return under(Step::Name(name), find_in_items(alloc, left, arguments)?);
    }
    if left > 0 {
        return under(Step::Name(name), find_in_items(alloc, left - 1, arguments)?);
    }
    under(
        Step::Name(name),
        Sought::Here(Vec::new(alloc), buckets_from(arguments)),
    )
}

/// How many arguments of a site stand before its buckets: the first, unless it is a list.
fn buckets_from(arguments: &[Tree]) -> usize
    ensures { result ≡ buckets_from (items_view arguments.now) }
{
    match arguments.first() {
        None => 0,
        Some(Tree::List(_)) => 0,
        Some(_) => 1,
    }
}

/// The same of items.
#[cycle(find)]
fn find_in_items<'a>(
    alloc: Global,
    left: usize,
    items: &'a [Tree],
) -> Result<Sought<'a>, AllocError>
    ensures { IfOk result (λ s. sought_view s ≡ find_in_items 0 left (items_view items.now)) }
{
    let mut later = left;
    for (index, item) in items.iter().enumerate() {
        match find_site(alloc, later, item)? {
            Sought::Later(more) => later = more,
            Sought::Here(steps, front) => {
                return under(Step::Index(index), Sought::Here(steps, front));
            }
        }
    }
    Ok(Sought::Later(later))
}

/// The same, behind one more step.
fn under<'a>(step: Step<'a>, sought: Sought<'a>) -> Result<Sought<'a>, AllocError>
    ensures { IfOk result (λ s. sought_view s ≡ under (step_of step.entry) (sought_view sought.entry)) }
{
    match sought {
        Sought::Later(left) => Ok(Sought::Later(left)),
        Sought::Here(mut steps, front) => {
            steps.push(step)?;
            Ok(Sought::Here(steps, front))
        }
    }
}
