//! From a tree to an expression.
ghost use Rattle.std.specs.Prelude.{◌≡◌, ℕ, ◌+◌, ◌<◌, ◌^◌, true, false, None, Ok, IfOk, OnOk, IfSome, IsErrOf, string_bytes};
ghost use Rattle.bucket_core.specs.Reading.{bucket_from as entry_of};
ghost use Rattle.flag_text.specs.Outcome.{GivesUnless};
ghost use Rattle.flag_text.specs.Shape.{is_whole, list, member, no_members};
ghost use Rattle.flag_text.specs.View.{view as tree_view, items_view, members_view};
ghost use Rattle.logic_ast.specs.Expr.{view};
ghost use Rattle.logic_ast.specs.FirstFault.{expression_fault};
ghost use Rattle.logic_ast.specs.Reading.{expression_from, object_from, expressions_from, arguments_from, site_from, by_from, buckets_from, bucket_from, computed_from, reading, refusal};
ghost use Rattle.logic_ast.specs.Sites.{sites, sites_in, sites_in_by, sites_in_buckets, sites_in_bucket};
ghost use Rattle.logic_ast.specs.Size.{full_size, expression_size, is_too_big};
ghost use Rattle.logic_ast.specs.Stripped.{without_literals};
ghost use Rattle.logic_ast.specs.Writing.{written};
ghost use Rattle.logic_ast.specs.View.{node_view, nodes_view, boxed_view, buckets_view, bucket_view};

use crate::check::first_fault;
use crate::expr::Expr;
use crate::fault::LogicFault;
use crate::node::{Bucket, Node};
use crate::operator::{Operator, is_fractional};
use crate::size::is_too_big;
use bucket_core::literal_bucket;
use flag_text::Tree;
use std::alloc::{AllocError, Global};

/// The expression that a tree stands for.
///
/// `TooBig` (above 10,000 nodes or 100 levels, literal buckets left out) comes first, then the first of `UnknownOperator`
/// and `BadArguments` in preorder; none of these takes memory. It takes time linear in the tree, and in one that is too big
/// it stops at the limit. A tree that is not refused is copied: [`into_expr`] moves one that is no longer needed.
///
/// What is counted (`size`) are the nodes and levels of the tree that [`write_expr`](crate::write_expr) writes for the
/// expression without its literal buckets.
pub fn read_expr(alloc: Global, tree: &Tree) -> Result<Expr, LogicFault>
    requires { is_whole (tree_view tree.now) ≡ true }
    ensures exact { GivesUnless LogicFault.WantOfMemory view result (reading (tree_view tree.now)) }
    ensures size { IfOk result (λ e. expression_size (tree_view tree.now) ≡ full_size (written (without_literals (view e)))) }
    ensures too_big { is_too_big (tree_view tree.now) ≡ true → IsErrOf result LogicFault.TooBig }
    ensures faulty { is_too_big (tree_view tree.now) ≡ false → IfSome (expression_fault (tree_view tree.now)) (λ f. IsErrOf result f) }
{
    if let Some(fault) = refusal(tree) {
        return Err(fault);
    }
    let tree = tree.copy(alloc)?;
    Ok(into_expr(alloc, tree)?)
}

/// The expression that a tree stands for, as [`read_expr`] gives it. The condition is that the tree is not refused there. It is
/// consumed: its texts and its literals are moved into the expression, so that memory is taken for the nodes alone.
pub fn into_expr(alloc: Global, tree: Tree) -> Result<Expr, AllocError>
    requires whole { is_whole (tree_view tree) ≡ true }
    requires accepted { refusal (tree_view tree) ≡ None }
    ensures exact { IfOk result (λ e. reading (tree_view tree) ≡ Ok (view e)) }
    ensures size { IfOk result (λ e. expression_size (tree_view tree) ≡ full_size (written (without_literals (view e)))) }
{
    let mut next = 0;
    let root = read_node(alloc, tree, &mut next)?;
    Ok(Expr::of(alloc, root)?)
}

/// Why a tree is refused: it is too big, or it has a fault.
fn refusal(tree: &Tree) -> Option<LogicFault>
    ensures { result ≡ refusal (tree_view tree.now) }
{
    if is_too_big(tree) {
        return Some(LogicFault::TooBig);
    }
    first_fault(tree)
}

// Each function below reads a tree in which nothing is wrong, and consumes it. It numbers its sites from `next` on, and
// leaves the number after theirs there.

#[cycle(read)]
fn read_node(alloc: Global, tree: Tree, next: &mut u32) -> Result<Node, AllocError>
    requires { next.old + sites (expression_from next.old (tree_view tree)) < 2 ^ 32 }
    ensures value { IfOk result (λ x. node_view x ≡ expression_from next.old (tree_view tree)) }
    ensures next { OnOk result (next.new ≡ next.old + sites (expression_from next.old (tree_view tree))) }
{
    match tree {
        Tree::List(items) => Ok(Node::List(read_nodes(alloc, items, next)?)),
        Tree::Object(members) => read_object(alloc, members, next),
        scalar => Ok(Node::Literal(scalar)),
    }
}

/// One member makes an operation, none or several a literal.
#[cycle(read)]
fn read_object(
    alloc: Global,
    members: Vec<(String, Tree)>,
    next: &mut u32,
) -> Result<Node, AllocError>
    requires { next.old + sites (object_from next.old (members_view members.items)) < 2 ^ 32 }
    ensures value { IfOk result (λ x. node_view x ≡ object_from next.old (members_view members.items)) }
    ensures next { OnOk result (next.new ≡ next.old + sites (object_from next.old (members_view members.items))) }
{
    let mut members = members;
    if members.len() > 1 {
        return Ok(Node::Literal(Tree::Object(members)));
    }
    match members.pop() {
        None => Ok(Node::Literal(Tree::Object(members))),
        Some((name, value)) => read_operation(alloc, name.as_str(), value, next),
    }
}

#[cycle(read)]
fn read_operation(
    alloc: Global,
    name: &str,
    value: Tree,
    next: &mut u32,
) -> Result<Node, AllocError>
    requires { next.old + sites (object_from next.old (member name.now (tree_view value) no_members)) < 2 ^ 32 }
    ensures value { IfOk result (λ x. node_view x ≡ object_from next.old (member name.now (tree_view value) no_members)) }
    ensures next { OnOk result (next.new ≡ next.old + sites (object_from next.old (member name.now (tree_view value) no_members))) }
{
    if is_fractional(name) {
        return read_site(alloc, value, next);
    }
    match Operator::named(name) {
        None => Ok(Node::Literal(Tree::Null)),
        Some(operator) => Ok(Node::Operation(operator, read_arguments(alloc, value, next)?)),
    }
}

#[cycle(read)]
fn read_nodes(alloc: Global, items: Vec<Tree>, next: &mut u32) -> Result<Vec<Node>, AllocError>
    requires { next.old + sites_in (expressions_from next.old (items_view items.items)) < 2 ^ 32 }
    ensures value { IfOk result (λ x. nodes_view x.items ≡ expressions_from next.old (items_view items.items)) }
    ensures next { OnOk result (next.new ≡ next.old + sites_in (expressions_from next.old (items_view items.items))) }
{
    let mut nodes = Vec::with_capacity(alloc, items.len())?;
    for item in items {
        nodes.push(read_node(alloc, item, next)?)?;
    }
    Ok(nodes)
}

#[cycle(read)]
fn read_arguments(alloc: Global, value: Tree, next: &mut u32) -> Result<Vec<Node>, AllocError>
    requires { next.old + sites_in (arguments_from next.old (tree_view value)) < 2 ^ 32 }
    ensures value { IfOk result (λ x. nodes_view x.items ≡ arguments_from next.old (tree_view value)) }
    ensures next { OnOk result (next.new ≡ next.old + sites_in (arguments_from next.old (tree_view value))) }
{
    match value {
        Tree::List(items) => read_nodes(alloc, items, next),
        alone => {
            let mut nodes = Vec::with_capacity(alloc, 1)?;
            nodes.push(read_node(alloc, alone, next)?)?;
            Ok(nodes)
        }
    }
}

#[cycle(read)]
fn read_site(alloc: Global, value: Tree, next: &mut u32) -> Result<Node, AllocError>
    requires { next.old + sites (site_from next.old (tree_view value)) < 2 ^ 32 }
    ensures value { IfOk result (λ x. node_view x ≡ site_from next.old (tree_view value)) }
    ensures next { OnOk result (next.new ≡ next.old + sites (site_from next.old (tree_view value))) }
{
    match value {
        Tree::List(items) => read_list(alloc, items, next),
        alone => {
            let site = *next;
            *next += 1;
            let by = Box::new(alloc, read_node(alloc, alone, next)?)?;
            let buckets = Vec::new(alloc);
            Ok(Node::Fractional {
                site,
                by: Some(by),
                buckets,
            })
        }
    }
}

/// The first argument is the bucketing expression, unless it is a list; each list is a bucket.
#[cycle(read)]
fn read_list(alloc: Global, items: Vec<Tree>, next: &mut u32) -> Result<Node, AllocError>
    requires { next.old + sites (site_from next.old (list (items_view items.items))) < 2 ^ 32 }
    ensures value { IfOk result (λ x. node_view x ≡ site_from next.old (list (items_view items.items))) }
    ensures next { OnOk result (next.new ≡ next.old + sites (site_from next.old (list (items_view items.items)))) }
{
    let site = *next;
    *next += 1;
    let mut by = None;
    let mut buckets = Vec::with_capacity(alloc, items.len())?;
    for item in items {
        match item {
            Tree::List(parts) => buckets.push(read_bucket(alloc, parts, next)?)?,
            other if by.is_none() && buckets.is_empty() => {
                by = Some(Box::new(alloc, read_node(alloc, other, next)?)?);
            }
            other => drop(other),
        }
    }
    Ok(Node::Fractional { site, by, buckets })
}

#[cycle(read)]
fn read_bucket(alloc: Global, parts: Vec<Tree>, next: &mut u32) -> Result<Bucket<Node>, AllocError>
    requires { next.old + sites_in_bucket (bucket_from next.old (items_view parts.items)) < 2 ^ 32 }
    ensures value { IfOk result (λ x. bucket_view x ≡ bucket_from next.old (items_view parts.items)) }
    ensures next { OnOk result (next.new ≡ next.old + sites_in_bucket (bucket_from next.old (items_view parts.items))) }
{
    let weight = literal_bucket(parts.as_slice()).map(|(_, weight)| weight as u32);
    match weight {
        Some(weight) => Ok(Bucket::Literal(name_of(alloc, parts), weight)),
        None => read_computed(alloc, parts, next),
    }
}

/// The name of a literal bucket.
fn name_of(alloc: Global, parts: Vec<Tree>) -> String
    ensures { IfSome (entry_of (items_view parts.items)) (λ e. string_bytes result ≡ e.0) }
{
    match parts.into_iter().next() {
        Some(Tree::Text(name)) => name,
        _ => String::new(alloc),
    }
}

#[cycle(read)]
fn read_computed(
    alloc: Global,
    parts: Vec<Tree>,
    next: &mut u32,
) -> Result<Bucket<Node>, AllocError>
    requires { next.old + sites_in_bucket (computed_from next.old (items_view parts.items)) < 2 ^ 32 }
    ensures value { IfOk result (λ x. bucket_view x ≡ computed_from next.old (items_view parts.items)) }
    ensures next { OnOk result (next.new ≡ next.old + sites_in_bucket (computed_from next.old (items_view parts.items))) }
{
    let mut parts = parts.into_iter();
    let Some(name) = parts.next() else {
        return Ok(Bucket::Literal(String::new(alloc), 0));
    };
    let name = read_node(alloc, name, next)?;
    let Some(weight) = parts.next() else {
        return Ok(Bucket::Computed(name, Node::Literal(Tree::Whole(1))));
    };
    let weight = read_node(alloc, weight, next)?;
    Ok(Bucket::Computed(name, weight))
}
