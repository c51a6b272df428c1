//! Whether a tree is too big to be read as an expression.
ghost use Rattle.std.specs.Prelude.{◌≡◌, option_map};
ghost use Rattle.flag_text.specs.View.{view, items_view, members_view};
ghost use Rattle.logic_ast.specs.Size.{around, full_size, items_size, members_size, expression_size, object_size, expressions_size, arguments_size, site_size, buckets_size, site_argument_size, bucket_parts_size, bucket_size, is_too_big, left_after, left_inside};

use crate::operator::is_fractional;
use bucket_core::literal_bucket;
use flag_text::Tree;
use limits::{EXPRESSION_LEVELS, EXPRESSION_NODES};

/// Whether the expression has more than 10,000 nodes or 100 levels. It stops where either is passed.
pub(crate) fn is_too_big(tree: &Tree) -> bool
    ensures { result ≡ is_too_big (view tree.now) }
{
    count(tree, EXPRESSION_LEVELS, EXPRESSION_NODES).is_none()
}

/// What is left for the parts of a list or an object.
fn inside(levels: u32, nodes: u32) -> Option<(u32, u32)>
    ensures { result ≡ left_inside levels nodes }
{
    Some((levels.checked_sub(1)?, nodes.checked_sub(1)?))
}

// Each function below gives how many of the nodes are left, if there are at most so many nodes and levels.

#[cycle(count)]
fn count(tree: &Tree, levels: u32, nodes: u32) -> Option<u32>
    ensures { result ≡ left_after levels nodes (expression_size (view tree.now)) }
{
    match tree {
        Tree::List(items) => count_list(items.as_slice(), levels, nodes),
        Tree::Object(members) => count_object(members.as_slice(), levels, nodes),
        _ => nodes.checked_sub(1),
    }
}

#[cycle(count)]
fn count_object(members: &[(String, Tree)], levels: u32, nodes: u32) -> Option<u32>
    ensures { result ≡ left_after levels nodes (object_size (members_view members.now)) }
{
    match members {
        [] => count_literal(members, levels, nodes),
        [(name, value)] => {
            let (levels, nodes) = inside(levels, nodes)?;
            let (levels, nodes) = inside(levels, nodes)?;
            if is_fractional(name.as_str()) {
                count_site(value, levels, nodes)
            } else {
                count_arguments(value, levels, nodes)
            }
        }
        [_, _, ..] => count_literal(members, levels, nodes),
    }
}

#[cycle(count)]
fn count_list(items: &[Tree], levels: u32, nodes: u32) -> Option<u32>
    ensures { result ≡ left_after levels nodes (around (expressions_size (items_view items.now))) }
{
    let (levels, nodes) = inside(levels, nodes)?;
    count_all(items, levels, nodes)
}

#[cycle(count)]
fn count_all(items: &[Tree], levels: u32, nodes: u32) -> Option<u32>
    ensures { result ≡ left_after levels nodes (expressions_size (items_view items.now)) }
{
    let mut left = nodes;
    for item in items {
        left = count(item, levels, left)?;
    }
    Some(left)
}

#[cycle(count)]
fn count_arguments(value: &Tree, levels: u32, nodes: u32) -> Option<u32>
    ensures { result ≡ left_after levels nodes (arguments_size (view value.now)) }
{
    match value {
        Tree::List(items) => count_all(items.as_slice(), levels, nodes),
        _ => count(value, levels, nodes),
    }
}

#[cycle(count)]
fn count_site(value: &Tree, levels: u32, nodes: u32) -> Option<u32>
    ensures { result ≡ left_after levels nodes (site_size (view value.now)) }
{
    match value {
        Tree::List(items) => count_buckets(items.as_slice(), levels, nodes),
        _ => count(value, levels, nodes),
    }
}

#[cycle(count)]
fn count_buckets(items: &[Tree], levels: u32, nodes: u32) -> Option<u32>
    ensures { result ≡ left_after levels nodes (buckets_size (items_view items.now)) }
{
    let mut left = nodes;
    for item in items {
        left = count_site_argument(item, levels, left)?;
    }
    Some(left)
}

#[cycle(count)]
fn count_site_argument(value: &Tree, levels: u32, nodes: u32) -> Option<u32>
    ensures { result ≡ left_after levels nodes (site_argument_size (view value.now)) }
{
    match value {
        Tree::List(parts) => count_bucket(parts.as_slice(), levels, nodes),
        _ => count(value, levels, nodes),
    }
}

#[cycle(count)]
fn count_bucket(parts: &[Tree], levels: u32, nodes: u32) -> Option<u32>
    ensures { result ≡ left_after levels nodes (bucket_size (items_view parts.now)) }
{
    if literal_bucket(parts).is_some() {
        return Some(nodes);
    }
    let (levels, nodes) = inside(levels, nodes)?;
    count_parts(parts, levels, nodes)
}

#[cycle(count)]
fn count_parts(parts: &[Tree], levels: u32, nodes: u32) -> Option<u32>
    ensures { result ≡ left_after levels nodes (bucket_parts_size (items_view parts.now)) }
{
    match parts {
        [] => Some(nodes),
        [name] => count(name, levels, nodes)?.checked_sub(1),
        [_, _, ..] => count_all(parts, levels, nodes),
    }
}

#[cycle(full)]
fn count_full(tree: &Tree, levels: u32, nodes: u32) -> Option<u32>
    ensures { result ≡ left_after levels nodes (full_size (view tree.now)) }
{
    match tree {
        Tree::List(items) => {
            let (levels, nodes) = inside(levels, nodes)?;
            count_items(items.as_slice(), levels, nodes)
        }
        Tree::Object(members) => count_literal(members.as_slice(), levels, nodes),
        _ => nodes.checked_sub(1),
    }
}

#[cycle(full)]
fn count_items(items: &[Tree], levels: u32, nodes: u32) -> Option<u32>
    ensures { result ≡ left_after levels nodes (items_size (items_view items.now)) }
{
    let mut left = nodes;
    for item in items {
        left = count_full(item, levels, left)?;
    }
    Some(left)
}

#[cycle(full)]
fn count_literal(members: &[(String, Tree)], levels: u32, nodes: u32) -> Option<u32>
    ensures { result ≡ left_after levels nodes (around (members_size (members_view members.now))) }
{
    let (levels, nodes) = inside(levels, nodes)?;
    let mut left = nodes;
    for (_, member) in members {
        left = count_full(member, levels, left)?;
    }
    Some(left)
}
