//! The place of a site within an expression.
ghost use Rattle.std.specs.Prelude.{◌≡◌, option_map};
ghost use Rattle.logic_ast.specs.Found.{found, found_in, found_in_by, found_in_buckets};
ghost use Rattle.logic_ast.specs.Parts.{parts_view, site_parts};
ghost use Rattle.logic_ast.specs.View.{node_view, nodes_view, boxed_view, buckets_view};

use crate::node::{Bucket, Node};

/// The bucketing expression and the buckets of a site.
type Parts<'a> = (&'a Option<Box<Node>>, &'a Vec<Bucket<Node>>);

#[cycle(find)]
pub(crate) fn find(node: &Node, n: u32) -> Option<Parts<'_>>
    ensures { option_map parts_view result ≡ option_map site_parts (found n (node_view node.now)) }
{
    match node {
        Node::Literal(_) => None,
        Node::List(items) => find_in(items, n),
        Node::Operation(_, arguments) => find_in(arguments, n),
        Node::Fractional { site, by, buckets } => {
            if *site == n {
                return Some((by, buckets));
            }
            match find_in_by(by, n) {
                Some(parts) => Some(parts),
                None => find_in_buckets(buckets, n),
            }
        }
    }
}

#[cycle(find)]
fn find_in(nodes: &Vec<Node>, n: u32) -> Option<Parts<'_>>
    ensures { option_map parts_view result ≡ option_map site_parts (found_in n (nodes_view nodes.now.items)) }
{
    for node in nodes {
        if let Some(parts) = find(node, n) {
            return Some(parts);
        }
    }
    None
}

#[cycle(find)]
fn find_in_by(by: &Option<Box<Node>>, n: u32) -> Option<Parts<'_>>
    ensures { option_map parts_view result ≡ option_map site_parts (found_in_by n (boxed_view by.now)) }
{
    match by {
        None => None,
        Some(by) => find(by, n),
    }
}

#[cycle(find)]
fn find_in_buckets(buckets: &Vec<Bucket<Node>>, n: u32) -> Option<Parts<'_>>
    ensures { option_map parts_view result ≡ option_map site_parts (found_in_buckets n (buckets_view buckets.now.items)) }
{
    for bucket in buckets {
        if let Bucket::Computed(name, weight) = bucket {
            if let Some(parts) = find(name, n) {
                return Some(parts);
            }
            if let Some(parts) = find(weight, n) {
                return Some(parts);
            }
        }
    }
    None
}
