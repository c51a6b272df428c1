//! The sites of an expression with their bucketing expressions, in one walk.
ghost use Rattle.std.specs.Prelude.{◌≡◌, ◌++◌, Ok, OnOk, map};
ghost use Rattle.logic_ast.specs.Sites.{preorder, preorder_in, preorder_in_by, preorder_in_buckets};
ghost use Rattle.logic_ast.specs.View.{node_view, nodes_view, boxed_view, buckets_view};
ghost use Rattle.site_pages.specs.Sites.{by_view, place_of, place_view};

use logic_ast::{Bucket, Node};
use std::alloc::AllocError;

/// A site: its number, and its bucketing expression where it has one.
#[derive(Clone, Copy, Drop)]
pub(crate) struct Place<'a> {
    pub(crate) site: u32,
    pub(crate) by: Option<&'a Node>,
}

/// Adds the sites of a node, in preorder.
#[cycle(visit)]
pub(crate) fn visit<'a>(node: &'a Node, places: &mut Vec<Place<'a>>) -> Result<(), AllocError>
    ensures { OnOk result (map place_view places.new.items ≡ map place_view places.old.items ++ map place_of (preorder (node_view node.now))) }
{
    match node {
        Node::Literal(_) => Ok(()),
        Node::List(items) => visit_all(items, places),
        Node::Operation(_, arguments) => visit_all(arguments, places),
        Node::Fractional { site, by, buckets } => {
            places.push(Place {
                site: *site,
                by: inner(by),
            })?;
            visit_by(by, places)?;
            visit_buckets(buckets, places)
        }
    }
}

/// The bucketing expression, where there is one.
fn inner(by: &Option<Box<Node>>) -> Option<&Node>
    ensures { by_view result ≡ boxed_view by.now }
{
    match by {
        None => None,
        Some(by) => Some(by),
    }
}

#[cycle(visit)]
fn visit_all<'a>(nodes: &'a Vec<Node>, places: &mut Vec<Place<'a>>) -> Result<(), AllocError>
    ensures { OnOk result (map place_view places.new.items ≡ map place_view places.old.items ++ map place_of (preorder_in (nodes_view nodes.now.items))) }
{
    for node in nodes {
        visit(node, places)?;
    }
    Ok(())
}

#[cycle(visit)]
fn visit_by<'a>(by: &'a Option<Box<Node>>, places: &mut Vec<Place<'a>>) -> Result<(), AllocError>
    ensures { OnOk result (map place_view places.new.items ≡ map place_view places.old.items ++ map place_of (preorder_in_by (boxed_view by.now))) }
{
    match by {
        None => Ok(()),
        Some(by) => visit(by, places),
    }
}

#[cycle(visit)]
fn visit_buckets<'a>(
    buckets: &'a Vec<Bucket<Node>>,
    places: &mut Vec<Place<'a>>,
) -> Result<(), AllocError>
    ensures { OnOk result (map place_view places.new.items ≡ map place_view places.old.items ++ map place_of (preorder_in_buckets (buckets_view buckets.now.items))) }
{
    for bucket in buckets {
        if let Bucket::Computed(name, weight) = bucket {
            visit(name, places)?;
            visit(weight, places)?;
        }
    }
    Ok(())
}
