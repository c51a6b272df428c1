//! The cumulative weights of sites, by which the bucket of a point is found by halving.
ghost use Rattle.std.specs.Prelude.{◌≡◌, ◌++◌, ◌<◌, ◌^◌, Ok, IfOk, IfSome, OnOk, map};
ghost use Rattle.logic_ast.specs.Ends.{all_ends, ends_of, ends_view, site_ends};
ghost use Rattle.logic_ast.specs.Sites.{preorder, preorder_in, preorder_in_by, preorder_in_buckets};
ghost use Rattle.logic_ast.specs.Summing.{next_end};
ghost use Rattle.logic_ast.specs.View.{node_view, nodes_view, boxed_view, bucket_view, buckets_view};

use crate::node::{Bucket, Node};
use bucket_core::MAX_TOTAL;
use std::alloc::{AllocError, Global};

/// Those of each site of a node, in preorder.
pub(crate) fn all_ends(alloc: Global, root: &Node) -> Result<Vec<Vec<u32>>, AllocError>
    ensures { IfOk result (λ v. ends_view v.items ≡ all_ends (node_view root.now)) }
{
    let mut ends = Vec::new(alloc);
    visit(alloc, root, &mut ends)?;
    Ok(ends)
}

/// Adds those of the sites of a node, in preorder.
#[cycle(visit)]
fn visit(alloc: Global, node: &Node, ends: &mut Vec<Vec<u32>>) -> Result<(), AllocError>
    ensures { OnOk result (ends_view ends.new.items ≡ ends_view ends.old.items ++ map site_ends (preorder (node_view node.now))) }
{
    match node {
        Node::Literal(_) => Ok(()),
        Node::List(items) => visit_all(alloc, items, ends),
        Node::Operation(_, arguments) => visit_all(alloc, arguments, ends),
        Node::Fractional { by, buckets, .. } => {
            let own = ends_of(alloc, buckets)?;
            ends.push(own)?;
            visit_by(alloc, by, ends)?;
            visit_buckets(alloc, buckets, ends)
        }
    }
}

#[cycle(visit)]
fn visit_all(alloc: Global, nodes: &Vec<Node>, ends: &mut Vec<Vec<u32>>) -> Result<(), AllocError>
    ensures { OnOk result (ends_view ends.new.items ≡ ends_view ends.old.items ++ map site_ends (preorder_in (nodes_view nodes.now.items))) }
{
    for node in nodes {
        visit(alloc, node, ends)?;
    }
    Ok(())
}

#[cycle(visit)]
fn visit_by(
    alloc: Global,
    by: &Option<Box<Node>>,
    ends: &mut Vec<Vec<u32>>,
) -> Result<(), AllocError>
    ensures { OnOk result (ends_view ends.new.items ≡ ends_view ends.old.items ++ map site_ends (preorder_in_by (boxed_view by.now))) }
{
    match by {
        None => Ok(()),
        Some(by) => visit(alloc, by, ends),
    }
}

#[cycle(visit)]
fn visit_buckets(
    alloc: Global,
    buckets: &Vec<Bucket<Node>>,
    ends: &mut Vec<Vec<u32>>,
) -> Result<(), AllocError>
    ensures { OnOk result (ends_view ends.new.items ≡ ends_view ends.old.items ++ map site_ends (preorder_in_buckets (buckets_view buckets.now.items))) }
{
    for bucket in buckets {
        if let Bucket::Computed(name, weight) = bucket {
            visit(alloc, name, ends)?;
            visit(alloc, weight, ends)?;
        }
    }
    Ok(())
}

/// Those of buckets that are all literal and sum to less than 2^31; of others none.
fn ends_of(alloc: Global, buckets: &Vec<Bucket<Node>>) -> Result<Vec<u32>, AllocError>
    ensures { IfOk result (λ v. v.items ≡ ends_of (buckets_view buckets.now.items)) }
{
    let mut ends = Vec::new(alloc);
    let mut end = 0;
    for bucket in buckets {
        let Some(next) = next_end(end, bucket) else {
            return Ok(Vec::new(alloc));
        };
        end = next;
        ends.push(end)?;
    }
    Ok(ends)
}

/// The sum with the weight of a literal bucket, where it is less than 2^31.
#[tactic(auto, using(crate::proofs::Summed::end_below, crate::proofs::Summed::end_above))]
fn next_end(end: u32, bucket: &Bucket<Node>) -> Option<u32>
    requires { end < 2 ^ 31 }
    ensures value { result ≡ next_end end (bucket_view bucket.now) }
    ensures small { IfSome result (λ n. n < 2 ^ 31) }
{
    match bucket {
        Bucket::Literal(_, weight) => {
            if *weight > MAX_TOTAL - end {
                return None;
            }
            Some(end + *weight)
        }
        Bucket::Computed(_, _) => None,
    }
}
