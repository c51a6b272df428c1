//! Whether the buckets of an expression have weights by which nobody falls into one.
ghost use Rattle.std.specs.Prelude.{◌≡◌, ◌<◌, ◌^◌, IfSome};
ghost use Rattle.std.specs.List.{list_any};
ghost use Rattle.logic_ast.specs.Sites.{preorder_in, preorder_in_by, preorder_in_buckets};
ghost use Rattle.logic_ast.specs.View.{node_view, nodes_view, boxed_view, bucket_view, buckets_view};
ghost use Rattle.flag_doubts.specs.Weights.{are_too_heavy, are_weightless, has_bad_site, has_bad_weight, is_bad_site, is_no_weight, is_zero, literal_weight, weigh_badly};

use bucket_core::weight_of;
use logic_ast::{Bucket, Node};

/// The most that the weights of a rule sum to.
const MAX_TOTAL: u64 = bucket_core::MAX_TOTAL as u64;

/// Whether some `fractional`, wherever it stands, has such buckets.
#[cycle(weights)]
pub(crate) fn has_bad_site(node: &Node) -> bool
    ensures { result ≡ has_bad_site (node_view node.now) }
{
    match node {
        Node::Literal(_) => false,
        Node::List(items) => some_has_bad_site(items),
        Node::Operation(_, arguments) => some_has_bad_site(arguments),
        Node::Fractional { by, buckets, .. } => {
            if weigh_badly(buckets) {
                return true;
            }
            by_has_bad_site(by) || buckets_have_bad_site(buckets)
        }
    }
}

#[cycle(weights)]
fn some_has_bad_site(nodes: &Vec<Node>) -> bool
    ensures { result ≡ list_any is_bad_site (preorder_in (nodes_view nodes.now.items)) }
{
    for node in nodes {
        if has_bad_site(node) {
            return true;
        }
    }
    false
}

#[cycle(weights)]
fn by_has_bad_site(by: &Option<Box<Node>>) -> bool
    ensures { result ≡ list_any is_bad_site (preorder_in_by (boxed_view by.now)) }
{
    match by {
        None => false,
        Some(by) => has_bad_site(by),
    }
}

#[cycle(weights)]
fn buckets_have_bad_site(buckets: &Vec<Bucket<Node>>) -> bool
    ensures { result ≡ list_any is_bad_site (preorder_in_buckets (buckets_view buckets.now.items)) }
{
    for bucket in buckets {
        if let Bucket::Computed(name, weight) = bucket {
            if has_bad_site(name) || has_bad_site(weight) {
                return true;
            }
        }
    }
    false
}

/// Whether nobody falls into one of these buckets by their literal weights.
fn weigh_badly(buckets: &Vec<Bucket<Node>>) -> bool
    ensures { result ≡ weigh_badly (buckets_view buckets.now.items) }
{
    has_bad_weight(buckets) || are_too_heavy(buckets) || are_weightless(buckets)
}

/// Whether one of these buckets has a literal weight that is no weight.
fn has_bad_weight(buckets: &Vec<Bucket<Node>>) -> bool
    ensures { result ≡ has_bad_weight (buckets_view buckets.now.items) }
{
    for bucket in buckets {
        if let Bucket::Computed(_, weight) = bucket {
            if is_no_weight(weight) {
                return true;
            }
        }
    }
    false
}

fn is_no_weight(weight: &Node) -> bool
    ensures { result ≡ is_no_weight (node_view weight.now) }
{
    match weight {
        Node::Literal(tree) => weight_of(tree).is_none(),
        _ => false,
    }
}

/// Whether the literal weights of these buckets sum to more than 2^31-1: whoever reaches them gets no value.
pub fn are_too_heavy(buckets: &Vec<Bucket<Node>>) -> bool
    ensures { result ≡ are_too_heavy (buckets_view buckets.now.items) }
{
    let mut total = 0;
    for bucket in buckets {
        total += literal_weight(bucket).unwrap_or(0);
        if total > MAX_TOTAL {
            return true;
        }
    }
    false
}

/// Whether the weight of each of these buckets is the literal 0: whoever reaches them gets null.
pub fn are_weightless(buckets: &Vec<Bucket<Node>>) -> bool
    ensures { result ≡ are_weightless (buckets_view buckets.now.items) }
{
    for bucket in buckets {
        if !is_weightless(bucket) {
            return false;
        }
    }
    true
}

/// Whether the weight of the bucket is the literal 0: nobody falls into it.
pub fn is_weightless(bucket: &Bucket<Node>) -> bool
    ensures { result ≡ is_zero (literal_weight (bucket_view bucket.now)) }
{
    is_zero(literal_weight(bucket))
}

fn is_zero(weight: Option<u64>) -> bool
    ensures { result ≡ is_zero weight }
{
    match weight {
        Some(weight) => weight == 0,
        None => false,
    }
}

/// The weight of a bucket, where it is literal and one.
fn literal_weight(bucket: &Bucket<Node>) -> Option<u64>
    ensures weight { result ≡ literal_weight (bucket_view bucket.now) }
    ensures small { IfSome result (λ n. n < 2 ^ 32) }
{
    match bucket {
        Bucket::Literal(_, weight) => Some(u64::from(*weight)),
        Bucket::Computed(_, Node::Literal(tree)) => weight_of(tree),
        Bucket::Computed(_, _) => None,
    }
}
