//! Which bucket of a site is not literal, and why: what a plan can't take.
use crate::place::Place;
use file_diagnostics::{Lines, put_weight_fault};
use flag_text::Tree;
use logic_ast::{Bucket, Node};

/// Of a site with a bucket that is not literal: the first such bucket, and what is wrong with it.
pub(crate) fn put_computed(lines: &mut Lines, place: Place<'_>) {
    write!(lines, "{place}");
    let found = match place.targeting() {
        Some(targeting) => computed_at(targeting.root(), place.number),
        None => None,
    };
    match found {
        Some((number, name, weight)) => {
            write!(lines, ": argument {number} of \"fractional\"");
            put_bucket(lines, name, weight);
        }
        None => write!(lines, " has a bucket whose name or weight is computed"),
    }
    write!(
        lines,
        "\n  a plan needs literal buckets [name, weight], each weight a whole number from 0 to 2147483647; arguments count from 0",
    );
}

/// What is wrong with a bucket.
fn put_bucket(lines: &mut Lines, name: &Node, weight: &Node) {
    match (name, weight) {
        (Node::Literal(Tree::Text(name)), Node::Literal(weight)) => {
            let name = lines.name(name.as_str());
            write!(lines, ", the bucket {name}, has the weight ");
            put_weight_fault(lines, weight);
        }
        (Node::Literal(name), Node::Literal(_)) => {
            let name = lines.value(name);
            write!(lines, " has the name {name}, which is not a text");
        }
        (Node::Literal(_), _) => write!(lines, " has a weight that is computed"),
        _ => write!(lines, " has a name that is computed"),
    }
}

/// A bucket that is not literal: its place among the arguments, counted from 0, its name and its weight.
type Computed<'a> = (usize, &'a Node, &'a Node);

/// The first bucket that is not literal of the site of a number, none where there is no such site.
#[cycle(computed_at)]
fn computed_at(node: &Node, number: u32) -> Option<Computed<'_>> {
    match node {
        Node::Literal(_) => None,
        Node::List(nodes) => computed_in(nodes, number),
        Node::Operation(_, nodes) => computed_in(nodes, number),
        Node::Fractional { site, by, buckets } => {
            if *site == number {
                return first_computed(buckets.as_slice(), usize::from(by.is_some()));
            }
            if let Some(by) = by {
                if let Some(found) = computed_at(by, number) {
                    return Some(found);
                }
            }
            computed_in_buckets(buckets, number)
        }
    }
}

/// The same in nodes.
#[cycle(computed_at)]
fn computed_in(nodes: &Vec<Node>, number: u32) -> Option<Computed<'_>> {
    for node in nodes {
        if let Some(found) = computed_at(node, number) {
            return Some(found);
        }
    }
    None
}

/// The same in the names and weights of other sites' buckets.
#[cycle(computed_at)]
fn computed_in_buckets(buckets: &Vec<Bucket<Node>>, number: u32) -> Option<Computed<'_>> {
    for bucket in buckets {
        if let Bucket::Computed(name, weight) = bucket {
            if let Some(found) = computed_at(name, number) {
                return Some(found);
            }
            if let Some(found) = computed_at(weight, number) {
                return Some(found);
            }
        }
    }
    None
}

/// The first of the buckets that is not literal; they stand behind so many other arguments.
fn first_computed(buckets: &[Bucket<Node>], before: usize) -> Option<Computed<'_>> {
    for (place, bucket) in buckets.iter().enumerate() {
        if let Bucket::Computed(name, weight) = bucket {
            return Some((place.saturating_add(before), name, weight));
        }
    }
    None
}
