//! Whether a targeting reads the moment of its evaluation.
ghost use Rattle.std.specs.Prelude.{◌≡◌};
ghost use Rattle.flag_text.specs.View.{view as tree_view};
ghost use Rattle.logic_ast.specs.Expr.{view};
ghost use Rattle.logic_ast.specs.View.{boxed_view, buckets_view, node_view, nodes_view};
ghost use Rattle.flagops_filters.specs.Moment.{bucket_reads, by_reads, finds_moment, is_moment_path, is_moment_read, may_be_moment_path, may_find_moment, one_reads, reads_moment};

use flag_text::Tree;
use logic_ast::{Bucket, Expr, Node, Operator};

/// Whether a targeting may read the moment of its evaluation.
pub(crate) fn reads_moment(targeting: &Expr) -> bool
    ensures { result ≡ reads_moment (view targeting.now) }
{
    reads(targeting.root())
}

#[cycle(reads)]
fn reads(node: &Node) -> bool
    ensures { result ≡ reads_moment (node_view node.now) }
{
    match node {
        Node::Literal(_) => false,
        Node::List(items) => one_reads(items),
        Node::Operation(operator, arguments) => {
            is_moment_read(*operator, arguments) || one_reads(arguments)
        }
        Node::Fractional { by, buckets, .. } => by_reads(by) || bucket_reads(buckets),
    }
}

#[cycle(reads)]
fn one_reads(nodes: &Vec<Node>) -> bool
    ensures { result ≡ one_reads (nodes_view nodes.now.items) }
{
    for node in nodes {
        if reads(node) {
            return true;
        }
    }
    false
}

#[cycle(reads)]
fn by_reads(by: &Option<Box<Node>>) -> bool
    ensures { result ≡ by_reads (boxed_view by.now) }
{
    match by {
        None => false,
        Some(by) => reads(by),
    }
}

#[cycle(reads)]
fn bucket_reads(buckets: &Vec<Bucket<Node>>) -> bool
    ensures { result ≡ bucket_reads (buckets_view buckets.now.items) }
{
    for bucket in buckets {
        if let Bucket::Computed(name, weight) = bucket {
            if reads(name) || reads(weight) {
                return true;
            }
        }
    }
    false
}

/// Whether it is `var` with a path that may find the moment.
fn is_moment_read(operator: Operator, arguments: &Vec<Node>) -> bool
    ensures { result ≡ is_moment_read operator (nodes_view arguments.now.items) }
{
    match operator {
        Operator::Var => may_find_moment(arguments.as_slice()),
        _ => false,
    }
}

fn may_find_moment(arguments: &[Node]) -> bool
    ensures { result ≡ may_find_moment (nodes_view arguments.now) }
{
    match arguments {
        [] => true,
        [path, ..] => may_be_moment_path(path),
    }
}

fn may_be_moment_path(path: &Node) -> bool
    ensures { result ≡ may_be_moment_path (node_view path.now) }
{
    match path {
        Node::Literal(path) => is_moment_path(path),
        _ => true,
    }
}

fn is_moment_path(path: &Tree) -> bool
    ensures { result ≡ is_moment_path (tree_view path.now) }
{
    match path {
        Tree::Null => true,
        Tree::Text(path) => finds_moment(path.as_str()),
        _ => false,
    }
}

fn finds_moment(path: &str) -> bool
    ensures { result ≡ finds_moment path.now }
{
    path == "$flagd.timestamp" || path == "$flagd" || path.is_empty()
}
