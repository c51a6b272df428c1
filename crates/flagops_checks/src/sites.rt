//! Sites of a targeting that split users otherwise than is mostly meant: weights that sum to nearly 100, and a bucketing expression that
//! is the same for everybody.
ghost use Rattle.std.specs.Prelude.{◌≡◌};
ghost use Rattle.flag_defs.specs.Flag.{flag_view};
ghost use Rattle.flag_text.specs.View.{view as tree_view};
ghost use Rattle.logic_ast.specs.View.{boxed_view, buckets_view, node_view, nodes_view};
ghost use Rattle.flagops_checks.specs.Sites.{are_constant, are_key_path, are_nearly_hundred, buckets_have, by_has, has_site, is_constant, is_constant_by, is_doubted_site, is_key_path, is_key_read, is_key_text, name_of, reads_scope, site_doubts, some_have, sum_to};

use flag_defs::Flag;
use flag_text::Tree;
use logic_ast::{Bucket, Node, Operator};

/// What may be doubted of a site.
#[derive(Clone, Copy, Debug, PartialEq, Eq)]
pub(crate) enum SiteDoubt {
    /// The weights sum to 99 or 101, where 100 makes each a percentage.
    Total,
    /// The bucketing expression is the same for everybody, so that all users fall into one bucket.
    Constant,
}

impl SiteDoubt {
    /// The name that it is told by: the variant's.
    pub(crate) fn name(self) -> &'static str
        ensures { result.now ≡ name_of self }
    {
        match self {
            SiteDoubt::Total => "Total",
            SiteDoubt::Constant => "Constant",
        }
    }
}

/// What is doubted of the sites of a flag.
#[derive(Clone, Copy, Debug, Drop, PartialEq, Eq)]
pub(crate) struct SiteDoubts {
    pub(crate) total: bool,
    pub(crate) constant: bool,
}

impl SiteDoubts {
    /// Of the sites of a flag's targeting. It takes no memory.
    pub(crate) fn of(flag: &Flag) -> SiteDoubts
        ensures total { result.total ≡ (site_doubts (flag_view flag.now)).total }
        ensures constant { result.constant ≡ (site_doubts (flag_view flag.now)).constant }
    {
        match flag.targeting() {
            Some(targeting) => SiteDoubts {
                total: has_site(SiteDoubt::Total, targeting.root()),
                constant: has_site(SiteDoubt::Constant, targeting.root()),
            },
            None => SiteDoubts {
                total: false,
                constant: false,
            },
        }
    }
}

/// Whether this is doubted of some `fractional`, wherever it stands.
#[cycle(sites)]
fn has_site(doubt: SiteDoubt, node: &Node) -> bool
    ensures { result ≡ has_site doubt (node_view node.now) }
{
    match node {
        Node::Literal(_) => false,
        Node::List(items) => some_have(doubt, items),
        Node::Operation(_, arguments) => some_have(doubt, arguments),
        Node::Fractional { by, buckets, .. } => {
            if is_doubted_site(doubt, by, buckets) {
                return true;
            }
            by_has(doubt, by) || buckets_have(doubt, buckets)
        }
    }
}

#[cycle(sites)]
fn some_have(doubt: SiteDoubt, nodes: &Vec<Node>) -> bool
    ensures { result ≡ some_have doubt (nodes_view nodes.now.items) }
{
    for node in nodes {
        if has_site(doubt, node) {
            return true;
        }
    }
    false
}

#[cycle(sites)]
fn by_has(doubt: SiteDoubt, by: &Option<Box<Node>>) -> bool
    ensures { result ≡ by_has doubt (boxed_view by.now) }
{
    match by {
        None => false,
        Some(by) => has_site(doubt, by),
    }
}

#[cycle(sites)]
fn buckets_have(doubt: SiteDoubt, buckets: &Vec<Bucket<Node>>) -> bool
    ensures { result ≡ buckets_have doubt (buckets_view buckets.now.items) }
{
    for bucket in buckets {
        if let Bucket::Computed(name, weight) = bucket {
            if has_site(doubt, name) || has_site(doubt, weight) {
                return true;
            }
        }
    }
    false
}

/// Whether this is doubted of a site with this bucketing expression and these buckets.
fn is_doubted_site(doubt: SiteDoubt, by: &Option<Box<Node>>, buckets: &Vec<Bucket<Node>>) -> bool
    ensures { result ≡ is_doubted_site doubt (boxed_view by.now) (buckets_view buckets.now.items) }
{
    match doubt {
        SiteDoubt::Total => are_nearly_hundred(buckets),
        SiteDoubt::Constant => is_constant_by(by),
    }
}

/// Whether the buckets are literal, and their weights sum to 99 or 101.
fn are_nearly_hundred(buckets: &Vec<Bucket<Node>>) -> bool
    ensures { result ≡ are_nearly_hundred (buckets_view buckets.now.items) }
{
    sum_to(99, buckets) || sum_to(101, buckets)
}

/// Whether the buckets are literal, and their weights sum to so many.
fn sum_to(total: u32, buckets: &Vec<Bucket<Node>>) -> bool
    ensures { result ≡ sum_to total (buckets_view buckets.now.items) }
{
    let mut left = total;
    for bucket in buckets {
        let Bucket::Literal(_, weight) = bucket else {
            return false;
        };
        if *weight > left {
            return false;
        }
        left -= *weight;
    }
    left == 0
}

/// Whether there is a bucketing expression, and it is the same for everybody.
fn is_constant_by(by: &Option<Box<Node>>) -> bool
    ensures { result ≡ is_constant_by (boxed_view by.now) }
{
    match by {
        None => false,
        Some(by) => is_constant(by),
    }
}

/// Whether an expression reads nothing of the context: literals, the flag's key, and operations on such.
#[cycle(constant)]
fn is_constant(node: &Node) -> bool
    ensures { result ≡ is_constant (node_view node.now) }
{
    match node {
        Node::Literal(_) => true,
        Node::List(items) => are_constant(items),
        Node::Operation(operator, arguments) => {
            is_key_read(*operator, arguments) || !reads_scope(*operator) && are_constant(arguments)
        }
        Node::Fractional { .. } => false,
    }
}

#[cycle(constant)]
fn are_constant(nodes: &Vec<Node>) -> bool
    ensures { result ≡ are_constant (nodes_view nodes.now.items) }
{
    for node in nodes {
        if !is_constant(node) {
            return false;
        }
    }
    true
}

/// Whether an operator reads the context, or an item of a list.
fn reads_scope(operator: Operator) -> bool
    ensures { result ≡ reads_scope operator }
{
    match operator {
        Operator::Var | Operator::Missing | Operator::MissingSome => true,
        _ => false,
    }
}

/// Whether it is `var` of the flag's key.
fn is_key_read(operator: Operator, arguments: &Vec<Node>) -> bool
    ensures { result ≡ is_key_read operator (nodes_view arguments.now.items) }
{
    match operator {
        Operator::Var => are_key_path(arguments.as_slice()),
        _ => false,
    }
}

fn are_key_path(arguments: &[Node]) -> bool
    ensures { result ≡ are_key_path (nodes_view arguments.now) }
{
    match arguments {
        [] => false,
        [path, ..] => is_key_path(path),
    }
}

fn is_key_path(path: &Node) -> bool
    ensures { result ≡ is_key_path (node_view path.now) }
{
    match path {
        Node::Literal(path) => is_key_text(path),
        _ => false,
    }
}

fn is_key_text(path: &Tree) -> bool
    ensures { result ≡ is_key_text (tree_view path.now) }
{
    match path {
        Tree::Text(path) => path.as_str() == "$flagd.flagKey",
        _ => false,
    }
}
