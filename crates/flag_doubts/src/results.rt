//! What a targeting can result in, sought among its literals.
ghost use Rattle.std.specs.Prelude.{◌≡◌, [], ◌∷◌, false};
ghost use Rattle.std.specs.List.{list_any};
ghost use Rattle.flag_text.specs.View.{view as tree_view};
ghost use Rattle.flag_defs.specs.Definition.{Definition};
ghost use Rattle.flag_defs.specs.Flag.{flag_view, is_broken};
ghost use Rattle.logic_ast.specs.Expression.{Expression, computed_bucket};
ghost use Rattle.logic_ast.specs.View.{node_view, nodes_view, buckets_view};
ghost use Rattle.flag_doubts.specs.Outcomes.{named, nameless, truth, computed, given_by, given_outcome, literal_outcomes, literal_name, literal_truth, by_test, operated, outcomes, arguments, branches, names, name};
ghost use Rattle.flag_doubts.specs.Doubts.{has_truth};
ghost use Rattle.flag_doubts.specs.Views.{is_sought};

use crate::given::{Given, given_by};
use crate::truths::literal_truth;
use crate::weights::is_weightless;
use flag_defs::Flag;
use flag_text::Tree;
use logic_ast::{Bucket, Node, Operator};

/// What is sought among the results.
#[derive(Clone, Copy)]
pub(crate) enum Sought {
    /// One that names no variant.
    Foreign,
    /// One that names a variant, or may name one.
    Variant,
}

impl Sought {
    /// Whether this is what a name stands for.
    fn is_name(self, name: &str, flag: &Flag) -> bool
        requires good { is_broken (flag_view flag.now) ≡ false }
        ensures { result ≡ is_sought self (flag_view flag.now) (named name.now) }
    {
        match self {
            Sought::Foreign => flag.variant(name).is_none(),
            Sought::Variant => flag.variant(name).is_some(),
        }
    }

    /// Whether this is what a value stands for that is no name.
    fn is_nameless(self) -> bool
        ensures { (d : Definition) → result ≡ is_sought self d nameless }
    {
        match self {
            Sought::Foreign => true,
            Sought::Variant => false,
        }
    }

    /// Whether this is what a value stands for that is `true` or `false`.
    fn is_truth(self, flag: &Flag) -> bool
        requires good { is_broken (flag_view flag.now) ≡ false }
        ensures { result ≡ is_sought self (flag_view flag.now) truth }
    {
        match self {
            Sought::Foreign => !has_truth(flag),
            Sought::Variant => has_truth(flag),
        }
    }

    /// Whether this is what a value stands for that an operation gives.
    fn is_given(self, operator: Operator, flag: &Flag) -> bool
        requires good { is_broken (flag_view flag.now) ≡ false }
        ensures { result ≡ is_sought self (flag_view flag.now) (given_outcome (given_by operator)) }
    {
        match given_by(operator) {
            Given::Truth => self.is_truth(flag),
            Given::NoName => self.is_nameless(),
            Given::Computed => self.is_computed(),
        }
    }

    /// Whether this is what a value stands for that is computed.
    fn is_computed(self) -> bool
        ensures { (d : Definition) → result ≡ is_sought self d computed }
    {
        match self {
            Sought::Foreign => false,
            Sought::Variant => true,
        }
    }
}

/// Whether `true` or `false` names a variant.
pub fn has_truth(flag: &Flag) -> bool
    requires good { is_broken (flag_view flag.now) ≡ false }
    ensures { result ≡ has_truth (flag_view flag.now) }
{
    flag.variant("true").is_some() || flag.variant("false").is_some()
}

// Each function below tells whether what is sought is among the results of its node or nodes. The condition is that the flag
// is good.

#[cycle(results)]
pub(crate) fn is_result(node: &Node, sought: Sought, flag: &Flag) -> bool
    requires good { is_broken (flag_view flag.now) ≡ false }
    ensures { result ≡ list_any (is_sought sought (flag_view flag.now)) (outcomes (node_view node.now)) }
{
    match node {
        Node::Literal(tree) => is_literal(tree, sought, flag),
        Node::List(_) => sought.is_nameless(),
        Node::Operation(operator, arguments) => match operator {
            Operator::If => is_branch(arguments, sought, flag),
            Operator::And => is_argument(arguments, false, sought, flag),
            Operator::Or => is_argument(arguments, true, sought, flag),
            _ => sought.is_given(*operator, flag),
        },
        Node::Fractional { buckets, .. } => is_name(buckets, sought, flag),
    }
}

fn is_literal(tree: &Tree, sought: Sought, flag: &Flag) -> bool
    requires good { is_broken (flag_view flag.now) ≡ false }
    ensures { result ≡ list_any (is_sought sought (flag_view flag.now)) (literal_outcomes (tree_view tree.now)) }
{
    match tree {
        Tree::Null => false,
        Tree::Text(name) => sought.is_name(name.as_str(), flag),
        Tree::Bool(true) => sought.is_name("true", flag),
        Tree::Bool(false) => sought.is_name("false", flag),
        _ => sought.is_nameless(),
    }
}

/// Of the arguments of which an operation gives the first that counts as wanted, else the last.
#[cycle(results)]
fn is_argument(nodes: &Vec<Node>, wanted: bool, sought: Sought, flag: &Flag) -> bool
    requires good { is_broken (flag_view flag.now) ≡ false }
    ensures { result ≡ list_any (is_sought sought (flag_view flag.now)) (arguments wanted (nodes_view nodes.now.items)) }
{
    if nodes.is_empty() {
        return false;
    }
    let last = nodes.len() - 1;
    for place in 0..last {
        let node = &nodes[place];
        match literal_truth(node) {
            Some(truth) => {
                if truth == wanted {
                    return is_result(node, sought, flag);
                }
            }
            None => {
                if is_result(node, sought, flag) {
                    return true;
                }
            }
        }
    }
    is_result(&nodes[last], sought, flag)
}

/// Of pairs of a test and a branch, and a last branch.
#[cycle(results)]
fn is_branch(nodes: &Vec<Node>, sought: Sought, flag: &Flag) -> bool
    requires good { is_broken (flag_view flag.now) ≡ false }
    ensures { result ≡ list_any (is_sought sought (flag_view flag.now)) (branches (nodes_view nodes.now.items)) }
{
    let pairs = nodes.len() / 2;
    for pair in 0..pairs {
        match literal_truth(&nodes[2 * pair]) {
            Some(truth) => {
                if truth {
                    return is_result(&nodes[2 * pair + 1], sought, flag);
                }
            }
            None => {
                if is_result(&nodes[2 * pair + 1], sought, flag) {
                    return true;
                }
            }
        }
    }
    if nodes.len() % 2 == 1 {
        return is_result(&nodes[2 * pairs], sought, flag);
    }
    false
}

/// Of the buckets that somebody may fall into.
#[cycle(results)]
fn is_name(buckets: &Vec<Bucket<Node>>, sought: Sought, flag: &Flag) -> bool
    requires good { is_broken (flag_view flag.now) ≡ false }
    ensures { result ≡ list_any (is_sought sought (flag_view flag.now)) (names (buckets_view buckets.now.items)) }
{
    for bucket in buckets {
        let found = match bucket {
            Bucket::Literal(name, _) => sought.is_name(name.as_str(), flag),
            Bucket::Computed(name, _) => is_computed_name(name, sought, flag),
        };
        if found && !is_weightless(bucket) {
            return true;
        }
    }
    false
}

/// Of the name of a bucket that is computed.
#[cycle(results)]
fn is_computed_name(node: &Node, sought: Sought, flag: &Flag) -> bool
    requires good { is_broken (flag_view flag.now) ≡ false }
    ensures { (w : Expression) → result ≡ list_any (is_sought sought (flag_view flag.now)) (name (computed_bucket (node_view node.now) w)) }
{
    match node {
        Node::Literal(tree) => is_literal_name(tree, sought, flag),
        _ => is_result(node, sought, flag),
    }
}

fn is_literal_name(tree: &Tree, sought: Sought, flag: &Flag) -> bool
    requires good { is_broken (flag_view flag.now) ≡ false }
    ensures { result ≡ is_sought sought (flag_view flag.now) (literal_name (tree_view tree.now)) }
{
    match tree {
        Tree::Text(name) => sought.is_name(name.as_str(), flag),
        _ => sought.is_nameless(),
    }
}
