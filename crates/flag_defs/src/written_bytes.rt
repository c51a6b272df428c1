//! In how many bytes a flag is printed, for which neither a tree nor a text is made. All is counted up to the most that is
//! counted.
ghost use Rattle.std.specs.Prelude.{◌≡◌, codes, if◌then◌else◌, option_map, string_bytes};
ghost use Rattle.flag_text.specs.Shape.{Items, Members};
ghost use Rattle.logic_ast.specs.Expr.{view};
ghost use Rattle.logic_ast.specs.View.{node_view, nodes_view, boxed_view, bucket_view, buckets_view};
ghost use Rattle.logic_ast.specs.Writing.{written, all_written, by_written, buckets_written, bucket_written};
ghost use Rattle.flag_defs.specs.Definition.{good};
ghost use Rattle.flag_defs.specs.Document.{definition_written, with_default, with_targeting};
ghost use Rattle.flag_defs.specs.Flag.{flag_view, rules_view};
ghost use Rattle.flag_defs.specs.PrintedBytes.{enclosed, items_bytes, members_bytes, text_bytes, tree_bytes, with_item, with_member};

use crate::flag::Flag;
use crate::printed_bytes::{
    enclosed, members_bytes, text_bytes, tree_bytes, whole_bytes, with_item, with_member,
};
use crate::rules::Rules;
use logic_ast::{Bucket, Expr, Node};

/// Of the definition of a flag, its targeting without references: of a broken one the empty object.
pub(crate) fn flag_bytes(flag: &Flag) -> u32
    ensures { result ≡ tree_bytes (definition_written (flag_view flag.now)) }
{
    match &flag.rules {
        Some(rules) => rules_bytes(rules),
        None => enclosed(0),
    }
}

fn rules_bytes(rules: &Rules) -> u32
    ensures { result ≡ tree_bytes (definition_written (good (rules_view rules.now))) }
{
    let variants = enclosed(members_bytes(&rules.variants));
    let last = with_member("variants", variants, 0);
    let later = with_targeting(&rules.targeting, last);
    let state = with_member("state", state_bytes(rules.enabled), later);
    enclosed(with_default(&rules.default_variant, state))
}

fn state_bytes(enabled: bool) -> u32
    ensures { result ≡ text_bytes (if enabled then codes "ENABLED" else codes "DISABLED") }
{
    text_bytes(if enabled { "ENABLED" } else { "DISABLED" })
}

/// With the member of the default variant, where there is one.
fn with_default(name: &Option<String>, rest: u32) -> u32
    ensures { (ms : Members) → rest ≡ members_bytes ms → result ≡ members_bytes (with_default (option_map string_bytes name.now) ms) }
{
    match name {
        Some(name) => with_member("defaultVariant", text_bytes(name.as_str()), rest),
        None => rest,
    }
}

/// With the member of the targeting, where there is one.
fn with_targeting(targeting: &Option<Expr>, rest: u32) -> u32
    ensures { (ms : Members) → rest ≡ members_bytes ms → result ≡ members_bytes (with_targeting (option_map view targeting.now) ms) }
{
    match targeting {
        Some(expr) => with_member("targeting", node_bytes(expr.root()), rest),
        None => rest,
    }
}

/// Of the tree that is written for an expression.
#[cycle(written)]
fn node_bytes(node: &Node) -> u32
    ensures { result ≡ tree_bytes (written (node_view node.now)) }
{
    match node {
        Node::Literal(tree) => tree_bytes(tree),
        Node::List(nodes) => enclosed(nodes_bytes(nodes)),
        Node::Operation(operator, arguments) => {
            applied_bytes(operator.name(), nodes_bytes(arguments))
        }
        Node::Fractional { by, buckets, .. } => {
            let arguments = buckets_bytes(buckets);
            applied_bytes("fractional", with_by(by, arguments))
        }
    }
}

/// Of an operation of this name on arguments of so many bytes.
fn applied_bytes(name: &str, arguments: u32) -> u32
    ensures { result ≡ enclosed (with_member name.now (enclosed arguments) 0) }
{
    enclosed(with_member(name, enclosed(arguments), 0))
}

#[cycle(written)]
fn nodes_bytes(nodes: &Vec<Node>) -> u32
    ensures { result ≡ items_bytes (all_written (nodes_view nodes.now.items)) }
{
    let mut bytes = 0;
    // From the back, as the definition adds them up: it folds from the right.
    for i in (0..nodes.len()).rev() {
        let node = node_bytes(&nodes[i]);
        bytes = with_item(node, bytes);
    }
    bytes
}

/// With the bucketing expression, where there is one.
#[cycle(written)]
fn with_by(by: &Option<Box<Node>>, buckets: u32) -> u32
    ensures { (ts : Items) → buckets ≡ items_bytes ts → result ≡ items_bytes (by_written (boxed_view by.now) ts) }
{
    match by {
        Some(by) => with_item(node_bytes(by), buckets),
        None => buckets,
    }
}

#[cycle(written)]
fn buckets_bytes(buckets: &Vec<Bucket<Node>>) -> u32
    ensures { result ≡ items_bytes (buckets_written (buckets_view buckets.now.items)) }
{
    let mut bytes = 0;
    // From the back, as above.
    for i in (0..buckets.len()).rev() {
        let bucket = bucket_bytes(&buckets[i]);
        bytes = with_item(bucket, bytes);
    }
    bytes
}

#[cycle(written)]
fn bucket_bytes(bucket: &Bucket<Node>) -> u32
    ensures { result ≡ tree_bytes (bucket_written (bucket_view bucket.now)) }
{
    match bucket {
        Bucket::Literal(name, weight) => pair_bytes(
            text_bytes(name.as_str()),
            whole_bytes(i64::from(*weight)),
        ),
        Bucket::Computed(name, weight) => pair_bytes(node_bytes(name), node_bytes(weight)),
    }
}

/// Of a list of two.
fn pair_bytes(first: u32, second: u32) -> u32
    ensures { result ≡ enclosed (with_item first (with_item second 0)) }
{
    enclosed(with_item(first, with_item(second, 0)))
}
