//! The compact text of an expression, written straight from its nodes.
ghost use Rattle.std.specs.Prelude.{◌≡◌, ◌++◌, true, false, Bool, Ok, OnOk, string_bytes};
ghost use Rattle.json.specs.Print.{quoted};
ghost use Rattle.serde_json.specs.Written.{comma_if, compact_text, items_text};
ghost use Rattle.flag_text.specs.Printing.{data_of, items_data};
ghost use Rattle.flag_text.specs.Shape.{is_whole, items_are_whole};
ghost use Rattle.flag_text.specs.View.{view};
ghost use Rattle.logic_ast.specs.Expression.{literal_bucket};
ghost use Rattle.logic_ast.specs.View.{node_view, nodes_view, boxed_view, buckets_view};
ghost use Rattle.logic_ast.specs.Writing.{written, all_written, bucket_written, buckets_written};
ghost use Rattle.site_pages.specs.Text.{by_is_whole, by_piece, opened};

use flag_text::{push_string, push_tree};
use logic_ast::{Bucket, Node};
use std::alloc::{AllocError, Global};

/// Adds the text that a node is written with.
#[cycle(push)]
#[tactic(auto, unfolding(flag_text::specs::Printing::text_of))]
pub(crate) fn push_node(alloc: Global, text: &mut String, node: &Node) -> Result<(), AllocError>
    requires { is_whole (written (node_view node.now)) ≡ true }
    ensures { OnOk result (string_bytes text.new ≡ string_bytes text.old ++ compact_text (data_of (written (node_view node.now)))) }
{
    match node {
        Node::Literal(tree) => push_tree(alloc, text, tree),
        Node::List(items) => {
            text.push_str("[")?;
            push_nodes(alloc, text, items)
        }
        Node::Operation(operator, arguments) => {
            push_opening(alloc, text, operator.name())?;
            push_nodes(alloc, text, arguments)?;
            text.push_str("}")
        }
        Node::Fractional { by, buckets, .. } => {
            push_opening(alloc, text, "fractional")?;
            push_by(alloc, text, by)?;
            push_buckets(alloc, text, by.is_some(), buckets)?;
            text.push_str("}")
        }
    }
}

/// Adds the texts of nodes, and the end of their list.
#[cycle(push)]
fn push_nodes(alloc: Global, text: &mut String, nodes: &Vec<Node>) -> Result<(), AllocError>
    requires { items_are_whole (all_written (nodes_view nodes.now.items)) ≡ true }
    ensures { OnOk result (string_bytes text.new ≡ string_bytes text.old ++ items_text false (items_data (all_written (nodes_view nodes.now.items)))) }
{
    let mut later = false;
    for node in nodes {
        push_comma(text, later)?;
        push_node(alloc, text, node)?;
        later = true;
    }
    text.push_str("]")
}

/// Adds the text of a bucketing expression, where there is one.
#[cycle(push)]
fn push_by(alloc: Global, text: &mut String, by: &Option<Box<Node>>) -> Result<(), AllocError>
    requires { by_is_whole (boxed_view by.now) ≡ true }
    ensures { OnOk result (string_bytes text.new ≡ string_bytes text.old ++ by_piece (boxed_view by.now)) }
{
    match by {
        None => Ok(()),
        Some(by) => push_node(alloc, text, by),
    }
}

/// Adds the texts of buckets, and the end of their list. They come later where something stands in front of them.
#[cycle(push)]
fn push_buckets(
    alloc: Global,
    text: &mut String,
    later: bool,
    buckets: &Vec<Bucket<Node>>,
) -> Result<(), AllocError>
    requires { items_are_whole (buckets_written (buckets_view buckets.now.items)) ≡ true }
    ensures { OnOk result (string_bytes text.new ≡ string_bytes text.old ++ items_text later (items_data (buckets_written (buckets_view buckets.now.items)))) }
{
    let mut comma = later;
    for bucket in buckets {
        push_comma(text, comma)?;
        match bucket {
            Bucket::Literal(name, weight) => push_pair(alloc, text, name.as_str(), *weight)?,
            Bucket::Computed(name, weight) => {
                text.push_str("[")?;
                push_node(alloc, text, name)?;
                text.push_str(",")?;
                push_node(alloc, text, weight)?;
                text.push_str("]")?;
            }
        }
        comma = true;
    }
    text.push_str("]")
}

/// Adds the text of a bucket that has a name and a weight.
#[tactic(auto, unfolding(flag_text::specs::Printing::text_of))]
fn push_pair(alloc: Global, text: &mut String, name: &str, weight: u32) -> Result<(), AllocError>
    ensures { OnOk result (string_bytes text.new ≡ string_bytes text.old ++ compact_text (data_of (bucket_written (literal_bucket name.now weight)))) }
{
    text.push_str("[")?;
    push_string(alloc, text, name)?;
    write!(text, ",{weight}]")
}

/// Adds what stands in front of the arguments of an operation of this name.
#[tactic(auto, unfolding(flag_text::specs::Printing::text_of))]
fn push_opening(alloc: Global, text: &mut String, name: &str) -> Result<(), AllocError>
    ensures { OnOk result (string_bytes text.new ≡ string_bytes text.old ++ opened name.now) }
{
    text.push_str("{")?;
    push_string(alloc, text, name)?;
    text.push_str(":[")
}

/// Adds a comma where something stands in front of what comes.
fn push_comma(text: &mut String, later: bool) -> Result<(), AllocError>
    ensures { OnOk result (string_bytes text.new ≡ string_bytes text.old ++ comma_if later) }
{
    if later {
        text.push_str(",")?;
    }
    Ok(())
}
