//! From an expression to a tree.
ghost use Rattle.std.specs.Prelude.{◌≡◌, true, Ok, IfOk, option_map};
ghost use Rattle.flag_text.specs.Shape.{is_whole, no_items, item};
ghost use Rattle.flag_text.specs.View.{view as tree_view, items_view};
ghost use Rattle.logic_ast.specs.Expr.{view};
ghost use Rattle.logic_ast.specs.Reading.{reading};
ghost use Rattle.logic_ast.specs.Size.{full_size, expression_size};
ghost use Rattle.logic_ast.specs.Stripped.{without_literals};
ghost use Rattle.logic_ast.specs.View.{node_view, nodes_view, boxed_view, buckets_view};
ghost use Rattle.logic_ast.specs.Writing.{applied, pair, written, all_written, by_written, buckets_written};

use crate::expr::Expr;
use crate::node::{Bucket, Node};
use crate::operator::FRACTIONAL;
use flag_text::Tree;
use std::alloc::{AllocError, Global};

/// The tree that is written for an expression, which reads as it: arguments always in a list, each weight written out.
pub fn write_expr(alloc: Global, expr: &Expr) -> Result<Tree, AllocError>
    ensures value { IfOk result (λ t. tree_view t ≡ written (view expr.now)) }
    ensures whole { IfOk result (λ t. is_whole (tree_view t) ≡ true) }
    ensures size { IfOk result (λ t. expression_size (tree_view t) ≡ full_size (written (without_literals (view expr.now)))) }
    ensures reads_back { IfOk result (λ t. reading (tree_view t) ≡ Ok (view expr.now)) }
{
    write_node(alloc, &expr.root)
}

#[cycle(write)]
pub(crate) fn write_node(alloc: Global, node: &Node) -> Result<Tree, AllocError>
    ensures { IfOk result (λ t. tree_view t ≡ written (node_view node.now)) }
{
    match node {
        Node::Literal(tree) => tree.copy(alloc),
        Node::List(items) => Ok(Tree::List(write_nodes(alloc, items)?)),
        Node::Operation(operator, arguments) => {
            let arguments = write_nodes(alloc, arguments)?;
            apply(alloc, operator.name(), arguments)
        }
        Node::Fractional { by, buckets, .. } => {
            let mut arguments = write_buckets(alloc, buckets)?;
            if let Some(by) = by {
                arguments.insert(0, write_node(alloc, by)?)?;
            }
            apply(alloc, FRACTIONAL, arguments)
        }
    }
}

/// The operation of this name on these arguments.
fn apply(alloc: Global, name: &str, arguments: Vec<Tree>) -> Result<Tree, AllocError>
    ensures { IfOk result (λ t. tree_view t ≡ applied name.now (items_view arguments.items)) }
{
    let name = String::from_str(alloc, name)?;
    let mut members = Vec::new(alloc);
    members.push((name, Tree::List(arguments)))?;
    Ok(Tree::Object(members))
}

#[cycle(write)]
fn write_nodes(alloc: Global, nodes: &Vec<Node>) -> Result<Vec<Tree>, AllocError>
    ensures { IfOk result (λ v. items_view v.items ≡ all_written (nodes_view nodes.now.items)) }
{
    let mut trees = Vec::new(alloc);
    for node in nodes {
        trees.push(write_node(alloc, node)?)?;
    }
    Ok(trees)
}

#[cycle(write)]
fn write_buckets(alloc: Global, buckets: &Vec<Bucket<Node>>) -> Result<Vec<Tree>, AllocError>
    ensures { IfOk result (λ v. items_view v.items ≡ buckets_written (buckets_view buckets.now.items)) }
{
    let mut trees = Vec::new(alloc);
    for bucket in buckets {
        match bucket {
            Bucket::Literal(name, weight) => {
                let name = Tree::Text(name.clone()?);
                trees.push(write_pair(alloc, name, Tree::Whole(i64::from(*weight)))?)?;
            }
            Bucket::Computed(name, weight) => {
                let name = write_node(alloc, name)?;
                let weight = write_node(alloc, weight)?;
                trees.push(write_pair(alloc, name, weight)?)?;
            }
        }
    }
    Ok(trees)
}

/// A bucket's list.
fn write_pair(alloc: Global, name: Tree, weight: Tree) -> Result<Tree, AllocError>
    ensures { IfOk result (λ t. tree_view t ≡ pair (tree_view name) (tree_view weight)) }
{
    let mut parts = Vec::new(alloc);
    parts.push(name)?;
    parts.push(weight)?;
    Ok(Tree::List(parts))
}
