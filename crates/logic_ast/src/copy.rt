//! Copies of expressions.
ghost use Rattle.std.specs.Prelude.{◌≡◌, IfOk};
ghost use Rattle.logic_ast.specs.Expr.{view};
ghost use Rattle.logic_ast.specs.Sites.{lowered, all_lowered, by_lowered, buckets_lowered};
ghost use Rattle.logic_ast.specs.View.{node_view, nodes_view, boxed_view, buckets_view};

use crate::expr::Expr;
use crate::node::{Bucket, Node};
use std::alloc::{AllocError, Global};

impl Expr {
    /// An equal expression.
    pub fn copy(&self, alloc: Global) -> Result<Expr, AllocError>
        ensures { IfOk result (λ e. view e ≡ view self.now) }
    {
        let root = lowered(alloc, &self.root, 0)?;
        Ok(Expr::of(alloc, root)?)
    }
}

/// A copy in which the number of each site is `by` less.
#[cycle(copy)]
pub(crate) fn lowered(alloc: Global, node: &Node, less: u32) -> Result<Node, AllocError>
    ensures { IfOk result (λ e. node_view e ≡ lowered less (node_view node.now)) }
{
    match node {
        Node::Literal(tree) => Ok(Node::Literal(tree.copy(alloc)?)),
        Node::List(items) => Ok(Node::List(all_lowered(alloc, items, less)?)),
        Node::Operation(operator, arguments) => {
            Ok(Node::Operation(*operator, all_lowered(alloc, arguments, less)?))
        }
        Node::Fractional { site, by, buckets } => {
            let site = site.saturating_sub(less);
            let by = by_lowered(alloc, by, less)?;
            let buckets = buckets_lowered(alloc, buckets, less)?;
            Ok(Node::Fractional { site, by, buckets })
        }
    }
}

#[cycle(copy)]
fn all_lowered(alloc: Global, nodes: &Vec<Node>, less: u32) -> Result<Vec<Node>, AllocError>
    ensures { IfOk result (λ v. nodes_view v.items ≡ all_lowered less (nodes_view nodes.now.items)) }
{
    let mut copies = Vec::new(alloc);
    for node in nodes {
        copies.push(lowered(alloc, node, less)?)?;
    }
    Ok(copies)
}

#[cycle(copy)]
pub(crate) fn by_lowered(
    alloc: Global,
    by: &Option<Box<Node>>,
    less: u32,
) -> Result<Option<Box<Node>>, AllocError>
    ensures { IfOk result (λ b. boxed_view b ≡ by_lowered less (boxed_view by.now)) }
{
    match by {
        None => Ok(None),
        Some(by) => Ok(Some(Box::new(alloc, lowered(alloc, by, less)?)?)),
    }
}

#[cycle(copy)]
fn buckets_lowered(
    alloc: Global,
    buckets: &Vec<Bucket<Node>>,
    less: u32,
) -> Result<Vec<Bucket<Node>>, AllocError>
    ensures { IfOk result (λ v. buckets_view v.items ≡ buckets_lowered less (buckets_view buckets.now.items)) }
{
    let mut copies = Vec::new(alloc);
    for bucket in buckets {
        match bucket {
            Bucket::Literal(name, weight) => {
                copies.push(Bucket::Literal(name.clone()?, *weight))?;
            }
            Bucket::Computed(name, weight) => {
                let name = lowered(alloc, name, less)?;
                copies.push(Bucket::Computed(name, lowered(alloc, weight, less)?))?;
            }
        }
    }
    Ok(copies)
}
