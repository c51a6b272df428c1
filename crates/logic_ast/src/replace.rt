//! Another rule at a site.
ghost use Rattle.std.specs.Prelude.{◌≡◌, ◌≢◌, ◌<◌, ◌^◌, ℕ, None, Ok, Err, IfOk, IsErrOf};
ghost use Rattle.bucket_core.specs.Rule.{Entries, total_weight};
ghost use Rattle.flag_text.specs.Outcome.{GivesUnless};
ghost use Rattle.logic_ast.specs.Expr.{view};
ghost use Rattle.logic_ast.specs.Sites.{site_at, entries_at, literal_buckets, with_entries, all_with_entries, by_with_entries, buckets_with_entries, replaced};
ghost use Rattle.logic_ast.specs.Writing.{by_text_at};
ghost use Rattle.logic_ast.specs.View.{node_view, nodes_view, boxed_view, buckets_view};

use crate::copy::by_lowered;
use crate::expr::Expr;
use crate::fault::LogicFault;
use crate::find::find;
use crate::lookup::are_all_literal;
use crate::node::{Bucket, Node};
use bucket_core::Rule;
use std::alloc::{AllocError, Global};

/// The expression with the entries of the rule as the buckets of site `n`. The bucketing expression stays, and so does
/// all else.
///
/// `NoSite` where there is no such site, then `Computed` where one of its buckets is not literal. Neither takes memory.
pub fn replace_site(alloc: Global, expr: &Expr, n: u32, rule: &Rule) -> Result<Expr, LogicFault>
    ensures exact { GivesUnless LogicFault.WantOfMemory view result (replaced n rule.now (view expr.now)) }
    ensures no_site { site_at n (view expr.now) ≡ None → IsErrOf result LogicFault.NoSite }
    ensures computed { replaced n rule.now (view expr.now) ≡ Err LogicFault.Computed → IsErrOf result LogicFault.Computed }
    ensures entries { IfOk result (λ e. entries_at n (view e) ≡ Ok rule.now) }
    ensures bucketing { IfOk result (λ e. by_text_at n (view e) ≡ by_text_at n (view expr.now)) }
    ensures others { IfOk result (λ e. (m : ℕ) → m ≢ n → entries_at m (view e) ≡ entries_at m (view expr.now)) }
    // apart from the entries of the site both are one
    ensures rest { IfOk result (λ e. (q : Entries) → with_entries n q (view e) ≡ with_entries n q (view expr.now)) }
{
    let Some((_, buckets)) = find(&expr.root, n) else {
        return Err(LogicFault::NoSite);
    };
    if !are_all_literal(buckets) {
        return Err(LogicFault::Computed);
    }
    prove!(rule.total() < 1 << 31);
    let root = with_entries(alloc, &expr.root, n, rule)?;
    Ok(Expr::of(alloc, root)?)
}

#[cycle(replace)]
fn with_entries(alloc: Global, node: &Node, n: u32, rule: &Rule) -> Result<Node, AllocError>
    requires { total_weight rule.now < 2 ^ 31 }
    ensures { IfOk result (λ e. node_view e ≡ with_entries n rule.now (node_view node.now)) }
{
    match node {
        Node::Literal(tree) => Ok(Node::Literal(tree.copy(alloc)?)),
        Node::List(items) => Ok(Node::List(all_with_entries(alloc, items, n, rule)?)),
        Node::Operation(operator, arguments) => Ok(Node::Operation(
            *operator,
            all_with_entries(alloc, arguments, n, rule)?,
        )),
        Node::Fractional { site, by, buckets } => {
            if *site == n {
                let by = by_lowered(alloc, by, 0)?;
                let buckets = literal_buckets(alloc, rule)?;
                return Ok(Node::Fractional {
                    site: *site,
                    by,
                    buckets,
                });
            }
            let by = by_with_entries(alloc, by, n, rule)?;
            let buckets = buckets_with_entries(alloc, buckets, n, rule)?;
            Ok(Node::Fractional {
                site: *site,
                by,
                buckets,
            })
        }
    }
}

fn literal_buckets(alloc: Global, rule: &Rule) -> Result<Vec<Bucket<Node>>, AllocError>
    requires { total_weight rule.now < 2 ^ 31 }
    ensures { IfOk result (λ v. buckets_view v.items ≡ literal_buckets rule.now) }
{
    let mut buckets = Vec::new(alloc);
    for (name, weight) in rule.entries() {
        let name = String::from_str(alloc, name)?;
        buckets.push(Bucket::Literal(name, weight as u32))?;
    }
    Ok(buckets)
}

#[cycle(replace)]
fn all_with_entries(
    alloc: Global,
    nodes: &Vec<Node>,
    n: u32,
    rule: &Rule,
) -> Result<Vec<Node>, AllocError>
    requires { total_weight rule.now < 2 ^ 31 }
    ensures { IfOk result (λ v. nodes_view v.items ≡ all_with_entries n rule.now (nodes_view nodes.now.items)) }
{
    let mut copies = Vec::new(alloc);
    for node in nodes {
        copies.push(with_entries(alloc, node, n, rule)?)?;
    }
    Ok(copies)
}

#[cycle(replace)]
fn by_with_entries(
    alloc: Global,
    by: &Option<Box<Node>>,
    n: u32,
    rule: &Rule,
) -> Result<Option<Box<Node>>, AllocError>
    requires { total_weight rule.now < 2 ^ 31 }
    ensures { IfOk result (λ b. boxed_view b ≡ by_with_entries n rule.now (boxed_view by.now)) }
{
    match by {
        None => Ok(None),
        Some(by) => Ok(Some(Box::new(alloc, with_entries(alloc, by, n, rule)?)?)),
    }
}

#[cycle(replace)]
fn buckets_with_entries(
    alloc: Global,
    buckets: &Vec<Bucket<Node>>,
    n: u32,
    rule: &Rule,
) -> Result<Vec<Bucket<Node>>, AllocError>
    requires { total_weight rule.now < 2 ^ 31 }
    ensures { IfOk result (λ v. buckets_view v.items ≡ buckets_with_entries n rule.now (buckets_view buckets.now.items)) }
{
    let mut copies = Vec::new(alloc);
    for bucket in buckets {
        match bucket {
            Bucket::Literal(name, weight) => {
                copies.push(Bucket::Literal(name.clone()?, *weight))?;
            }
            Bucket::Computed(name, weight) => {
                let name = with_entries(alloc, name, n, rule)?;
                copies.push(Bucket::Computed(name, with_entries(alloc, weight, n, rule)?))?;
            }
        }
    }
    Ok(copies)
}
