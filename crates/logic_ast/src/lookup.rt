//! The sites of an expression: its `fractional` operations, numbered in preorder from 0.
ghost use Rattle.std.specs.Prelude.{◌≡◌, ◌<◌, ◌^◌, ℕ, None, Ok, Err, IfSome, IsErrOf, option_map, length, string_bytes};
ghost use Rattle.std.specs.Option.{is_some};
ghost use Rattle.bucket_core.specs.Rule.{entries_view};
ghost use Rattle.flag_text.specs.Outcome.{GivesUnless};
ghost use Rattle.logic_ast.specs.Expr.{view};
ghost use Rattle.logic_ast.specs.Site.{site_view};
ghost use Rattle.logic_ast.specs.Sites.{sites, sites_in, sites_in_by, sites_in_buckets, preorder, site_at, entries_of, if_entries, parts_at};
ghost use Rattle.logic_ast.specs.View.{node_view, nodes_view, boxed_view, buckets_view};
ghost use Rattle.logic_ast.specs.Writing.{by_text_at};

use crate::copy::lowered;
use crate::expr::{Expr, Site};
use crate::fault::LogicFault;
use crate::find::find;
use crate::node::{Bucket, Node};
use crate::write::write_node;
use flag_text::print_tree;
use std::alloc::Global;

/// How many sites there are. It looks at each node.
pub fn sites(expr: &Expr) -> u32
    ensures value { result ≡ length (preorder (view expr.now)) }
    ensures numbered { (n : ℕ) → IfSome (site_at n (view expr.now)) (λ s. s.number ≡ n) }
{
    count(&expr.root)
}

#[cycle(count)]
fn count(node: &Node) -> u32
    requires { sites (node_view node.now) < 2 ^ 32 }
    ensures { result ≡ sites (node_view node.now) }
{
    match node {
        Node::Literal(_) => 0,
        Node::List(items) => count_in(items),
        Node::Operation(_, arguments) => count_in(arguments),
        Node::Fractional { by, buckets, .. } => {
            let inside = count_in_by(by) + count_in_buckets(buckets);
            inside + 1
        }
    }
}

#[cycle(count)]
fn count_in(nodes: &Vec<Node>) -> u32
    requires { sites_in (nodes_view nodes.now.items) < 2 ^ 32 }
    ensures { result ≡ sites_in (nodes_view nodes.now.items) }
{
    let mut total = 0;
    for node in nodes {
        total += count(node);
    }
    total
}

#[cycle(count)]
fn count_in_by(by: &Option<Box<Node>>) -> u32
    requires { sites_in_by (boxed_view by.now) < 2 ^ 32 }
    ensures { result ≡ sites_in_by (boxed_view by.now) }
{
    match by {
        None => 0,
        Some(by) => count(by),
    }
}

#[cycle(count)]
fn count_in_buckets(buckets: &Vec<Bucket<Node>>) -> u32
    requires { sites_in_buckets (buckets_view buckets.now.items) < 2 ^ 32 }
    ensures { result ≡ sites_in_buckets (buckets_view buckets.now.items) }
{
    let mut total = 0;
    for bucket in buckets {
        if let Bucket::Computed(name, weight) = bucket {
            total += count(name) + count(weight);
        }
    }
    total
}

/// The bucketing expression and the entries of site `n`.
///
/// `NoSite` where there is no such site, then `Computed` where one of its buckets is not literal. Neither takes memory.
pub fn site(alloc: Global, expr: &Expr, n: u32) -> Result<Site, LogicFault>
    ensures exact { GivesUnless LogicFault.WantOfMemory site_view result (parts_at n (view expr.now)) }
    ensures no_site { site_at n (view expr.now) ≡ None → IsErrOf result LogicFault.NoSite }
    ensures computed { parts_at n (view expr.now) ≡ Err LogicFault.Computed → IsErrOf result LogicFault.Computed }
{
    let Some((by, buckets)) = find(&expr.root, n) else {
        return Err(LogicFault::NoSite);
    };
    if !are_all_literal(buckets) {
        return Err(LogicFault::Computed);
    }
    let entries = entries_of(alloc, buckets)?;
    let by = match by {
        None => None,
        Some(by) => {
            let root = lowered(alloc, by, n + 1)?;
            Some(Expr::of(alloc, root)?)
        }
    };
    Ok(Site { by, entries })
}

/// Whether all of these are literal.
pub(crate) fn are_all_literal(buckets: &Vec<Bucket<Node>>) -> bool
    ensures { result ≡ is_some (entries_of (buckets_view buckets.now.items)) }
{
    for bucket in buckets {
        if let Bucket::Computed(_, _) = bucket {
            return false;
        }
    }
    true
}

fn entries_of(alloc: Global, buckets: &Vec<Bucket<Node>>) -> Result<Vec<(String, u64)>, LogicFault>
    ensures { GivesUnless LogicFault.WantOfMemory (λ v. entries_view v.items) result (if_entries (entries_of (buckets_view buckets.now.items)) (λ r. r)) }
{
    let mut entries = Vec::new(alloc);
    for bucket in buckets {
        match bucket {
            Bucket::Literal(name, weight) => {
                let name = name.clone()?;
                entries.push((name, u64::from(*weight)))?;
            }
            Bucket::Computed(_, _) => return Err(LogicFault::Computed),
        }
    }
    Ok(entries)
}

/// The compact text of the bucketing expression of site `n`, where it has one.
///
/// `NoSite` where there is no such site. Neither that nor the answer of a site without one takes memory.
pub fn by_text(alloc: Global, expr: &Expr, n: u32) -> Result<Option<String>, LogicFault>
    ensures exact { GivesUnless LogicFault.WantOfMemory (option_map string_bytes) result (by_text_at n (view expr.now)) }
    ensures no_site { site_at n (view expr.now) ≡ None → IsErrOf result LogicFault.NoSite }
    ensures no_by { by_text_at n (view expr.now) ≡ Ok None → result ≡ Ok None }
{
    let Some((by, _)) = find(&expr.root, n) else {
        return Err(LogicFault::NoSite);
    };
    match by {
        None => Ok(None),
        Some(by) => {
            let tree = write_node(alloc, by)?;
            Ok(Some(print_tree(alloc, &tree)?))
        }
    }
}
