//! The first place in a targeting at which something is doubted: the steps to it, and what stands there.
ghost use Rattle.std.specs.Prelude.{◌≡◌, false};
ghost use Rattle.flag_defs.specs.Flag.{flag_view, is_broken};

use bucket_core::weight_of;
use file_diagnostics::{Lines, put_weight_fault};
use flag_defs::Flag;
use flag_doubts::{
    Given, are_too_heavy, are_weightless, given_by, has_truth, is_weightless, literal_truth,
};
use flag_text::Tree;
use flagops_files::quoted;
use logic_ast::{Bucket, Node, Operator};
use std::alloc::{AllocError, Global};

/// The first place in an expression whose result does not name a variant of a flag.
#[cycle(foreign)]
pub(crate) fn foreign_in(
    alloc: Global,
    node: &Node,
    flag: &Flag,
) -> Result<Option<String>, AllocError>
    requires { is_broken (flag_view flag.now) ≡ false }
{
    match node {
        Node::Literal(tree) => foreign_literal(alloc, tree, flag),
        Node::List(_) => is_no_name(alloc),
        Node::Operation(Operator::If, arguments) => foreign_branch(alloc, arguments, flag),
        Node::Operation(Operator::And, arguments) => {
            stepped(
                alloc,
                "and",
                foreign_argument(alloc, arguments, false, flag)?,
            )
        }
        Node::Operation(Operator::Or, arguments) => {
            stepped(alloc, "or", foreign_argument(alloc, arguments, true, flag)?)
        }
        Node::Operation(operator, _) => foreign_given(alloc, *operator, flag),
        Node::Fractional { by, buckets, .. } => {
            let first = usize::from(by.is_some());
            stepped(
                alloc,
                "fractional",
                foreign_bucket(alloc, buckets, first, flag)?,
            )
        }
    }
}

/// Of the arguments of which an operation gives the first that counts as wanted, else the last.
#[cycle(foreign)]
fn foreign_argument(
    alloc: Global,
    nodes: &Vec<Node>,
    wanted: bool,
    flag: &Flag,
) -> Result<Option<String>, AllocError>
    requires { is_broken (flag_view flag.now) ≡ false }
{
    for i in 0..nodes.len() {
        let is_taken = match literal_truth(&nodes[i]) {
            Some(truth) => Some(truth == wanted),
            None => None,
        };
        if is_taken != Some(false) || i + 1 == nodes.len() {
            if let Some(place) = foreign_in(alloc, &nodes[i], flag)? {
                return at(alloc, i, place);
            }
        }
        if is_taken == Some(true) {
            return Ok(None);
        }
    }
    Ok(None)
}

/// Of pairs of a test and a branch, and a last branch.
#[cycle(foreign)]
fn foreign_branch(
    alloc: Global,
    nodes: &Vec<Node>,
    flag: &Flag,
) -> Result<Option<String>, AllocError>
    requires { is_broken (flag_view flag.now) ≡ false }
{
    let pairs = nodes.len() / 2;
    for pair in 0..pairs {
        let test = literal_truth(&nodes[2 * pair]);
        if test != Some(false) {
            if let Some(place) = foreign_in(alloc, &nodes[2 * pair + 1], flag)? {
                return stepped(alloc, "if", at(alloc, 2 * pair + 1, place)?);
            }
        }
        if test == Some(true) {
            return Ok(None);
        }
    }
    if nodes.len() % 2 == 1 {
        if let Some(place) = foreign_in(alloc, &nodes[2 * pairs], flag)? {
            return stepped(alloc, "if", at(alloc, 2 * pairs, place)?);
        }
    }
    Ok(None)
}

#[cycle(foreign)]
fn foreign_bucket(
    alloc: Global,
    buckets: &Vec<Bucket<Node>>,
    first: usize,
    flag: &Flag,
) -> Result<Option<String>, AllocError>
    requires { is_broken (flag_view flag.now) ≡ false }
{
    for i in 0..buckets.len() {
        let found = match &buckets[i] {
            bucket if is_weightless(bucket) => None,
            Bucket::Literal(name, _) => foreign_name(alloc, name.as_str(), flag)?,
            Bucket::Computed(name, _) => foreign_in(alloc, name, flag)?,
        };
        if let Some(place) = found {
            return at(alloc, i.saturating_add(first), place);
        }
    }
    Ok(None)
}

/// What an operation gives, where that names no variant whatever its arguments are.
fn foreign_given(
    alloc: Global,
    operator: Operator,
    flag: &Flag,
) -> Result<Option<String>, AllocError>
    requires { is_broken (flag_view flag.now) ≡ false }
{
    match given_by(operator) {
        Given::Truth if !has_truth(flag) => told(alloc, " is true or false"),
        Given::NoName => is_no_name(alloc),
        _ => Ok(None),
    }
}

fn foreign_literal(alloc: Global, tree: &Tree, flag: &Flag) -> Result<Option<String>, AllocError>
    requires { is_broken (flag_view flag.now) ≡ false }
{
    match tree {
        Tree::Null => Ok(None),
        Tree::Text(name) => foreign_name(alloc, name.as_str(), flag),
        Tree::Bool(true) => foreign_name(alloc, "true", flag),
        Tree::Bool(false) => foreign_name(alloc, "false", flag),
        Tree::Object(members) => foreign_object(alloc, members.len()),
        _ => is_no_name(alloc),
    }
}

/// An object of so many members, which is no operation.
fn foreign_object(alloc: Global, members: usize) -> Result<Option<String>, AllocError> {
    if members < 2 {
        return is_no_name(alloc);
    }
    let shown = format!(in alloc;
        " is an object of {members} members; an operation has one, its operator"
    )?;
    Ok(Some(shown))
}

fn foreign_name(alloc: Global, name: &str, flag: &Flag) -> Result<Option<String>, AllocError>
    requires { is_broken (flag_view flag.now) ≡ false }
{
    if flag.variant(name).is_some() {
        return Ok(None);
    }
    let name = quoted(alloc, name)?;
    let shown = format!(in alloc; " is {name}")?;
    Ok(Some(shown))
}

fn is_no_name(alloc: Global) -> Result<Option<String>, AllocError> {
    told(alloc, " is not a name")
}

fn told(alloc: Global, text: &str) -> Result<Option<String>, AllocError> {
    Ok(Some(String::from_str(alloc, text)?))
}

/// The first `fractional` of an expression that gives nobody a variant by its literal weights, and why: its own weights go before
/// what stands in it.
#[cycle(ill)]
pub(crate) fn ill_in(alloc: Global, node: &Node) -> Result<Option<String>, AllocError> {
    match node {
        Node::Literal(_) => Ok(None),
        Node::List(items) => ill_item(alloc, items),
        Node::Operation(operator, arguments) => {
            stepped(alloc, operator.name(), ill_item(alloc, arguments)?)
        }
        Node::Fractional { by, buckets, .. } => {
            let first = usize::from(by.is_some());
            let place = match ill_weights(alloc, buckets, first)? {
                Some(place) => Some(place),
                None => match ill_by(alloc, by)? {
                    Some(place) => Some(place),
                    None => ill_bucket(alloc, buckets, first)?,
                },
            };
            stepped(alloc, "fractional", place)
        }
    }
}

#[cycle(ill)]
fn ill_item(alloc: Global, nodes: &Vec<Node>) -> Result<Option<String>, AllocError> {
    for i in 0..nodes.len() {
        if let Some(place) = ill_in(alloc, &nodes[i])? {
            return at(alloc, i, place);
        }
    }
    Ok(None)
}

#[cycle(ill)]
fn ill_by(alloc: Global, by: &Option<Box<Node>>) -> Result<Option<String>, AllocError> {
    match by {
        Some(by) => within(alloc, 0, ill_in(alloc, by)?),
        None => Ok(None),
    }
}

#[cycle(ill)]
fn ill_bucket(
    alloc: Global,
    buckets: &Vec<Bucket<Node>>,
    first: usize,
) -> Result<Option<String>, AllocError> {
    for i in 0..buckets.len() {
        if let Some(place) = ill_pair(alloc, &buckets[i])? {
            return at(alloc, i.saturating_add(first), place);
        }
    }
    Ok(None)
}

/// Of the name of a bucket and its weight.
#[cycle(ill)]
fn ill_pair(alloc: Global, bucket: &Bucket<Node>) -> Result<Option<String>, AllocError> {
    match bucket {
        Bucket::Literal(_, _) => Ok(None),
        Bucket::Computed(name, weight) => match ill_in(alloc, name)? {
            Some(place) => at(alloc, 0, place),
            None => within(alloc, 1, ill_in(alloc, weight)?),
        },
    }
}

/// Of the weights of buckets, each and all.
fn ill_weights(
    alloc: Global,
    buckets: &Vec<Bucket<Node>>,
    first: usize,
) -> Result<Option<String>, AllocError> {
    for i in 0..buckets.len() {
        if let Some(place) = ill_weight(alloc, &buckets[i])? {
            return at(alloc, i.saturating_add(first), place);
        }
    }
    if are_too_heavy(buckets) {
        return told(alloc, " weighs more than 2147483647");
    }
    if are_weightless(buckets) {
        return told(alloc, " weighs 0");
    }
    Ok(None)
}

/// The literal weight of a bucket, where it is not one.
fn ill_weight(alloc: Global, bucket: &Bucket<Node>) -> Result<Option<String>, AllocError> {
    match bucket {
        Bucket::Computed(_, Node::Literal(weight)) if weight_of(weight).is_none() => {
            Ok(Some(weight_fault(alloc, weight)?))
        }
        _ => Ok(None),
    }
}

/// What stands in the place of the weight of a bucket, and what is taken there.
fn weight_fault(alloc: Global, weight: &Tree) -> Result<String, AllocError> {
    let mut lines = Lines::new(alloc);
    write!(lines, "[1] is ");
    put_weight_fault(&mut lines, weight);
    write!(lines, "; weights are whole numbers from 0 to 2147483647");
    lines.finish()
}

/// A place below an operation of this name.
fn stepped(alloc: Global, name: &str, place: Option<String>) -> Result<Option<String>, AllocError> {
    match place {
        Some(place) => {
            let whole = format!(in alloc; ".{name}{place}")?;
            Ok(Some(whole))
        }
        None => Ok(None),
    }
}

/// A place in an item of a list, where there is one.
fn within(alloc: Global, item: usize, place: Option<String>) -> Result<Option<String>, AllocError> {
    match place {
        Some(place) => at(alloc, item, place),
        None => Ok(None),
    }
}

fn at(alloc: Global, item: usize, place: String) -> Result<Option<String>, AllocError> {
    let whole = format!(in alloc; "[{item}]{place}")?;
    Ok(Some(whole))
}
