//! What is wrong with an operation itself, whatever stands in its arguments.
ghost use Rattle.std.specs.Prelude.{◌≡◌};
ghost use Rattle.flag_text.specs.Shape.{list};
ghost use Rattle.flag_text.specs.View.{view, items_view};
ghost use Rattle.logic_ast.specs.FirstFault.{item_count, argument_count, is_bucket};
ghost use Rattle.logic_ast.specs.Misuse.{is_site_argument, first_no_bucket, no_bucket_in, misuse_of, fault_of};

use crate::fault::LogicFault;
use crate::operator::{Operator, is_fractional};
use flag_text::Tree;

/// What is wrong with an operation itself.
#[derive(Clone, Copy, Debug, PartialEq, Eq)]
pub enum Misuse {
    /// Its name is no operator's.
    Operator,
    /// The operator does not take so many arguments.
    Arguments(usize),
    /// The argument of the `fractional` at this place, counted from 0, is no bucket.
    Bucket(usize),
}

impl Misuse {
    /// Of an operation by its name and its arguments: the list of these, or one without its list. The arguments of a
    /// `fractional` are buckets by their shape, after a bucketing expression if the first is no list.
    pub fn of(name: &str, arguments: &Tree) -> Option<Misuse>
        ensures { result ≡ misuse_of name.now (view arguments.now) }
    {
        if is_fractional(name) {
            return Some(Misuse::Bucket(no_bucket_in(arguments)?));
        }
        let Some(operator) = Operator::named(name) else {
            return Some(Misuse::Operator);
        };
        let count = argument_count(arguments);
        if operator.takes(count) {
            return None;
        }
        Some(Misuse::Arguments(count))
    }

    /// The fault that it is refused with.
    pub fn fault(&self) -> LogicFault
        ensures { result ≡ fault_of self.now }
    {
        match self {
            Misuse::Operator => LogicFault::UnknownOperator,
            Misuse::Arguments(_) | Misuse::Bucket(_) => LogicFault::BadArguments,
        }
    }
}

fn argument_count(value: &Tree) -> usize
    ensures { result ≡ argument_count (view value.now) }
{
    match value {
        Tree::List(items) => item_count(items.as_slice()),
        _ => 1,
    }
}

fn item_count(items: &[Tree]) -> usize
    ensures { result ≡ item_count (items_view items.now) }
{
    items.len()
}

/// The first argument of a `fractional` that it may not have.
fn no_bucket_in(arguments: &Tree) -> Option<usize>
    ensures { result ≡ no_bucket_in (view arguments.now) }
{
    match arguments {
        Tree::List(items) => first_no_bucket(items.as_slice()),
        _ => None,
    }
}

fn first_no_bucket(items: &[Tree]) -> Option<usize>
    ensures { result ≡ first_no_bucket 0 (items_view items.now) }
{
    for (place, item) in items.iter().enumerate() {
        if !is_site_argument(place, item) {
            return Some(place);
        }
    }
    None
}

fn is_site_argument(place: usize, tree: &Tree) -> bool
    ensures { result ≡ is_site_argument place (view tree.now) }
{
    match tree {
        Tree::List(parts) => has_bucket_length(parts.as_slice()),
        _ => place == 0,
    }
}

fn has_bucket_length(parts: &[Tree]) -> bool
    ensures { result ≡ is_bucket (list (items_view parts.now)) }
{
    match parts {
        [] => false,
        [_] => true,
        [_, _] => true,
        [_, _, _, ..] => false,
    }
}
