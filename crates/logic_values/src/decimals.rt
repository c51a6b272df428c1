//! Comparison by exact values, where one of the values is a decimal: a number of the context that is not whole.
ghost use Rattle.std.specs.Prelude.{◌≡◌, option_map};
ghost use Rattle.logic_values.specs.View.{gives, seen};
ghost use Rattle.flag_text.specs.Outcome.{seen_as};
ghost use Rattle.flag_text.specs.Shape.{member, no_members};
ghost use Rattle.flag_text.specs.View.{view, members_view};
ghost use Rattle.logic_values.specs.Decimals.{at_most, behind_point, equal, exact_value, if_exact, is_before, is_decimal, is_level, is_not_behind, is_readable, less, order_of, same, spelled_value, spelling_in, spelling_of, whole_value};
ghost use Rattle.logic_values.specs.Views.{seen_view};

use crate::comparison::{is_at_most, is_equal, is_less, is_same};
use crate::{Decimal, DecimalFault, EvalFault, Seen, order, read, read_text};
use flag_text::Tree;
use itoa::Buffer;
use std::cmp::Ordering;

/// Whether the value is a decimal: an object as a context has it for a number that is not whole.
pub fn is_decimal(value: Seen) -> bool
    ensures { result ≡ is_decimal (seen_view value.entry) }
{
    spelling_of(value).is_some()
}

/// Whether the value is a decimal of at most 40 significant digits, the last of them with an exponent from -400 to 400.
pub fn is_readable(value: Seen) -> bool
    ensures { result ≡ is_readable (seen_view value.entry) }
{
    matches!(spelled_value(value), Ok(Some(_)))
}

/// `<`, where one of the two is a decimal by their exact values. `Arithmetic` where one of those is beyond the limits of exact numbers.
pub fn less(a: Seen, b: Seen) -> Result<bool, EvalFault>
    ensures { result ≡ less (seen_view a.entry) (seen_view b.entry) }
{
    if is_decimal(a) || is_decimal(b) {
        Ok(is_before(order_of(a, b)?))
    } else {
        Ok(is_less(a, b))
    }
}

/// `<=`, as [`less`].
pub fn at_most(a: Seen, b: Seen) -> Result<bool, EvalFault>
    ensures { result ≡ at_most (seen_view a.entry) (seen_view b.entry) }
{
    if is_decimal(a) || is_decimal(b) {
        Ok(is_not_behind(order_of(a, b)?))
    } else {
        Ok(is_at_most(a, b))
    }
}

/// `==`, as [`less`].
pub fn equal(a: Seen, b: Seen) -> Result<bool, EvalFault>
    ensures { result ≡ equal (seen_view a.entry) (seen_view b.entry) }
{
    if is_decimal(a) || is_decimal(b) {
        Ok(is_level(order_of(a, b)?))
    } else {
        Ok(is_equal(a, b))
    }
}

/// `===`: two decimals of one value; a decimal is nothing of another kind. Faults as [`less`].
pub fn same(a: Seen, b: Seen) -> Result<bool, EvalFault>
    ensures { result ≡ same (seen_view a.entry) (seen_view b.entry) }
{
    if is_decimal(a) && is_decimal(b) {
        Ok(is_level(order_of(a, b)?))
    } else {
        Ok(is_same(a, b))
    }
}

fn is_before(order: Option<Ordering>) -> bool
    ensures { result ≡ is_before order }
{
    matches!(order, Some(Ordering::Less))
}

fn is_not_behind(order: Option<Ordering>) -> bool
    ensures { result ≡ is_not_behind order }
{
    match order {
        Some(Ordering::Less) => true,
        Some(Ordering::Equal) => true,
        _ => false,
    }
}

fn is_level(order: Option<Ordering>) -> bool
    ensures { result ≡ is_level order }
{
    matches!(order, Some(Ordering::Equal))
}

/// The order of the exact values of two, where both have one.
fn order_of(a: Seen, b: Seen) -> Result<Option<Ordering>, EvalFault>
    ensures { result ≡ order_of (seen_view a.entry) (seen_view b.entry) }
{
    let a = exact_value(a)?;
    let b = exact_value(b)?;
    match (a, b) {
        (Some(a), Some(b)) => Ok(Some(order(&a, &b))),
        _ => Ok(None),
    }
}

/// The exact value, where there is one.
fn exact_value(value: Seen) -> Result<Option<Decimal>, EvalFault>
    ensures { seen_as (option_map seen) result ≡ exact_value (seen_view value.entry) }
{
    match value {
        Seen::Whole(n) => whole_value(n),
        Seen::Bool(b) => whole_value(b as i64),
        Seen::Text(text) => if_exact(read_text(text.as_bytes())),
        _ => spelled_value(value),
    }
}

fn whole_value(n: i64) -> Result<Option<Decimal>, EvalFault>
    ensures { seen_as (option_map seen) result ≡ whole_value n }
{
    let mut room = Buffer::new();
    if_exact(read(room.format(n).as_bytes()))
}

/// The value of a decimal, none of any other value.
fn spelled_value(value: Seen) -> Result<Option<Decimal>, EvalFault>
    ensures { seen_as (option_map seen) result ≡ spelled_value (spelling_of (seen_view value.entry)) }
{
    match spelling_of(value) {
        Some(spelling) => if_exact(read(spelling)),
        None => Ok(None),
    }
}

fn if_exact(number: Result<Decimal, DecimalFault>) -> Result<Option<Decimal>, EvalFault>
    ensures { seen_as (option_map seen) result ≡ if_exact (gives number) }
{
    match number {
        Ok(number) => Ok(Some(number)),
        Err(DecimalFault::NotDecimal) => Ok(None),
        Err(DecimalFault::OutOfRange) => Err(EvalFault::Arithmetic),
    }
}

/// The spelling of a decimal, as the context had it; none of any other value.
#[tactic(auto, using(crate::proofs::Objects::no_context, crate::proofs::Objects::no_fold))]
pub fn spelling_of<'a>(value: Seen<'_, 'a>) -> Option<&'a [u8]>
    ensures { option_map (λ s. s.now) result ≡ spelling_of (seen_view value.entry) }
{
    match value {
        Seen::Object(members) => spelling_in(members),
        _ => None,
    }
}

fn spelling_in(members: &[(String, Tree)]) -> Option<&[u8]>
    ensures { option_map (λ s. s.now) result ≡ spelling_in (members_view members.now) }
{
    match members {
        [] => None,
        [member] => spelling_at(member.0.as_str(), &member.1),
        [_, _, ..] => None,
    }
}

fn spelling_at<'a>(name: &'a str, number: &Tree) -> Option<&'a [u8]>
    ensures { option_map (λ s. s.now) result ≡ spelling_in (member name.now (view number.now) no_members) }
{
    match number {
        Tree::Other => behind_point(name.as_bytes()),
        _ => None,
    }
}

fn behind_point(name: &[u8]) -> Option<&[u8]>
    ensures { option_map (λ s. s.now) result ≡ behind_point name.now }
{
    match name {
        [b'.', spelling @ ..] => Some(spelling),
        _ => None,
    }
}
