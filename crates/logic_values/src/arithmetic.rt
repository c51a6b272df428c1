//! Whole-number arithmetic on values, from the left: `+`, `*`, `-`, `%`, `max` and `min`.
ghost use Rattle.std.specs.Prelude.{◌≡◌, ◌+ℤ◌, ◌-ℤ◌, ◌*ℤ◌, neg_ℤ, map, option_and_then};
ghost use Rattle.std.specs.Int.{int_max, int_min};
ghost use Rattle.logic_values.specs.Arithmetic.{step, folded, folded_from_first, sum, product, maximum, minimum, difference, remainder, remainder_of};
ghost use Rattle.logic_values.specs.Number.{in_range};
ghost use Rattle.logic_values.specs.Views.{seen_view, value_view};

use crate::number::{in_range, number_of};
use crate::seen::Seen;
use crate::value::Value;

/// `+`, of no values 0.
pub fn sum(values: &[Value]) -> Option<i64>
    ensures { result ≡ sum (map value_view values.now) }
{
    let mut total = Some(0);
    for value in values {
        total = added(total, number_of(value.seen()));
    }
    total
}

/// `*`
pub fn product(values: &[Value]) -> Option<i64>
    ensures { result ≡ product (map value_view values.now) }
{
    let mut total = Some(1);
    for value in values {
        total = multiplied(total, number_of(value.seen()));
    }
    total
}

/// `max`, of one value or more.
pub fn maximum(values: &[Value]) -> Option<i64>
    ensures { result ≡ maximum (map value_view values.now) }
{
    match values {
        [] => None,
        [first, rest @ ..] => largest(number_of(first.seen()), rest),
    }
}

/// `min`, of one value or more.
pub fn minimum(values: &[Value]) -> Option<i64>
    ensures { result ≡ minimum (map value_view values.now) }
{
    match values {
        [] => None,
        [first, rest @ ..] => least(number_of(first.seen()), rest),
    }
}

/// `-`: the negation of one number, the difference of two.
pub fn difference(values: &[Value]) -> Option<i64>
    ensures { result ≡ difference (map value_view values.now) }
{
    match values {
        [] => None,
        [one] => negated(number_of(one.seen())),
        [first, second, ..] => subtracted(number_of(first.seen()), number_of(second.seen())),
    }
}

/// `%`: the remainder, which has the sign of the dividend; none by 0.
pub fn remainder(dividend: Seen, divisor: Seen) -> Option<i64>
    ensures { result ≡ remainder (seen_view dividend.entry) (seen_view divisor.entry) }
{
    match (number_of(dividend), number_of(divisor)) {
        (Some(m), Some(n)) => remainder_of(m, n),
        _ => None,
    }
}

fn largest(first: Option<i64>, values: &[Value]) -> Option<i64>
    ensures { result ≡ folded int_max first (map value_view values.now) }
{
    let mut most = first;
    for value in values {
        most = larger(most, number_of(value.seen()));
    }
    most
}

fn least(first: Option<i64>, values: &[Value]) -> Option<i64>
    ensures { result ≡ folded int_min first (map value_view values.now) }
{
    let mut least = first;
    for value in values {
        least = smaller(least, number_of(value.seen()));
    }
    least
}

fn added(a: Option<i64>, b: Option<i64>) -> Option<i64>
    ensures { result ≡ step ◌+ℤ◌ a b }
{
    match (a, b) {
        (Some(a), Some(b)) => sum_of(a, b),
        _ => None,
    }
}

fn subtracted(a: Option<i64>, b: Option<i64>) -> Option<i64>
    ensures { result ≡ step ◌-ℤ◌ a b }
{
    match (a, b) {
        (Some(a), Some(b)) => difference_of(a, b),
        _ => None,
    }
}

fn multiplied(a: Option<i64>, b: Option<i64>) -> Option<i64>
    ensures { result ≡ step ◌*ℤ◌ a b }
{
    match (a, b) {
        (Some(a), Some(b)) => product_of(a, b),
        _ => None,
    }
}

fn larger(a: Option<i64>, b: Option<i64>) -> Option<i64>
    ensures { result ≡ step int_max a b }
{
    match (a, b) {
        (Some(a), Some(b)) => in_range(a.max(b)),
        _ => None,
    }
}

fn smaller(a: Option<i64>, b: Option<i64>) -> Option<i64>
    ensures { result ≡ step int_min a b }
{
    match (a, b) {
        (Some(a), Some(b)) => in_range(a.min(b)),
        _ => None,
    }
}

#[tactic(auto, using(crate::proofs::Ranges::out_of_range))]
fn sum_of(a: i64, b: i64) -> Option<i64>
    ensures { result ≡ in_range (a +ℤ b) }
{
    match a.checked_add(b) {
        Some(n) => in_range(n),
        None => None,
    }
}

#[tactic(auto, using(crate::proofs::Ranges::out_of_range))]
fn difference_of(a: i64, b: i64) -> Option<i64>
    ensures { result ≡ in_range (a -ℤ b) }
{
    match a.checked_sub(b) {
        Some(n) => in_range(n),
        None => None,
    }
}

#[tactic(auto, using(crate::proofs::Ranges::out_of_range))]
fn product_of(a: i64, b: i64) -> Option<i64>
    ensures { result ≡ in_range (a *ℤ b) }
{
    match a.checked_mul(b) {
        Some(n) => in_range(n),
        None => None,
    }
}

fn negated(a: Option<i64>) -> Option<i64>
    ensures { result ≡ option_and_then (λ n. in_range (neg_ℤ n)) a }
{
    match a {
        Some(a) => negation_of(a),
        None => None,
    }
}

#[tactic(auto, using(crate::proofs::Ranges::out_of_range))]
fn negation_of(a: i64) -> Option<i64>
    ensures { result ≡ in_range (neg_ℤ a) }
{
    match a.checked_neg() {
        Some(n) => in_range(n),
        None => None,
    }
}

fn remainder_of(m: i64, n: i64) -> Option<i64>
    ensures { result ≡ remainder_of m n }
{
    if n == 0 {
        None
    } else {
        Some(m.wrapping_rem(n))
    }
}
