//! The order of numbers.
ghost use Rattle.std.specs.Prelude.{◌≡◌, ◌+◌, ◌*◌, ◌^◌, length};
ghost use Rattle.std.specs.Ordering.{int_cmp, nat_cmp};
ghost use Rattle.std.specs.Str.Parse.{digits_value};
ghost use Rattle.logic_values.specs.Decimal.{units};
ghost use Rattle.logic_values.specs.View.{seen};

use crate::decimal::Decimal;
use std::cmp::Ordering;

/// The order of two numbers, by their exact values.
pub fn order(a: &Decimal, b: &Decimal) -> Ordering
    ensures { result ≡ int_cmp (units (seen a.now)) (units (seen b.now)) }
{
    match (a.negative, b.negative) {
        (false, false) => magnitude_order(a, b),
        (false, true) => Ordering::Greater,
        (true, false) => Ordering::Less,
        (true, true) => magnitude_order(b, a),
    }
}

/// The order of two numbers without their signs: the one whose first digit has the higher place is greater, else the digits decide.
fn magnitude_order(a: &Decimal, b: &Decimal) -> Ordering
    ensures { result ≡ nat_cmp (digits_value 10 a.now.digits.items * 10 ^ a.now.zeros) (digits_value 10 b.now.digits.items * 10 ^ b.now.zeros) }
{
    let places = a.digits.len() + a.zeros as usize;
    let other_places = b.digits.len() + b.zeros as usize;
    let by_digits = a.digits.as_slice().cmp(b.digits.as_slice());
    places.cmp(&other_places).then(by_digits)
}
