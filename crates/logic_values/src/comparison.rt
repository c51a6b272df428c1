//! Equality and order of values.
ghost use Rattle.std.specs.Prelude.{◌≡◌, ℤ, ◌<◌, ◌+◌};
ghost use Rattle.logic_values.specs.Comparison.{is_same, is_equal, order_number, is_less, is_at_most};
ghost use Rattle.logic_values.specs.Views.{seen_view};

use crate::number::{decimal_value, number_of};
use crate::seen::Seen;

/// `===`: equal values of the same kind, lists and objects never.
pub fn is_same(a: Seen, b: Seen) -> bool
    ensures { result ≡ is_same (seen_view a.entry) (seen_view b.entry) }
{
    match (a, b) {
        (Seen::Null, Seen::Null) => true,
        (Seen::Bool(a), Seen::Bool(b)) => a == b,
        (Seen::Whole(a), Seen::Whole(b)) => a == b,
        (Seen::Text(a), Seen::Text(b)) => a == b,
        _ => false,
    }
}

/// `==`: the same, and a text with the number that it spells, a boolean with 0 or 1.
pub fn is_equal(a: Seen, b: Seen) -> bool
    ensures { result ≡ is_equal (seen_view a.entry) (seen_view b.entry) }
{
    match (a, b) {
        (Seen::Whole(a), Seen::Text(b)) => decimal_value(b) == Some(a),
        (Seen::Text(a), Seen::Whole(b)) => decimal_value(a) == Some(b),
        (Seen::Bool(a), Seen::Whole(b)) => a as i64 == b,
        (Seen::Whole(a), Seen::Bool(b)) => a == b as i64,
        _ => is_same(a, b),
    }
}

// The number that an order goes by: a boolean counts as 0 or 1.
fn order_number(value: Seen) -> Option<i64>
    ensures { result ≡ order_number (seen_view value.entry) }
{
    match value {
        Seen::Bool(b) => Some(b as i64),
        _ => number_of(value),
    }
}

/// `<`: two texts by their bytes, all else by number.
pub fn is_less(a: Seen, b: Seen) -> bool
    ensures { result ≡ is_less (seen_view a.entry) (seen_view b.entry) }
{
    if let (Seen::Text(a), Seen::Text(b)) = (a, b) {
        return a < b;
    }
    match (order_number(a), order_number(b)) {
        (Some(a), Some(b)) => a < b,
        _ => false,
    }
}

/// `<=`: two texts by their bytes, all else by number.
pub fn is_at_most(a: Seen, b: Seen) -> bool
    ensures { result ≡ is_at_most (seen_view a.entry) (seen_view b.entry) }
{
    if let (Seen::Text(a), Seen::Text(b)) = (a, b) {
        return a <= b;
    }
    match (order_number(a), order_number(b)) {
        (Some(a), Some(b)) => a <= b,
        _ => false,
    }
}
