//! The number of a value, where it has one.
ghost use Rattle.std.specs.Prelude.{◌≡◌, ◌<◌, ◌+◌, ◌*◌, option_and_then, IfSome};
ghost use Rattle.logic_values.specs.Number.{in_range, digits_value, decimal_value, number_of, below};
ghost use Rattle.logic_values.specs.Views.{seen_view};

use crate::seen::Seen;
use flag_text::{MAX_WHOLE, is_in_range};

/// The number, where it is from -(2^53-1) to 2^53-1.
pub(crate) fn in_range(n: i64) -> Option<i64>
    ensures { result ≡ in_range n }
{
    if is_in_range(n) { Some(n) } else { None }
}

// One more digit, where the value stays below the limit.
fn with_digit(value: u64, digit: u64, limit: u64) -> Option<u64>
    requires value { value < limit }
    requires digit { digit < 10 }
    ensures value { result ≡ below limit (value * 10 + digit) }
    ensures small { IfSome result (λ n. n < limit) }
{
    if digit < limit && value <= (limit - 1 - digit) / 10 {
        Some(value * 10 + digit)
    } else {
        None
    }
}

/// The value of one or more decimal digits, where it is below the limit.
#[tactic(auto, using(crate::proofs::Numbers::digits_value_some))]
pub fn digits_value(digits: &[u8], limit: u64) -> Option<u64>
    requires { 0 < limit }
    ensures value { result ≡ option_and_then (below limit) (digits_value digits.now) }
    ensures small { IfSome result (λ n. n < limit) }
{
    if digits.is_empty() {
        return None;
    }
    let mut value: u64 = 0;
    for byte in digits {
        if !byte.is_ascii_digit() {
            return None;
        }
        value = with_digit(value, (*byte - b'0') as u64, limit)?;
    }
    Some(value)
}

/// The number that a decimal text spells: an optional `-` and one or more digits.
pub(crate) fn decimal_value(text: &str) -> Option<i64>
    ensures { result ≡ decimal_value text.now }
{
    match text.as_bytes() {
        [] => None,
        [b'-', digits @ ..] => Some(-(digits_value(digits, MAX_WHOLE + 1)? as i64)),
        digits => Some(digits_value(digits, MAX_WHOLE + 1)? as i64),
    }
}

/// Of a whole number that number, of a text the number that it spells in decimal.
pub fn number_of(value: Seen) -> Option<i64>
    ensures { result ≡ number_of (seen_view value.entry) }
{
    match value {
        Seen::Whole(n) => Some(n),
        Seen::Text(text) => decimal_value(text),
        _ => None,
    }
}
