//! The number of a numeral.
ghost use Rattle.std.specs.Prelude.{◌≡◌, ◌+◌, ◌<◌, ◌≤◌, ◌^◌, ◌++◌, length, IfSome, MatchOption};
ghost use Rattle.std.specs.Str.Parse.{AllDigits, digits_value};
ghost use Rattle.fast_float.specs.Text.{tens_down, tens_up};
ghost use Rattle.logic_values.specs.Decimal.{all_digits, numeral_number, significant, trailing_zeros, zeros_of};
ghost use Rattle.logic_values.specs.View.{gives};

use crate::decimal::Decimal;
use crate::decimal_fault::DecimalFault;
use crate::digits::{without_leading_zeros, without_trailing_zeros};
use arrayvec::ArrayVec;
use fast_float::{Numeral, parse_u64};

/// The exponents of 10 that the last significant digit may have are from minus this to this.
const MOST_EXPONENT: u128 = 400;

/// The number of a numeral, with this sign.
pub(crate) fn number(negative: bool, numeral: &Numeral<'_>) -> Result<Decimal, DecimalFault>
    requires { length numeral.now.whole + length numeral.now.fraction < 2 ^ 63 }
    ensures { gives result ≡ numeral_number negative numeral.now }
{
    let (head, tail, trailing) = significant(numeral);
    let Some(digits) = joined(head, tail) else {
        return Err(DecimalFault::OutOfRange);
    };
    if digits.is_empty() {
        return Ok(Decimal {
            negative: false,
            digits,
            zeros: 0,
        });
    }
    match zeros(numeral, trailing) {
        Some(zeros) => Ok(Decimal {
            negative,
            digits,
            zeros,
        }),
        None => Err(DecimalFault::OutOfRange),
    }
}

/// The significant digits of a numeral, in two parts, and how many zeros stand behind them.
fn significant<'a>(numeral: &Numeral<'a>) -> (&'a [u8], &'a [u8], usize)
    requires { length numeral.now.whole + length numeral.now.fraction < 2 ^ 63 }
    ensures digits { result.0.now ++ result.1.now ≡ significant (all_digits numeral.now) }
    ensures trailing { result.2 ≡ trailing_zeros (all_digits numeral.now) }
    ensures tested { AllDigits 10 numeral.now.whole × AllDigits 10 numeral.now.fraction }
{
    let (whole, fraction) = (numeral.whole(), numeral.fraction());
    let (head, tail) = without_trailing_zeros(whole, fraction);
    let trailing = (whole.len() + fraction.len()) - (head.len() + tail.len());
    let (head, tail) = without_leading_zeros(head, tail);
    (head, tail, trailing)
}

/// The digits of both parts, where there are at most 40.
fn joined(head: &[u8], tail: &[u8]) -> Option<ArrayVec<u8, 40>>
    ensures digits { MatchOption result (40 < length (head.now ++ tail.now)) (λ v. v.items ≡ head.now ++ tail.now) }
    ensures few { IfSome result (λ v. length v.items ≤ 40) }
{
    let mut digits = ArrayVec::new();
    digits.try_extend_from_slice(head).ok()?;
    digits.try_extend_from_slice(tail).ok()?;
    Some(digits)
}

/// The zeros behind the last significant digit of a numeral that has so many zeros behind it there.
fn zeros(numeral: &Numeral<'_>, trailing: usize) -> Option<u32>
    requires trailing { trailing < 2 ^ 63 }
    requires fraction { length numeral.now.fraction < 2 ^ 63 }
    ensures { result ≡ zeros_of (trailing + tens_up numeral.now) (tens_down numeral.now) }
{
    let exponent = exponent(numeral)? as u128;
    let trailing = trailing as u128;
    let fraction = numeral.fraction().len() as u128;
    if numeral.is_exponent_negative() {
        zeros_between(trailing, fraction + exponent)
    } else {
        zeros_between(trailing + exponent, fraction)
    }
}

/// The zeros behind a digit whose exponent is the difference of these.
fn zeros_between(up: u128, down: u128) -> Option<u32>
    requires { (up < 2 ^ 65) × (down < 2 ^ 65) }
    ensures { result ≡ zeros_of up down }
{
    if down > MOST_EXPONENT + up || up > MOST_EXPONENT + down {
        return None;
    }
    Some((MOST_EXPONENT + up - down) as u32)
}

/// The exponent of a numeral without its sign, 0 where there is none.
fn exponent(numeral: &Numeral<'_>) -> Option<u64>
    ensures { MatchOption result (2 ^ 64 ≤ digits_value 10 numeral.now.exponent) (λ n. n ≡ digits_value 10 numeral.now.exponent) }
{
    if numeral.exponent().is_empty() {
        return Some(0);
    }
    parse_u64(numeral.exponent()).ok()
}
