//! The spelling of one number.
ghost use Rattle.std.specs.Prelude.{◌≡◌, ◌==◌, ◌&&◌, not, nat_lt, length};
ghost use Rattle.std.specs.List.{list_all};
ghost use Rattle.spelled_numbers.specs.Sent.{begins_number, is_number, is_other_number, is_signed_number, is_small, is_spelled_whole, is_unsigned_number, signed_value_of, value_of, whole_number};

use fast_float::Numeral;
use flag_text::is_in_range;

/// The whole number that a run of the bytes of numbers stands for, where it is spelled otherwise than whole numbers are.
pub(crate) fn whole_number(run: &[u8]) -> Option<i64>
    ensures { result ≡ whole_number run.now }
{
    if is_spelled_whole(run) {
        return None;
    }
    signed_value_of(run)
}

/// Whether the bytes are a number of JSON that is not spelled as whole numbers in range are.
pub(crate) fn is_other_number(run: &[u8]) -> bool
    ensures { result ≡ is_other_number run.now }
{
    !is_spelled_whole(run) && is_signed_number(run)
}

/// Whether the number is spelled as whole numbers in range are: by digits alone, perhaps behind a minus, and not as `-0`.
pub(crate) fn is_spelled_whole(run: &[u8]) -> bool
    ensures { result ≡ is_spelled_whole run.now }
{
    run != b"-0".as_slice() && are_digits(run) && is_small(run)
}

/// Whether it has fewer bytes than any whole number beyond the range, or a value in range.
fn is_small(run: &[u8]) -> bool
    ensures { result ≡ is_small run.now }
{
    run.len() < 16 || signed_value_of(run).is_some()
}

/// Whether each byte is a digit or a minus.
fn are_digits(run: &[u8]) -> bool
    ensures { result ≡ list_all begins_number run.now }
{
    run.iter()
        .all(|byte| *byte == b'-' || byte.is_ascii_digit())
}

/// The value of a number, where it is a JSON number whose value is whole and in range.
fn signed_value_of(run: &[u8]) -> Option<i64>
    ensures { result ≡ signed_value_of run.now }
{
    match run {
        [b'-', digits @ ..] => value_of(true, digits),
        digits => value_of(false, digits),
    }
}

/// Whether the bytes are a number of JSON.
fn is_signed_number(run: &[u8]) -> bool
    ensures { result ≡ is_signed_number run.now }
{
    match run {
        [b'-', digits @ ..] => is_unsigned_number(digits),
        digits => is_unsigned_number(digits),
    }
}

/// Whether the bytes are a number of JSON without a sign.
fn is_unsigned_number(digits: &[u8]) -> bool
    ensures { result ≡ is_unsigned_number digits.now }
{
    is_number(&Numeral::scan(digits), digits.len())
}

/// The value of a number without its sign, where it is a JSON number whose value is whole and in range.
fn value_of(negative: bool, digits: &[u8]) -> Option<i64>
    ensures { result ≡ value_of negative digits.now }
{
    let numeral = Numeral::scan(digits);
    if !is_number(&numeral, digits.len()) {
        return None;
    }
    let value = numeral.whole_i64(negative)?;
    if is_in_range(value) {
        Some(value)
    } else {
        None
    }
}

/// Whether a numeral of so many bytes is a number of JSON: `05`, `5.` and `.5` are none.
fn is_number(numeral: &Numeral<'_>, len: usize) -> bool
    ensures { result ≡ is_number numeral.now len }
{
    numeral.len() == len
        && !numeral.whole().is_empty()
        && (numeral.whole().len() == 1 || numeral.whole()[0] != b'0')
        && (!numeral.has_point() || !numeral.fraction().is_empty())
}
