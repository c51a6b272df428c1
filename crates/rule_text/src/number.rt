//! The numbers of a JSON text, as the weights of a rule.
ghost use Rattle.std.specs.Prelude.{◌≡◌, ◌<◌, ◌<ℤ◌, ◌==◌, pos, IsTrue, true, false, length, option_map, slice_index};
ghost use Rattle.serde_json.specs.Data.{unsigned, negative as below_zero};
ghost use Rattle.serde_json.specs.Read.{float_of, number_from, number_of};
ghost use Rattle.rule_text.specs.Parts.{weighed};

use bucket_core::MAX_TOTAL;
use fast_float::Numeral;
use flag_text::{MAX_WHOLE, is_in_range};

/// The weight that a number's text is, and whether it is none of a whole number; nothing where it is too large for a
/// float.
#[inline(always)]
pub(crate) fn number(text: &str) -> Option<(Option<u64>, bool)>
    ensures { result ≡ option_map weighed (number_of text.now) }
{
    let bytes = text.as_bytes();
    if has_minus(bytes) {
        negative(&Numeral::scan(&bytes[1..]))
    } else {
        unsigned(&Numeral::scan(bytes))
    }
}

#[inline(always)]
fn has_minus(bytes: &[u8]) -> bool
    ensures value { result ≡ (slice_index bytes.now 0 == 45) }
    ensures len { IsTrue result → 0 < length bytes.now }
{
    !bytes.is_empty() && bytes[0] == b'-'
}

#[inline(always)]
fn unsigned(numeral: &Numeral<'_>) -> Option<(Option<u64>, bool)>
    ensures { result ≡ option_map weighed (number_from false numeral.now) }
{
    match numeral.to_u64() {
        Some(n) => Some(weighed(n)),
        None => float(false, numeral),
    }
}

#[inline(always)]
fn weighed(n: u64) -> (Option<u64>, bool)
    ensures { result ≡ weighed (unsigned n) }
{
    if n <= u64::from(MAX_TOTAL) {
        (Some(n), false)
    } else {
        (None, n > MAX_WHOLE)
    }
}

#[cold]
fn negative(numeral: &Numeral<'_>) -> Option<(Option<u64>, bool)>
    ensures { result ≡ option_map weighed (number_from true numeral.now) }
{
    if let Some(n) = numeral.to_i64(true) {
        if n < 0 {
            return Some(below_zero(n));
        }
    }
    float(true, numeral)
}

fn below_zero(n: i64) -> (Option<u64>, bool)
    requires { n <ℤ pos 0 }
    ensures { result ≡ weighed (below_zero n) }
{
    (None, !is_in_range(n))
}

/// What a float stands for, none where it is not finite.
#[cold]
fn float(negative: bool, numeral: &Numeral<'_>) -> Option<(Option<u64>, bool)>
    ensures { result ≡ option_map weighed (float_of negative numeral.now) }
{
    if numeral.to_float::<f64>(negative).is_finite() {
        Some((None, true))
    } else {
        None
    }
}
