//! How a number is read.
ghost use Rattle.std.specs.Prelude.{◌≡◌};
ghost use Rattle.std.specs.List.{list_all};
ghost use Rattle.logic_values.specs.Decimal.{is_no_mark, is_numeral, read, read_numeral, read_text};
ghost use Rattle.logic_values.specs.View.{gives};

use crate::decimal::Decimal;
use crate::decimal_fault::DecimalFault;
use crate::numeral::number;
use fast_float::Numeral;

/// The number that a number of JSON spells; zeros may lead, as in `007.5`.
///
/// Refusals, in this order: `NotDecimal`, `OutOfRange`.
pub fn read(spelling: &[u8]) -> Result<Decimal, DecimalFault>
    ensures { gives result ≡ read spelling.now }
{
    match spelling {
        [b'-', digits @ ..] => numeral(true, digits),
        digits => numeral(false, digits),
    }
}

/// The number that digits spell, perhaps behind a minus, perhaps with a point and digits behind it; zeros may lead.
///
/// Refusals, in this order: `NotDecimal`, `OutOfRange`.
pub fn read_text(text: &[u8]) -> Result<Decimal, DecimalFault>
    ensures { gives result ≡ read_text text.now }
{
    if has_no_exponent(text) {
        read(text)
    } else {
        Err(DecimalFault::NotDecimal)
    }
}

fn has_no_exponent(text: &[u8]) -> bool
    ensures { result ≡ list_all is_no_mark text.now }
{
    text.iter().all(|byte| !(*byte == b'e' || *byte == b'E'))
}

/// The number of a numeral without its sign.
fn numeral(negative: bool, bytes: &[u8]) -> Result<Decimal, DecimalFault>
    ensures { gives result ≡ read_numeral negative bytes.now }
{
    let numeral = Numeral::scan(bytes);
    if is_numeral(&numeral, bytes.len()) {
        number(negative, &numeral)
    } else {
        Err(DecimalFault::NotDecimal)
    }
}

/// Whether a numeral of so many bytes has digits before its point and behind it, and nothing follows.
fn is_numeral(numeral: &Numeral<'_>, len: usize) -> bool
    ensures { result ≡ is_numeral numeral.now len }
{
    numeral.len() == len
        && !numeral.whole().is_empty()
        && (!numeral.has_point() || !numeral.fraction().is_empty())
}
