//! The numbers of a JSON text.
ghost use Rattle.std.specs.Prelude.{◌≡◌, ◌<◌, ◌==◌, IsTrue, true, false, length, option_map, slice_index};
ghost use Rattle.serde_json.specs.Data.{unsigned, negative as below_zero};
ghost use Rattle.serde_json.specs.Read.{float_of, number_from, number_of};
ghost use Rattle.flag_text.specs.Reading.{number_shape};
ghost use Rattle.flag_text.specs.View.{view};

use crate::tree::{MAX_WHOLE, Tree, is_in_range};
use fast_float::Numeral;

/// The tree of a number's text, none where it is too large for a float.
pub fn number_tree(text: &str) -> Option<Tree>
    ensures { option_map view result ≡ option_map number_shape (number_of text.now) }
{
    let bytes = text.as_bytes();
    if has_minus(bytes) {
        negative(&Numeral::scan(&bytes[1..]))
    } else {
        unsigned(&Numeral::scan(bytes))
    }
}

fn has_minus(bytes: &[u8]) -> bool
    ensures value { result ≡ (slice_index bytes.now 0 == 45) }
    ensures len { IsTrue result → 0 < length bytes.now }
{
    !bytes.is_empty() && bytes[0] == b'-'
}

fn unsigned(numeral: &Numeral<'_>) -> Option<Tree>
    ensures { option_map view result ≡ option_map number_shape (number_from false numeral.now) }
{
    match numeral.to_u64() {
        Some(n) => Some(unsigned_tree(n)),
        None => float_tree(false, numeral),
    }
}

fn unsigned_tree(n: u64) -> Tree
    ensures { view result ≡ number_shape (unsigned n) }
{
    if n <= MAX_WHOLE {
        Tree::Whole(n as i64)
    } else {
        Tree::Other
    }
}

fn negative(numeral: &Numeral<'_>) -> Option<Tree>
    ensures { option_map view result ≡ option_map number_shape (number_from true numeral.now) }
{
    if let Some(n) = numeral.to_i64(true) {
        if n < 0 {
            return Some(negative_tree(n));
        }
    }
    float_tree(true, numeral)
}

fn negative_tree(n: i64) -> Tree
    ensures { view result ≡ number_shape (below_zero n) }
{
    if is_in_range(n) {
        Tree::Whole(n)
    } else {
        Tree::Other
    }
}

/// What a float stands for, none where it is not finite.
fn float_tree(negative: bool, numeral: &Numeral<'_>) -> Option<Tree>
    ensures { option_map view result ≡ option_map number_shape (float_of negative numeral.now) }
{
    if numeral.to_float::<f64>(negative).is_finite() {
        Some(Tree::Other)
    } else {
        None
    }
}
