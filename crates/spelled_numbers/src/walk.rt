//! Whether there is anything to respell.
ghost use Rattle.std.specs.Prelude.{◌≡◌, ◌&&◌, ℕ, List, [], ◌∷◌, true, false};
ghost use Rattle.spelled_numbers.specs.Sent.{are_spelled_whole, are_whole_from};
ghost use Rattle.spelled_numbers.specs.SentView.{goes_on, place_view};
ghost use Rattle.spelled_numbers.specs.declared.respelling.Place.TheVariants as places;

use crate::number::is_spelled_whole;
use crate::respelling::{Place, begins_number, continues_number, place_after, place_in_text};

/// Whether each number of the text is spelled as whole numbers are. It takes no memory.
pub(crate) fn are_spelled_whole(text: &[u8]) -> bool
    ensures { result ≡ are_spelled_whole text.now }
{
    let mut place = Place::Between;
    let mut number = text;
    let mut len = 0;
    let mut rest = text;
    while let Some((byte, others)) = rest.split_first() {
        if !goes_on(place, *byte) {
            if !ends_well(place, &number[..len]) {
                return false;
            }
            number = rest;
            len = 0;
        }
        place = next_place(place, *byte);
        len += 1;
        rest = others;
    }
    ends_well(place, &number[..len])
}

/// Whether a number has begun that the byte is of.
fn goes_on(place: Place, byte: u8) -> bool
    ensures { result ≡ goes_on place byte }
{
    matches!(place, Place::Number) && continues_number(byte)
}

/// Whether no number has begun, or one that is spelled as whole numbers are.
fn ends_well(place: Place, number: &[u8]) -> bool
    ensures { result ≡ are_whole_from (place_view place number.now) [] }
{
    !matches!(place, Place::Number) || is_spelled_whole(number)
}

/// Where the byte after this one stands.
fn next_place(place: Place, byte: u8) -> Place
    ensures on { goes_on place byte ≡ true → result ≡ places.Number }
    ensures anew { goes_on place byte ≡ false → (run rest : List ℕ) → are_whole_from (place_view place run) (byte ∷ rest) ≡ (are_whole_from (place_view place run) [] && are_whole_from (place_view result (byte ∷ [])) rest) }
{
    match place {
        Place::Text => place_in_text(byte),
        Place::Escape => Place::Text,
        Place::Number if continues_number(byte) => Place::Number,
        Place::Between if begins_number(byte) => Place::Number,
        Place::Number | Place::Between => place_after(byte),
    }
}
