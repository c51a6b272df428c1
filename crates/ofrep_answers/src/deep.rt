//! Texts that nest too deep to be read, by their brackets alone.
ghost use Rattle.std.specs.Prelude.{◌≡◌, ◌≤◌};
ghost use Rattle.std.specs.Str.{is_utf8};
ghost use Rattle.ofrep_answers.specs.Deep.{after, is_too_deep, levels_after, opens_from};
ghost use Rattle.ofrep_answers.specs.declared.deep.Place.TheVariants as places;

use std::str;

/// The most levels of a text that is read.
const MOST_READ: usize = 127;

/// Where a byte of a JSON text stands.
#[derive(Clone, Copy)]
pub(crate) enum Place {
    /// Outside of quoted texts.
    Between,
    /// In a quoted text.
    Text,
    /// In a quoted text, after a backslash.
    Escape,
}

/// Whether a text nests deeper than is read, whatever else it is.
pub(crate) fn is_too_deep(bytes: &[u8]) -> bool
    ensures { result ≡ is_too_deep bytes.now }
{
    is_text(bytes) && opens_too_many(bytes)
}

/// Whether the bytes are a text in UTF-8.
#[tactic(auto, using(crate::proofs::Texts::is_a_text, crate::proofs::Texts::is_no_text))]
fn is_text(bytes: &[u8]) -> bool
    ensures { result ≡ is_utf8 bytes.now }
{
    match str::from_utf8(bytes) {
        Ok(_) => true,
        Err(_) => false,
    }
}

/// Whether somewhere more lists and objects are open than a text may have.
fn opens_too_many(bytes: &[u8]) -> bool
    ensures { result ≡ opens_from places.Between 0 bytes.now }
{
    let mut place = Place::Between;
    let mut levels: usize = 0;
    for byte in bytes {
        levels = levels_after(place, *byte, levels);
        if levels > MOST_READ {
            return true;
        }
        place = after(place, *byte);
    }
    false
}

/// Where the byte after this one stands.
fn after(place: Place, byte: u8) -> Place
    ensures { result ≡ after place byte }
{
    match place {
        Place::Between if byte == b'"' => Place::Text,
        Place::Between => Place::Between,
        Place::Text if byte == b'"' => Place::Between,
        Place::Text if byte == b'\\' => Place::Escape,
        Place::Text | Place::Escape => Place::Text,
    }
}

/// How many lists and objects are open after a byte, of so many before it.
fn levels_after(place: Place, byte: u8, levels: usize) -> usize
    requires { levels ≤ 127 }
    ensures { result ≡ levels_after place byte levels }
{
    match place {
        Place::Between => levels_between(byte, levels),
        Place::Text | Place::Escape => levels,
    }
}

/// The same outside of quoted texts.
fn levels_between(byte: u8, levels: usize) -> usize
    requires { levels ≤ 127 }
    ensures { result ≡ levels_after places.Between byte levels }
{
    if byte == b'[' || byte == b'{' {
        return levels + 1;
    }
    if byte == b']' || byte == b'}' {
        return levels.saturating_sub(1);
    }
    levels
}
