//! A text with its numbers spelled as whole ones where their value is whole, and as objects where it is not.
ghost use Rattle.std.specs.Prelude.{◌≡◌, ◌++◌, ℕ, List, [], ◌∷◌, IfOk, OnOk};
ghost use Rattle.spelled_numbers.specs.Sent.{after, after_in_text, begins_number, begun, continues_number, number_object, respelled, respelled_from, spelled};
ghost use Rattle.spelled_numbers.specs.SentView.{place_view, shown};
ghost use Rattle.spelled_numbers.specs.declared.respelling.Place.TheVariants as places;

use crate::number::{is_other_number, whole_number};
use std::alloc::{AllocError, Global};

/// Where a byte of a JSON text stands.
#[derive(Clone, Copy)]
pub(crate) enum Place {
    /// Outside of quoted texts and of numbers.
    Between,
    /// In a quoted text.
    Text,
    /// In a quoted text, after a backslash.
    Escape,
    /// In a number.
    Number,
}

/// What was written of a text so far.
#[derive(Drop)]
pub(crate) struct Respelling {
    alloc: Global,
    /// The bytes that were written.
    written: Vec<u8>,
    /// The bytes of the number that has begun.
    number: Vec<u8>,
    /// Where the next byte stands.
    place: Place,
}

/// The text with its numbers spelled as whole ones where their value is whole, and as objects where it is not.
pub(crate) fn respelled(alloc: Global, text: &[u8]) -> Result<Vec<u8>, AllocError>
    ensures { IfOk result (λ bytes. bytes.items ≡ respelled text.now) }
{
    let mut respelling = Respelling {
        alloc,
        written: Vec::with_capacity(alloc, text.len())?,
        number: Vec::new(alloc),
        place: Place::Between,
    };
    for byte in text {
        respelling.take(*byte)?;
    }
    respelling.end()
}

impl Respelling {
    /// Takes the next byte.
    fn take(&mut self, byte: u8) -> Result<(), AllocError>
        ensures { OnOk result ((rest : List ℕ) → shown self.new rest ≡ shown self.old (byte ∷ rest)) }
    {
        match self.place {
            Place::Between => self.begin(byte),
            Place::Text => {
                self.place = place_in_text(byte);
                Ok(self.written.push(byte)?)
            }
            Place::Escape => {
                self.place = Place::Text;
                Ok(self.written.push(byte)?)
            }
            Place::Number => self.go_on(byte),
        }
    }

    /// Takes a byte that is not in a text or a number.
    fn begin(&mut self, byte: u8) -> Result<(), AllocError>
        ensures { OnOk result ((rest : List ℕ) → shown self.new rest ≡ self.old.written.items ++ begun byte (λ s. respelled_from s rest)) }
    {
        if begins_number(byte) {
            self.number.clear();
            self.place = Place::Number;
            return Ok(self.number.push(byte)?);
        }
        self.place = place_after(byte);
        Ok(self.written.push(byte)?)
    }

    /// Takes a byte after those of a number.
    fn go_on(&mut self, byte: u8) -> Result<(), AllocError>
        requires { self.now.place ≡ places.Number }
        ensures { OnOk result ((rest : List ℕ) → shown self.new rest ≡ shown self.old (byte ∷ rest)) }
    {
        if continues_number(byte) {
            return Ok(self.number.push(byte)?);
        }
        self.end_number()?;
        self.begin(byte)
    }

    /// Writes the number that has begun.
    fn end_number(&mut self) -> Result<(), AllocError>
        ensures { OnOk result (self.new.written.items ≡ self.old.written.items ++ spelled self.old.number.items) }
    {
        let number = self.number.as_slice();
        if let Some(value) = whole_number(number) {
            let text = format!(in self.alloc; "{value}")?;
            return Ok(self.written.extend_from_slice(text.as_bytes())?);
        }
        if is_other_number(number) {
            return write_object(&mut self.written, number);
        }
        Ok(self.written.extend_from_slice(number)?)
    }

    /// Ends the text.
    fn end(mut self) -> Result<Vec<u8>, AllocError>
        ensures { IfOk result (λ bytes. bytes.items ≡ shown self []) }
    {
        if let Place::Number = self.place {
            self.end_number()?;
        }
        Ok(self.written)
    }
}

/// Writes the object that stands for a number which is not whole.
fn write_object(written: &mut Vec<u8>, number: &[u8]) -> Result<(), AllocError>
    ensures { OnOk result (written.new.items ≡ written.old.items ++ number_object number.now) }
{
    written.extend_from_slice(b"{\".".as_slice())?;
    written.extend_from_slice(number)?;
    Ok(written.extend_from_slice(b"\":0.5}".as_slice())?)
}

/// Whether the byte begins a number.
pub(crate) fn begins_number(byte: u8) -> bool
    ensures { result ≡ begins_number byte }
{
    byte == b'-' || byte.is_ascii_digit()
}

/// Whether a byte after one of a number is of the number, too.
pub(crate) fn continues_number(byte: u8) -> bool
    ensures { result ≡ continues_number byte }
{
    matches!(byte, b'-' | b'+' | b'.' | b'e' | b'E' | b'0'..=b'9')
}

/// Where the byte after this one stands, which is not in a text or a number.
pub(crate) fn place_after(byte: u8) -> Place
    ensures { (run : List ℕ) → place_view result run ≡ after byte }
{
    if byte == b'"' {
        Place::Text
    } else {
        Place::Between
    }
}

/// Where the byte after this one stands, which is in a text.
pub(crate) fn place_in_text(byte: u8) -> Place
    ensures { (run : List ℕ) → place_view result run ≡ after_in_text byte }
{
    match byte {
        b'"' => Place::Between,
        b'\\' => Place::Escape,
        _ => Place::Text,
    }
}
