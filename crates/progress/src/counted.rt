//! Readers whose bytes are counted.
ghost use Rattle.std.specs.Prelude.{◌≡◌};

use crate::meter::Meter;
use std::io::{self, Read};

/// A reader that moves a meter on by the bytes that it gives, where there is one.
#[derive(Drop)]
pub struct Counted<'a, R> {
    reader: R,
    meter: Option<&'a Meter>,
}

impl<'a, R: Read> Counted<'a, R> {
    /// It has the bytes left that the reader has left.
    pub fn new(reader: R, meter: Option<&'a Meter>) -> Counted<'a, R>
        ensures { ⟦<Counted<'a, R> as Read>⟧.remaining result ≡ R.remaining reader }
    {
        Counted { reader, meter }
    }
}

impl<R: Read> Read for Counted<'_, R> {
    ghost remaining = { λ c. R.remaining c.reader };

    fn read(&mut self, buf: &mut [u8]) -> io::Result<usize> {
        let outcome = self.reader.read(buf);
        if let (Some(meter), Ok(bytes)) = (self.meter, &outcome) {
            meter.advance(*bytes as u64);
        }
        outcome
    }
}
