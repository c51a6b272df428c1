//! Reads that are to bring something in their time.
ghost use Rattle.std.specs.Prelude.{◌≡◌};

use std::cell::Cell;
use std::io::{self, ErrorKind, Read};

/// A reader that keeps in a cell whether a read brought nothing in the time that its connection gives it.
#[derive(Drop)]
pub(crate) struct Timely<'a, R> {
    reader: R,
    is_late: &'a Cell<bool>,
}

impl<'a, R: Read> Timely<'a, R> {
    /// It has the bytes left that the reader has left.
    pub(crate) fn new(reader: R, is_late: &'a Cell<bool>) -> Timely<'a, R>
        ensures { ⟦<Timely<'a, R> as Read>⟧.remaining result ≡ R.remaining reader }
    {
        Timely { reader, is_late }
    }
}

impl<R: Read> Read for Timely<'_, R> {
    ghost remaining = { λ t. R.remaining t.reader };

    fn read(&mut self, buf: &mut [u8]) -> io::Result<usize> {
        let outcome = self.reader.read(buf);
        if let Err(e) = &outcome {
            let kind = e.kind();
            if kind == ErrorKind::WouldBlock || kind == ErrorKind::TimedOut {
                self.is_late.set(true);
            }
        }
        outcome
    }
}
