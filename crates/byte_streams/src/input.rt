//! Reads that are made again where they are interrupted.
ghost use Rattle.std.specs.Prelude.{◌≡◌};

use limits::INTERRUPTIONS;
use std::io::{self, ErrorKind, Read};

/// A reader whose reads are made again where a signal interrupts them, or where the process was stopped and goes on: an
/// interrupted read has read nothing.
#[derive(Drop)]
pub struct PersistentInput<R> {
    reader: R,
}

impl<R: Read> PersistentInput<R> {
    /// It has the bytes left that the reader has left.
    pub fn new(reader: R) -> PersistentInput<R>
        ensures { ⟦<PersistentInput<R> as Read>⟧.remaining result ≡ R.remaining reader }
    {
        PersistentInput { reader }
    }
}

impl<R: Read> Read for PersistentInput<R> {
    ghost remaining = { λ p. R.remaining p.reader };

    fn read(&mut self, buf: &mut [u8]) -> io::Result<usize> {
        for _ in 0..INTERRUPTIONS {
            match self.reader.read(buf) {
                Err(e) if e.kind() == ErrorKind::Interrupted => {}
                outcome => return outcome,
            }
        }
        self.reader.read(buf)
    }
}
