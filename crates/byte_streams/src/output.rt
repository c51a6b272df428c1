//! Writes that are made again where they are interrupted.
ghost use Rattle.std.specs.Prelude.{◌≡◌};

use limits::INTERRUPTIONS;
use std::io::{self, ErrorKind, Write};

/// A writer whose writes are made again where a signal interrupts them, or where the process was stopped and goes on: an
/// interrupted write has written nothing.
#[derive(Drop)]
pub struct PersistentOutput<W> {
    writer: W,
}

impl<W: Write> PersistentOutput<W> {
    /// It holds the bytes that the writer holds.
    pub fn new(writer: W) -> PersistentOutput<W>
        ensures { ⟦<PersistentOutput<W> as Write>⟧.contents result ≡ W.contents writer }
    {
        PersistentOutput { writer }
    }
}

impl<W: Write> Write for PersistentOutput<W> {
    ghost contents = { λ p. W.contents p.writer };

    fn write(&mut self, buf: &[u8]) -> io::Result<usize> {
        for _ in 0..INTERRUPTIONS {
            match self.writer.write(buf) {
                Err(e) if e.kind() == ErrorKind::Interrupted => {}
                outcome => return outcome,
            }
        }
        self.writer.write(buf)
    }

    fn flush(&mut self) -> io::Result<()> {
        self.writer.flush()
    }
}
