//! Writers of a program that has a line on the terminal.
ghost use Rattle.std.specs.Prelude.{◌≡◌};

use crate::terminal::TerminalLine;
use std::io::{self, Write};
use std::sync::Wait;

/// A writer that erases the line on the terminal before each of its writes.
#[derive(Drop)]
pub struct BesideLine<'a, R, L, W> {
    rt: &'a R,
    line: &'a TerminalLine<L>,
    writer: W,
    goes_on: bool,
}

impl<'a, R: Wait, L: Write, W: Write> BesideLine<'a, R, L, W> {
    /// It holds the bytes that the writer holds. Behind its first write nothing more stands in the line, unless that goes on.
    pub fn new(
        rt: &'a R,
        line: &'a TerminalLine<L>,
        writer: W,
        goes_on: bool,
    ) -> BesideLine<'a, R, L, W>
        ensures { ⟦<BesideLine<'a, R, L, W> as Write>⟧.contents result ≡ W.contents writer }
    {
        BesideLine {
            rt,
            line,
            writer,
            goes_on,
        }
    }
}

impl<R: Wait, L: Write, W: Write> Write for BesideLine<'_, R, L, W> {
    ghost contents = { λ b. W.contents b.writer };

    fn write(&mut self, buf: &[u8]) -> io::Result<usize> {
        if self.goes_on {
            self.line.erase(self.rt);
        } else {
            self.line.end(self.rt);
        }
        self.writer.write(buf)
    }

    fn flush(&mut self) -> io::Result<()> {
        self.writer.flush()
    }
}
