//! The standard outputs as the program writes them.
ghost use Rattle.std.specs.Prelude.{◌≡◌};

use byte_streams::PersistentOutput;
use std::io::{self, ErrorKind, Write};
use std::sync::atomic::{AtomicI32, Ordering};

/// A writer whose interrupted writes are made again. The number that the system gives the failure of a write is left in `trouble`.
#[derive(Drop)]
pub struct StandardOutput<'a, W> {
    writer: PersistentOutput<W>,
    trouble: &'a AtomicI32,
}

impl<'a, W: Write> StandardOutput<'a, W> {
    /// It holds the bytes that the writer holds.
    pub fn new(writer: W, trouble: &'a AtomicI32) -> StandardOutput<'a, W>
        ensures { ⟦<StandardOutput<'a, W> as Write>⟧.contents result ≡ W.contents writer }
    {
        StandardOutput {
            writer: PersistentOutput::new(writer),
            trouble,
        }
    }
}

impl<'a, W: Write> Write for StandardOutput<'a, W> {
    ghost contents = { λ p. ⟦<PersistentOutput<W> as Write>⟧.contents p.writer };

    fn write(&mut self, buf: &[u8]) -> io::Result<usize> {
        match self.writer.write(buf) {
            Ok(count) => Ok(count),
            Err(e) => {
                remember(self.trouble, e);
                Err(e)
            }
        }
    }

    fn flush(&mut self) -> io::Result<()> {
        self.writer.flush()
    }
}

/// Leaves the number of a failure. That whoever reads a pipe has gone is none: they asked for no more.
fn remember(trouble: &AtomicI32, failure: io::Error) {
    if let Some(number) = failure.raw_os_error()
        && failure.kind() != ErrorKind::BrokenPipe
    {
        trouble.store(number, Ordering::SeqCst);
    }
}

/// Tells a person why the output failed, by the number that the system gave the failure.
pub fn tell_failure(rt: &HostRuntime, number: i32) {
    let failure = io::Error::from_raw_os_error(number);
    let _ = eprintln!(rt; "error: the output cannot be written: {failure}");
}
