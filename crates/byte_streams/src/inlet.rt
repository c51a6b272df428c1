//! Where bytes are read from, and whether a read has failed.
ghost use Rattle.std.specs.Prelude.{◌≡◌, ℕ, List, Option, Bool, true, false, ◌||◌, is_err};
ghost use Rattle.std.specs.Io.{ReadsAtMost};
ghost use Rattle.std.specs.Io.KnownBytes.{ReadConsumes};

use std::io;
use std::io::Read;

/// A place that bytes are read from, as `std::io::Read`. Contracts see the bytes that are left in it, what a read makes of
/// it, and whether it is broken: a read has failed. A function that is handed an inlet asks for one that is not broken.
pub trait Inlet {
    // The bytes that reads will give from here on, where they are known.
    ghost bytes: { Self → Option (List ℕ) };

    // A read has failed.
    ghost is_broken: { Self → Bool };

    // What it was before a read, and what it then is.
    ghost was_read: { Self → Self → Type 0 };

    /// Reads into a front of `buf`, and says how many bytes. Of a buffer with room, 0 is the end.
    fn read(&mut self, buf: &mut [u8]) -> io::Result<usize>
        ensures bound { ReadsAtMost result buf.new }
        ensures bytes { ReadConsumes (bytes self.old) (bytes self.new) result buf.new }
        ensures broken { is_broken self.new ≡ (is_broken self.old || is_err result) }
        ensures read { was_read self.old self.new };
}

/// The inlet of a reader.
#[derive(Drop)]
pub struct ReadInlet<R> {
    reader: R,
    broken: bool,
}

impl<R: Read> ReadInlet<R> {
    /// No read has failed yet, and the bytes are those that the reader has left.
    pub fn new(reader: R) -> ReadInlet<R>
        ensures fresh { ⟦<ReadInlet<R> as Inlet>⟧.is_broken result ≡ false }
        ensures bytes { ⟦<ReadInlet<R> as Inlet>⟧.bytes result ≡ R.remaining reader }
    {
        ReadInlet {
            reader,
            broken: false,
        }
    }
}

impl<R: Read> Inlet for ReadInlet<R> {
    ghost bytes = { λ i. R.remaining i.reader };

    ghost is_broken = { λ i. i.broken };

    ghost was_read = { λ old new. Unit {0} };

    fn read(&mut self, buf: &mut [u8]) -> io::Result<usize> {
        let outcome = self.reader.read(buf);
        if outcome.is_err() {
            self.broken = true;
        }
        outcome
    }
}
