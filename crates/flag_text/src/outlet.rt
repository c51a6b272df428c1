//! Where bytes are written to, and whether a write has failed.
ghost use Rattle.std.specs.Prelude.{◌≡◌, ℕ, List, Option, Bool, true, false, not, ◌||◌};
ghost use Rattle.std.specs.Bool.{MatchBool, OnTrue};
ghost use Rattle.std.specs.Io.KnownBytes.{Appends, WriteAppends};
ghost use Rattle.std.specs.Io.{WritesAtMost};
ghost use Rattle.flag_text.specs.Outlet.{is_fault, AppendsFront, AppendsPart};

use std::io;
use std::io::Write;

/// A place that bytes are written to, as `std::io::Write`. Contracts see the bytes in it, and
/// whether it is broken: a write has failed, or took no byte of a buffer that had some.
///
/// A function that is handed an outlet asks for one that is not broken, but for [`write_whole`].
pub trait Outlet {
    // The bytes that were written, where they are known.
    ghost bytes: { Self → Option (List ℕ) };

    // A write has failed, or took no byte of a buffer that had some.
    ghost is_broken: { Self → Bool };

    /// Writes a front of `buf`, and says of how many bytes. An error has written nothing.
    fn write(&mut self, buf: &[u8]) -> io::Result<usize>
        ensures bound { WritesAtMost result buf.now }
        ensures bytes { WriteAppends (bytes self.old) (bytes self.new) result buf.now }
        ensures broken { is_broken self.new ≡ (is_broken self.old || is_fault buf.now result) };
}

/// The outlet of a writer.
#[derive(Drop)]
pub struct WriteOutlet<W> {
    writer: W,
    broken: bool,
}

impl<W: Write> WriteOutlet<W> {
    /// No write has failed yet, and the bytes are those that the writer holds.
    pub fn new(writer: W) -> WriteOutlet<W>
        ensures fresh { ⟦<WriteOutlet<W> as Outlet>⟧.is_broken result ≡ false }
        ensures bytes { ⟦<WriteOutlet<W> as Outlet>⟧.bytes result ≡ W.contents writer }
    {
        WriteOutlet {
            writer,
            broken: false,
        }
    }
}

impl<W: Write> Outlet for WriteOutlet<W> {
    ghost bytes = { λ o. W.contents o.writer };

    ghost is_broken = { λ o. o.broken };

    fn write(&mut self, buf: &[u8]) -> io::Result<usize> {
        let outcome = self.writer.write(buf);
        let fault = match outcome {
            Ok(0) => !buf.is_empty(),
            Ok(_) => false,
            Err(_) => true,
        };
        if fault {
            self.broken = true;
        }
        outcome
    }
}

/// Writes all of the bytes, in as many writes as it takes, and says whether all were taken. It stops
/// at the first write that fails or takes no byte; then a front of the bytes, not all of them, is written, and the outlet is
/// broken. An outlet that is broken already is written to as any other, and stays broken.
pub fn write_whole<O: Outlet>(out: &mut O, bytes: &[u8]) -> bool
    ensures exact { MatchBool result (Appends (O.bytes out.old) (O.bytes out.new) bytes.now) (AppendsFront (O.bytes out.old) (O.bytes out.new) bytes.now) }
    ensures whole { OnTrue result (Appends (O.bytes out.old) (O.bytes out.new) bytes.now) }
    ensures part { AppendsPart (O.bytes out.old) (O.bytes out.new) bytes.now }
    ensures broken { O.is_broken out.new ≡ (O.is_broken out.old || not result) }
{
    let mut rest = bytes;
    while !rest.is_empty() {
        match out.write(rest) {
            Ok(n) => {
                if n == 0 {
                    return false;
                }
                rest = &rest[n..];
            }
            Err(_) => return false,
        }
    }
    true
}
