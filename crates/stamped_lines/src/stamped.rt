//! A writer that stamps lines.
ghost use Rattle.std.specs.Prelude.{◌≡◌, ◌≤◌, false, true, IfOk, is_some, length, string_bytes};
ghost use Rattle.std.specs.Io.{WritesAtMost};
ghost use Rattle.std.specs.Io.KnownBytes.{WriteAppends};
ghost use Rattle.stamped_lines.specs.Level.{level_name, level_of};
ghost use Rattle.stamped_lines.specs.Line.{piece_length};
ghost use Rattle.stamped_lines.specs.Stamped.{begun_after, level_after, stamp_text};

use crate::level::{Level, level_of};
use crate::line::{begins, piece};
use jiff::Timestamp;
use std::alloc::{AllocError, Global};
use std::io::{self, Write};
use std::time::Clock;

/// A writer that writes the moment and the level of each line before it, where there is a writer for these stamps. A line that begins
/// with a brace is an object of JSON, as are the others of the same write: these have no stamp.
#[derive(Drop)]
pub struct StampedLines<'a, R, S, W> {
    rt: &'a R,
    alloc: Global,
    stamps: Option<S>,
    writer: W,
    /// Whether a line, or the stamp before it, was written, and not its end.
    is_begun: bool,
    /// The level of the line that was begun last.
    level: Level,
}

impl<'a, R: Clock, S: Write, W: Write> StampedLines<'a, R, S, W> {
    /// It holds the bytes that the writer holds.
    pub fn new(rt: &'a R, alloc: Global, stamps: Option<S>, writer: W) -> StampedLines<'a, R, S, W>
        ensures contents { ⟦<StampedLines<'a, R, S, W> as Write>⟧.contents result ≡ W.contents writer }
        ensures begun { result.is_begun ≡ false }
    {
        StampedLines {
            rt,
            alloc,
            stamps,
            writer,
            is_begun: false,
            level: Level::Info,
        }
    }

    /// Begins a line with its stamp.
    fn begin(&mut self, line: &[u8])
        ensures level { self.new.level ≡ level_of line.now self.old.level }
        ensures begun { self.new.is_begun ≡ true }
        ensures writer { self.new.writer ≡ self.old.writer }
        ensures stamps { is_some self.new.stamps ≡ is_some self.old.stamps }
    {
        self.level = level_of(line, self.level);
        self.is_begun = true;
        self.stamp();
    }

    /// Writes a stamp. One that cannot be made, or written, is left out.
    fn stamp(&mut self)
        ensures level { self.new.level ≡ self.old.level }
        ensures begun { self.new.is_begun ≡ self.old.is_begun }
        ensures writer { self.new.writer ≡ self.old.writer }
        ensures stamps { is_some self.new.stamps ≡ is_some self.old.stamps }
    {
        let Some(stamps) = &mut self.stamps else {
            return;
        };
        let Ok(now) = Timestamp::now(self.rt) else {
            return;
        };
        let Ok(moment) = format!(in self.alloc; "{now:.3}") else {
            return;
        };
        if let Ok(stamp) = stamp_of(self.alloc, moment.as_str(), self.level) {
            let _ = stamps.write_all(stamp.as_bytes());
        }
    }
}

/// The stamp of a line that begins at a moment.
fn stamp_of(alloc: Global, moment: &str, level: Level) -> Result<String, AllocError>
    ensures { IfOk result (λ stamp. string_bytes stamp ≡ stamp_text moment.now (level_name level)) }
{
    stamp_with(alloc, moment, level.name())
}

/// The stamp of a moment and the name of a level.
#[tactic(auto, unfolding(crate::specs::Stamped::stamp_text))]
fn stamp_with(alloc: Global, moment: &str, level: &str) -> Result<String, AllocError>
    ensures { IfOk result (λ stamp. string_bytes stamp ≡ stamp_text moment.now level.now) }
{
    format!(in alloc; "{moment} {level} ")
}

impl<R: Clock, S: Write, W: Write> Write for StampedLines<'_, R, S, W> {
    ghost contents = { λ s. W.contents s.writer };

    fn write(&mut self, buf: &[u8]) -> io::Result<usize>
        ensures bound { WritesAtMost result buf.now }
        ensures bytes { WriteAppends (W.contents self.old.writer) (W.contents self.new.writer) result buf.now }
        ensures piece { IfOk result (λ n. n ≤ piece_length (is_some self.old.stamps) self.old.is_begun buf.now) }
        ensures level { self.new.level ≡ level_after (is_some self.old.stamps) self.old.is_begun self.old.level buf.now }
        ensures begun { IfOk result (λ n. self.new.is_begun ≡ begun_after self.old.is_begun buf.now n) }
    {
        let piece = piece(self.stamps.is_some(), self.is_begun, buf);
        if begins(self.is_begun, buf) {
            self.begin(piece);
        }
        let count = self.writer.write(piece)?;
        if count > 0 {
            self.is_begun = !piece[..count].ends_with(b"\n");
        }
        Ok(count)
    }

    fn flush(&mut self) -> io::Result<()> {
        self.writer.flush()
    }
}
