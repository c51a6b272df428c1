//! Whether a file goes wrong near its beginning.
ghost use Rattle.std.specs.Prelude.{◌≡◌, IfOk};
ghost use Rattle.byte_streams.specs.Lines.{parts_of};
ghost use Rattle.note_lines.specs.Astray.{IsAstray, IsTold};

use crate::blank::is_blank;
use crate::read_note;
use byte_streams::cut_line;
use std::alloc::{AllocError, Global};

/// Whether one of the first `most` lines of bytes is neither blank nor the line of a note, so that [`take_notes`](crate::take_notes)
/// refuses the bytes where it passes no line over. A last line without its end is not looked at. Cost: as these lines are read.
pub fn begins_astray(alloc: Global, bytes: &[u8], most: usize) -> Result<bool, AllocError>
    ensures { IfOk result (IsAstray most (parts_of bytes.now)) }
{
    let mut rest = bytes;
    let mut left = most;
    'lines: while left > 0 {
        let Some((line, behind)) = cut_line(rest) else {
            return Ok(false);
        };
        if is_stray(alloc, line)? {
            return Ok(true);
        }
        rest = behind;
        left -= 1;
    }
    Ok(false)
}

/// Whether a line, with its line feed, is neither blank nor that of a note.
fn is_stray(alloc: Global, line: &[u8]) -> Result<bool, AllocError>
    ensures { IfOk result (IsTold line.now) }
{
    if is_blank(line) {
        return Ok(false);
    }
    match read_note(alloc, line)? {
        Some(_) => Ok(false),
        None => Ok(true),
    }
}
