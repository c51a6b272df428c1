//! Where the first line stands that is neither blank nor that of a note.
ghost use Rattle.std.specs.Prelude.{◌≡◌, false, true, IfOk, MatchOption};
ghost use Rattle.note_lines.specs.Hashed.{has_hash};
ghost use Rattle.note_streams.specs.LogLines.{all_lines, files_view, lines_in};
ghost use Rattle.note_streams.specs.Stray.{AreKept, IsFirstIn, IsFirstStray, IsTold, SaysWhether};
ghost use Rattle.note_tallies.specs.Blank.{is_blank};

use crate::file::LogFile;
use byte_streams::cut_line;
use note_lines::{has_hash, read_hashed_note, read_note};
use std::alloc::{AllocError, Global};

/// The file, from 0, and the line, from 1, of the first stray line, where there is one.
pub(crate) fn first_stray(
    alloc: Global,
    files: &[LogFile<'_>],
) -> Result<Option<(usize, u64)>, AllocError>
    ensures { IfOk result (λ r. MatchOption r (AreKept (all_lines (files_view files.now))) (λ place. IsFirstStray (files_view files.now) place.0 place.1)) }
{
    for at in 0..files.len() {
        if let Some(line) = stray_in(alloc, files[at].bytes)? {
            return Ok(Some((at, line)));
        }
    }
    Ok(None)
}

/// The line of a file, from 1, that is its first stray one, where it has one.
fn stray_in(alloc: Global, bytes: &[u8]) -> Result<Option<u64>, AllocError>
    ensures { IfOk result (λ r. MatchOption r (AreKept (lines_in bytes.now)) (IsFirstIn (lines_in bytes.now))) }
{
    let mut rest = bytes;
    let mut lines = 0u64;
    'cuts: while let Some((line, behind)) = cut_line(rest) {
        lines += 1;
        if is_stray(alloc, line)? {
            return Ok(Some(lines));
        }
        rest = behind;
    }
    Ok(None)
}

/// Whether a line, with its line feed, is neither blank nor that of a note.
fn is_stray(alloc: Global, line: &[u8]) -> Result<bool, AllocError>
    ensures { IfOk result (IsTold line.now) }
{
    if is_blank(line) {
        return Ok(false);
    }
    let noted = is_noted(alloc, line)?;
    Ok(!noted)
}

/// Whether a line is that of a note, with an input or without.
fn is_noted(alloc: Global, line: &[u8]) -> Result<bool, AllocError>
    ensures { IfOk result (SaysWhether line.now) }
{
    if has_hash(line) {
        is_hashed_note(alloc, line)
    } else {
        is_input_note(alloc, line)
    }
}

/// The same of a line of the kind without an input.
fn is_hashed_note(alloc: Global, line: &[u8]) -> Result<bool, AllocError>
    requires { has_hash line.now ≡ true }
    ensures { IfOk result (SaysWhether line.now) }
{
    let note = read_hashed_note(alloc, line)?;
    Ok(note.is_some())
}

/// The same of one of the other kind.
fn is_input_note(alloc: Global, line: &[u8]) -> Result<bool, AllocError>
    requires { has_hash line.now ≡ false }
    ensures { IfOk result (SaysWhether line.now) }
{
    let note = read_note(alloc, line)?;
    Ok(note.is_some())
}

/// Whether a line has nothing but blanks.
pub(crate) fn is_blank(line: &[u8]) -> bool
    ensures { result ≡ is_blank line.now }
{
    line.iter().all(|b| *b == b' ' || *b == b'\t' || *b == b'\r' || *b == b'\n')
}
