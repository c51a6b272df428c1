//! The last lines of a file.
ghost use Rattle.std.specs.Prelude.{◌≡◌, ◌≤◌, IfOk, IfSome, length};
ghost use Rattle.log_file.specs.File.{Shows};
ghost use Rattle.log_file.specs.Last.{AreLastLines, IsLastStart, SkipsLines};
ghost use Rattle.log_file.specs.Line.{EndsLine, lines_in};

use crate::file::LogFile;
use crate::torn::PIECE;
use crate::whole::{lines_in, whole_lines};
use byte_streams::cut_line;
use std::alloc::Global;
use std::io;

/// The last lines of a file of so many bytes, all of them whole lines: so many lines, or all where it has fewer.
pub(crate) fn last_lines<F: LogFile>(
    alloc: Global,
    file: &F,
    len: u64,
    most: u64,
) -> io::Result<Vec<u8>>
    requires length { IfSome (F.bytes file.now) (λ bs. len ≡ length bs) }
    requires whole { IfSome (F.bytes file.now) EndsLine }
    ensures whole { IfOk result (λ last. EndsLine last.items) }
    ensures last { IfOk result (λ last. IfSome (F.bytes file.now) (λ bs. AreLastLines most bs last.items)) }
{
    let start = last_start(alloc, file, len, most)?;
    let mut last = bytes_from(alloc, file, start, (len - start) as usize)?;
    let whole = whole_lines(last.as_slice());
    last.truncate(whole);
    Ok(last)
}

/// So many bytes of a file from a place on.
fn bytes_from<F: LogFile>(alloc: Global, file: &F, start: u64, count: usize) -> io::Result<Vec<u8>>
    ensures count { IfOk result (λ bytes. length bytes.items ≡ count) }
    ensures shown { IfOk result (λ bytes. Shows (F.bytes file.now) start bytes.items) }
{
    let mut bytes = vec![in alloc; 0u8; count]?;
    file.read_exact_at(bytes.as_mut_slice(), start)?;
    Ok(bytes)
}

/// Where the last lines of a file of so many bytes begin. The file is read by pieces, from its end.
#[tactic(auto, using(crate::proofs::LastLines::begins_leaving, crate::proofs::LastLines::piece_leaves, crate::proofs::LastLines::piece_starts, crate::proofs::LastLines::all_start))]
fn last_start<F: LogFile>(alloc: Global, file: &F, len: u64, most: u64) -> io::Result<u64>
    requires length { IfSome (F.bytes file.now) (λ bs. len ≡ length bs) }
    ensures within { IfOk result (λ n. n ≤ len) }
    ensures start { IfOk result (λ n. IfSome (F.bytes file.now) (IsLastStart most n)) }
{
    let mut end = len;
    let mut left = most;
    while end > 0 {
        let start = end - end.min(PIECE as u64);
        let part = bytes_from(alloc, file, start, (end - start) as usize)?;
        let lines = lines_in(part.as_slice());
        if lines > left {
            let rest = behind_lines(part.as_slice(), lines - left);
            return Ok(end - rest.len() as u64);
        }
        left -= lines;
        end = start;
    }
    Ok(0)
}

/// What follows the first lines of bytes, so many of them.
fn behind_lines(bytes: &[u8], lines: u64) -> &[u8]
    requires { lines ≤ lines_in bytes.now }
    ensures skips { SkipsLines lines bytes.now result.now }
    ensures fewer { length result.now ≤ length bytes.now }
{
    let mut rest = bytes;
    for _line in 0..lines {
        match cut_line(rest) {
            Some((_, behind)) => rest = behind,
            None => return rest,
        }
    }
    rest
}
