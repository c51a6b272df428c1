//! The last whole line of a file, and what comes after it.
ghost use Rattle.std.specs.Prelude.{◌≡◌, ◌<◌, ◌≤◌, IfOk, IfSome, OnErr, OnOk, length};
ghost use Rattle.log_file.specs.Journal.{LeavesLines};
ghost use Rattle.log_file.specs.Line.{IsWholePart};
ghost use Rattle.log_file.specs.Piece.{IsWholeIn};

use crate::file::LogFile;
use crate::whole::whole_lines;
use std::alloc::{AllocError, Global};
use std::io;

/// The bytes that are read at once where the end of the last whole line is looked for.
pub(crate) const PIECE: usize = 65_536;

/// Cuts off a last line without its end, and says how many bytes are left.
#[tactic(auto, using(crate::proofs::Lengths::cut_length, crate::proofs::Lengths::left, crate::proofs::Lengths::all_left, crate::proofs::Lengths::all_length))]
pub(crate) fn cut_torn_line<F: LogFile>(alloc: Global, file: &mut F) -> io::Result<u64>
    ensures left { OnOk result (LeavesLines (F.bytes file.old) (F.bytes file.new)) }
    ensures length { IfOk result (λ n. IfSome (F.bytes file.new) (λ bs. n ≡ length bs)) }
    ensures kept { OnErr result (F.bytes file.new ≡ F.bytes file.old) }
    ensures stands { F.stands file.new ≡ F.stands file.old }
    ensures path { F.path file.new ≡ F.path file.old }
    ensures looks { F.looks file.new ≡ F.looks file.old }
    ensures faults { F.faults file.new ≡ F.faults file.old }
{
    let mut piece = blank_piece(alloc)?;
    let len = file.len()?;
    let whole = whole_part(file, piece.as_mut_slice(), len)?;
    if whole < len {
        file.cut(whole)?;
    }
    Ok(whole)
}

/// Room for the bytes that are read at once.
fn blank_piece(alloc: Global) -> Result<Vec<u8>, AllocError>
    ensures { IfOk result (λ piece. 0 < length piece.items) }
{
    vec![in alloc; 0u8; PIECE]
}

/// How many of the first bytes of a file of so many are whole lines. The file is read by pieces, from its end.
#[tactic(auto, using(crate::proofs::Pieces::further, crate::proofs::Pieces::ends, crate::proofs::Pieces::none))]
fn whole_part<F: LogFile>(file: &F, piece: &mut [u8], len: u64) -> io::Result<u64>
    requires some { 0 < length piece.old }
    requires length { IfSome (F.bytes file.now) (λ bs. len ≡ length bs) }
    ensures { IfOk result (λ n. IfSome (F.bytes file.now) (λ bs. IsWholePart bs n)) }
{
    let mut end = len;
    while end > 0 {
        let count = end.min(piece.len() as u64);
        let start = end - count;
        let whole = whole_in(file, piece, start, count as usize)?;
        if whole > 0 {
            return Ok(start + whole as u64);
        }
        end = start;
    }
    Ok(0)
}

/// Reads a piece of a file, so many bytes from a place on, and says how much of it is up to its last line feed.
fn whole_in<F: LogFile>(file: &F, piece: &mut [u8], start: u64, count: usize) -> io::Result<usize>
    requires { count ≤ length piece.old }
    ensures whole { IfOk result (λ n. IfSome (F.bytes file.now) (IsWholeIn start count n)) }
    ensures most { IfOk result (λ n. n ≤ count) }
    ensures length { length piece.new ≡ length piece.old }
{
    let part = &mut piece[..count];
    file.read_exact_at(part, start)?;
    Ok(whole_lines(part))
}
