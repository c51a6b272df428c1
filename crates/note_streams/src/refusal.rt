//! Why log files have no tally of a page.
ghost use Rattle.std.specs.Prelude.{◌≡◌, ◌&&◌, IfOk};
ghost use Rattle.std.specs.List.{list_any};
ghost use Rattle.byte_streams.specs.Lines.{lines_view};
ghost use Rattle.note_streams.specs.LogLines.{files_view};
ghost use Rattle.note_streams.specs.Sorted.{AreDistinct, IsRefusedFor, IsWhy, is_hash_line, is_input_line};

use crate::file::LogFile;
use crate::log_fault::LogTallyFault;
use crate::stray::{first_stray, is_blank};
use note_lines::has_hash;
use note_tallies::FilterFault;
use std::alloc::{AllocError, Global};

/// Why files have no tally, where their lines, each once, are refused for this: a stray line before notes of both kinds, and these
/// before too many inputs.
pub(crate) fn fault_of(
    alloc: Global,
    files: &[LogFile<'_>],
    lines: &[&[u8]],
    refused: FilterFault,
) -> Result<LogTallyFault, AllocError>
    requires distinct { AreDistinct (files_view files.now) (lines_view lines.now) }
    requires refused { IsRefusedFor (lines_view lines.now) refused }
    ensures { IfOk result (IsWhy (files_view files.now) refused) }
{
    if let Some((file, line)) = first_stray(alloc, files)? {
        return Ok(LogTallyFault::Line(file, line));
    }
    if are_mixed(lines) {
        return Ok(LogTallyFault::Mixed);
    }
    match refused {
        FilterFault::WantOfMemory => Ok(LogTallyFault::WantOfMemory),
        FilterFault::TooMany => Ok(LogTallyFault::TooMany),
        // Each line is that of a note of one kind, and lines that rise are refused for no order.
        FilterFault::Line(_) => unreachable!(),
        FilterFault::Order(_) => unreachable!(),
        FilterFault::Mixed(_) => unreachable!(),
    }
}

/// Whether some lines are of the kind with an input, and some of the kind without.
fn are_mixed(lines: &[&[u8]]) -> bool
    ensures { result ≡ (list_any (λ line. is_input_line line.now) lines.now && list_any (λ line. is_hash_line line.now) lines.now) }
{
    has_inputs(lines) && has_hashes(lines)
}

/// Whether some lines are of the kind with an input.
fn has_inputs(lines: &[&[u8]]) -> bool
    ensures { result ≡ list_any (λ line. is_input_line line.now) lines.now }
{
    lines.iter().any(|line| is_input_line(line))
}

/// Whether some lines are of the kind without.
fn has_hashes(lines: &[&[u8]]) -> bool
    ensures { result ≡ list_any (λ line. is_hash_line line.now) lines.now }
{
    lines.iter().any(|line| is_hash_line(line))
}

/// Whether a line that is not stray is that of a note with an input.
fn is_input_line(line: &[u8]) -> bool
    ensures { result ≡ is_input_line line.now }
{
    !is_blank(line) && !has_hash(line)
}

/// Whether a line that is not stray is that of a note without an input.
fn is_hash_line(line: &[u8]) -> bool
    ensures { result ≡ is_hash_line line.now }
{
    !is_blank(line) && has_hash(line)
}
