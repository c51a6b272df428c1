//! The lines of log files, each once.
ghost use Rattle.std.specs.Prelude.{◌≡◌, ◌++◌, IfOk, OnOk};
ghost use Rattle.byte_streams.specs.Lines.{lines_view};
ghost use Rattle.note_streams.specs.LogLines.{all_lines, files_view, lines_in};
ghost use Rattle.note_streams.specs.Sorted.{AreDistinct};

use crate::file::LogFile;
use byte_streams::cut_line;
use std::alloc::{AllocError, Global};

/// The lines of files, with their line feeds, in the order of their bytes and each once. What stands behind the last line feed of
/// a file is passed over. Cost: a sort of the lines.
pub(crate) fn distinct_lines<'a>(
    alloc: Global,
    files: &[LogFile<'a>],
) -> Result<Vec<&'a [u8]>, AllocError>
    ensures { IfOk result (λ v. AreDistinct (files_view files.now) (lines_view v.items)) }
{
    let mut lines = all_lines(alloc, files)?;
    lines.sort_unstable();
    lines.dedup();
    Ok(lines)
}

/// The lines of files as they stand, in just the room for them.
fn all_lines<'a>(alloc: Global, files: &[LogFile<'a>]) -> Result<Vec<&'a [u8]>, AllocError>
    ensures { IfOk result (λ v. lines_view v.items ≡ all_lines (files_view files.now)) }
{
    let mut lines = Vec::with_capacity(alloc, line_count(files))?;
    for file in files {
        add_lines(&mut lines, file.bytes)?;
    }
    Ok(lines)
}

/// How many lines files have, for the room that they take.
fn line_count(files: &[LogFile<'_>]) -> usize {
    let mut count = 0usize;
    for file in files {
        count = count.saturating_add(feed_count(file.bytes));
    }
    count
}

/// How many line feeds there are.
fn feed_count(bytes: &[u8]) -> usize {
    bytes.iter().filter(|b| **b == b'\n').count()
}

/// Adds the lines of a file.
fn add_lines<'a>(lines: &mut Vec<&'a [u8]>, bytes: &'a [u8]) -> Result<(), AllocError>
    ensures { OnOk result (lines_view lines.new.items ≡ lines_view lines.old.items ++ lines_in bytes.now) }
{
    let mut rest = bytes;
    'cuts: while let Some((line, behind)) = cut_line(rest) {
        lines.push(line)?;
        rest = behind;
    }
    Ok(())
}
