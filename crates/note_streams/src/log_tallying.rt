//! From the lines of log files to the tally of a page.
ghost use Rattle.std.specs.Prelude.{◌≡◌};
ghost use Rattle.std.specs.List.Sorted.{IsStrictlySortedBy};
ghost use Rattle.book_core.specs.Page.{bytes_cmp};
ghost use Rattle.byte_streams.specs.Lines.{lines_view};
ghost use Rattle.note_tallies.specs.Tally.{IsTallyTotal};
ghost use Rattle.note_streams.specs.LogLines.{files_view};
ghost use Rattle.note_streams.specs.Sorted.{TalliesLines};
ghost use Rattle.note_streams.specs.Tallies.{TalliesFiles};

use crate::distinct::distinct_lines;
use crate::file::LogFile;
use crate::log_fault::LogTallyFault;
use crate::refusal::fault_of;
use book_core::Page;
use note_tallies::{FilterFault, PageTally, TallyFilter, a_stream_is_tallied};
use std::alloc::Global;

/// The tally of the hash inputs of a page that files hold, each counted once, in so many points; or of the hashes, where the notes
/// are without inputs. Blank lines are passed over, and so is what stands behind the last line feed of a file. The condition is a
/// total from 1 to 1,000,000.
///
/// Refusals, in this order: `Line`, of the first line of the first file that is neither blank nor that of a note; `Mixed`;
/// `TooMany`. Cost: a sort of the lines of all files, and each distinct line is read once; before a refusal the files are read once
/// more.
pub fn tally_files(
    alloc: Global,
    page: Page,
    total: u32,
    files: &[LogFile<'_>],
) -> Result<PageTally, LogTallyFault>
    requires { IsTallyTotal total }
    ensures { TalliesFiles (files_view files.now) page total result }
{
    a_stream_is_tallied();
    let distinct = distinct_lines(alloc, files)?;
    let lines = distinct.as_slice();
    match tally_lines(alloc, page, total, lines) {
        Ok(tally) => Ok(tally),
        Err(refused) => {
            let fault = fault_of(alloc, files, lines, refused)?;
            Err(fault)
        }
    }
}

/// The tally of lines that rise.
fn tally_lines(
    alloc: Global,
    page: Page,
    total: u32,
    lines: &[&[u8]],
) -> Result<PageTally, FilterFault>
    requires total { IsTallyTotal total }
    requires rising { IsStrictlySortedBy bytes_cmp (lines_view lines.now) }
    ensures { TalliesLines page total (lines_view lines.now) result }
{
    let mut filter = TallyFilter::new(alloc, page, total)?;
    for line in lines {
        filter.take(alloc, line)?;
    }
    Ok(filter.finish())
}
