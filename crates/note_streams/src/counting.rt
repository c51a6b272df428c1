//! How many notes log files hold of each page.
ghost use Rattle.std.specs.Prelude.{◌≡◌, false, true, IfOk, OnOk};
ghost use Rattle.byte_streams.specs.Lines.{lines_view};
ghost use Rattle.note_lines.specs.Hashed.{has_hash};
ghost use Rattle.note_streams.specs.Counts.{AreCounts, CountsLine, CountsLines, HasOneMore, HasRoom, SaysPage};
ghost use Rattle.note_streams.specs.LogLines.{files_view};

use crate::distinct::distinct_lines;
use crate::file::LogFile;
use book_core::Page;
use note_lines::{has_hash, read_hashed_note, read_note};
use std::alloc::{AllocError, Global};
use std::collections::BTreeMap;

/// How many notes of each page files hold, each counted once: those with their inputs, and those without. A page without notes has
/// no entry. A line that is that of no note is passed over, and so is what stands behind the last line feed of a file. Want of
/// memory is its one fault.
///
/// Cost: a sort of the lines of all files, and each distinct line is read once.
pub fn count_notes(alloc: Global, files: &[LogFile<'_>]) -> Result<BTreeMap<Page, u64>, AllocError>
    ensures { IfOk result (λ counts. AreCounts (files_view files.now) counts.entries) }
{
    let lines = distinct_lines(alloc, files)?;
    count_lines(alloc, lines.as_slice())
}

/// How many of these lines are those of notes of each page.
fn count_lines(alloc: Global, lines: &[&[u8]]) -> Result<BTreeMap<Page, u64>, AllocError>
    ensures { IfOk result (λ counts. CountsLines (lines_view lines.now) counts.entries) }
{
    let mut counts = BTreeMap::new(alloc);
    for line in lines {
        count_line(alloc, &mut counts, line)?;
    }
    Ok(counts)
}

/// Counts a line where it is that of a note. The condition is that there is room in each number for one more.
fn count_line(
    alloc: Global,
    counts: &mut BTreeMap<Page, u64>,
    line: &[u8],
) -> Result<(), AllocError>
    requires { HasRoom counts.old.entries }
    ensures { OnOk result (CountsLine counts.old.entries line.now counts.new.entries) }
{
    match page_of(alloc, line)? {
        Some(page) => add_one(counts, page),
        None => Ok(()),
    }
}

/// One note more of a page.
fn add_one(counts: &mut BTreeMap<Page, u64>, page: Page) -> Result<(), AllocError>
    requires { HasRoom counts.old.entries }
    ensures { OnOk result (HasOneMore counts.old.entries page counts.new.entries) }
{
    let count = counts.get(&page).copied().unwrap_or(0);
    counts.insert(page, count + 1)?;
    Ok(())
}

/// The page of the note that a line is of.
fn page_of(alloc: Global, line: &[u8]) -> Result<Option<Page>, AllocError>
    ensures { IfOk result (SaysPage line.now) }
{
    if has_hash(line) {
        hashed_page(alloc, line)
    } else {
        input_page(alloc, line)
    }
}

/// The same of a line of the kind without an input.
fn hashed_page(alloc: Global, line: &[u8]) -> Result<Option<Page>, AllocError>
    requires { has_hash line.now ≡ true }
    ensures { IfOk result (SaysPage line.now) }
{
    match read_hashed_note(alloc, line)? {
        Some(note) => Ok(Some(note.page)),
        None => Ok(None),
    }
}

/// The same of one of the other kind.
fn input_page(alloc: Global, line: &[u8]) -> Result<Option<Page>, AllocError>
    requires { has_hash line.now ≡ false }
    ensures { IfOk result (SaysPage line.now) }
{
    match read_note(alloc, line)? {
        Some(note) => Ok(Some(note.page)),
        None => Ok(None),
    }
}
