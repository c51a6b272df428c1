//! What was recorded, as a file has it: a book, or the tally of a page.
ghost use Rattle.std.specs.Prelude.{◌≡◌, ◌<◌, ◌||◌, false, true, IfSome};
ghost use Rattle.flagops_files.specs.Evidence.{IsReadAs, begins_tally};
ghost use Rattle.flagops_files.specs.Question.{IsEvidenceAt};
ghost use Rattle.flagops_files.specs.Refusal.{ComesFrom, GivesOne, is_file_fault, loads_evidence, TellsOf};
ghost use Rattle.flagops_files.specs.Told.{file};

use crate::books::load_book_bytes;
use crate::refusal::{Refusal, Refused};
use file_diagnostics::{Ends, of_book, of_tally};
use flag_defs::Flags;
use flagops_shell::{FileSet, Remark};
use note_tallies::{PageTally, read_tally};
use page_tally::BookFile;
use price_core::Request;
use rollout::{Refining, read_book_asked};
use std::alloc::Global;
use std::thread::Threads;

/// What the first line of a tally begins with, and that of no book.
const TALLY_OPENING: &[u8] = b"{\"tally\":";

/// What was recorded of the users that a rollout has reached.
#[derive(Drop)]
pub enum Evidence {
    /// Their hash inputs.
    Book(BookFile),
    /// How many of those of one page fall on each point.
    Tally(PageTally),
}

/// What the file at a path records: it is read as a tally where its first line begins as that of one, and else as a book. A
/// book is read for a request where there is one, as by [`read_book_asked`]. The condition is a factor from 1.
pub fn load_evidence<R: Threads, F: FileSet>(
    rt: &R,
    alloc: Global,
    files: &mut F,
    flags: &Flags,
    request: Option<&Request>,
    factor: u32,
    path: &str,
) -> Result<Evidence, Refused>
    requires { 0 < factor }
    ensures exact { IfSome (F.holding files.old) (λ at. GivesOne (λ e. e) result (IsEvidenceAt at path.now)) }
    ensures calls { ComesFrom loads_evidence result }
    ensures failed { F.has_failed files.new ≡ (F.has_failed files.old || is_file_fault result) }
    ensures kept { F.holding files.new ≡ F.holding files.old }
    ensures names { TellsOf (file path.now) result }
{
    let bytes = load_book_bytes(alloc, files, path)?;
    evidence_in(rt, alloc, flags, request, factor, path, bytes)
}

/// The same of bytes that were loaded from a path.
#[tactic(auto, using(crate::proofs::Told::says))]
fn evidence_in<R: Threads>(
    rt: &R,
    alloc: Global,
    flags: &Flags,
    request: Option<&Request>,
    factor: u32,
    path: &str,
    bytes: Vec<u8>,
) -> Result<Evidence, Refused>
    requires { 0 < factor }
    ensures exact { GivesOne (λ e. e) result (IsReadAs (begins_tally bytes.items) bytes.items) }
    ensures calls { ComesFrom loads_evidence result }
    ensures read { is_file_fault result ≡ false }
    ensures names { TellsOf (file path.now) result }
{
    if bytes.as_slice().starts_with(TALLY_OPENING) {
        return tally_in(alloc, path, bytes.as_slice());
    }
    let ends = Ends::of(bytes.as_slice());
    let refining = Refining::Times(factor);
    match read_book_asked(rt, alloc, refining, flags, request, bytes) {
        Ok(book) => Ok(Evidence::Book(book)),
        Err(fault) => Err(Refused {
            refusal: Refusal::ReadBook(fault),
            remark: Remark::of(of_book(alloc, path, ends, fault)),
        }),
    }
}

/// The tally of such bytes.
#[tactic(auto, using(crate::proofs::Told::says))]
fn tally_in(alloc: Global, path: &str, bytes: &[u8]) -> Result<Evidence, Refused>
    ensures exact { GivesOne (λ e. e) result (IsReadAs true bytes.now) }
    ensures calls { ComesFrom loads_evidence result }
    ensures read { is_file_fault result ≡ false }
    ensures names { TellsOf (file path.now) result }
{
    match read_tally(alloc, bytes) {
        Ok(tally) => Ok(Evidence::Tally(tally)),
        Err(fault) => Err(Refused {
            refusal: Refusal::ReadTally(fault),
            remark: Remark::of(of_tally(alloc, path, Ends::of(bytes), fault)),
        }),
    }
}
