//! The command `drive`: what the asks of a file resolve to, and the book of what they reach.
ghost use Rattle.std.specs.Prelude.{◌≡◌, ◌||◌, true, IfOk, IfSome, Ok, Some, [], ◌∷◌};
ghost use Rattle.flagops_drive.specs.Driven.{drive_output_view, workers_refusal};
ghost use Rattle.flagops_drive.specs.declared.fault.DriveRefusal.{DriveRefusal as Reason};
ghost use Rattle.book_core.specs.Reading.{book_of};
ghost use Rattle.flagops_commands.specs.Calls.{checks_losses, drive_calls, writes_book};
ghost use Rattle.flagops_commands.specs.Drive.{HasNoAsks, HasUnreadAsk, IsDriveReport, IsRefusedByName, IsSaved, IsWritten, LeavesBook, before_at, replaces_at};
ghost use Rattle.flagops_shell.specs.Ending.{KeepsUnlessDone};
ghost use Rattle.flagops_shell.specs.Files.{KeepsOthers};
ghost use Rattle.flagops_commands.specs.Refusal.{ComesFrom, GivesOne, GivesUnlessWant, is_file_fault, loads_book, stores_file, TellsOf, TellsOfOne, by};
ghost use Rattle.flagops_shell.specs.Report.{outcome_view};
ghost use Rattle.flagops_files.specs.Told.{file};
ghost use Rattle.flagops_shell.specs.Diagnostic.{Says};
ghost use Rattle.file_diagnostics.specs.Named.{Names};
ghost use Rattle.flagops_commands.specs.DriveSummary.{TellsPrinted};
ghost use Rattle.flagops_commands.specs.Attempts.{TellsOfFirst, drive_attempts};
ghost use Rattle.flagops_commands.specs.Subjects.{written_subjects};
ghost use Rattle.flagops_commands.specs.declared.refusal.ListedRefusal.TheVariants.{WouldLose};

use crate::books::asks::load_asks;
use crate::books::driving::{drive_output, remark_on};
use crate::loading::{check_replaceable, load_book, load_losses, load_marked, store};
use crate::refusal::{ListedRefusal, Refused};
use book_core::Book;
use flagops_drive::DriveOutput;
use flagops_files::of_losses;
use flagops_shell::{FileSet, Outcome, Remark, Status};
use json::Scratch;
use std::alloc::Global;
use std::mem;
use std::sync::Wait;
use std::thread::Threads;

/// The resolutions of the asks of a file, in their order, and the counts of the book that they make, a line each or as an
/// object in one line. The book is written first; where it is added to, it keeps what it had, and else it is not written over
/// one of which it lacks an input, unless with `replace`. A person is told how many asks ended in what, how many inputs they
/// reached, and the first member of an ask that is not read. With `strict` asks with such a member are refused before one is
/// answered, and asks that reached no input before the book is written. The document may have floats, or may not; the value of a
/// flag that has some is printed by its spelling.
pub fn drive<R: Threads + Wait + Sync, F: FileSet>(
    rt: &R,
    alloc: Global,
    files: &mut F,
    document: &str,
    floats: bool,
    asks: &str,
    workers: u16,
    book: &str,
    add: bool,
    replace: bool,
    strict: bool,
    json: bool,
) -> Result<Outcome, Refused>
    ensures exact { IfSome (F.holding files.old) (λ at. GivesOne outcome_view result (IsDriveReport floats at (F.holding files.new) document.now asks.now workers book.now add replace strict json)) }
    ensures calls { ComesFrom drive_calls result }
    ensures failed { F.has_failed files.new ≡ (F.has_failed files.old || is_file_fault result) }
    ensures left { LeavesBook floats (F.holding files.old) (F.holding files.new) document.now asks.now workers book.now add strict }
    ensures kept { KeepsUnlessDone (F.holding files.old) (F.holding files.new) result }
    // What is known without taking memory is refused by name, once the files before it were read.
    ensures bad_workers { (e : Reason) → workers_refusal workers ≡ Some e → IsRefusedByName result }
    ensures bad_asks { IfSome (F.holding files.old) (λ at. HasNoAsks at asks.now → IsRefusedByName result) }
    ensures unread { IfSome (F.holding files.old) (λ at. strict ≡ true → HasUnreadAsk at asks.now → IsRefusedByName result) }
    ensures names { IfSome (F.holding files.old) (λ at. TellsOfFirst (drive_attempts floats at document.now asks.now book.now add) result) }
    ensures notes { IfOk result (λ o. IfSome o.remark (Says (Names asks.now))) }
    ensures numbers { IfOk result (λ o. IfSome (F.holding files.old) (λ at. IfSome o.remark (Says (TellsPrinted floats at document.now asks.now book.now add json o.text.items)))) }
{
    let flags = load_marked(alloc, files, document, floats)?;
    let mut bytes = Vec::new(alloc);
    let mut scratch = Scratch::new(alloc);
    let loaded = load_asks(alloc, files, asks, &mut bytes, &mut scratch)?;
    let before = book_before(alloc, files, book, add)?;
    let drive_output = drive_output(
        rt,
        alloc,
        &flags,
        asks,
        &loaded,
        workers,
        book,
        before,
        strict,
        json,
        files.meter(),
    )?;
    let remark = remark_on(alloc, asks, &loaded, &drive_output.tally);
    // The program ends soon, and its memory with it.
    mem::forget((flags, loaded));
    let lossy = may_lose(add, replace);
    written(alloc, files, book, drive_output, remark, lossy)
}

/// Whether a book may be written over one of which it lacks inputs: where it was added to, or is to be replaced.
fn may_lose(add: bool, replace: bool) -> bool
    ensures { result ≡ (add || replace) }
{
    add || replace
}

/// The book that was there before: that of the file at a path where it is added to, and else none; then a file that is no
/// book is not written over.
#[tactic(auto, unfolding(crate::specs::Drive::before_at))]
fn book_before<F: FileSet>(
    alloc: Global,
    files: &mut F,
    path: &str,
    add: bool,
) -> Result<Option<Book>, Refused>
    ensures exact { IfSome (F.holding files.old) (λ at. GivesUnlessWant (λ before. before) result (before_at at path.now add)) }
    ensures calls { ComesFrom loads_book result }
    ensures failed { F.has_failed files.new ≡ (F.has_failed files.old || is_file_fault result) }
    ensures kept { F.holding files.new ≡ F.holding files.old }
    ensures names { TellsOf (file path.now) result }
{
    if add {
        Ok(Some(load_book(alloc, files, path)?))
    } else {
        check_replaceable(alloc, files, path)?;
        Ok(None)
    }
}

/// The report of a book with what is printed and what is told beside it, once it was written: where inputs of the book that is
/// there may not be lost, it is written only where none is.
fn written<F: FileSet>(
    alloc: Global,
    files: &mut F,
    book: &str,
    drive_output: DriveOutput,
    remark: Remark,
    lossy: bool,
) -> Result<Outcome, Refused>
    requires { book_of drive_output.book.items ≡ Ok drive_output.rest.book }
    ensures exact { IfSome (F.holding files.old) (λ at. GivesOne outcome_view result (IsWritten at (F.holding files.new) book.now lossy (Ok (drive_output_view drive_output)))) }
    ensures calls { ComesFrom writes_book result }
    ensures failed { F.has_failed files.new ≡ (F.has_failed files.old || is_file_fault result) }
    ensures others { KeepsOthers (F.holding files.old) (F.holding files.new) book.now }
    ensures kept { KeepsUnlessDone (F.holding files.old) (F.holding files.new) result }
    ensures names { TellsOfOne (written_subjects book.now) result }
    ensures remark { IfOk result (λ o. (o.remark ≡ Some remark) × (o.text.items ≡ drive_output.text.items)) }
{
    check_losses(alloc, files, book, &drive_output.rest.book, lossy)?;
    saved(alloc, files, book, drive_output, remark)
}

/// That a new book may be written over the one at a path.
#[tactic(auto, using(crate::proofs::Losing::free, crate::proofs::Losing::none_lost, crate::proofs::Losing::some_lost, crate::proofs::Losing::unknown, crate::proofs::Losing::checks, crate::proofs::Losing::loses))]
fn check_losses<F: FileSet>(
    alloc: Global,
    files: &mut F,
    path: &str,
    new: &Book,
    lossy: bool,
) -> Result<(), Refused>
    ensures exact { IfSome (F.holding files.old) (λ at. GivesUnlessWant (λ u. u) result (replaces_at at path.now lossy new.now)) }
    ensures calls { ComesFrom checks_losses result }
    ensures failed { F.has_failed files.new ≡ (F.has_failed files.old || is_file_fault result) }
    ensures kept { F.holding files.new ≡ F.holding files.old }
    ensures names { TellsOfOne (written_subjects path.now) result }
{
    if lossy {
        return Ok(());
    }
    let lost = load_losses(alloc, files, path, new)?;
    if lost == 0 {
        Ok(())
    } else {
        Err(would_lose(alloc, path, lost))
    }
}

/// The refusal to lose so many inputs of the book at a path.
#[tactic(auto, using(flagops_files::proofs::Told::says))]
fn would_lose(alloc: Global, path: &str, lost: u64) -> Refused
    ensures refusal { result.refusal ≡ WouldLose lost }
    ensures names { Says (Names path.now) result.remark }
{
    Refused {
        refusal: ListedRefusal::WouldLose(lost),
        remark: Remark::of(of_losses(
            alloc,
            path,
            lost,
            "keep them with --add, or give them up with --replace",
        )),
    }
}

/// The report of a book that may be written, once it was.
fn saved<F: FileSet>(
    alloc: Global,
    files: &mut F,
    book: &str,
    drive_output: DriveOutput,
    remark: Remark,
) -> Result<Outcome, Refused>
    ensures exact { IfSome (F.holding files.old) (λ at. GivesOne outcome_view result (IsSaved (Ok tt) at (F.holding files.new) book.now (drive_output_view drive_output))) }
    ensures calls { ComesFrom stores_file result }
    ensures failed { F.has_failed files.new ≡ (F.has_failed files.old || is_file_fault result) }
    ensures others { KeepsOthers (F.holding files.old) (F.holding files.new) book.now }
    ensures kept { KeepsUnlessDone (F.holding files.old) (F.holding files.new) result }
    ensures names { TellsOfOne ((file book.now, by stores_file) ∷ []) result }
    ensures remark { IfOk result (λ o. (o.remark ≡ Some remark) × (o.text.items ≡ drive_output.text.items)) }
{
    store(alloc, files, book, drive_output.book.as_slice())?;
    let DriveOutput { text, rest, .. } = drive_output;
    // The program ends soon, and its memory with it.
    mem::forget(rest);
    Ok(Outcome {
        text,
        status: Status::Done,
        remark: Some(remark),
    })
}
