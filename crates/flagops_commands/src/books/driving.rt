//! Asks that were read: what is refused of them, what they come to, and what a person is told of it.
ghost use Rattle.std.specs.Prelude.{◌≡◌, false, true, IfErr, IfOk, IsErrAnd, IsOk, OnOk, Err, Ok, [], ◌∷◌, string_bytes};
ghost use Rattle.book_core.specs.Reading.{book_of};
ghost use Rattle.flag_defs.specs.Floats.{marked_view};
ghost use Rattle.flag_text.specs.Shape.{is_whole};
ghost use Rattle.flagops_drive.specs.Asks.{asks_of};
ghost use Rattle.flagops_drive.specs.Driven.{drive_output_view, refusal_of};
ghost use Rattle.flagops_drive.specs.File.{file_view};
ghost use Rattle.flagops_drive.specs.Tally.{IsTallied};
ghost use Rattle.flagops_commands.specs.Calls.{drive_itself};
ghost use Rattle.flagops_commands.specs.Refusal.{ComesFrom, GivesOne, GivesUnlessWant, is_file_fault, TellsOfOne};
ghost use Rattle.flagops_commands.specs.Drive.{IsDriveOutputOf, admitted, doubt_of_asks, recorded, settle};
ghost use Rattle.flagops_commands.specs.DriveSummary.{TellsDriven};
ghost use Rattle.flagops_commands.specs.Subjects.{NamesDriven, driven_subjects, is_of_asks};
ghost use Rattle.flagops_commands.specs.declared.refusal.ListedRefusal.{ListedRefusal as Reason};
ghost use Rattle.flagops_files.specs.Told.{file};
ghost use Rattle.flagops_shell.specs.Diagnostic.{Says};
ghost use Rattle.flagops_commands.specs.declared.refusal.ListedCall.TheVariants as call;
ghost use Rattle.flagops_commands.specs.declared.refusal.ListedRefusal.TheVariants.{Doubted, Drive};
ghost use Rattle.file_diagnostics.specs.Named.{Names};

use crate::books::ask_diagnostics::{of_driven, of_unrecorded_asks, of_workers};
use crate::books::asks::{of_no_asks, of_unread};
use crate::refusal::{ListedRefusal, Refused};
use book_core::Book;
use file_diagnostics::of_full_book;
use flag_defs::Flags;
use flagops_drive::{
    AsksFile, DriveOutput, DriveRefusal, Tally, drive_asks, has_unread_ask, refusal_of,
};
use flagops_rollouts::Doubt;
use flagops_shell::Remark;
use progress::Meter;
use std::alloc::{AllocError, Global};
use std::sync::Wait;
use std::thread::Threads;

/// What `drive` gives for the asks of a file, which was loaded from a path as the book that was there before was. Each ask that
/// is answered moves the meter on, where there is one.
pub fn drive_output<R: Threads + Wait + Sync>(
    rt: &R,
    alloc: Global,
    flags: &Flags,
    path: &str,
    asks: &AsksFile<'_>,
    workers: u16,
    book: &str,
    before: Option<Book>,
    strict: bool,
    json: bool,
    meter: Option<&Meter>,
) -> Result<DriveOutput, Refused>
    requires { is_whole (file_view asks.now) ≡ true }
    ensures exact { GivesOne drive_output_view result (IsDriveOutputOf (Ok (marked_view flags.now)) (Ok (file_view asks.now)) (Ok before) workers strict json) }
    ensures calls { ComesFrom drive_itself result }
    ensures read { is_file_fault result ≡ false }
    ensures refused { (e : Reason) → admitted strict (refusal_of (asks_of (file_view asks.now)) workers) (file_view asks.now) ≡ Err e → IsErrAnd result (λ r. r.refusal ≡ e) }
    ensures names { TellsOfOne (driven_subjects path.now book.now) result }
    ensures tally { IfOk result (IsTallied (marked_view flags.now) (asks_of (file_view asks.now)) before json) }
    ensures file { IfOk result (λ d. book_of d.book.items ≡ Ok d.rest.book) }
{
    let workers = usize::from(workers);
    check_members(alloc, path, asks, workers, book, strict)?;
    match drive_asks(rt, alloc, flags, asks, workers, before, json, meter) {
        Ok(drive_output) => recorded(alloc, path, drive_output, strict),
        Err(refusal) => Err(undriven(alloc, path, asks, workers, book, refusal)),
    }
}

/// That no ask has a member that is not read, where such asks are to be refused; what else is known of them before one is
/// answered is refused first.
#[tactic(auto, using(flagops_files::proofs::Told::says))]
fn check_members(
    alloc: Global,
    path: &str,
    asks: &AsksFile<'_>,
    workers: usize,
    book: &str,
    strict: bool,
) -> Result<(), Refused>
    requires { is_whole (file_view asks.now) ≡ true }
    ensures ok { OnOk result (IsOk (settle strict (doubt_of_asks (file_view asks.now)))) }
    ensures refused { IfErr result (λ r. admitted strict (refusal_of (asks_of (file_view asks.now)) workers) (file_view asks.now) ≡ Err r.refusal) }
    ensures calls { ComesFrom drive_itself result }
    ensures read { is_file_fault result ≡ false }
    ensures names { TellsOfOne (driven_subjects path.now book.now) result }
{
    if !strict || !has_unread_ask(asks) {
        return Ok(());
    }
    Err(match refusal_of(asks, workers) {
        Some(refusal) => undriven(alloc, path, asks, workers, book, refusal),
        None => Refused {
            refusal: ListedRefusal::Doubted(Doubt::Unread),
            remark: Remark::of(of_unread(alloc, path, asks)),
        },
    })
}

/// What was driven, or that it reached no input, where that is to be refused.
#[tactic(auto, using(flagops_files::proofs::Told::says))]
fn recorded(
    alloc: Global,
    path: &str,
    drive_output: DriveOutput,
    strict: bool,
) -> Result<DriveOutput, Refused>
    ensures exact { GivesUnlessWant drive_output_view result (recorded strict (drive_output_view drive_output)) }
    ensures calls { ComesFrom drive_itself result }
    ensures read { is_file_fault result ≡ false }
    ensures names { TellsOfOne ((file path.now, is_of_asks) ∷ []) result }
    ensures same { IfOk result (λ d. d ≡ drive_output) }
{
    if strict && drive_output.tally.reached == 0 {
        return Err(Refused {
            refusal: ListedRefusal::Doubted(Doubt::Unrecorded),
            remark: Remark::of(of_unrecorded_asks(alloc, path, &drive_output.tally)),
        });
    }
    Ok(drive_output)
}

/// Why asks were not driven, with what is told of it.
#[tactic(auto, using(flagops_files::proofs::Told::says))]
fn undriven(
    alloc: Global,
    path: &str,
    asks: &AsksFile<'_>,
    workers: usize,
    book: &str,
    refusal: DriveRefusal,
) -> Refused
    ensures refusal { result.refusal ≡ Drive refusal }
    ensures names { Says (NamesDriven path.now book.now refusal) result.remark }
{
    Refused {
        refusal: ListedRefusal::Drive(refusal),
        remark: Remark::of(of_refusal(alloc, path, asks, workers, book, refusal)),
    }
}

fn of_refusal(
    alloc: Global,
    path: &str,
    asks: &AsksFile<'_>,
    workers: usize,
    book: &str,
    refusal: DriveRefusal,
) -> Result<String, AllocError>
    ensures { IfOk result (λ s. NamesDriven path.now book.now refusal (string_bytes s)) }
{
    match refusal {
        DriveRefusal::BadAsks => of_no_asks(alloc, path, asks),
        DriveRefusal::Drive(fault) => of_workers(alloc, workers, fault.name()),
        DriveRefusal::PageFull => of_full_book(alloc, book),
    }
}

/// What a person is told of asks that were driven, by the path of their file: of members that are not read, and of what the
/// asks came to.
#[tactic(auto, using(flagops_files::proofs::Told::says))]
pub fn remark_on(alloc: Global, path: &str, asks: &AsksFile<'_>, tally: &Tally) -> Remark
    ensures names { Says (Names path.now) result }
    ensures numbers { Says (TellsDriven path.now (file_view asks.now) tally.now) result }
{
    Remark::of(lines_on(alloc, path, asks, tally))
}

#[tactic(auto, using(flagops_rollouts::proofs::Doubting::named_still, crate::proofs::Summary::alone, crate::proofs::Summary::behind))]
fn lines_on(
    alloc: Global,
    path: &str,
    asks: &AsksFile<'_>,
    tally: &Tally,
) -> Result<String, AllocError>
    ensures names { IfOk result (λ s. Names path.now (string_bytes s)) }
    ensures numbers { IfOk result (λ s. TellsDriven path.now (file_view asks.now) tally.now (string_bytes s)) }
{
    let summary = of_driven(alloc, path, tally)?;
    if has_unread_ask(asks) {
        let mut lines = of_unread(alloc, path, asks)?;
        lines.push_str(summary.as_str())?;
        Ok(lines)
    } else {
        Ok(summary)
    }
}
