//! The command `compare`.
ghost use Rattle.std.specs.Prelude.{◌≡◌, ◌&&◌, ◌||◌, false, is_some, if◌then◌else◌, IfErr, IfOk, IfSome, None, Ok, OnErr, OnOk, ⊤, option_copied};
ghost use Rattle.flag_defs.specs.Flags.{flags_view};
ghost use Rattle.flagops_compare.specs.Command.{description};
ghost use Rattle.flagops_compare.specs.Drawn.{LeavesBut, pages_drawn};
ghost use Rattle.flagops_compare.specs.Loaded.{loaded_view};
ghost use Rattle.flagops_compare.specs.Refusal.{is_want};
ghost use Rattle.flagops_compare.specs.Report.{IsCompareReport, IsWithLoaded, IsWithPages, TellsLeft, TellsOfLoaded, attempts_of, compare_report, compare_status, is_doubted, picture_attempts};
ghost use Rattle.flagops_compare.specs.Step.{GivesOne, IsDrawnAt, TellsRefused, is_file_fault};
ghost use Rattle.flagops_compare.specs.Told.{told_lines};
ghost use Rattle.flagops_compare.specs.Words as words;
ghost use Rattle.flagops_compare.specs.Words.{comparing_view};
ghost use Rattle.flagops_compare.specs.declared.refusal.CompareRefusal.TheVariants.{Load, OtherTally, WantOfMemory};
ghost use Rattle.flagops_files.specs.Lines.{NamesFile};
ghost use Rattle.flagops_files.specs.Refusal.{unwritable};
ghost use Rattle.flagops_files.specs.Told.{NamesSubject, file};
ghost use Rattle.flagops_shell.specs.Diagnostic.{Says};
ghost use Rattle.flagops_shell.specs.Ending.{KeepsUnlessDone};
ghost use Rattle.flagops_shell.specs.Files.{KeepsOthers, Stores};
ghost use Rattle.flagops_shell.specs.Report.{outcome_view, status_number};
ghost use Rattle.rule_switches.specs.Found.{AreSums, pages_view};

use crate::asked::Comparing;
use crate::comparing::compared;
use crate::drawing::drawn;
use crate::loading::{Loaded, load_both};
use crate::printing::printed;
use crate::refusal::CompareRefusal;
use crate::telling::{is_unmatched, told_lines};
use crate::words::read_comparing;
use flag_defs::Flags;
use flagops_files::{file_line, store};
use flagops_shell::{Command, FileSet, Outcome, Refused, Remark, Status};
use rule_switches::{Comparison, Edit, PageFound, TallyFault};
use std::alloc::{AllocError, Global};
use std::convert::AsStr;
use std::thread::Threads;

/// It prints what the edit from one document to another does to recorded users; a person is told of pages that have no rules to
/// compare, and of a flag without a page, which with `--strict` are no success. Files are only read, but for that of the picture.
impl<'w, R: Threads, F: FileSet> Command<'w, R, F> for Comparing<'w> {
    type Refusal = CompareRefusal;

    ghost Asked = { words.Comparing };

    ghost Needs = { ⊤ };

    ghost view = { comparing_view };

    ghost description = { description };

    fn read<S: AsStr>(alloc: Global, words: &'w [S]) -> Result<Comparing<'w>, clap::Error> {
        read_comparing(alloc, words)
    }

    #[tactic(auto, using(crate::proofs::Ending::remarks))]
    fn answer(
        &self,
        rt: &R,
        alloc: Global,
        files: &mut F,
    ) -> Result<Outcome, Refused<CompareRefusal>> {
        outcome(rt, alloc, files, self)
    }

    fn call_of(&self, _refusal: &CompareRefusal) -> &'static str {
        "compare"
    }
}

/// What the files at the paths come to, whose picture is written where one is asked for.
fn outcome<R: Threads, F: FileSet>(
    rt: &R,
    alloc: Global,
    files: &mut F,
    asked: &Comparing<'_>,
) -> Result<Outcome, Refused<CompareRefusal>>
    ensures exact { IfSome (F.holding files.old) (λ at. GivesOne result (IsCompareReport at (F.holding files.new) (comparing_view asked.now))) }
    ensures failed { F.has_failed files.new ≡ (F.has_failed files.old || is_file_fault result) }
    ensures left { LeavesBut (option_copied asked.now.picture) (F.holding files.old) (F.holding files.new) }
    ensures kept { KeepsUnlessDone (F.holding files.old) (F.holding files.new) result }
    ensures names { IfSome (F.holding files.old) (λ at. TellsRefused (attempts_of at (comparing_view asked.now)) (comparing_view asked.now) result) }
    ensures notes { IfSome (F.holding files.old) (λ at. IfOk result (λ o. IfSome o.remark (Says (TellsLeft at (comparing_view asked.now))))) }
{
    match load_both(
        rt,
        alloc,
        files,
        asked.old,
        asked.new,
        asked.floats,
        asked.book,
    ) {
        Ok(loaded) => reported(alloc, files, asked, &loaded),
        Err(refused) => Err(Refused::of(refused)),
    }
}

/// The report of what was loaded.
#[tactic(auto, using(crate::proofs::Reported::compared_so, crate::proofs::Reported::tally_refused, crate::proofs::Reported::wanted, crate::proofs::Reported::noted_so, crate::proofs::Reported::same_left, crate::proofs::Reported::tally_told, crate::proofs::Reported::want_told))]
fn reported<F: FileSet>(
    alloc: Global,
    files: &mut F,
    asked: &Comparing<'_>,
    loaded: &Loaded,
) -> Result<Outcome, Refused<CompareRefusal>>
    ensures exact { GivesOne result (IsWithLoaded (F.holding files.old) (F.holding files.new) (comparing_view asked.now) (Ok (loaded_view loaded.now))) }
    ensures failed { F.has_failed files.new ≡ (F.has_failed files.old || is_file_fault result) }
    ensures left { LeavesBut (option_copied asked.now.picture) (F.holding files.old) (F.holding files.new) }
    ensures kept { KeepsUnlessDone (F.holding files.old) (F.holding files.new) result }
    ensures names { TellsRefused (picture_attempts (option_copied asked.now.picture)) (comparing_view asked.now) result }
    ensures notes { IfOk result (λ o. IfSome o.remark (Says (TellsOfLoaded (comparing_view asked.now) (loaded_view loaded.now)))) }
{
    let edit = Edit {
        old: &loaded.old,
        new: &loaded.new,
    };
    match compared(alloc, edit, asked.flag, &loaded.evidence) {
        Ok(compared) => answered(alloc, files, asked, edit, &compared),
        Err(TallyFault::WantOfMemory) => Err(out_of_memory()),
        Err(TallyFault::OtherTally) => Err(other_tally(alloc, asked.book)),
    }
}

/// The report of pages, whose picture is written where one is asked for.
#[tactic(auto, using(crate::proofs::Reported::undrawn, crate::proofs::Reported::drawn_too, crate::proofs::Reported::is_done, crate::proofs::Reported::left_but, crate::proofs::Reported::unshown, crate::proofs::Reported::untold, crate::proofs::Reported::refused_too, crate::proofs::Reported::refused_left, crate::proofs::Reported::refused_told, crate::proofs::Reported::same_left))]
fn answered<F: FileSet>(
    alloc: Global,
    files: &mut F,
    asked: &Comparing<'_>,
    edit: Edit<'_>,
    compared: &Comparison,
) -> Result<Outcome, Refused<CompareRefusal>>
    requires { AreSums compared.now }
    ensures exact { GivesOne result (IsWithPages (F.holding files.old) (F.holding files.new) (comparing_view asked.now) (pages_drawn (flags_view edit.entry.old.now) (flags_view edit.entry.new.now) (pages_view compared.now.pages.items)) (pages_view compared.now.pages.items)) }
    ensures failed { F.has_failed files.new ≡ (F.has_failed files.old || is_file_fault result) }
    ensures left { LeavesBut (option_copied asked.now.picture) (F.holding files.old) (F.holding files.new) }
    ensures kept { KeepsUnlessDone (F.holding files.old) (F.holding files.new) result }
    ensures names { TellsRefused (picture_attempts (option_copied asked.now.picture)) (comparing_view asked.now) result }
    ensures notes { IfOk result (λ o. IfSome o.remark (Says (λ lines. lines ≡ told_lines (comparing_view asked.now) (flags_view edit.entry.old.now) (pages_view compared.now.pages.items)))) }
{
    let outcome = shown(alloc, asked, edit.old, compared)?;
    let Some(path) = picture_path(asked, is_doubted(asked, compared)) else {
        return Ok(outcome);
    };
    match draw_at(alloc, files, path, edit, compared.pages.as_slice()) {
        Ok(()) => Ok(outcome),
        Err(refused) => Err(refused),
    }
}

/// Where the picture that is asked for is written: nowhere where `--strict` refuses what is doubted.
fn picture_path<'a>(asked: &Comparing<'a>, doubted: bool) -> Option<&'a str>
    ensures { option_copied result ≡ (if asked.now.strict && doubted then None else option_copied asked.now.picture) }
{
    if asked.strict && doubted {
        None
    } else {
        asked.picture
    }
}

/// Replaces the file at a path by the picture of pages, whole or not at all.
#[tactic(auto, using(crate::proofs::Reported::drawn_at, crate::proofs::Reported::undrawn_at))]
fn draw_at<F: FileSet>(
    alloc: Global,
    files: &mut F,
    path: &str,
    edit: Edit<'_>,
    pages: &[PageFound],
) -> Result<(), Refused<CompareRefusal>>
    ensures drawn { IsDrawnAt (pages_drawn (flags_view edit.entry.old.now) (flags_view edit.entry.new.now) (pages_view pages.now)) path.now (F.holding files.old) (F.holding files.new) result }
    ensures failed { F.has_failed files.new ≡ (F.has_failed files.old || is_file_fault result) }
{
    match drawn(alloc, edit, pages) {
        Ok(text) => write_at(alloc, files, path, text.as_bytes()),
        Err(AllocError) => Err(out_of_memory()),
    }
}

/// Replaces the file at a path by these bytes, whole or not at all.
#[tactic(auto, using(crate::proofs::Reported::unwritten, crate::proofs::Reported::told_unwritten))]
fn write_at<F: FileSet>(
    alloc: Global,
    files: &mut F,
    path: &str,
    bytes: &[u8],
) -> Result<(), Refused<CompareRefusal>>
    ensures stored { OnOk result (Stores (F.holding files.old) (F.holding files.new) path.now bytes.now) }
    ensures others { KeepsOthers (F.holding files.old) (F.holding files.new) path.now }
    ensures refused { OnErr result (F.holding files.new ≡ F.holding files.old) }
    ensures fault { IfErr result (λ t. is_want t.refusal ≡ false → t.refusal ≡ Load unwritable) }
    ensures names { IfErr result (λ t. is_want t.refusal ≡ false → Says (NamesSubject (file path.now)) t.remark) }
    ensures failed { F.has_failed files.new ≡ (F.has_failed files.old || is_file_fault result) }
{
    match store(alloc, files, path, bytes) {
        Ok(()) => Ok(()),
        Err(refused) => Err(Refused::of(refused)),
    }
}

/// The report of pages.
fn shown(
    alloc: Global,
    asked: &Comparing<'_>,
    old: &Flags,
    compared: &Comparison,
) -> Result<Outcome, Refused<CompareRefusal>>
    requires { AreSums compared.now }
    ensures exact { IfOk result (λ o. outcome_view o ≡ compare_report (comparing_view asked.now) (pages_view compared.now.pages.items)) }
    ensures wants { IfErr result (λ e. e.refusal ≡ WantOfMemory) }
    ensures notes { IfOk result (λ o. IfSome o.remark (Says (λ lines. lines ≡ told_lines (comparing_view asked.now) (flags_view old.now) (pages_view compared.now.pages.items)))) }
{
    match printed(alloc, compared, asked.json) {
        Ok(text) => Ok(Outcome {
            text: text.into_bytes(),
            status: status_of(asked.strict, is_doubted(asked, compared)),
            remark: remark_of(alloc, asked, old, compared),
        }),
        Err(AllocError) => Err(out_of_memory()),
    }
}

/// Whether a page has no rules to compare, or the flag that is asked for has no page.
fn is_doubted(asked: &Comparing<'_>, compared: &Comparison) -> bool
    requires { AreSums compared.now }
    ensures { result ≡ is_doubted (comparing_view asked.now) (pages_view compared.now.pages.items) }
{
    compared.left > 0 || is_unmatched(asked, compared.pages.as_slice())
}

/// With `--strict` what is doubted is no success.
fn status_of(strict: bool, doubted: bool) -> Status
    ensures { status_number result ≡ compare_status strict doubted }
{
    if strict && doubted {
        Status::Refused
    } else {
        Status::Done
    }
}

/// What a person is told, where something is doubted.
#[tactic(auto, using(flagops_files::proofs::Told::says))]
fn remark_of(
    alloc: Global,
    asked: &Comparing<'_>,
    old: &Flags,
    compared: &Comparison,
) -> Option<Remark>
    requires { AreSums compared.now }
    ensures told { is_some result ≡ is_doubted (comparing_view asked.now) (pages_view compared.now.pages.items) }
    ensures says { IfSome result (Says (λ lines. lines ≡ told_lines (comparing_view asked.now) (flags_view old.now) (pages_view compared.now.pages.items))) }
{
    if !is_doubted(asked, compared) {
        return None;
    }
    let lines = told_lines(alloc, asked, old, compared.pages.as_slice());
    Some(Remark::of(lines))
}

fn out_of_memory() -> Refused<CompareRefusal>
    ensures { result.refusal ≡ WantOfMemory }
{
    Refused {
        refusal: CompareRefusal::WantOfMemory,
        remark: Remark::Short,
    }
}

/// A tally of another total.
#[tactic(auto, using(flagops_files::proofs::Told::says))]
fn other_tally(alloc: Global, path: &str) -> Refused<CompareRefusal>
    ensures refusal { result.refusal ≡ OtherTally }
    ensures names { Says (NamesFile path.now) result.remark }
{
    let line = file_line(
        alloc,
        path,
        "the total of a rule does not divide the number of points of the tally\n  tally the notes at a total that both rules' totals divide, or compare on a book",
    );
    Refused {
        refusal: CompareRefusal::OtherTally,
        remark: Remark::of(line),
    }
}
