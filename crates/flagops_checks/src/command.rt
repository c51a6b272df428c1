//! The command `check`.
ghost use Rattle.std.specs.Prelude.{◌≡◌, ◌||◌, is_some, IfOk, IfSome, ⊤};
ghost use Rattle.flagops_checks.specs.Calls.{check_calls};
ghost use Rattle.flagops_checks.specs.Command.{description};
ghost use Rattle.flagops_checks.specs.Report.{IsCheckReport, TellsChecked, check_status};
ghost use Rattle.flagops_checks.specs.Step.{Speaks};
ghost use Rattle.flagops_checks.specs.Told.{check_attempts};
ghost use Rattle.flagops_checks.specs.Words as words;
ghost use Rattle.flagops_checks.specs.Words.{checking_view};
ghost use Rattle.flagops_checks.specs.Refusal.{ComesFrom, GivesOne, is_file_fault, TellsOfFirst};
ghost use Rattle.flagops_shell.specs.Diagnostic.{Says};
ghost use Rattle.flagops_shell.specs.Report.{outcome_view, status_number};

use crate::asked::Checking;
use crate::form::Form;
use crate::gathering::{Gathered, gather};
use crate::refusal::{CheckRefusal, Refused};
use crate::remark_lines::RemarkLines;
use crate::words::read_checking;
use flagops_shell::{Command, FileSet, Outcome, Remark, Status};
use std::alloc::Global;
use std::convert::AsStr;
use std::thread::Threads;

/// It prints which flags of the documents are good and which are broken; a person is told why, and what is doubted of them. With
/// `--strict` the status is 1 where a flag is broken or doubted, or a member of a document is not read or stands more than once.
/// The first document that is refused refuses the command. Files are only read.
impl<'w, R: Threads, F: FileSet> Command<'w, R, F> for Checking<'w> {
    type Refusal = CheckRefusal;

    ghost Asked = { words.Checking };

    ghost Needs = { ⊤ };

    ghost view = { checking_view };

    ghost description = { description };

    fn read<S: AsStr>(alloc: Global, words: &'w [S]) -> Result<Checking<'w>, clap::Error> {
        read_checking(alloc, words)
    }

    #[tactic(auto, using(crate::proofs::Ending::remarks, crate::proofs::Ending::wants, crate::proofs::Ending::stays))]
    fn answer(&self, rt: &R, alloc: Global, files: &mut F) -> Result<Outcome, Refused> {
        outcome(rt, alloc, files, self)
    }

    fn call_of(&self, refusal: &CheckRefusal) -> &'static str {
        refusal.call().name()
    }
}

/// What the documents at the paths come to.
fn outcome<R: Threads, F: FileSet>(
    rt: &R,
    alloc: Global,
    files: &mut F,
    asked: &Checking<'_>,
) -> Result<Outcome, Refused>
    ensures exact { IfSome (F.holding files.old) (λ at. GivesOne outcome_view result (IsCheckReport at (checking_view asked.now))) }
    ensures calls { ComesFrom check_calls result }
    ensures failed { F.has_failed files.new ≡ (F.has_failed files.old || is_file_fault result) }
    ensures kept { F.holding files.new ≡ F.holding files.old }
    ensures names { IfSome (F.holding files.old) (λ at. TellsOfFirst (check_attempts (checking_view asked.now).floats at (checking_view asked.now).documents) result) }
    ensures notes { IfSome (F.holding files.old) (λ at. IfOk result (λ o. IfSome o.remark (Says (TellsChecked at (checking_view asked.now))))) }
{
    let paths = asked.documents.as_slice();
    let gathered = gather(
        rt,
        alloc,
        files,
        Form::of(asked.json, asked.floats, paths),
        paths,
    )?;
    Ok(ended(gathered, asked.strict))
}

/// The outcome of the documents that were checked.
fn ended(gathered: Gathered, strict: bool) -> Outcome
    ensures view { outcome_view result ≡ record { text = gathered.text.items; status = check_status strict gathered.is_wrong; is_told = gathered.is_wrong } }
    ensures remark { IfSome result.remark (Speaks gathered.told) }
{
    let Gathered {
        text,
        told,
        is_wrong,
    } = gathered;
    Outcome {
        text,
        status: status_of(strict, is_wrong),
        remark: remark_of(told, is_wrong),
    }
}

/// With `--strict` a document with which something is wrong is no success.
fn status_of(strict: bool, is_wrong: bool) -> Status
    ensures { status_number result ≡ check_status strict is_wrong }
{
    if strict && is_wrong {
        Status::Refused
    } else {
        Status::Done
    }
}

/// What a person is told, where something is wrong.
fn remark_of(told: RemarkLines, is_wrong: bool) -> Option<Remark>
    ensures told { is_some result ≡ is_wrong }
    ensures says { IfSome result (Speaks told) }
{
    if !is_wrong {
        return None;
    }
    if told.is_short {
        Some(Remark::Short)
    } else {
        Some(Remark::Lines(told.lines))
    }
}
