//! The command `ramp`: it prints a line for each step that was planned.
ghost use denote.Param.Send.{IsSync};
ghost use Rattle.std.specs.Prelude.{◌≡◌, ◌<◌, ◌-◌, ◌^◌, ◌||◌, false, is_some, length, map, option_map, unwrap_or, IfErr, IfOk, IfSome, Ok};
ghost use Rattle.std.specs.List.{All};
ghost use Rattle.flag_text.specs.Outcome.{GivesUnless};
ghost use Rattle.flag_defs.specs.Flags.{flags_view};
ghost use Rattle.flagops_files.specs.Question.{question_view};
ghost use Rattle.flagops_rollouts.specs.Beside.{AreBehind, Tells, noted_with};
ghost use Rattle.flagops_rollouts.specs.Doubts.{NamesDoubted};
ghost use Rattle.flagops_shell.specs.Diagnostic.{Says};
ghost use Rattle.flagops_shell.specs.Report.{outcome_view, status_number};
ghost use Rattle.flagops_ramps.specs.Attempts.{IsOfFirst, ramp_files};
ghost use Rattle.flagops_ramps.specs.Doubts.{beside, doubt_of_steps, settle};
ghost use Rattle.flagops_ramps.specs.Commands.{ramp_description};
ghost use Rattle.flagops_ramps.specs.Diagnostics.{Diagnoses, IsOfRamp, IsOfSize, NamesPath};
ghost use Rattle.flagops_ramps.specs.Ramp.{Holds, IsRampOf, IsRampReport, is_finer_ramp, of_steps, ramp_status, recorded, report_ramp};
ghost use Rattle.flagops_ramps.specs.Remarks.{TellsRampAt, TellsRampOf, ramp_finer_parts, ramp_parts};
ghost use Rattle.flagops_ramps.specs.Report.{GivesOne, GivesUnlessWant, is_file_fault};
ghost use Rattle.flagops_ramps.specs.Words as words;
ghost use Rattle.flagops_ramps.specs.Words.{ramping_view};
ghost use Rattle.plan_text.specs.Answer.{IsOrdered, planned_view};
ghost use Rattle.plan_text.specs.PlanFile.{IsWhole};
ghost use Rattle.ramp.specs.Ramp.{IsRamp};
ghost use Rattle.ramp.specs.Steps.{requests_view};

use crate::asked::Ramping;
use crate::doubts::{first_request, settled};
use crate::judging::out_of_memory;
use crate::refusal::{RampRefusal, StepCall};
use crate::remarks::of_steps_in;
use crate::words::read_ramp;
use book_core::BookFileFault;
use clap::Error;
use flag_defs::Flags;
use flagops_files::{Evidence, Question, load_question};
use flagops_rollouts::with_points;
use flagops_shell::{Command, FileSet, Outcome, Refused, Remark, Status};
use flagops_words::factor_of;
use page_tally::BookFile;
use plan_text::Planned;
use price_core::PriceFault;
use ramp::{StepFault, StepsFault, plan_steps, plan_steps_on_tally, print_ramp, read_steps};
use rollout::{Refining, RolloutFault, read_book_for};
use rollout_diagnostics::of_large_plan;
use std::alloc::Global;
use std::convert::AsStr;
use std::thread::Threads;

impl<'w, R: Threads + Sync, F: FileSet> Command<'w, R, F> for Ramping<'w> {
    type Refusal = RampRefusal;

    ghost Asked = { words.Ramping };

    ghost Needs = { IsSync R.row };

    ghost view = { ramping_view };

    ghost description = { ramp_description };

    fn read<S: AsStr>(alloc: Global, words: &'w [S]) -> Result<Ramping<'w>, Error> {
        read_ramp(alloc, words)
    }

    #[tactic(auto, using(crate::proofs::Diagnosed::ramp_remarks, crate::proofs::Diagnosed::wants, crate::proofs::Diagnosed::all_kept))]
    fn answer(
        &self,
        rt: &R,
        alloc: Global,
        files: &mut F,
    ) -> Result<Outcome, Refused<RampRefusal>> {
        planned(rt, alloc, files, self)
    }

    fn call_of(&self, _refusal: &RampRefusal) -> &'static str {
        "ramp"
    }
}

/// The report of the files that are asked for.
#[tactic(auto, using(crate::proofs::Diagnosed::failed_load))]
fn planned<R: Threads + Sync, F: FileSet>(
    rt: &R,
    alloc: Global,
    files: &mut F,
    asked: &Ramping<'_>,
) -> Result<Outcome, Refused<RampRefusal>>
    ensures exact { IfSome (F.holding files.old) (λ at. GivesOne outcome_view result (IsRampReport at (ramping_view asked.now))) }
    ensures failed { F.has_failed files.new ≡ (F.has_failed files.old || is_file_fault result) }
    ensures names { IfSome (F.holding files.old) (λ at. Diagnoses (IsOfFirst (ramp_files at (ramping_view asked.now)) (IsOfRamp (ramping_view asked.now))) result) }
    ensures notes { IfOk result (λ o. IfSome o.remark (Says (NamesDoubted asked.now.steps.now asked.now.book.now))) }
    ensures parts { IfSome (F.holding files.old) (λ at. IfOk result (λ o. TellsRampAt at (ramping_view asked.now) o.text.items o.remark)) }
    ensures kept { F.holding files.new ≡ F.holding files.old }
{
    match load_question(
        rt,
        alloc,
        files,
        asked.document,
        asked.floats,
        asked.steps,
        asked.book,
        factor_of(asked.refine),
    ) {
        Ok(question) => answer(rt, alloc, asked, question),
        Err(refused) => Err(Refused::of(refused)),
    }
}

/// The report on a question.
#[tactic(auto, using(crate::proofs::Diagnosed::ramp_refused, crate::proofs::Diagnosed::ramp_read, crate::proofs::Diagnosed::wanting))]
fn answer<R: Threads + Sync>(
    rt: &R,
    alloc: Global,
    asked: &Ramping<'_>,
    question: Question,
) -> Result<Outcome, Refused<RampRefusal>>
    ensures exact { GivesOne outcome_view result (IsRampOf asked.now.strict (option_map (λ m. m.number) asked.now.refine) (Ok (question_view question))) }
    ensures read { is_file_fault result ≡ false }
    ensures names { Diagnoses (IsOfRamp (ramping_view asked.now)) result }
    ensures notes { IfOk result (λ o. IfSome o.remark (Says (NamesDoubted asked.now.steps.now asked.now.book.now))) }
    ensures parts { IfOk result (λ o. TellsRampOf (ramping_view asked.now) (question_view question) o.text.items o.remark) }
{
    let steps = match read_steps(alloc, question.request.bytes()) {
        Ok(steps) => steps,
        Err(fault) => return Err(refused(alloc, asked, &question, of_steps(fault))),
    };
    let mut question = question;
    let requests = steps.as_slice();
    let factor = factor_of(asked.refine);
    let Ok(()) = count(rt, alloc, &mut question, requests, factor) else {
        return Err(out_of_memory());
    };
    let (flags, evidence) = (&question.flags, &question.evidence);
    match planned_on(rt, alloc, flags, requests, evidence, factor) {
        Ok(answers) => told(rt, alloc, asked, &question, requests, answers.as_slice()),
        Err(fault) => Err(refused(alloc, asked, &question, fault)),
    }
}

/// The answers to steps over what was recorded. The conditions are a factor from 1, and fewer than 2^32 - 1 steps.
fn planned_on<R: Threads + Sync>(
    rt: &R,
    alloc: Global,
    flags: &Flags,
    steps: &[Vec<u8>],
    evidence: &Evidence,
    factor: u32,
) -> Result<Vec<Planned>, StepFault>
    requires factor { 0 < factor }
    requires few { length steps.now < 2 ^ 32 - 1 }
    ensures exact { IsRamp (Ok (flags_view flags.now)) factor (requests_view steps.now) (recorded evidence.now) result }
    ensures ordered { IfOk result (λ v. All (λ p. IsOrdered (planned_view p)) v.items) }
    ensures whole { IfOk result (λ v. All (λ p. IsWhole (planned_view p)) v.items) }
{
    match evidence {
        Evidence::Book(book) => plan_steps(rt, alloc, flags, steps, book, factor),
        Evidence::Tally(tally) => plan_steps_on_tally(alloc, flags, steps, tally, factor),
    }
}

/// The lines of the answers, which read back as these, beside which a person is told what is doubted of them, and once that their
/// rules have finer points.
#[tactic(auto, using(crate::proofs::Diagnosed::ramp_doubted, crate::proofs::Diagnosed::ramp_large))]
fn told<R: Threads>(
    rt: &R,
    alloc: Global,
    asked: &Ramping<'_>,
    question: &Question,
    steps: &[Vec<u8>],
    answers: &[Planned],
) -> Result<Outcome, Refused<RampRefusal>>
    requires whole { All (λ p. IsWhole (planned_view p)) answers.now }
    requires ordered { All (λ p. IsOrdered (planned_view p)) answers.now }
    ensures reads_back { IfOk result (λ o. Holds (map planned_view answers.now) o.text.items) }
    ensures exact { GivesUnlessWant outcome_view result (beside (noted_with (is_finer_ramp (unwrap_or (option_map (λ m. m.number) asked.now.refine) 1) (map planned_view answers.now)) (settle StepCall.Ramp asked.now.strict (doubt_of_steps (question_view question.now) (requests_view steps.now)))) (report_ramp (map planned_view answers.now))) }
    ensures read { is_file_fault result ≡ false }
    ensures names { Diagnoses (IsOfRamp (ramping_view asked.now)) result }
    ensures notes { IfOk result (λ o. IfSome o.remark (Says (NamesDoubted asked.now.steps.now asked.now.book.now))) }
    ensures parts { IfOk result (λ o. Tells (ramp_parts (ramping_view asked.now) (question_view question.now) (requests_view steps.now) (map planned_view answers.now)) o.remark) }
{
    match settled(rt, alloc, StepCall::Ramp, asked, question, steps) {
        Ok(doubted) => printed(alloc, answers, noted(alloc, asked, answers, doubted)),
        Err(told) => Err(told),
    }
}

/// What was noted beside answers to steps, and behind that, once, that their rules have finer points than the site: each has as many
/// as the first.
fn noted(
    alloc: Global,
    asked: &Ramping<'_>,
    answers: &[Planned],
    doubted: Option<Remark>,
) -> Option<Remark>
    ensures told { is_some result ≡ (is_some doubted || is_finer_ramp (unwrap_or (option_map (λ m. m.number) asked.now.refine) 1) (map planned_view answers.now)) }
    ensures beside { AreBehind (ramp_finer_parts asked.now.steps.now (unwrap_or (option_map (λ m. m.number) asked.now.refine) 1) (map planned_view answers.now)) doubted result }
    ensures notes { IfSome doubted (Says (NamesDoubted asked.now.steps.now asked.now.book.now)) → IfSome result (Says (NamesDoubted asked.now.steps.now asked.now.book.now)) }
{
    match answers.first() {
        Some(first) => {
            let factor = factor_of(asked.refine);
            with_points(alloc, asked.steps, factor, first, doubted)
        }
        None => doubted,
    }
}

/// A step that is refused, which a person is told of.
#[tactic(auto, using(flagops_files::proofs::Told::says))]
fn refused(
    alloc: Global,
    asked: &Ramping<'_>,
    question: &Question,
    fault: StepFault,
) -> Refused<RampRefusal>
    ensures refusal { result.refusal ≡ RampRefusal.Ramp fault.fault }
    ensures names { Says (NamesPath asked.now.steps.now) result.remark }
{
    Refused {
        refusal: RampRefusal::Ramp(fault.fault),
        remark: Remark::of(of_steps_in(
            alloc,
            asked.steps,
            question,
            factor_of(asked.refine),
            fault,
        )),
    }
}

/// Steps that are refused, as a refused step: number 0 where none of them is.
pub(crate) fn of_steps(fault: StepsFault) -> StepFault
    ensures { result.fault ≡ of_steps fault }
{
    let (step, fault) = match fault {
        StepsFault::WantOfMemory => (0, RolloutFault::WantOfMemory),
        StepsFault::Shape => (0, RolloutFault::from(PriceFault::BadRequest)),
        StepsFault::Step(step, fault) => (step, RolloutFault::from(fault)),
    };
    StepFault { step, fault }
}

/// Has a book of a question count what the steps ask of it: of one page at one total, as all of them do. A tally has counted.
pub(crate) fn count<R: Threads>(
    rt: &R,
    alloc: Global,
    question: &mut Question,
    steps: &[Vec<u8>],
    factor: u32,
) -> Result<(), BookFileFault>
    requires { 0 < factor }
    ensures kept { question_view question.new ≡ question_view question.old }
    ensures document { question.new.document ≡ question.old.document }
    ensures wants { GivesUnless BookFileFault.WantOfMemory (λ _. question.old.evidence) result (Ok question.old.evidence) }
{
    let Evidence::Book(book) = &question.evidence else {
        return Ok(());
    };
    let counted = counted(
        rt,
        alloc,
        &question.flags,
        first_request(steps),
        factor,
        book,
    )?;
    question.evidence = Evidence::Book(counted);
    Ok(())
}

/// The same book, which has counted what a request asks of it.
fn counted<R: Threads>(
    rt: &R,
    alloc: Global,
    flags: &Flags,
    request: &[u8],
    factor: u32,
    book: &BookFile,
) -> Result<BookFile, BookFileFault>
    requires { 0 < factor }
    ensures { GivesUnless BookFileFault.WantOfMemory (λ f. f) result (Ok book.now) }
{
    let copy = book.bytes().to_vec(alloc)?;
    read_book_for(rt, alloc, Refining::Times(factor), flags, request, copy)
}

/// The lines of the answers, with what a person is told beside them.
#[tactic(auto, using(flagops_files::proofs::Told::says))]
fn printed(
    alloc: Global,
    answers: &[Planned],
    remark: Option<Remark>,
) -> Result<Outcome, Refused<RampRefusal>>
    requires whole { All (λ p. IsWhole (planned_view p)) answers.now }
    requires ordered { All (λ p. IsOrdered (planned_view p)) answers.now }
    ensures reads_back { IfOk result (λ o. Holds (map planned_view answers.now) o.text.items) }
    ensures exact { GivesUnlessWant outcome_view result (beside (Ok (is_some remark)) (report_ramp (map planned_view answers.now))) }
    ensures read { is_file_fault result ≡ false }
    ensures names { IfErr result (λ t. IsOfSize t.refusal t.remark) }
    ensures remark { IfOk result (λ o. o.remark ≡ remark) }
{
    match print_ramp(alloc, answers) {
        Ok(text) => Ok(Outcome {
            text,
            status: status_of(answers),
            remark,
        }),
        Err(fault) => Err(Refused {
            refusal: RampRefusal::Print(fault),
            remark: Remark::of(of_large_plan(alloc)),
        }),
    }
}

fn status_of(answers: &[Planned]) -> Status
    ensures { status_number result ≡ ramp_status (map planned_view answers.now) }
{
    for planned in answers {
        if let Planned::NoneExists(_) = planned {
            return Status::NoneExists;
        }
    }
    Status::Done
}
