//! The command `picture`: it prints the picture of a plan that is right.
ghost use denote.Param.Send.{IsSync};
ghost use Rattle.std.specs.Prelude.{◌≡◌, ◌||◌, false, true, is_some, map, IfErr, IfOk, IfSome, Ok, option_map, string_bytes};
ghost use Rattle.flagops_rollouts.specs.Attempts.{TellsOfFirst};
ghost use Rattle.flagops_rollouts.specs.Beside.{Tells};
ghost use Rattle.flagops_rollouts.specs.Doubts.{NamesDoubted, doubt_of, doubt_parts};
ghost use Rattle.flagops_rollouts.specs.Remarks.{TellsDoubtsAt};
ghost use Rattle.flagops_rollouts.specs.Subjects.{NamesVerified};
ghost use Rattle.flagops_rollouts.specs.Refusal.{ComesFrom, GivesOne, GivesUnlessWant, is_file_fault, is_want, TellsOfOne};
ghost use Rattle.flagops_shell.specs.Outcomes.{beside};
ghost use Rattle.flagops_shell.specs.Diagnostic.{Says};
ghost use Rattle.flagops_files.specs.Question.{question_view};
ghost use Rattle.flagops_shell.specs.Report.{outcome_view};
ghost use Rattle.flagops_pictures.specs.Commands.{picture_description};
ghost use Rattle.flagops_pictures.specs.Diagnostics.{checked_subjects, picture_attempts};
ghost use Rattle.flagops_pictures.specs.Pictured.{IsPictureReport, IsPictured, drawn_report, picture_calls};
ghost use Rattle.flagops_pictures.specs.Words as words;
ghost use Rattle.flagops_pictures.specs.Words.{picturing_view};
ghost use Rattle.plan_text.specs.Answer.{planned_view};

use crate::asked::Picturing;
use crate::checking::checked_picture;
use crate::doubts::noted;
use crate::loading::load_question;
use crate::words::read_picture;
use clap::Error;
use flagops_files::{Evidence, Question};
use flagops_rollouts::{Refused, RolloutCall, RolloutRefusal, load_planned, out_of_memory};
use flagops_shell::{Command, FileSet, Outcome, Remark, Status};
use flagops_words::factor_of;
use plan_text::Planned;
use rollout::{RolloutFault, VerifyFault};
use rollout_diagnostics::{of_check, of_other_tally, of_rollout};
use std::alloc::{AllocError, Global};
use std::convert::AsStr;
use std::thread::Threads;

impl<'w, R: Threads + Sync, F: FileSet> Command<'w, R, F> for Picturing<'w> {
    type Refusal = RolloutRefusal;

    ghost Asked = { words.Picturing };

    ghost Needs = { IsSync R.row };

    ghost view = { picturing_view };

    ghost description = { picture_description };

    fn read<S: AsStr>(alloc: Global, words: &'w [S]) -> Result<Picturing<'w>, Error> {
        read_picture(alloc, words)
    }

    #[tactic(auto, using(crate::proofs::Diagnosed::picture_remarks, crate::proofs::Diagnosed::wants, crate::proofs::Diagnosed::all_kept))]
    fn answer(&self, rt: &R, alloc: Global, files: &mut F) -> Result<Outcome, Refused> {
        outcome(rt, alloc, files, self)
    }

    fn call_of(&self, refusal: &RolloutRefusal) -> &'static str {
        refusal.call().name()
    }
}

/// The picture of what the files at the paths ask and answer.
#[tactic(auto, unfolding(crate::specs::Pictured::IsPictureReport))]
fn outcome<R: Threads + Sync, F: FileSet>(
    rt: &R,
    alloc: Global,
    files: &mut F,
    asked: &Picturing<'_>,
) -> Result<Outcome, Refused>
    ensures exact { IfSome (F.holding files.old) (λ at. GivesOne outcome_view result (IsPictureReport at (picturing_view asked.now))) }
    ensures calls { ComesFrom picture_calls result }
    ensures failed { F.has_failed files.new ≡ (F.has_failed files.old || is_file_fault result) }
    ensures names { IfSome (F.holding files.old) (λ at. TellsOfFirst (picture_attempts at (picturing_view asked.now)) result) }
    ensures notes { IfOk result (λ o. IfSome o.remark (Says (NamesDoubted asked.now.request.now asked.now.book.now))) }
    ensures parts { IfSome (F.holding files.old) (λ at. IfOk result (λ o. TellsDoubtsAt asked.now.floats at asked.now.document.now asked.now.request.now asked.now.book.now o.remark)) }
    ensures kept { F.holding files.new ≡ F.holding files.old }
{
    let factor = factor_of(asked.refine);
    let question = load_question(
        rt,
        alloc,
        files,
        asked.document,
        asked.floats,
        asked.request,
        asked.book,
        factor,
    )?;
    let planned = load_planned(alloc, files, asked.plan)?;
    pictured(rt, alloc, asked, &question, &planned)
}

/// The picture of an answer to a question, which were loaded from these paths.
#[tactic(auto, using(flagops_files::proofs::Told::says))]
fn pictured(
    rt: &(impl Threads + Sync),
    alloc: Global,
    asked: &Picturing<'_>,
    question: &Question,
    planned: &Planned,
) -> Result<Outcome, Refused>
    ensures exact { GivesOne outcome_view result (IsPictured (option_map (λ m. m.number) asked.now.refine) (Ok (question_view question.now)) (Ok (planned_view planned.now))) }
    ensures calls { ComesFrom picture_calls result }
    ensures read { is_file_fault result ≡ false }
    ensures names { TellsOfOne (checked_subjects asked.now.request.now asked.now.plan.now) result }
    ensures notes { IfOk result (λ o. IfSome o.remark (Says (NamesDoubted asked.now.request.now asked.now.book.now))) }
    ensures parts { IfOk result (λ o. Tells (doubt_parts asked.now.request.now asked.now.book.now (question_view question.now)) o.remark) }
{
    match checked_picture(rt, alloc, question, planned, asked.refine) {
        Ok(text) => told(rt, alloc, asked, question, text),
        Err(fault) => {
            let lines = lines_on(alloc, asked, question, planned, &fault);
            Err(Refused {
                refusal: RolloutRefusal::Verify(fault),
                remark: Remark::of(lines),
            })
        }
    }
}

/// The report of a picture, beside which a person is told what is doubted of its answer.
fn told(
    rt: &(impl Threads + Sync),
    alloc: Global,
    asked: &Picturing<'_>,
    question: &Question,
    text: String,
) -> Result<Outcome, Refused>
    ensures exact { GivesUnlessWant outcome_view result (beside (is_some (doubt_of (question_view question.now))) (drawn_report (Ok (string_bytes text)))) }
    ensures calls { ComesFrom picture_calls result }
    ensures read { is_file_fault result ≡ false }
    ensures wants { IfErr result (λ t. is_want t.refusal ≡ true) }
    ensures notes { IfOk result (λ o. IfSome o.remark (Says (NamesDoubted asked.now.request.now asked.now.book.now))) }
    ensures parts { IfOk result (λ o. Tells (doubt_parts asked.now.request.now asked.now.book.now (question_view question.now)) o.remark) }
{
    match noted(rt, alloc, asked, question) {
        Ok(remark) => Ok(Outcome {
            text: text.into_bytes(),
            status: Status::Done,
            remark,
        }),
        Err(AllocError) => Err(out_of_memory(RolloutCall::Verify)),
    }
}

/// What a person is told of an answer that is not right, or of a request that is refused.
fn lines_on(
    alloc: Global,
    asked: &Picturing<'_>,
    question: &Question,
    planned: &Planned,
    fault: &VerifyFault,
) -> Result<String, AllocError>
    ensures { IfOk result (λ s. NamesVerified asked.now.request.now asked.now.plan.now fault.now (string_bytes s)) }
{
    match fault {
        VerifyFault::Request(fault) => lines_on_request(alloc, asked, question, *fault),
        VerifyFault::Check(fault) => {
            let (flags, request) = (&question.flags, &question.request);
            of_check(alloc, asked.plan, flags, request, planned, fault)
        }
    }
}

/// What a person is told of a request that is refused.
fn lines_on_request(
    alloc: Global,
    asked: &Picturing<'_>,
    question: &Question,
    fault: RolloutFault,
) -> Result<String, AllocError>
    ensures { IfOk result (λ s. NamesVerified asked.now.request.now asked.now.plan.now (VerifyFault.Request fault) (string_bytes s)) }
{
    let (flags, request) = (&question.flags, &question.request);
    match &question.evidence {
        Evidence::Tally(tally) if fault == RolloutFault::OtherTally => {
            of_other_tally(alloc, asked.request, flags, request, asked.book, tally)
        }
        _ => of_rollout(
            alloc,
            asked.request,
            flags,
            request,
            factor_of(asked.refine),
            fault,
        ),
    }
}
