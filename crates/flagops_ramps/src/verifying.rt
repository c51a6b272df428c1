//! The command `verify-ramp`: it prints what each step costs.
ghost use denote.Param.Send.{IsSync};
ghost use Rattle.std.specs.Prelude.{◌≡◌, ◌||◌, false, true, is_some, map, string_bytes, IfErr, IfOk, IfSome, Ok};
ghost use Rattle.flagops_rollouts.specs.Beside.{Tells};
ghost use Rattle.flagops_rollouts.specs.Doubts.{NamesDoubted};
ghost use Rattle.flagops_shell.specs.Diagnostic.{Says};
ghost use Rattle.flagops_shell.specs.Report.{outcome_view};
ghost use Rattle.flagops_ramps.specs.Attempts.{IsOfFirst, verify_files};
ghost use Rattle.flagops_ramps.specs.Doubts.{beside, doubt_parts_of_steps};
ghost use Rattle.flagops_files.specs.Question.{question_view};
ghost use Rattle.flagops_ramps.specs.Remarks.{TellsVerdictAt};
ghost use Rattle.ramp.specs.Steps.{requests_view};
ghost use Rattle.flagops_ramps.specs.Commands.{verify_description};
ghost use Rattle.flagops_ramps.specs.Diagnostics.{Diagnoses, IsOfVerify};
ghost use Rattle.flagops_ramps.specs.Judging.{answered_view};
ghost use Rattle.flagops_ramps.specs.Report.{GivesOne, GivesUnlessWant, is_file_fault};
ghost use Rattle.flagops_ramps.specs.Refusal.{is_want};
ghost use Rattle.flagops_ramps.specs.Words as words;
ghost use Rattle.flagops_ramps.specs.Verify.{IsVerdictReport, cost_item, report_found, report_valid, valid_ramp};
ghost use Rattle.flagops_ramps.specs.Words.{verifying_view};
ghost use Rattle.plan_text.specs.Answer.{planned_view};

use crate::asked::Verifying;
use crate::doubts::settled;
use crate::judging::{RightAnswers, load_answers, out_of_memory};
use crate::refusal::{RampRefusal, StepCall};
use crate::words::read_verify;
use clap::Error;
use flagops_shell::{Command, FileSet, Outcome, Refused, Remark, Status};
use plan_text::Planned;
use std::alloc::{AllocError, Global};
use std::convert::AsStr;
use std::thread::Threads;

impl<'w, R: Threads + Sync, F: FileSet> Command<'w, R, F> for Verifying<'w> {
    type Refusal = RampRefusal;

    ghost Asked = { words.Verifying };

    ghost Needs = { IsSync R.row };

    ghost view = { verifying_view };

    ghost description = { verify_description };

    fn read<S: AsStr>(alloc: Global, words: &'w [S]) -> Result<Verifying<'w>, Error> {
        read_verify(alloc, words)
    }

    #[tactic(auto, using(crate::proofs::Diagnosed::verify_remarks, crate::proofs::Diagnosed::wants, crate::proofs::Diagnosed::all_kept))]
    fn answer(
        &self,
        rt: &R,
        alloc: Global,
        files: &mut F,
    ) -> Result<Outcome, Refused<RampRefusal>> {
        verdict(rt, alloc, files, self)
    }

    fn call_of(&self, _refusal: &RampRefusal) -> &'static str {
        "verify-ramp"
    }
}

/// The report of the files that are asked for.
fn verdict<R: Threads + Sync, F: FileSet>(
    rt: &R,
    alloc: Global,
    files: &mut F,
    asked: &Verifying<'_>,
) -> Result<Outcome, Refused<RampRefusal>>
    ensures exact { IfSome (F.holding files.old) (λ at. GivesOne outcome_view result (IsVerdictReport at (verifying_view asked.now))) }
    ensures failed { F.has_failed files.new ≡ (F.has_failed files.old || is_file_fault result) }
    ensures names { IfSome (F.holding files.old) (λ at. Diagnoses (IsOfFirst (verify_files at (verifying_view asked.now)) (IsOfVerify (verifying_view asked.now))) result) }
    ensures notes { IfOk result (λ o. IfSome o.remark (Says (NamesDoubted asked.now.rollout.steps.now asked.now.rollout.book.now))) }
    ensures parts { IfSome (F.holding files.old) (λ at. IfOk result (λ o. TellsVerdictAt at (verifying_view asked.now) o.remark)) }
    ensures kept { F.holding files.new ≡ F.holding files.old }
{
    match load_answers(rt, alloc, files, asked) {
        Ok(right) => reported(rt, alloc, asked, &right),
        Err(told) => Err(told),
    }
}

/// The report of answers that are right, beside which a person is told what is doubted of them.
#[tactic(auto, using(crate::proofs::Diagnosed::verify_doubted, crate::proofs::Diagnosed::wanting))]
fn reported<R: Threads>(
    rt: &R,
    alloc: Global,
    asked: &Verifying<'_>,
    right: &RightAnswers,
) -> Result<Outcome, Refused<RampRefusal>>
    ensures exact { GivesUnlessWant outcome_view result (report_found asked.now.rollout.strict (Ok (answered_view right.now))) }
    ensures read { is_file_fault result ≡ false }
    ensures names { Diagnoses (IsOfVerify (verifying_view asked.now)) result }
    ensures notes { IfOk result (λ o. IfSome o.remark (Says (NamesDoubted asked.now.rollout.steps.now asked.now.rollout.book.now))) }
    ensures parts { IfOk result (λ o. Tells (doubt_parts_of_steps asked.now.rollout.steps.now asked.now.rollout.book.now (question_view right.now.question) (requests_view right.now.steps.items)) o.remark) }
{
    let steps = right.steps.as_slice();
    let (rollout, question) = (&asked.rollout, &right.question);
    match settled(rt, alloc, StepCall::VerifyRamp, rollout, question, steps) {
        Ok(remark) => valid(alloc, right.answers.as_slice(), remark),
        Err(told) => Err(told),
    }
}

/// What each step costs, with what a person is told beside it.
fn valid(
    alloc: Global,
    answers: &[Planned],
    remark: Option<Remark>,
) -> Result<Outcome, Refused<RampRefusal>>
    ensures exact { GivesUnlessWant outcome_view result (beside (Ok (is_some remark)) (report_valid (map planned_view answers.now))) }
    ensures read { is_file_fault result ≡ false }
    ensures wants { IfErr result (λ t. is_want t.refusal ≡ true) }
    ensures remark { IfOk result (λ o. o.remark ≡ remark) }
{
    match valid_line(alloc, answers) {
        Ok(text) => Ok(Outcome {
            text: text.into_bytes(),
            status: Status::Done,
            remark,
        }),
        Err(AllocError) => Err(out_of_memory()),
    }
}

/// What each step costs, as a line.
fn valid_line(alloc: Global, answers: &[Planned]) -> Result<String, AllocError>
    ensures { IfOk result (λ s. string_bytes s ≡ valid_ramp (map planned_view answers.now)) }
{
    let mut line = String::from_str(alloc, "valid cost")?;
    for planned in answers {
        let item = cost_item(alloc, planned)?;
        line.push_str(item.as_str())?;
    }
    line.push_str("\n")?;
    Ok(line)
}

fn cost_item(alloc: Global, planned: &Planned) -> Result<String, AllocError>
    ensures { IfOk result (λ s. string_bytes s ≡ cost_item (planned_view planned.now)) }
{
    match planned {
        Planned::Emit(_, certificate) => {
            let cost = certificate.cost;
            format!(in alloc; " {cost}")
        }
        Planned::NoneExists(_) => String::from_str(alloc, " none"),
    }
}
