//! The command `plan --picture`: it prints what `plan` does, and replaces the file of the picture whole.
ghost use denote.Param.Send.{IsSync};
ghost use Rattle.std.specs.Prelude.{◌≡◌, ◌⊎◌, ◌||◌, Ok, map, option_map, unwrap_or, IfErr, IfOk, IfSome, string_bytes};
ghost use Rattle.flagops_rollouts.specs.Plan.{IsPlanOf};
ghost use Rattle.flagops_rollouts.specs.Attempts.{TellsOfFirst};
ghost use Rattle.flagops_rollouts.specs.Doubts.{NamesDoubted};
ghost use Rattle.flagops_rollouts.specs.Remarks.{TellsPlan, TellsPlanAt};
ghost use Rattle.flagops_shell.specs.Diagnostic.{Says};
ghost use Rattle.flagops_shell.specs.Files.{KeepsOthers};
ghost use Rattle.flagops_files.specs.Question.{question_view};
ghost use Rattle.flagops_rollouts.specs.Refusal.{ComesFrom, GivesOne, is_file_fault, TellsOfOne};
ghost use Rattle.flagops_shell.specs.Report.{outcome_view};
ghost use Rattle.flagops_pictures.specs.Commands.{plan_description};
ghost use Rattle.flagops_pictures.specs.Diagnostics.{drawn_subjects, plan_attempts};
ghost use Rattle.flagops_pictures.specs.Planning.{IsPictureOf, IsPlanPicture, IsPlanWith, KeepsUnlessPlanned, plan_calls};
ghost use Rattle.flagops_pictures.specs.Words as words;
ghost use Rattle.flagops_pictures.specs.Words.{planning_view};

use crate::asked::Planning;
use crate::drawing::{Asked, drawn};
use crate::loading::load_question;
use crate::words::read_plan;
use clap::Error;
use flagops_files::Question;
use flagops_rollouts::{Refused, RolloutCall, RolloutRefusal, out_of_memory, plan_answer, store};
use flagops_shell::{Command, FileSet, Outcome};
use flagops_words::factor_of;
use plan_text::{PlanFileFault, read_planned};
use std::alloc::{AllocError, Global};
use std::convert::AsStr;
use std::thread::Threads;

impl<'w, R: Threads + Sync, F: FileSet> Command<'w, R, F> for Planning<'w> {
    type Refusal = RolloutRefusal;

    ghost Asked = { words.Planning };

    ghost Needs = { IsSync R.row };

    ghost view = { planning_view };

    ghost description = { plan_description };

    fn read<S: AsStr>(alloc: Global, words: &'w [S]) -> Result<Planning<'w>, Error> {
        read_plan(alloc, words)
    }

    #[tactic(auto, using(crate::proofs::Diagnosed::plan_remarks, crate::proofs::Diagnosed::wants))]
    fn answer(&self, rt: &R, alloc: Global, files: &mut F) -> Result<Outcome, Refused> {
        outcome(rt, alloc, files, self)
    }

    fn call_of(&self, refusal: &RolloutRefusal) -> &'static str {
        refusal.call().name()
    }
}

/// The plan that the files at the paths ask for, whose picture was written.
#[tactic(auto, unfolding(crate::specs::Planning::IsPlanPicture))]
fn outcome<R: Threads + Sync, F: FileSet>(
    rt: &R,
    alloc: Global,
    files: &mut F,
    asked: &Planning<'_>,
) -> Result<Outcome, Refused>
    ensures exact { IfSome (F.holding files.old) (λ at. GivesOne outcome_view result (IsPlanPicture at (F.holding files.new) (planning_view asked.now))) }
    ensures calls { ComesFrom plan_calls result }
    ensures failed { F.has_failed files.new ≡ (F.has_failed files.old || is_file_fault result) }
    ensures names { IfSome (F.holding files.old) (λ at. TellsOfFirst (plan_attempts at (planning_view asked.now)) result) }
    ensures notes { IfOk result (λ o. IfSome o.remark (Says (NamesDoubted asked.now.request.now asked.now.book.now))) }
    ensures parts { IfSome (F.holding files.old) (λ at. IfOk result (λ o. TellsPlanAt asked.now.floats at asked.now.document.now asked.now.request.now asked.now.book.now (unwrap_or (option_map (λ m. m.number) asked.now.refine) 1) asked.now.explain o.text.items o.remark)) }
    ensures left { (F.holding files.new ≡ F.holding files.old) ⊎ KeepsOthers (F.holding files.old) (F.holding files.new) asked.now.picture.now }
    ensures kept { KeepsUnlessPlanned (F.holding files.old) (F.holding files.new) result }
{
    let factor = factor_of(asked.refine);
    let question = load_question(
        rt,
        alloc,
        files,
        asked.document,
        asked.floats,
        asked.request,
        asked.book,
        factor,
    )?;
    planned(rt, alloc, files, asked, &question)
}

/// The plan of a question, whose picture was written.
fn planned<R: Threads + Sync, F: FileSet>(
    rt: &R,
    alloc: Global,
    files: &mut F,
    asked: &Planning<'_>,
    question: &Question,
) -> Result<Outcome, Refused>
    ensures exact { IfSome (F.holding files.old) (λ at. GivesOne outcome_view result (IsPlanWith at (F.holding files.new) (planning_view asked.now) (question_view question.now))) }
    ensures calls { ComesFrom plan_calls result }
    ensures failed { F.has_failed files.new ≡ (F.has_failed files.old || is_file_fault result) }
    ensures names { TellsOfOne (drawn_subjects (planning_view asked.now)) result }
    ensures notes { IfOk result (λ o. IfSome o.remark (Says (NamesDoubted asked.now.request.now asked.now.book.now))) }
    ensures parts { IfOk result (λ o. TellsPlan asked.now.request.now asked.now.book.now (question_view question.now) (unwrap_or (option_map (λ m. m.number) asked.now.refine) 1) asked.now.explain o.text.items o.remark) }
    ensures left { (F.holding files.new ≡ F.holding files.old) ⊎ KeepsOthers (F.holding files.old) (F.holding files.new) asked.now.picture.now }
    ensures kept { KeepsUnlessPlanned (F.holding files.old) (F.holding files.new) result }
{
    let outcome = plan_answer(
        rt,
        alloc,
        asked.request,
        asked.book,
        question,
        asked.refine,
        asked.strict,
        asked.explain,
    )?;
    let picture = picture_of(rt, alloc, asked, question, &outcome)?;
    store(alloc, files, asked.picture, picture.as_bytes())?;
    Ok(outcome)
}

/// The picture of the plan that an outcome has.
fn picture_of<R: Threads + Sync>(
    rt: &R,
    alloc: Global,
    asked: &Planning<'_>,
    question: &Question,
    outcome: &Outcome,
) -> Result<String, Refused>
    requires { IsPlanOf asked.now.strict asked.now.explain (option_map (λ m. m.number) asked.now.refine) (Ok (question_view question.now)) (Ok (outcome_view outcome.now)) }
    ensures exact { IfOk result (λ s. IsPictureOf (option_map (λ m. m.number) asked.now.refine) (question_view question.now) outcome.now.text.items (string_bytes s)) }
    ensures wants { IfErr result (λ e. e.refusal ≡ RolloutRefusal.WantOfMemory RolloutCall.Plan) }
{
    match picture_drawn(rt, alloc, asked, question, outcome) {
        Ok(text) => Ok(text),
        Err(AllocError) => Err(out_of_memory(RolloutCall::Plan)),
    }
}

fn picture_drawn<R: Threads + Sync>(
    rt: &R,
    alloc: Global,
    asked: &Planning<'_>,
    question: &Question,
    outcome: &Outcome,
) -> Result<String, AllocError>
    requires { IsPlanOf asked.now.strict asked.now.explain (option_map (λ m. m.number) asked.now.refine) (Ok (question_view question.now)) (Ok (outcome_view outcome.now)) }
    ensures { IfOk result (λ s. IsPictureOf (option_map (λ m. m.number) asked.now.refine) (question_view question.now) outcome.now.text.items (string_bytes s)) }
{
    let planned = match read_planned(alloc, outcome.text.as_slice()) {
        Ok(planned) => planned,
        Err(PlanFileFault::WantOfMemory) => return Err(AllocError),
        // What is printed of a plan reads back.
        Err(_) => unreachable!(),
    };
    let asked = Asked {
        flags: &question.flags,
        request: question.request.bytes(),
        evidence: &question.evidence,
        refine: Some(factor_of(asked.refine)),
    };
    let text = drawn(rt, alloc, asked, &planned)?;
    Ok(text)
}
