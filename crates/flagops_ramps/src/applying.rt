//! The command `apply --step`: it prints what `apply` does of the plan that answers the step.
ghost use Rattle.std.specs.Prelude.{◌≡◌, ◌||◌, false, map, option_map, IfOk, IfSome, Ok, ⊤};
ghost use Rattle.flag_defs.specs.Flags.{flags_view};
ghost use Rattle.flag_defs.specs.Floats.{floats_view};
ghost use Rattle.file_diagnostics.specs.Named.{Names};
ghost use Rattle.flagops_shell.specs.Diagnostic.{Says};
ghost use Rattle.flagops_shell.specs.Report.{outcome_view};
ghost use Rattle.flagops_ramps.specs.Apply.{IsStepOver, IsStepReport, answer_to};
ghost use Rattle.flagops_ramps.specs.Attempts.{IsOfFirst, answers_file, step_files};
ghost use Rattle.flagops_ramps.specs.Commands.{step_description};
ghost use Rattle.flagops_ramps.specs.Diagnostics.{Diagnoses, IsOfStep};
ghost use Rattle.flagops_ramps.specs.Remarks.{TellsStepAt, TellsStepFrom, TellsStepOf};
ghost use Rattle.flagops_ramps.specs.Report.{GivesOne, is_file_fault};
ghost use Rattle.flagops_ramps.specs.Words as words;
ghost use Rattle.flagops_ramps.specs.Words.{applying_view};
ghost use Rattle.flagops_ramps.specs.Judging.{answers_at};
ghost use Rattle.plan_text.specs.Answer.{planned_view};

use crate::asked::Applying;
use crate::judging::load_ramp;
use crate::refusal::RampRefusal;
use crate::remarks::of_no_step;
use crate::words::read_step;
use clap::Error;
use flagops_files::{Document, load_document};
use flagops_shell::{Command, FileSet, Outcome, Refused, Remark};
use plan_text::Planned;
use std::alloc::Global;
use std::convert::AsStr;

impl<'w, R, F: FileSet> Command<'w, R, F> for Applying<'w> {
    type Refusal = RampRefusal;

    ghost Asked = { words.Applying };

    ghost Needs = { ⊤ };

    ghost view = { applying_view };

    ghost description = { step_description };

    fn read<S: AsStr>(alloc: Global, words: &'w [S]) -> Result<Applying<'w>, Error> {
        read_step(alloc, words)
    }

    #[tactic(auto, using(crate::proofs::Diagnosed::step_remarks, crate::proofs::Diagnosed::wants, crate::proofs::Diagnosed::all_kept))]
    fn answer(
        &self,
        _rt: &R,
        alloc: Global,
        files: &mut F,
    ) -> Result<Outcome, Refused<RampRefusal>> {
        applied(alloc, files, self)
    }

    fn call_of(&self, _refusal: &RampRefusal) -> &'static str {
        "apply"
    }
}

/// The report of the files that are asked for.
#[tactic(auto, using(crate::proofs::Diagnosed::failed_load))]
fn applied<F: FileSet>(
    alloc: Global,
    files: &mut F,
    asked: &Applying<'_>,
) -> Result<Outcome, Refused<RampRefusal>>
    ensures exact { IfSome (F.holding files.old) (λ at. GivesOne outcome_view result (IsStepReport at (applying_view asked.now))) }
    ensures failed { F.has_failed files.new ≡ (F.has_failed files.old || is_file_fault result) }
    ensures names { IfSome (F.holding files.old) (λ at. Diagnoses (IsOfFirst (step_files at (applying_view asked.now)) (IsOfStep (applying_view asked.now))) result) }
    ensures notes { IfOk result (λ o. IfSome o.remark (Says (Names asked.now.document.now))) }
    ensures parts { IfSome (F.holding files.old) (λ at. IfOk result (λ o. TellsStepAt at (applying_view asked.now) o.remark)) }
    ensures kept { F.holding files.new ≡ F.holding files.old }
{
    match load_document(alloc, files, asked.document, asked.floats) {
        Ok(document) => against(alloc, files, asked, &document),
        Err(refused) => Err(Refused::of(refused)),
    }
}

/// The report on a document, of answers that stand in a file.
fn against<F: FileSet>(
    alloc: Global,
    files: &mut F,
    asked: &Applying<'_>,
    document: &Document,
) -> Result<Outcome, Refused<RampRefusal>>
    ensures exact { IfSome (F.holding files.old) (λ at. GivesOne outcome_view result (IsStepOver (applying_view asked.now) document.now.bytes.items (flags_view document.now.flags) (floats_view document.now.flags) (answers_at at asked.now.ramp.now))) }
    ensures failed { F.has_failed files.new ≡ (F.has_failed files.old || is_file_fault result) }
    ensures names { IfSome (F.holding files.old) (λ at. Diagnoses (IsOfFirst (answers_file at asked.now.ramp.now) (IsOfStep (applying_view asked.now))) result) }
    ensures notes { IfOk result (λ o. IfSome o.remark (Says (Names asked.now.document.now))) }
    ensures parts { IfSome (F.holding files.old) (λ at. IfOk result (λ o. TellsStepFrom at (applying_view asked.now) document.now.bytes.items (flags_view document.now.flags) o.remark)) }
    ensures kept { F.holding files.new ≡ F.holding files.old }
{
    match load_ramp(alloc, files, asked.ramp) {
        Ok(answers) => put(alloc, asked, document, answers.as_slice()),
        Err(told) => Err(told),
    }
}

/// The report on a document and answers.
#[tactic(auto, using(flagops_files::proofs::Told::says, crate::proofs::Diagnosed::step_rolled, crate::proofs::Diagnosed::rolled_read))]
fn put(
    alloc: Global,
    asked: &Applying<'_>,
    document: &Document,
    answers: &[Planned],
) -> Result<Outcome, Refused<RampRefusal>>
    ensures exact { GivesOne outcome_view result (IsStepOver (applying_view asked.now) document.now.bytes.items (flags_view document.now.flags) (floats_view document.now.flags) (Ok (map planned_view answers.now))) }
    ensures read { is_file_fault result ≡ false }
    ensures names { Diagnoses (IsOfStep (applying_view asked.now)) result }
    ensures notes { IfOk result (λ o. IfSome o.remark (Says (Names asked.now.document.now))) }
    ensures parts { IfOk result (λ o. TellsStepOf (applying_view asked.now) document.now.bytes.items (flags_view document.now.flags) (map planned_view answers.now) o.remark) }
{
    let Some(planned) = answer_to(answers, asked.step) else {
        return Err(Refused {
            refusal: RampRefusal::NoStep,
            remark: Remark::of(of_no_step(alloc, asked.ramp, asked.step)),
        });
    };
    match flagops_rollouts::applied(
        alloc,
        asked.document,
        document,
        asked.floats,
        asked.key,
        asked.site,
        asked.ramp,
        planned,
        asked.strict,
    ) {
        Ok(outcome) => Ok(outcome),
        Err(refused) => Err(Refused::of(refused)),
    }
}

/// The answer to the step of a number, from 1.
pub(crate) fn answer_to(answers: &[Planned], step: u32) -> Option<&Planned>
    ensures { option_map (λ p. planned_view p.now) result ≡ answer_to (map planned_view answers.now) step }
{
    let before = step.checked_sub(1)?;
    answers.get(before as usize)
}
