//! The command `picture --ramp`: it prints the pictures of answers to steps that are right.
ghost use denote.Param.Send.{IsSync};
ghost use Rattle.std.specs.Prelude.{◌≡◌, ◌≤◌, ◌<◌, ◌+◌, ◌||◌, length, List, map, option_map, Ok, IfOk, IfSome, string_bytes};
ghost use Rattle.flag_defs.specs.Flags.{flags_view};
ghost use Rattle.flagops_files.specs.Question.{question_view};
ghost use Rattle.flagops_shell.specs.Report.{outcome_view};
ghost use Rattle.flagops_pictures.specs.Commands.{ramp_description};
ghost use Rattle.flagops_pictures.specs.Ramps.{AreTold, IsRampDrawn, IsRampPicture, IsRampPictureOf};
ghost use Rattle.flagops_ramps.specs.Attempts.{IsOfFirst, verify_files};
ghost use Rattle.flagops_ramps.specs.Judging.{AreRightAnswers, answered_view};
ghost use Rattle.flagops_ramps.specs.Doubts.{doubt_parts_of_steps};
ghost use Rattle.flagops_ramps.specs.Ramp.{recorded};
ghost use Rattle.flagops_ramps.specs.Remarks.{TellsVerdictAt};
ghost use Rattle.flagops_ramps.specs.Report.{GivesOne, is_file_fault};
ghost use Rattle.flagops_ramps.specs.Diagnostics.{Diagnoses, IsOfVerify};
ghost use Rattle.flagops_ramps.specs.Words as words;
ghost use Rattle.flagops_rollouts.specs.Beside.{Tells};
ghost use Rattle.flagops_rollouts.specs.Doubts.{NamesDoubted};
ghost use Rattle.flagops_shell.specs.Diagnostic.{Says};
ghost use Rattle.flagops_ramps.specs.Words.{verifying_view};
ghost use Rattle.picture.specs.Spelling.{Continues, Pictures};
ghost use Rattle.plan_text.specs.Answer.{planned_view};
ghost use Rattle.ramp.specs.Right.{AreRight};
ghost use Rattle.ramp.specs.Steps.{most_steps, requests_view};

use crate::asked::PicturingRamp;
use crate::drawing::{Asked, add_picture};
use crate::words::read_ramp;
use clap::Error;
use flag_defs::Flags;
use flagops_files::Evidence;
use flagops_ramps::{RampRefusal, RightAnswers, Verifying, doubted, load_answers, out_of_memory};
use flagops_rollouts::remark_in;
use flagops_shell::{Command, FileSet, Outcome, Refused, Status};
use flagops_words::factor_number;
use picture::{Title, draw_step, page};
use plan_text::Planned;
use ramp::left_by;
use rollout::RolloutFault;
use std::alloc::{AllocError, Global};
use std::convert::AsStr;
use std::thread::Threads;

impl<'w, R: Threads + Sync, F: FileSet> Command<'w, R, F> for PicturingRamp<'w> {
    type Refusal = RampRefusal;

    ghost Asked = { words.Verifying };

    ghost Needs = { IsSync R.row };

    ghost view = { λ c. verifying_view c.answers };

    ghost description = { ramp_description };

    fn read<S: AsStr>(alloc: Global, words: &'w [S]) -> Result<PicturingRamp<'w>, Error> {
        let answers = read_ramp(alloc, words)?;
        Ok(PicturingRamp { answers })
    }

    #[tactic(auto, using(flagops_ramps::proofs::Diagnosed::verify_remarks, flagops_ramps::proofs::Diagnosed::wants, flagops_ramps::proofs::Diagnosed::all_kept))]
    fn answer(
        &self,
        rt: &R,
        alloc: Global,
        files: &mut F,
    ) -> Result<Outcome, Refused<RampRefusal>> {
        pictured(rt, alloc, files, &self.answers)
    }

    fn call_of(&self, _refusal: &RampRefusal) -> &'static str {
        "verify-ramp"
    }
}

/// The pictures of what the files at the paths ask and answer.
fn pictured<R: Threads + Sync, F: FileSet>(
    rt: &R,
    alloc: Global,
    files: &mut F,
    asked: &Verifying<'_>,
) -> Result<Outcome, Refused<RampRefusal>>
    ensures exact { IfSome (F.holding files.old) (λ at. GivesOne outcome_view result (IsRampPicture at (verifying_view asked.now))) }
    ensures failed { F.has_failed files.new ≡ (F.has_failed files.old || is_file_fault result) }
    ensures names { IfSome (F.holding files.old) (λ at. Diagnoses (IsOfFirst (verify_files at (verifying_view asked.now)) (IsOfVerify (verifying_view asked.now))) result) }
    ensures notes { IfOk result (λ o. IfSome o.remark (Says (NamesDoubted asked.now.rollout.steps.now asked.now.rollout.book.now))) }
    ensures parts { IfSome (F.holding files.old) (λ at. IfOk result (λ o. TellsVerdictAt at (verifying_view asked.now) o.remark)) }
    ensures kept { F.holding files.new ≡ F.holding files.old }
{
    match load_answers(rt, alloc, files, asked) {
        Ok(right) => match drawn(rt, alloc, asked, &right) {
            Ok(outcome) => Ok(outcome),
            Err(AllocError) => Err(out_of_memory()),
        },
        Err(told) => Err(told),
    }
}

/// The page that has the pictures of answers that are right, beside which a person is told what is doubted of them.
#[tactic(auto, using(crate::proofs::Diagnosed::noted))]
fn drawn<R: Threads + Sync>(
    rt: &R,
    alloc: Global,
    asked: &Verifying<'_>,
    right: &RightAnswers,
) -> Result<Outcome, AllocError>
    requires right { AreRightAnswers (option_map (λ m. m.number) asked.now.rollout.refine) right.now }
    ensures drawn { IfOk result (λ o. IsRampPictureOf (option_map (λ m. m.number) asked.now.rollout.refine) (Ok (answered_view right.now)) (Ok (outcome_view o))) }
    ensures notes { IfOk result (λ o. IfSome o.remark (Says (NamesDoubted asked.now.rollout.steps.now asked.now.rollout.book.now))) }
    ensures parts { IfOk result (λ o. Tells (doubt_parts_of_steps asked.now.rollout.steps.now asked.now.rollout.book.now (question_view right.now.question) (requests_view right.now.steps.items)) o.remark) }
{
    let steps = right.steps.as_slice();
    let doubted = doubted(rt, alloc, &asked.rollout, &right.question, steps)?;
    let text = sheet(rt, alloc, factor_number(asked.rollout.refine), right)?;
    Ok(Outcome {
        text: text.into_bytes(),
        status: Status::Done,
        remark: remark_in(doubted),
    })
}

/// The page that has the pictures of answers that are right, for the factor that they were made with.
fn sheet<R: Threads + Sync>(
    rt: &R,
    alloc: Global,
    refine: Option<u32>,
    right: &RightAnswers,
) -> Result<String, AllocError>
    requires factor { IfSome refine (λ m. 0 < m) }
    requires right { AreRightAnswers refine right.now }
    ensures { IfOk result (λ s. IsRampDrawn refine (answered_view right.now) (string_bytes s)) }
{
    let mut pictures = String::new(alloc);
    let height = add_steps(
        rt,
        alloc,
        &mut pictures,
        Place { number: 1, y: 0 },
        &right.question.flags,
        &right.question.evidence,
        refine,
        right.steps.as_slice(),
        right.answers.as_slice(),
    )?;
    let text = page(alloc, Title::Rollout, height, pictures.as_str())?;
    Ok(text)
}

/// Which step is drawn next, and how far below the top of the page.
#[derive(Clone, Copy)]
struct Place {
    number: u32,
    y: u64,
}

/// Adds the pictures of right answers to steps, from a place on, and gives how far below the top they end.
fn add_steps<R: Threads + Sync>(
    rt: &R,
    alloc: Global,
    pictures: &mut String,
    place: Place,
    flags: &Flags,
    evidence: &Evidence,
    refine: Option<u32>,
    steps: &[Vec<u8>],
    answers: &[Planned],
) -> Result<u64, AllocError>
    requires factor { IfSome refine (λ m. 0 < m) }
    requires few { place.number + length steps.now ≤ most_steps + 1 }
    requires right { AreRight (Ok (flags_view flags.now)) refine (requests_view steps.now) (recorded evidence.now) (map planned_view answers.now) }
    ensures { IfOk result (λ end. (ps : Pictures) × AreTold (Ok (flags_view flags.now)) refine (requests_view steps.now) (recorded evidence.now) place.number (map planned_view answers.now) ps × Continues ps place.y end (string_bytes pictures.old) (string_bytes pictures.new)) }
{
    let [request, more @ ..] = steps else {
        return Ok(place.y);
    };
    let [planned, others @ ..] = answers else {
        return Ok(place.y);
    };
    let request = request.as_slice();
    let asked = Asked {
        flags,
        request,
        evidence,
        refine,
    };
    let y = draw_step(alloc, pictures, place.y, u64::from(place.number))?;
    let y = add_picture(rt, alloc, pictures, y, asked, planned)?;
    if others.is_empty() {
        return Ok(y);
    }
    let next = match left_by(alloc, flags, request, planned) {
        Ok(next) => next,
        Err(RolloutFault::WantOfMemory) => return Err(AllocError),
        // The answer to a further step is right, which then stands on flags.
        Err(_) => unreachable!(),
    };
    let below = Place {
        number: place.number + 1,
        y,
    };
    add_steps(
        rt,
        alloc,
        pictures,
        below,
        &next,
        evidence,
        Some(1),
        more,
        others,
    )
}
