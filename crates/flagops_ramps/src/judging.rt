//! Answers to steps that stand in a file, which are loaded and judged for each command that takes them.
ghost use Rattle.std.specs.Prelude.{◌≡◌, ◌<◌, ◌≤◌, ◌-◌, ◌^◌, ◌||◌, false, true, length, map, option_map, string_bytes, IfOk, IfSome, Ok};
ghost use Rattle.flag_defs.specs.Flags.{flags_view};
ghost use Rattle.flagops_files.specs.Lines.{NamesFile};
ghost use Rattle.flagops_files.specs.Question.{question_view};
ghost use Rattle.flagops_shell.specs.Diagnostic.{Says};
ghost use Rattle.flagops_ramps.specs.Attempts.{IsOfFirst, answers_file, verify_files};
ghost use Rattle.flagops_ramps.specs.Judging.{AreRightAnswers, IsFoundAt, IsFoundOf, IsFoundOver, answered_view, answers_at, read_as, refused_as};
ghost use Rattle.flagops_ramps.specs.Refusal.{is_unread, is_want};
ghost use Rattle.flagops_ramps.specs.Diagnostics.{Diagnoses, IsOfAnswers, IsOfVerify, NamesPath, NamesStep, judged_path};
ghost use Rattle.flagops_ramps.specs.Ramp.{of_steps, recorded};
ghost use Rattle.flagops_ramps.specs.Report.{GivesOne, GivesUnlessWant, is_file_fault};
ghost use Rattle.flagops_ramps.specs.Words.{verifying_view};
ghost use Rattle.flagops_ramps.specs.declared.refusal.RampRefusal.TheVariants.{Verify};
ghost use Rattle.rollout.specs.declared.verify_fault.VerifyFault.TheVariants.{Request};
ghost use Rattle.plan_text.specs.Answer.{planned_view};
ghost use Rattle.ramp.specs.Right.{IsTold};
ghost use Rattle.ramp.specs.Lines.{ramp_of};
ghost use Rattle.ramp.specs.Steps.{most_steps, requests_view};

use crate::asked::Verifying;
use crate::ramping::{count, of_steps};
use crate::refusal::RampRefusal;
use crate::remarks::{advice_on, of_steps_in, step_line};
use file_diagnostics::Ends;
use flag_defs::Flags;
use flagops_files::{Evidence, Question, file_line, load, load_question, whole_line};
use flagops_shell::{FileSet, Refused, Remark};
use flagops_words::{factor_number, factor_of};
use plan_text::Planned;
use ramp::{
    RampFault, RampFileFault, StepsFault, read_ramp, read_steps, verify_steps,
    verify_steps_on_tally,
};
use rollout::{RolloutFault, VerifyFault};
use std::alloc::{AllocError, Global};
use std::thread::Threads;

/// The largest file of answers, in bytes.
const RAMP_LIMIT: u64 = limits::FILE_BYTES as u64;

/// Answers that are right, with what they answer: the steps of a question, whose book, if it has one, has counted what these ask
/// of it.
#[derive(Drop)]
pub struct RightAnswers {
    pub question: Question,
    pub steps: Vec<Vec<u8>>,
    pub answers: Vec<Planned>,
}

/// The answers of the file that is asked for, with the files that they are judged by, where they are right; or the first refusal.
#[tactic(auto, using(crate::proofs::Diagnosed::failed_load))]
pub fn load_answers<R: Threads + Sync, F: FileSet>(
    rt: &R,
    alloc: Global,
    files: &mut F,
    asked: &Verifying<'_>,
) -> Result<RightAnswers, Refused<RampRefusal>>
    ensures exact { IfSome (F.holding files.old) (λ at. GivesOne answered_view result (IsFoundAt at (verifying_view asked.now))) }
    ensures right { IfOk result (AreRightAnswers (option_map (λ m. m.number) asked.now.rollout.refine)) }
    ensures failed { F.has_failed files.new ≡ (F.has_failed files.old || is_file_fault result) }
    ensures names { IfSome (F.holding files.old) (λ at. Diagnoses (IsOfFirst (verify_files at (verifying_view asked.now)) (IsOfVerify (verifying_view asked.now))) result) }
    ensures kept { F.holding files.new ≡ F.holding files.old }
{
    let rollout = &asked.rollout;
    match load_question(
        rt,
        alloc,
        files,
        rollout.document,
        rollout.floats,
        rollout.steps,
        rollout.book,
        factor_of(rollout.refine),
    ) {
        Ok(question) => against(rt, alloc, files, asked, question),
        Err(refused) => Err(Refused::of(refused)),
    }
}

/// The same to a question, whose answers stand in a file.
fn against<R: Threads + Sync, F: FileSet>(
    rt: &R,
    alloc: Global,
    files: &mut F,
    asked: &Verifying<'_>,
    question: Question,
) -> Result<RightAnswers, Refused<RampRefusal>>
    ensures exact { IfSome (F.holding files.old) (λ at. GivesOne answered_view result (IsFoundOf (option_map (λ m. m.number) asked.now.rollout.refine) (Ok (question_view question)) (answers_at at asked.now.ramp.now))) }
    ensures right { IfOk result (AreRightAnswers (option_map (λ m. m.number) asked.now.rollout.refine)) }
    ensures failed { F.has_failed files.new ≡ (F.has_failed files.old || is_file_fault result) }
    ensures names { IfSome (F.holding files.old) (λ at. Diagnoses (IsOfFirst (answers_file at asked.now.ramp.now) (IsOfVerify (verifying_view asked.now))) result) }
    ensures kept { F.holding files.new ≡ F.holding files.old }
{
    let answers = load_ramp(alloc, files, asked.ramp)?;
    match read_steps(alloc, question.request.bytes()) {
        Ok(steps) => over(rt, alloc, asked, question, steps, answers),
        Err(fault) => Err(steps_refused(alloc, asked.rollout.steps, &question, fault)),
    }
}

/// Steps of a file that are refused, which a person is told of.
#[tactic(auto, using(flagops_files::proofs::Told::says))]
pub(crate) fn steps_refused(
    alloc: Global,
    path: &str,
    question: &Question,
    fault: StepsFault,
) -> Refused<RampRefusal>
    ensures refusal { result.refusal ≡ Verify (Request (of_steps fault)) }
    ensures read { is_unread result.refusal ≡ false }
    ensures names { Says (NamesPath path.now) result.remark }
{
    let fault = of_steps(fault);
    Refused {
        refusal: RampRefusal::Verify(VerifyFault::Request(fault.fault)),
        remark: Remark::of(of_steps_in(alloc, path, question, 1, fault)),
    }
}

/// The same of answers to these steps.
#[tactic(auto, using(crate::proofs::Diagnosed::wanting))]
fn over<R: Threads + Sync>(
    rt: &R,
    alloc: Global,
    asked: &Verifying<'_>,
    question: Question,
    steps: Vec<Vec<u8>>,
    answers: Vec<Planned>,
) -> Result<RightAnswers, Refused<RampRefusal>>
    requires { length steps.items ≤ most_steps }
    ensures exact { GivesOne answered_view result (IsFoundOver (option_map (λ m. m.number) asked.now.rollout.refine) (question_view question) (map planned_view answers.items) (Ok (requests_view steps.items))) }
    ensures right { IfOk result (AreRightAnswers (option_map (λ m. m.number) asked.now.rollout.refine)) }
    ensures read { is_file_fault result ≡ false }
    ensures names { Diagnoses (IsOfVerify (verifying_view asked.now)) result }
{
    let mut question = question;
    let refine = asked.rollout.refine;
    let factor = factor_of(refine);
    let Ok(()) = count(rt, alloc, &mut question, steps.as_slice(), factor) else {
        return Err(out_of_memory());
    };
    match verified_on(
        rt,
        alloc,
        &question.flags,
        steps.as_slice(),
        &question.evidence,
        factor_number(refine),
        answers.as_slice(),
    ) {
        Ok(()) => Ok(RightAnswers {
            question,
            steps,
            answers,
        }),
        Err(fault) => Err(wrong(alloc, asked, fault, Ok(String::new(alloc)))),
    }
}

/// What is told of answers to steps over what was recorded. The conditions are a factor from 1, and fewer than 2^32 - 1 steps.
pub(crate) fn verified_on<R: Threads + Sync>(
    rt: &R,
    alloc: Global,
    flags: &Flags,
    steps: &[Vec<u8>],
    evidence: &Evidence,
    refine: Option<u32>,
    answers: &[Planned],
) -> Result<(), RampFault>
    requires factor { IfSome refine (λ m. 0 < m) }
    requires few { length steps.now < 2 ^ 32 - 1 }
    ensures { IsTold (Ok (flags_view flags.now)) refine (requests_view steps.now) (recorded evidence.now) (map planned_view answers.now) result }
{
    match evidence {
        Evidence::Book(book) => verify_steps(rt, alloc, flags, steps, book, refine, answers),
        Evidence::Tally(tally) => {
            verify_steps_on_tally(alloc, flags, steps, tally, refine, answers)
        }
    }
}

/// The answers of the file at a path.
#[tactic(auto, using(crate::proofs::Diagnosed::failed_load))]
pub(crate) fn load_ramp<F: FileSet>(
    alloc: Global,
    files: &mut F,
    path: &str,
) -> Result<Vec<Planned>, Refused<RampRefusal>>
    ensures exact { IfSome (F.holding files.old) (λ at. GivesUnlessWant (λ v. map planned_view v.items) result (answers_at at path.now)) }
    ensures failed { F.has_failed files.new ≡ (F.has_failed files.old || is_file_fault result) }
    ensures names { IfSome (F.holding files.old) (λ at. Diagnoses (IsOfFirst (answers_file at path.now) (IsOfAnswers path.now)) result) }
    ensures kept { F.holding files.new ≡ F.holding files.old }
{
    match load(alloc, files, path, RAMP_LIMIT) {
        Ok(bytes) => read(alloc, path, bytes.as_slice()),
        Err(refused) => Err(Refused::of(refused)),
    }
}

/// The answers of a file's bytes.
#[tactic(auto, using(flagops_files::proofs::Told::says, crate::proofs::Diagnosed::file_path))]
fn read(alloc: Global, path: &str, bytes: &[u8]) -> Result<Vec<Planned>, Refused<RampRefusal>>
    ensures exact { GivesUnlessWant (λ v. map planned_view v.items) result (read_as (ramp_of bytes.now)) }
    ensures read { is_file_fault result ≡ false }
    ensures names { Diagnoses (IsOfAnswers path.now) result }
{
    match read_ramp(alloc, bytes) {
        Ok(answers) => Ok(answers),
        Err(fault) => Err(Refused {
            refusal: RampRefusal::Read(fault),
            remark: Remark::of(of_ramp(alloc, path, Ends::of(bytes), fault)),
        }),
    }
}

/// Memory that ran out.
pub fn out_of_memory() -> Refused<RampRefusal>
    ensures want { is_want result.refusal ≡ true }
    ensures read { is_unread result.refusal ≡ false }
{
    Refused {
        refusal: RampRefusal::Verify(VerifyFault::Request(RolloutFault::WantOfMemory)),
        remark: Remark::Short,
    }
}

/// Answers that are not right, which a person is told of, with more on a step.
#[tactic(auto, using(flagops_files::proofs::Told::says, crate::proofs::Diagnosed::step_said, crate::proofs::Diagnosed::file_path))]
pub(crate) fn wrong(
    alloc: Global,
    asked: &Verifying<'_>,
    fault: RampFault,
    more: Result<String, AllocError>,
) -> Refused<RampRefusal>
    ensures refusal { result.refusal ≡ refused_as fault }
    ensures read { is_unread result.refusal ≡ false }
    ensures names { IsOfVerify (verifying_view asked.now) result.refusal result.remark }
{
    match fault {
        RampFault::Step(step, fault) => Refused {
            remark: Remark::of(of_verdict(alloc, asked, step, &fault, more)),
            refusal: RampRefusal::Verify(fault),
        },
        RampFault::Lines => Refused {
            refusal: RampRefusal::Lines,
            remark: Remark::of(file_line(
                alloc,
                asked.ramp,
                "there are fewer or more lines than steps; an empty file has none",
            )),
        },
    }
}

/// What a person is told of a step whose answer is not right, or that is refused.
fn of_verdict(
    alloc: Global,
    asked: &Verifying<'_>,
    step: u32,
    fault: &VerifyFault,
    more: Result<String, AllocError>,
) -> Result<String, AllocError>
    ensures { IfOk result (λ s. NamesStep (judged_path (verifying_view asked.now) fault.now) step (string_bytes s)) }
{
    let more = more?;
    let path = path_of(asked, fault);
    let advice = advice_of(fault);
    let reason = format!(in alloc; "{fault}{advice}{more}")?;
    step_line(alloc, path, step, reason.as_str())
}

/// The file that a refusal is of: that of the steps, or that of their answers.
fn path_of<'a>(asked: &Verifying<'a>, fault: &VerifyFault) -> &'a str
    ensures { result.now ≡ judged_path (verifying_view asked.now) fault.now }
{
    match fault {
        VerifyFault::Request(_) => asked.rollout.steps,
        VerifyFault::Check(_) => asked.ramp,
    }
}

/// What to do about a request that is refused, or about a plan that is not right.
fn advice_of(fault: &VerifyFault) -> &'static str {
    match fault {
        VerifyFault::Request(fault) => advice_on(*fault),
        VerifyFault::Check(_) =>
            "\n  the document or the book may have changed since they were planned\n  plan the steps again with this document, file of steps and book",
    }
}

/// What a person is told of a file that is none of answers, by what is seen of it at its ends.
fn of_ramp(
    alloc: Global,
    path: &str,
    ends: Ends,
    fault: RampFileFault,
) -> Result<String, AllocError>
    ensures { IfOk result (λ s. NamesFile path.now (string_bytes s)) }
{
    let reason = reason_of(alloc, fault)?;
    match ends {
        Ends::Marked => whole_line(
            alloc,
            path,
            "begins with a byte order mark, so it is not a file of plans\n  save it as UTF-8 without the mark",
        ),
        _ => file_line(alloc, path, reason.as_str()),
    }
}

/// Why a file is none of answers.
fn reason_of(alloc: Global, fault: RampFileFault) -> Result<String, AllocError> {
    match fault {
        RampFileFault::Line(number) => {
            format!(in alloc; "line {number} is not the plan of a step, as ramp prints it")
        }
        _ => format!(in alloc; "{fault}"),
    }
}
