//! The command `apply --step --keep`: a document with the rule of the answer to a step, and all else as it was.
ghost use denote.Param.Send.{IsSync};
ghost use Rattle.std.specs.Prelude.{◌≡◌, ◌≤◌, ◌-◌, ◌||◌, List, ℕ, drop, false, is_ok, is_some, length, map, option_map, true, IfOk, IfSome, Ok};
ghost use Rattle.flag_defs.specs.Flags.{flags_view};
ghost use Rattle.flagops_files.specs.Question.{question_view};
ghost use Rattle.flagops_rollouts.specs.Beside.{AreBehind, Tells};
ghost use Rattle.flagops_rollouts.specs.Doubts.{NamesDoubted};
ghost use Rattle.flagops_rollouts.specs.Keep.{IsKeptPut, LeavesDocument, kept_view};
ghost use Rattle.flagops_shell.specs.Diagnostic.{Says};
ghost use Rattle.flagops_shell.specs.Ending.{KeepsUnlessDone};
ghost use Rattle.flagops_shell.specs.Outcomes.{Lifts};
ghost use Rattle.flagops_shell.specs.Report.{outcome_view};
ghost use Rattle.flagops_ramps.specs.Apply.{answer_to};
ghost use Rattle.flagops_ramps.specs.Attempts.{IsOfFirst, answers_file, verify_files};
ghost use Rattle.flagops_ramps.specs.Commands.{keep_description};
ghost use Rattle.flagops_ramps.specs.Diagnostics.{Diagnoses, IsOfDoubted, IsOfKeep};
ghost use Rattle.flagops_ramps.specs.Judging.{answers_at, refused_as};
ghost use Rattle.flagops_ramps.specs.Keep.{IsKeepOf, IsKeepOver, IsKeepReport, IsKeptFrom, IsKeptOnto, IsKeptWith, from_step, is_finer_put, is_left, settled};
ghost use Rattle.flagops_ramps.specs.Remarks.{TellsKeepAt, TellsKeepFrom, keep_parts, put_finer_parts};
ghost use Rattle.flagops_ramps.specs.Report.{GivesOne, GivesUnlessWant, is_file_fault};
ghost use Rattle.flagops_ramps.specs.Words as words;
ghost use Rattle.flagops_ramps.specs.Words.{keeping_view};
ghost use Rattle.flagops_ramps.specs.declared.refusal.RampRefusal.TheVariants.{Rollout};
ghost use Rattle.plan_text.specs.Answer.{planned_view};
ghost use Rattle.price_core.specs.Request.{asked_of};
ghost use Rattle.ramp.specs.Steps.{most_steps, requests_view};

use crate::applying::answer_to;
use crate::asked::Keeping;
use crate::doubts::{first_request, settled};
use crate::judging::{load_ramp, out_of_memory, steps_refused, verified_on, wrong};
use crate::misplaced::misplaced;
use crate::ramping::count;
use crate::refusal::{RampRefusal, StepCall};
use crate::remarks::of_no_step;
use crate::words::read_keep;
use bucket_core::Rule;
use clap::Error;
use flag_defs::Flags;
use flagops_files::{Question, file_line, load_question};
use flagops_rollouts::{document_with_rule, has_rule, put_document, times_asked, with_points};
use flagops_shell::{Command, FileSet, Outcome, Refused, Remark};
use flagops_words::{factor_number, factor_of};
use plan_text::Planned;
use price_core::{PriceFault, Request};
use ramp::{RampFault, read_steps};
use std::alloc::{AllocError, Global};
use std::convert::AsStr;
use std::thread::Threads;

/// What is the matter with a document where another rule stands at the site.
const OTHER_RULE: &str =
    "the site has another rule than the one that the step before left; apply the steps one after the other";

impl<'w, R: Threads + Sync, F: FileSet> Command<'w, R, F> for Keeping<'w> {
    type Refusal = RampRefusal;

    ghost Asked = { words.Keeping };

    ghost Needs = { IsSync R.row };

    ghost view = { keeping_view };

    ghost description = { keep_description };

    fn read<S: AsStr>(alloc: Global, words: &'w [S]) -> Result<Keeping<'w>, Error> {
        read_keep(alloc, words)
    }

    #[tactic(auto, using(crate::proofs::Diagnosed::keep_remarks, crate::proofs::Diagnosed::wants))]
    fn answer(
        &self,
        rt: &R,
        alloc: Global,
        files: &mut F,
    ) -> Result<Outcome, Refused<RampRefusal>> {
        keep(rt, alloc, files, self)
    }

    fn call_of(&self, _refusal: &RampRefusal) -> &'static str {
        "apply"
    }
}

/// The report of the files that are asked for.
#[tactic(auto, using(crate::proofs::Diagnosed::failed_load))]
fn keep<R: Threads + Sync, F: FileSet>(
    rt: &R,
    alloc: Global,
    files: &mut F,
    asked: &Keeping<'_>,
) -> Result<Outcome, Refused<RampRefusal>>
    ensures exact { IfSome (F.holding files.old) (λ at. GivesOne outcome_view result (IsKeepReport at (F.holding files.new) (keeping_view asked.now))) }
    ensures failed { F.has_failed files.new ≡ (F.has_failed files.old || is_file_fault result) }
    ensures left { LeavesDocument (F.holding files.old) (F.holding files.new) asked.now.answered.rollout.document.now asked.now.write }
    ensures kept { KeepsUnlessDone (F.holding files.old) (F.holding files.new) result }
    ensures names { IfSome (F.holding files.old) (λ at. Diagnoses (IsOfFirst (verify_files at (keeping_view asked.now).answered) (IsOfKeep (keeping_view asked.now))) result) }
    ensures notes { IfOk result (λ o. IfSome o.remark (Says (NamesDoubted asked.now.answered.rollout.steps.now asked.now.answered.rollout.book.now))) }
    ensures parts { IfSome (F.holding files.old) (λ at. IfOk result (λ o. TellsKeepAt at (keeping_view asked.now) o.remark)) }
{
    let rollout = &asked.answered.rollout;
    match load_question(
        rt,
        alloc,
        files,
        rollout.document,
        rollout.floats,
        rollout.steps,
        rollout.book,
        factor_of(rollout.refine),
    ) {
        Ok(question) => against(rt, alloc, files, asked, question),
        Err(refused) => Err(Refused::of(refused)),
    }
}

/// The report on a question, whose answers stand in a file.
fn against<R: Threads + Sync, F: FileSet>(
    rt: &R,
    alloc: Global,
    files: &mut F,
    asked: &Keeping<'_>,
    question: Question,
) -> Result<Outcome, Refused<RampRefusal>>
    ensures exact { IfSome (F.holding files.old) (λ at. GivesOne outcome_view result (IsKeepOf at (F.holding files.new) (keeping_view asked.now) question.document.items (question_view question) (answers_at at asked.now.answered.ramp.now))) }
    ensures failed { F.has_failed files.new ≡ (F.has_failed files.old || is_file_fault result) }
    ensures left { LeavesDocument (F.holding files.old) (F.holding files.new) asked.now.answered.rollout.document.now asked.now.write }
    ensures kept { KeepsUnlessDone (F.holding files.old) (F.holding files.new) result }
    ensures names { IfSome (F.holding files.old) (λ at. Diagnoses (IsOfFirst (answers_file at asked.now.answered.ramp.now) (IsOfKeep (keeping_view asked.now))) result) }
    ensures notes { IfOk result (λ o. IfSome o.remark (Says (NamesDoubted asked.now.answered.rollout.steps.now asked.now.answered.rollout.book.now))) }
    ensures parts { IfSome (F.holding files.old) (λ at. IfOk result (λ o. TellsKeepFrom at (keeping_view asked.now) (question_view question) o.remark)) }
{
    let answers = load_ramp(alloc, files, asked.answered.ramp)?;
    match read_steps(alloc, question.request.bytes()) {
        Ok(steps) => over(
            rt,
            alloc,
            files,
            asked,
            question,
            steps.as_slice(),
            answers.as_slice(),
        ),
        Err(fault) => {
            let path = asked.answered.rollout.steps;
            Err(steps_refused(alloc, path, &question, fault))
        }
    }
}

/// The report of answers to these steps, which a book of the question is made to count for.
#[tactic(auto, using(crate::proofs::Diagnosed::wanting))]
fn over<R: Threads + Sync, F: FileSet>(
    rt: &R,
    alloc: Global,
    files: &mut F,
    asked: &Keeping<'_>,
    question: Question,
    steps: &[Vec<u8>],
    answers: &[Planned],
) -> Result<Outcome, Refused<RampRefusal>>
    requires { length steps.now ≤ most_steps }
    ensures exact { IfSome (F.holding files.old) (λ at. GivesOne outcome_view result (IsKeepOver at (F.holding files.new) (keeping_view asked.now) question.document.items (question_view question) (map planned_view answers.now) (Ok (requests_view steps.now)))) }
    ensures failed { F.has_failed files.new ≡ (F.has_failed files.old || is_file_fault result) }
    ensures left { LeavesDocument (F.holding files.old) (F.holding files.new) asked.now.answered.rollout.document.now asked.now.write }
    ensures kept { KeepsUnlessDone (F.holding files.old) (F.holding files.new) result }
    ensures names { Diagnoses (IsOfKeep (keeping_view asked.now)) result }
    ensures notes { IfOk result (λ o. IfSome o.remark (Says (NamesDoubted asked.now.answered.rollout.steps.now asked.now.answered.rollout.book.now))) }
    ensures parts { IfOk result (λ o. Tells (keep_parts (keeping_view asked.now) (question_view question) (requests_view steps.now) (map planned_view answers.now)) o.remark) }
{
    let mut question = question;
    let factor = factor_of(asked.answered.rollout.refine);
    let Ok(()) = count(rt, alloc, &mut question, steps, factor) else {
        return Err(out_of_memory());
    };
    counted(rt, alloc, files, asked, &question, steps, answers)
}

/// The same of a question whose book, if it has one, has counted.
#[tactic(auto, using(crate::proofs::Diagnosed::keep_doubted))]
fn counted<R: Threads + Sync, F: FileSet>(
    rt: &R,
    alloc: Global,
    files: &mut F,
    asked: &Keeping<'_>,
    question: &Question,
    steps: &[Vec<u8>],
    answers: &[Planned],
) -> Result<Outcome, Refused<RampRefusal>>
    requires { length steps.now ≤ most_steps }
    ensures exact { IfSome (F.holding files.old) (λ at. GivesOne outcome_view result (IsKeepOver at (F.holding files.new) (keeping_view asked.now) question.now.document.items (question_view question.now) (map planned_view answers.now) (Ok (requests_view steps.now)))) }
    ensures failed { F.has_failed files.new ≡ (F.has_failed files.old || is_file_fault result) }
    ensures left { LeavesDocument (F.holding files.old) (F.holding files.new) asked.now.answered.rollout.document.now asked.now.write }
    ensures kept { KeepsUnlessDone (F.holding files.old) (F.holding files.new) result }
    ensures names { Diagnoses (IsOfKeep (keeping_view asked.now)) result }
    ensures notes { IfOk result (λ o. IfSome o.remark (Says (NamesDoubted asked.now.answered.rollout.steps.now asked.now.answered.rollout.book.now))) }
    ensures parts { IfOk result (λ o. Tells (keep_parts (keeping_view asked.now) (question_view question.now) (requests_view steps.now) (map planned_view answers.now)) o.remark) }
{
    let text = kept(rt, alloc, asked, question, steps, answers)?;
    let remark = noted(rt, alloc, asked, question, steps, answers)?;
    put(alloc, files, asked, text, remark)
}

/// What a person is told beside a document with the rule of the answer to the step: what is doubted of it, and that the rule has finer
/// points than the one that stood there; or that the first is refused.
fn noted<R: Threads + Sync>(
    rt: &R,
    alloc: Global,
    asked: &Keeping<'_>,
    question: &Question,
    steps: &[Vec<u8>],
    answers: &[Planned],
) -> Result<Option<Remark>, Refused<RampRefusal>>
    ensures exact { GivesUnlessWant (λ r. is_some r) result (settled (keeping_view asked.now) (question_view question.now) (requests_view steps.now) (map planned_view answers.now)) }
    ensures read { is_file_fault result ≡ false }
    ensures names { Diagnoses (IsOfDoubted asked.now.answered.rollout.steps.now asked.now.answered.rollout.book.now) result }
    ensures notes { IfOk result (λ r. IfSome r (Says (NamesDoubted asked.now.answered.rollout.steps.now asked.now.answered.rollout.book.now))) }
    ensures parts { IfOk result (Tells (keep_parts (keeping_view asked.now) (question_view question.now) (requests_view steps.now) (map planned_view answers.now))) }
{
    let rollout = &asked.answered.rollout;
    let doubted = settled(rt, alloc, StepCall::Apply, rollout, question, steps)?;
    let (steps, answers) = (from_step(steps, asked.step), from_step(answers, asked.step));
    match pointed(
        alloc,
        rollout.steps,
        &question.flags,
        steps,
        answers,
        doubted,
    ) {
        Ok(remark) => Ok(remark),
        Err(AllocError) => Err(out_of_memory()),
    }
}

/// What was noted, and behind that, as a note on the file at a path, that the rule of the first of these answers has finer points than
/// the one at the site of its request.
fn pointed(
    alloc: Global,
    path: &str,
    flags: &Flags,
    steps: &[Vec<u8>],
    answers: &[Planned],
    noted: Option<Remark>,
) -> Result<Option<Remark>, AllocError>
    ensures told { IfOk result (λ r. is_some r ≡ (is_some noted || is_finer_put (flags_view flags.now) (requests_view steps.now) (map planned_view answers.now))) }
    ensures beside { IfOk result (AreBehind (put_finer_parts path.now (flags_view flags.now) (requests_view steps.now) (map planned_view answers.now)) noted) }
    ensures notes { IfOk result (λ r. (book : List ℕ) → IfSome noted (Says (NamesDoubted path.now book)) → IfSome r (Says (NamesDoubted path.now book))) }
{
    let Some(planned) = answers.first() else {
        return Ok(noted);
    };
    let factor = times_asked(alloc, flags, first_request(steps), planned)?;
    Ok(with_points(alloc, path, factor, planned, noted))
}

/// The text of the document with the rule of the answer to the step, where the answers from it on are right and it has a rule.
fn kept<R: Threads + Sync>(
    rt: &R,
    alloc: Global,
    asked: &Keeping<'_>,
    question: &Question,
    steps: &[Vec<u8>],
    answers: &[Planned],
) -> Result<Option<Vec<u8>>, Refused<RampRefusal>>
    requires { length steps.now ≤ most_steps }
    ensures exact { GivesOne kept_view result (IsKeptFrom asked.now.answered.rollout.floats (option_map (λ m. m.number) asked.now.answered.rollout.refine) question.now.document.items (question_view question.now) (from_step asked.now.step (requests_view steps.now)) (answer_to (map planned_view answers.now) (asked.now.step - 1)) (from_step asked.now.step (map planned_view answers.now))) }
    ensures read { is_file_fault result ≡ false }
    ensures names { Diagnoses (IsOfKeep (keeping_view asked.now)) result }
{
    let before = answer_to(answers, asked.step.saturating_sub(1));
    let all = answers;
    let (steps, answers) = (from_step(steps, asked.step), from_step(answers, asked.step));
    kept_from(rt, alloc, asked, question, steps, before, answers, all)
}

/// The text by the first of these answers, where all are right for these steps: those from the one that is asked for on. Before
/// them there is this one; all answers tell which step's rule the site has, where it has another one.
#[tactic(auto, using(flagops_files::proofs::Told::says, crate::proofs::Diagnosed::keep_wrong))]
fn kept_from<R: Threads + Sync>(
    rt: &R,
    alloc: Global,
    asked: &Keeping<'_>,
    question: &Question,
    steps: &[Vec<u8>],
    before: Option<&Planned>,
    answers: &[Planned],
    all: &[Planned],
) -> Result<Option<Vec<u8>>, Refused<RampRefusal>>
    requires { length steps.now ≤ most_steps }
    ensures exact { GivesOne kept_view result (IsKeptFrom asked.now.answered.rollout.floats (option_map (λ m. m.number) asked.now.answered.rollout.refine) question.now.document.items (question_view question.now) (requests_view steps.now) (option_map (λ p. planned_view p.now) before.entry) (map planned_view answers.now)) }
    ensures read { is_file_fault result ≡ false }
    ensures names { Diagnoses (IsOfKeep (keeping_view asked.now)) result }
{
    let Some(planned) = answers.first() else {
        let lines = of_no_step(alloc, asked.answered.ramp, asked.step);
        return Err(Refused {
            refusal: RampRefusal::NoStep,
            remark: Remark::of(lines),
        });
    };
    let factor = factor_number(asked.answered.rollout.refine);
    let (flags, evidence) = (&question.flags, &question.evidence);
    match verified_on(rt, alloc, flags, steps, evidence, factor, answers) {
        Ok(()) => kept_by(
            alloc,
            asked,
            question,
            first_request(steps),
            before,
            planned,
        ),
        Err(fault) => {
            let place = misplaced(alloc, asked.step, flags, steps, before, all);
            Err(wrong(alloc, &asked.answered, behind(asked.step, fault), place))
        }
    }
}

/// Those from the one of a number on, from 1.
fn from_step<T>(items: &[T], step: u32) -> &[T]
    ensures { result.now ≡ drop (step - 1) items.now }
{
    let before = (step as usize).saturating_sub(1);
    if before < items.len() {
        &items[before..]
    } else {
        &[]
    }
}

/// What is told of steps from the one of a number on, with the numbers that they have among all.
fn behind(first: u32, fault: RampFault) -> RampFault
    ensures { refused_as result ≡ refused_as fault }
{
    match fault {
        RampFault::Step(step, fault) => {
            let before = first.saturating_sub(1);
            RampFault::Step(step.saturating_add(before), fault)
        }
        RampFault::Lines => RampFault::Lines,
    }
}

/// The text by an answer that is right for a request. Before it there is this one.
#[tactic(auto, using(crate::proofs::Diagnosed::wanting))]
fn kept_by(
    alloc: Global,
    asked: &Keeping<'_>,
    question: &Question,
    request: &[u8],
    before: Option<&Planned>,
    planned: &Planned,
) -> Result<Option<Vec<u8>>, Refused<RampRefusal>>
    requires { is_ok (asked_of request.now) ≡ true }
    ensures exact { GivesOne kept_view result (IsKeptWith asked.now.answered.rollout.floats question.now.document.items (flags_view question.now.flags) request.now (option_map (λ p. planned_view p.now) before.entry) (planned_view planned.now)) }
    ensures read { is_file_fault result ≡ false }
    ensures names { Diagnoses (IsOfKeep (keeping_view asked.now)) result }
{
    let Planned::Emit(rule, _) = planned else {
        return Ok(None);
    };
    match Request::read(alloc, request) {
        Ok(request) => kept_onto(alloc, asked, question, &request, before, rule),
        Err(PriceFault::WantOfMemory) => Err(out_of_memory()),
        // A request whose answer is right asks something.
        Err(_) => unreachable!(),
    }
}

/// The text with a rule at the site of a request, where the answer before left what stands there.
#[tactic(auto, using(flagops_files::proofs::Told::says, crate::proofs::Diagnosed::keep_rolled, crate::proofs::Diagnosed::rolled_read, crate::proofs::Diagnosed::wanting, crate::proofs::Diagnosed::file_path))]
fn kept_onto(
    alloc: Global,
    asked: &Keeping<'_>,
    question: &Question,
    request: &Request,
    before: Option<&Planned>,
    rule: &Rule,
) -> Result<Option<Vec<u8>>, Refused<RampRefusal>>
    ensures exact { GivesOne kept_view result (IsKeptOnto asked.now.answered.rollout.floats question.now.document.items (flags_view question.now.flags) request.now rule.now (is_left (flags_view question.now.flags) request.now (option_map (λ p. planned_view p.now) before.entry))) }
    ensures read { is_file_fault result ≡ false }
    ensures names { Diagnoses (IsOfKeep (keeping_view asked.now)) result }
{
    let (document, ramp) = (asked.answered.rollout.document, asked.answered.ramp);
    let floats = asked.answered.rollout.floats;
    let (flags, bytes) = (&question.flags, question.document.as_slice());
    let stands = match is_left(alloc, flags, request, before) {
        Ok(stands) => stands,
        Err(AllocError) => return Err(out_of_memory()),
    };
    if !stands {
        return Err(Refused {
            refusal: RampRefusal::OtherRule,
            remark: Remark::of(file_line(alloc, document, OTHER_RULE)),
        });
    }
    let (key, site) = (request.flag(), request.site());
    match document_with_rule(alloc, document, ramp, bytes, flags, key, site, rule, floats) {
        Ok(text) => Ok(Some(text)),
        Err(refused) => Err(Refused::of(refused)),
    }
}

/// Whether the answer before left the rule at the site of a request.
pub(crate) fn is_left(
    alloc: Global,
    flags: &Flags,
    request: &Request,
    before: Option<&Planned>,
) -> Result<bool, AllocError>
    ensures { IfOk result (λ b. b ≡ is_left (flags_view flags.now) request.now (option_map (λ p. planned_view p.now) before.entry)) }
{
    match before {
        None => Ok(true),
        Some(Planned::NoneExists(_)) => Ok(false),
        Some(Planned::Emit(rule, _)) => {
            has_rule(alloc, flags, request.flag(), request.site(), rule)
        }
    }
}

/// Puts the text where it goes: to the output, or over the document; `none` where there is no text.
#[tactic(auto, using(crate::proofs::Diagnosed::keep_stored, crate::proofs::Diagnosed::failed_put))]
fn put<F: FileSet>(
    alloc: Global,
    files: &mut F,
    asked: &Keeping<'_>,
    text: Option<Vec<u8>>,
    remark: Option<Remark>,
) -> Result<Outcome, Refused<RampRefusal>>
    ensures exact { IfSome (F.holding files.old) (λ at. GivesOne outcome_view result (Lifts Rollout (IsKeptPut at (F.holding files.new) asked.now.answered.rollout.document.now asked.now.write (is_some remark) (kept_view text)))) }
    ensures failed { F.has_failed files.new ≡ (F.has_failed files.old || is_file_fault result) }
    ensures left { LeavesDocument (F.holding files.old) (F.holding files.new) asked.now.answered.rollout.document.now asked.now.write }
    ensures kept { KeepsUnlessDone (F.holding files.old) (F.holding files.new) result }
    ensures names { Diagnoses (IsOfKeep (keeping_view asked.now)) result }
    ensures remark { IfOk result (λ o. o.remark ≡ remark) }
{
    let document = asked.answered.rollout.document;
    match put_document(alloc, files, document, asked.write, text, remark) {
        Ok(outcome) => Ok(outcome),
        Err(refused) => Err(Refused::of(refused)),
    }
}
