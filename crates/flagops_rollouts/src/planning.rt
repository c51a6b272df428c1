//! The command `plan`: the answer of the planner to a rollout request.
ghost use Rattle.std.specs.Prelude.{◌≡◌, ◌<◌, ◌||◌, [], ◌∷◌, false, true, is_some, Ok, IfOk, IfSome, option_map, string_bytes, unwrap_or};
ghost use Rattle.plan_text.specs.Answer.{IsOrdered, planned_view};
ghost use Rattle.plan_text.specs.PlanFile.{IsWhole};
ghost use Rattle.flagops_rollouts.specs.ByHand.{TellsPlanned, TellsPlannedAt};
ghost use Rattle.flagops_rollouts.specs.Finer.{TellsFinerOf};
ghost use Rattle.flagops_rollouts.specs.Remarks.{TellsPlan, TellsPlanAt};
ghost use Rattle.flagops_rollouts.specs.Plan.{Holds, IsPlanOf, IsPlanReport, IsPlannedOn, MayBePlanned, plan_report, plan_status};
ghost use Rattle.flag_defs.specs.Flags.{flags_view};
ghost use Rattle.flagops_files.specs.Question.{question_view};
ghost use Rattle.flagops_rollouts.specs.Attempts.{TellsOfFirst, plan_attempts};
ghost use Rattle.flagops_rollouts.specs.Calls.{plan_calls, prints_plan};
ghost use Rattle.flagops_rollouts.specs.Refusal.{ComesFrom, GivesOne, GivesUnlessWant, is_file_fault, TellsOfOne};
ghost use Rattle.flagops_shell.specs.Outcomes.{beside};
ghost use Rattle.flagops_shell.specs.Report.{outcome_view, status_number};
ghost use Rattle.flagops_files.specs.Told.{file, word};
ghost use Rattle.flagops_shell.specs.Diagnostic.{Says};
ghost use Rattle.flagops_rollouts.specs.Subjects.{is_of_request, is_of_size, plan_subjects, the_plan};
ghost use Rattle.flagops_rollouts.specs.Doubts.{NamesDoubted, doubt_subjects};
ghost use Rattle.file_diagnostics.specs.Named.{Names};

use crate::doubts::settled;
use crate::explained::told;
use crate::finer::with_points;
use crate::loading::load_question;
use crate::refusal::{Refused, RolloutCall, RolloutRefusal};
use flag_defs::Flags;
use flagops_files::{Evidence, Question};
use flagops_shell::{FileSet, Outcome, Remark, Status};
use flagops_words::{Factor, factor_of};
use plan_text::{Planned, print_planned_line};
use rollout::{RequestFile, RolloutFault, plan_file, plan_file_on_tally};
use rollout_diagnostics::{of_large_plan, of_other_tally, of_rollout};
use std::alloc::{AllocError, Global};
use std::mem;
use std::thread::Threads;

/// The plan file of the rule that meets a request and costs the recorded inputs the least, or of a set of names which
/// shows that no rule meets it, as a line. The status tells which of the two. What is doubted of it is told, or refused
/// where that is asked for; and with `explain` what the rule changes, or what stands in the way of any. That the rule has finer
/// points than its site is told too, where it was planned by a factor above 1. The document may have floats, or may not.
#[tactic(auto, unfolding(crate::specs::Plan::IsPlanReport))]
pub fn plan<R: Threads + Sync, F: FileSet>(
    rt: &R,
    alloc: Global,
    files: &mut F,
    document: &str,
    floats: bool,
    request: &str,
    book: &str,
    refine: Option<Factor>,
    strict: bool,
    explain: bool,
) -> Result<Outcome, Refused>
    ensures exact { IfSome (F.holding files.old) (λ at. GivesOne outcome_view result (IsPlanReport floats at document.now request.now book.now (option_map (λ m. m.number) refine) strict explain)) }
    ensures calls { ComesFrom plan_calls result }
    ensures failed { F.has_failed files.new ≡ (F.has_failed files.old || is_file_fault result) }
    ensures kept { F.holding files.new ≡ F.holding files.old }
    ensures names { TellsOfOne (plan_subjects document.now request.now book.now) result }
    ensures first { IfSome (F.holding files.old) (λ at. TellsOfFirst (plan_attempts floats at document.now request.now book.now) result) }
    ensures notes { IfOk result (λ o. IfSome o.remark (Says (NamesDoubted request.now book.now))) }
    ensures finer { IfOk result (λ o. IfSome o.remark (Says (TellsFinerOf request.now (unwrap_or (option_map (λ m. m.number) refine) 1) o.text.items))) }
    ensures edit { explain ≡ true → IfSome (F.holding files.old) (λ at. IfOk result (λ o. IfSome o.remark (Says (TellsPlannedAt floats at document.now request.now book.now (unwrap_or (option_map (λ m. m.number) refine) 1) o.text.items)))) }
    ensures parts { IfSome (F.holding files.old) (λ at. IfOk result (λ o. TellsPlanAt floats at document.now request.now book.now (unwrap_or (option_map (λ m. m.number) refine) 1) explain o.text.items o.remark)) }
{
    let factor = factor_of(refine);
    let question = load_question(rt, alloc, files, document, floats, request, book, factor)?;
    let outcome = answer(rt, alloc, request, book, &question, refine, strict, explain);
    // The program ends soon, and its memory with it.
    mem::forget(question);
    outcome
}

/// The report on a question, which was loaded from these paths.
#[tactic(auto, using(flagops_files::proofs::Told::says, crate::proofs::Doubting::plan_doubted, crate::proofs::Doubting::plan_told, crate::proofs::Edits::planned))]
pub fn answer(
    rt: &(impl Threads + Sync),
    alloc: Global,
    request: &str,
    book: &str,
    question: &Question,
    refine: Option<Factor>,
    strict: bool,
    explain: bool,
) -> Result<Outcome, Refused>
    ensures exact { GivesOne outcome_view result (IsPlanOf strict explain (option_map (λ m. m.number) refine) (Ok (question_view question.now))) }
    ensures calls { ComesFrom prints_plan result }
    ensures read { is_file_fault result ≡ false }
    ensures names { TellsOfOne ((file request.now, is_of_request) ∷ (word the_plan, is_of_size) ∷ doubt_subjects request.now book.now) result }
    ensures notes { IfOk result (λ o. IfSome o.remark (Says (NamesDoubted request.now book.now))) }
    ensures finer { IfOk result (λ o. IfSome o.remark (Says (TellsFinerOf request.now (unwrap_or (option_map (λ m. m.number) refine) 1) o.text.items))) }
    ensures edit { explain ≡ true → IfOk result (λ o. IfSome o.remark (Says (TellsPlanned request.now (question_view question.now) (unwrap_or (option_map (λ m. m.number) refine) 1) o.text.items))) }
    ensures parts { IfOk result (λ o. TellsPlan request.now book.now (question_view question.now) (unwrap_or (option_map (λ m. m.number) refine) 1) explain o.text.items o.remark) }
{
    let planned = match planned(rt, alloc, question, refine) {
        Ok(planned) => planned,
        Err(fault) => {
            let lines = lines_on_request(alloc, request, book, question, refine, fault);
            return Err(Refused {
                refusal: RolloutRefusal::Plan(fault),
                remark: Remark::of(lines),
            });
        }
    };
    let noted = settled(
        rt,
        alloc,
        RolloutCall::Plan,
        request,
        book,
        question,
        strict,
    )?;
    let words = told(
        rt, alloc, request, book, question, &planned, refine, explain, noted,
    );
    let remark = with_points(alloc, request, factor_of(refine), &planned, words);
    let outcome = printed(alloc, &planned, remark);
    // The program ends soon, and its memory with it.
    mem::forget(planned);
    outcome
}

/// What is planned, on the site's rule refined by the factor where one is given.
fn planned(
    rt: &(impl Threads + Sync),
    alloc: Global,
    question: &Question,
    refine: Option<Factor>,
) -> Result<Planned, RolloutFault>
    ensures { MayBePlanned (option_map (λ m. m.number) refine) (question_view question.now) result }
{
    let (flags, request) = (&question.flags, &question.request);
    planned_on(
        rt,
        alloc,
        flags,
        request,
        &question.evidence,
        factor_of(refine),
    )
}

/// The same over what was recorded, by a factor from 1.
fn planned_on(
    rt: &(impl Threads + Sync),
    alloc: Global,
    flags: &Flags,
    request: &RequestFile,
    evidence: &Evidence,
    factor: u32,
) -> Result<Planned, RolloutFault>
    requires { 0 < factor }
    ensures answers { IsPlannedOn factor (flags_view flags.now) request.now evidence.now result }
    ensures ordered { IfOk result (λ p. IsOrdered (planned_view p)) }
    ensures whole { IfOk result (λ p. IsWhole (planned_view p)) }
{
    match evidence {
        Evidence::Book(book) => plan_file(rt, alloc, flags, request, book, factor),
        Evidence::Tally(tally) => plan_file_on_tally(alloc, flags, request, tally, factor),
    }
}

/// What a person is told of a request that is refused over what was recorded in the file at a path.
pub(crate) fn lines_on_request(
    alloc: Global,
    path: &str,
    recorded: &str,
    question: &Question,
    refine: Option<Factor>,
    fault: RolloutFault,
) -> Result<String, AllocError>
    ensures { IfOk result (λ s. Names path.now (string_bytes s)) }
{
    let (flags, asked) = (&question.flags, &question.request);
    match &question.evidence {
        Evidence::Tally(tally) if fault == RolloutFault::OtherTally => {
            of_other_tally(alloc, path, flags, asked, recorded, tally)
        }
        _ => of_rollout(alloc, path, flags, asked, factor_of(refine), fault),
    }
}

#[tactic(auto, using(flagops_files::proofs::Told::says))]
fn printed(alloc: Global, planned: &Planned, remark: Option<Remark>) -> Result<Outcome, Refused>
    requires ordered { IsOrdered (planned_view planned.now) }
    requires whole { IsWhole (planned_view planned.now) }
    ensures exact { GivesUnlessWant outcome_view result (beside (is_some remark) (plan_report (planned_view planned.now))) }
    ensures reads_back { IfOk result (λ o. Holds (planned_view planned.now) o.text.items) }
    ensures calls { ComesFrom prints_plan result }
    ensures read { is_file_fault result ≡ false }
    ensures names { TellsOfOne ((word the_plan, is_of_size) ∷ []) result }
    ensures remark { IfOk result (λ o. o.remark ≡ remark) }
{
    match print_planned_line(alloc, planned) {
        Ok(text) => Ok(Outcome {
            text,
            status: status_of(planned),
            remark,
        }),
        Err(fault) => Err(Refused {
            refusal: RolloutRefusal::PrintPlanned(fault),
            remark: Remark::of(of_large_plan(alloc)),
        }),
    }
}

fn status_of(planned: &Planned) -> Status
    ensures { status_number result ≡ plan_status (planned_view planned.now) }
{
    match planned {
        Planned::Emit(_, _) => Status::Done,
        Planned::NoneExists(_) => Status::NoneExists,
    }
}
