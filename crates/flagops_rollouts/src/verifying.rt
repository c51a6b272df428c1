//! The command `verify`: whether the answer of a plan file is right.
ghost use Rattle.std.specs.Prelude.{◌≡◌, ◌<◌, ◌||◌, [], ◌∷◌, false, is_some, Ok, IfOk, IfSome, OnOk, option_map, string_bytes};
ghost use Rattle.flag_defs.specs.Flags.{flags_view};
ghost use Rattle.plan_text.specs.Answer.{planned_view};
ghost use Rattle.flagops_files.specs.Question.{question_view};
ghost use Rattle.flagops_rollouts.specs.Attempts.{TellsOfFirst, verify_attempts};
ghost use Rattle.flagops_rollouts.specs.Calls.{verify_calls, verify_itself};
ghost use Rattle.flagops_rollouts.specs.Refusal.{ComesFrom, GivesOne, GivesUnlessWant, is_file_fault, TellsOfOne};
ghost use Rattle.flagops_shell.specs.Outcomes.{beside, done};
ghost use Rattle.flagops_shell.specs.Report.{outcome_view};
ghost use Rattle.flagops_rollouts.specs.Verify.{IsShownOn, IsToldOn, IsVerdict, IsVerifyReport, MayBeTold, valid_as, valid_json, valid_text};
ghost use Rattle.flagops_files.specs.Told.{file};
ghost use Rattle.flagops_shell.specs.Diagnostic.{Says};
ghost use Rattle.flagops_rollouts.specs.Subjects.{NamesVerified, is_of_answer, is_of_request, verify_subjects};
ghost use Rattle.flagops_rollouts.specs.Beside.{Tells};
ghost use Rattle.flagops_rollouts.specs.Doubts.{NamesDoubted, doubt_parts, doubt_subjects};
ghost use Rattle.flagops_rollouts.specs.Remarks.{TellsDoubtsAt};
ghost use Rattle.file_diagnostics.specs.Named.{Names};

use crate::doubts::settled;
use crate::loading::{load_planned, load_question};
use crate::planning::lines_on_request;
use crate::refusal::{Refused, RolloutCall, RolloutRefusal, out_of_memory};
use flag_defs::Flags;
use flagops_files::{Evidence, Question};
use flagops_shell::{FileSet, Outcome, Remark, Status};
use flagops_words::{Factor, factor_of};
use plan_text::Planned;
use rollout::{RequestFile, VerifyFault, verify_file, verify_file_on_tally};
use rollout_diagnostics::of_check;
use std::alloc::{AllocError, Global};
use std::mem;
use std::thread::Threads;

/// What the answer of a plan file proves, where it is right for the request: a line, or with `json` a JSON text. The document may have
/// floats, or may not.
#[tactic(auto, unfolding(crate::specs::Verify::IsVerifyReport))]
pub fn verify<R: Threads + Sync, F: FileSet>(
    rt: &R,
    alloc: Global,
    files: &mut F,
    document: &str,
    floats: bool,
    request: &str,
    book: &str,
    plan: &str,
    refine: Option<Factor>,
    strict: bool,
    json: bool,
) -> Result<Outcome, Refused>
    ensures exact { IfSome (F.holding files.old) (λ at. GivesOne outcome_view result (IsVerifyReport floats at document.now request.now book.now plan.now (option_map (λ m. m.number) refine) strict json)) }
    ensures calls { ComesFrom verify_calls result }
    ensures failed { F.has_failed files.new ≡ (F.has_failed files.old || is_file_fault result) }
    ensures kept { F.holding files.new ≡ F.holding files.old }
    ensures names { TellsOfOne (verify_subjects document.now request.now book.now plan.now) result }
    ensures first { IfSome (F.holding files.old) (λ at. TellsOfFirst (verify_attempts floats at document.now request.now book.now plan.now) result) }
    ensures notes { IfOk result (λ o. IfSome o.remark (Says (NamesDoubted request.now book.now))) }
    ensures parts { IfSome (F.holding files.old) (λ at. IfOk result (λ o. TellsDoubtsAt floats at document.now request.now book.now o.remark)) }
{
    let factor = factor_of(refine);
    let question = load_question(rt, alloc, files, document, floats, request, book, factor)?;
    let planned = load_planned(alloc, files, plan)?;
    let paths = Paths {
        request,
        book,
        plan,
    };
    let outcome = verdict(rt, alloc, paths, &question, &planned, refine, strict, json);
    // The program ends soon, and its memory with it.
    mem::forget((question, planned));
    outcome
}

/// Where what is verified was loaded from.
#[derive(Clone, Copy)]
pub struct Paths<'a> {
    pub request: &'a str,
    pub book: &'a str,
    pub plan: &'a str,
}

/// What is printed of an answer that is right.
#[tactic(auto, using(flagops_files::proofs::Told::says, crate::proofs::Doubting::verdict_doubted, crate::proofs::Doubting::verdict_told))]
fn verdict(
    rt: &(impl Threads + Sync),
    alloc: Global,
    paths: Paths<'_>,
    question: &Question,
    planned: &Planned,
    refine: Option<Factor>,
    strict: bool,
    json: bool,
) -> Result<Outcome, Refused>
    ensures exact { GivesOne outcome_view result (IsVerdict strict json (option_map (λ m. m.number) refine) (Ok (question_view question.now)) (Ok (planned_view planned.now))) }
    ensures calls { ComesFrom verify_itself result }
    ensures read { is_file_fault result ≡ false }
    ensures names { TellsOfOne ((file paths.entry.request.now, is_of_request) ∷ (file paths.entry.plan.now, is_of_answer) ∷ doubt_subjects paths.entry.request.now paths.entry.book.now) result }
    ensures notes { IfOk result (λ o. IfSome o.remark (Says (NamesDoubted paths.entry.request.now paths.entry.book.now))) }
    ensures parts { IfOk result (λ o. Tells (doubt_parts paths.entry.request.now paths.entry.book.now (question_view question.now)) o.remark) }
{
    if let Err(fault) = verified(rt, alloc, question, planned, refine) {
        let lines = lines_on(alloc, paths, question, planned, refine, &fault);
        return Err(Refused {
            refusal: RolloutRefusal::Verify(fault),
            remark: Remark::of(lines),
        });
    }
    let (request, book) = (paths.request, paths.book);
    let remark = settled(
        rt,
        alloc,
        RolloutCall::Verify,
        request,
        book,
        question,
        strict,
    )?;
    valid(alloc, planned, json, remark)
}

/// The report of an answer that is right.
fn valid(
    alloc: Global,
    planned: &Planned,
    json: bool,
    remark: Option<Remark>,
) -> Result<Outcome, Refused>
    ensures exact { GivesUnlessWant outcome_view result (beside (is_some remark) (done (valid_as json (planned_view planned.now)))) }
    ensures calls { ComesFrom verify_itself result }
    ensures read { is_file_fault result ≡ false }
    ensures remark { IfOk result (λ o. o.remark ≡ remark) }
{
    match valid_as(alloc, planned, json) {
        Ok(text) => Ok(Outcome {
            text: text.into_bytes(),
            status: Status::Done,
            remark,
        }),
        Err(AllocError) => Err(out_of_memory(RolloutCall::Verify)),
    }
}

/// What a person is told of an answer that is not right, or of a request that is refused.
pub fn lines_on(
    alloc: Global,
    paths: Paths<'_>,
    question: &Question,
    planned: &Planned,
    refine: Option<Factor>,
    fault: &VerifyFault,
) -> Result<String, AllocError>
    ensures { IfOk result (λ s. NamesVerified paths.entry.request.now paths.entry.plan.now fault.now (string_bytes s)) }
{
    match fault {
        VerifyFault::Request(fault) => {
            lines_on_request(alloc, paths.request, paths.book, question, refine, *fault)
        }
        VerifyFault::Check(fault) => {
            let (flags, request) = (&question.flags, &question.request);
            of_check(alloc, paths.plan, flags, request, planned, fault)
        }
    }
}

/// Whether the answer is right, on the site's rule refined by the factor where one is given.
pub fn verified(
    rt: &(impl Threads + Sync),
    alloc: Global,
    question: &Question,
    planned: &Planned,
    refine: Option<Factor>,
) -> Result<(), VerifyFault>
    ensures { MayBeTold (option_map (λ m. m.number) refine) (question_view question.now) (planned_view planned.now) result }
{
    let (flags, request) = (&question.flags, &question.request);
    let m = match refine {
        Some(m) => Some(m.number),
        None => None,
    };
    verified_on(rt, alloc, flags, request, &question.evidence, planned, m)
}

/// The same over what was recorded. The condition is a factor from 1.
fn verified_on(
    rt: &(impl Threads + Sync),
    alloc: Global,
    flags: &Flags,
    request: &RequestFile,
    evidence: &Evidence,
    planned: &Planned,
    m: Option<u32>,
) -> Result<(), VerifyFault>
    requires { IfSome m (λ m. 0 < m) }
    ensures told { IsToldOn m (planned_view planned.now) (flags_view flags.now) request.now evidence.now result }
    ensures shown { OnOk result (IsShownOn m (planned_view planned.now) (flags_view flags.now) request.now evidence.now) }
{
    match evidence {
        Evidence::Book(book) => verify_file(rt, alloc, flags, request, book, planned, m),
        Evidence::Tally(tally) => verify_file_on_tally(alloc, flags, request, tally, planned, m),
    }
}

/// The line, or with `json` the JSON text.
fn valid_as(alloc: Global, planned: &Planned, json: bool) -> Result<String, AllocError>
    ensures { IfOk result (λ s. string_bytes s ≡ valid_as json (planned_view planned.now)) }
{
    if json {
        valid_json(alloc, planned)
    } else {
        valid_line(alloc, planned)
    }
}

#[tactic(auto, unfolding(crate::specs::Verify::valid_text))]
fn valid_line(alloc: Global, planned: &Planned) -> Result<String, AllocError>
    ensures { IfOk result (λ s. string_bytes s ≡ valid_text (planned_view planned.now)) }
{
    match planned {
        Planned::Emit(_, certificate) => {
            let cost = certificate.cost;
            format!(in alloc; "valid cost {cost}\n")
        }
        Planned::NoneExists(_) => String::from_str(alloc, "valid none\n"),
    }
}

#[tactic(auto, unfolding(crate::specs::Verify::valid_json))]
fn valid_json(alloc: Global, planned: &Planned) -> Result<String, AllocError>
    ensures { IfOk result (λ s. string_bytes s ≡ valid_json (planned_view planned.now)) }
{
    match planned {
        Planned::Emit(_, certificate) => {
            let cost = certificate.cost;
            format!(in alloc; "{{\"cost\":{cost},\"valid\":true}}\n")
        }
        Planned::NoneExists(_) => String::from_str(alloc, "{\"cost\":null,\"valid\":true}\n"),
    }
}
