//! The commands on rollouts, where each refusal is one of the listed commands.
ghost use Rattle.std.specs.Prelude.{◌≡◌, ◌||◌, IfOk, IfSome, option_map, unwrap_or};
ghost use Rattle.file_diagnostics.specs.Named.{Names};
ghost use Rattle.flagops_commands.specs.Attempts.{TellsOfFirst, rolled};
ghost use Rattle.flagops_commands.specs.Refusal.{ComesFrom, GivesOne, is_file_fault, rolls};
ghost use Rattle.flagops_commands.specs.declared.refusal.ListedRefusal.TheVariants.{Rollout};
ghost use Rattle.flagops_rollouts.specs.Apply.{IsApplyReport};
ghost use Rattle.flagops_rollouts.specs.Attempts.{apply_attempts, keep_attempts, plan_attempts, verify_attempts};
ghost use Rattle.flagops_rollouts.specs.Calls.{apply_calls, keep_calls, plan_calls, verify_calls};
ghost use Rattle.flagops_rollouts.specs.Doubts.{NamesDoubted};
ghost use Rattle.flagops_rollouts.specs.Finer.{TellsFinerOf};
ghost use Rattle.flagops_rollouts.specs.Keep.{IsKeepReport, LeavesDocument};
ghost use Rattle.flagops_rollouts.specs.Plan.{IsPlanReport};
ghost use Rattle.flagops_rollouts.specs.Remarks.{TellsAppliedAt, TellsDoubtsAt, TellsKeptAt, TellsPlanAt};
ghost use Rattle.flagops_rollouts.specs.Verify.{IsVerifyReport};
ghost use Rattle.flagops_shell.specs.Diagnostic.{Says};
ghost use Rattle.flagops_shell.specs.Ending.{KeepsUnlessDone};
ghost use Rattle.flagops_shell.specs.Outcomes.{Lifts};
ghost use Rattle.flagops_shell.specs.Report.{outcome_view};

use crate::refusal::Refused;
use flagops_shell::{FileSet, Outcome};
use flagops_words::Factor;
use std::alloc::Global;
use std::thread::Threads;

/// What `plan` answers.
#[tactic(auto, using(crate::proofs::Loaded::rolls_from, crate::proofs::Loaded::failed_rollout))]
pub(crate) fn plan<R: Threads + Sync, F: FileSet>(
    rt: &R,
    alloc: Global,
    files: &mut F,
    document: &str,
    floats: bool,
    request: &str,
    book: &str,
    refine: Option<Factor>,
    strict: bool,
    explain: bool,
) -> Result<Outcome, Refused>
    ensures exact { IfSome (F.holding files.old) (λ at. GivesOne outcome_view result (Lifts Rollout (IsPlanReport floats at document.now request.now book.now (option_map (λ m. m.number) refine) strict explain))) }
    ensures calls { ComesFrom (rolls plan_calls) result }
    ensures failed { F.has_failed files.new ≡ (F.has_failed files.old || is_file_fault result) }
    ensures kept { F.holding files.new ≡ F.holding files.old }
    ensures names { IfSome (F.holding files.old) (λ at. TellsOfFirst (rolled (plan_attempts floats at document.now request.now book.now)) result) }
    ensures notes { IfOk result (λ o. IfSome o.remark (Says (NamesDoubted request.now book.now))) }
    ensures numbers { IfOk result (λ o. IfSome o.remark (Says (TellsFinerOf request.now (unwrap_or (option_map (λ m. m.number) refine) 1) o.text.items))) }
    ensures parts { IfSome (F.holding files.old) (λ at. IfOk result (λ o. TellsPlanAt floats at document.now request.now book.now (unwrap_or (option_map (λ m. m.number) refine) 1) explain o.text.items o.remark)) }
{
    match flagops_rollouts::plan(
        rt, alloc, files, document, floats, request, book, refine, strict, explain,
    ) {
        Ok(outcome) => Ok(outcome),
        Err(refused) => Err(Refused::of(refused)),
    }
}

/// What `verify` answers.
#[tactic(auto, using(crate::proofs::Loaded::rolls_from, crate::proofs::Loaded::failed_rollout))]
pub(crate) fn verify<R: Threads + Sync, F: FileSet>(
    rt: &R,
    alloc: Global,
    files: &mut F,
    document: &str,
    floats: bool,
    request: &str,
    book: &str,
    plan: &str,
    refine: Option<Factor>,
    strict: bool,
    json: bool,
) -> Result<Outcome, Refused>
    ensures exact { IfSome (F.holding files.old) (λ at. GivesOne outcome_view result (Lifts Rollout (IsVerifyReport floats at document.now request.now book.now plan.now (option_map (λ m. m.number) refine) strict json))) }
    ensures calls { ComesFrom (rolls verify_calls) result }
    ensures failed { F.has_failed files.new ≡ (F.has_failed files.old || is_file_fault result) }
    ensures kept { F.holding files.new ≡ F.holding files.old }
    ensures names { IfSome (F.holding files.old) (λ at. TellsOfFirst (rolled (verify_attempts floats at document.now request.now book.now plan.now)) result) }
    ensures notes { IfOk result (λ o. IfSome o.remark (Says (NamesDoubted request.now book.now))) }
    ensures parts { IfSome (F.holding files.old) (λ at. IfOk result (λ o. TellsDoubtsAt floats at document.now request.now book.now o.remark)) }
{
    match flagops_rollouts::verify(
        rt, alloc, files, document, floats, request, book, plan, refine, strict, json,
    ) {
        Ok(outcome) => Ok(outcome),
        Err(refused) => Err(Refused::of(refused)),
    }
}

/// What `apply` answers.
#[tactic(auto, using(crate::proofs::Loaded::rolls_from, crate::proofs::Loaded::failed_rollout))]
pub(crate) fn apply<F: FileSet>(
    alloc: Global,
    files: &mut F,
    document: &str,
    floats: bool,
    plan: &str,
    key: &str,
    site: u32,
    strict: bool,
) -> Result<Outcome, Refused>
    ensures exact { IfSome (F.holding files.old) (λ at. GivesOne outcome_view result (Lifts Rollout (IsApplyReport floats at document.now plan.now key.now site strict))) }
    ensures calls { ComesFrom (rolls apply_calls) result }
    ensures failed { F.has_failed files.new ≡ (F.has_failed files.old || is_file_fault result) }
    ensures kept { F.holding files.new ≡ F.holding files.old }
    ensures names { IfSome (F.holding files.old) (λ at. TellsOfFirst (rolled (apply_attempts floats at document.now plan.now)) result) }
    ensures notes { IfOk result (λ o. IfSome o.remark (Says (Names document.now))) }
    ensures parts { IfSome (F.holding files.old) (λ at. IfOk result (λ o. TellsAppliedAt floats at document.now plan.now key.now site o.remark)) }
{
    match flagops_rollouts::apply(alloc, files, document, floats, plan, key, site, strict) {
        Ok(outcome) => Ok(outcome),
        Err(refused) => Err(Refused::of(refused)),
    }
}

/// What `apply --keep` answers.
#[tactic(auto, using(crate::proofs::Loaded::rolls_from, crate::proofs::Loaded::failed_rollout))]
pub(crate) fn keep<R: Threads + Sync, F: FileSet>(
    rt: &R,
    alloc: Global,
    files: &mut F,
    document: &str,
    floats: bool,
    plan: &str,
    request: &str,
    book: &str,
    write: bool,
    refine: Option<Factor>,
    strict: bool,
) -> Result<Outcome, Refused>
    ensures exact { IfSome (F.holding files.old) (λ at. GivesOne outcome_view result (Lifts Rollout (IsKeepReport floats at (F.holding files.new) document.now plan.now request.now book.now write (option_map (λ m. m.number) refine) strict))) }
    ensures calls { ComesFrom (rolls keep_calls) result }
    ensures failed { F.has_failed files.new ≡ (F.has_failed files.old || is_file_fault result) }
    ensures left { LeavesDocument (F.holding files.old) (F.holding files.new) document.now write }
    ensures kept { KeepsUnlessDone (F.holding files.old) (F.holding files.new) result }
    ensures names { IfSome (F.holding files.old) (λ at. TellsOfFirst (rolled (keep_attempts floats at document.now plan.now request.now book.now)) result) }
    ensures notes { IfOk result (λ o. IfSome o.remark (Says (NamesDoubted request.now book.now))) }
    ensures parts { IfSome (F.holding files.old) (λ at. IfOk result (λ o. TellsKeptAt floats at document.now plan.now request.now book.now o.remark)) }
{
    match flagops_rollouts::keep(
        rt, alloc, files, document, floats, plan, request, book, write, refine, strict,
    ) {
        Ok(outcome) => Ok(outcome),
        Err(refused) => Err(Refused::of(refused)),
    }
}
