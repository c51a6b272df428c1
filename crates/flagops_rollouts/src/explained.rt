//! The answer to a request in words: what its rule changes, or what stands in the way of any.
ghost use Rattle.std.specs.Prelude.{◌≡◌, ◌||◌, is_some, option_map, true, unwrap_or, IfOk, IfSome, string_bytes};
ghost use Rattle.bucket_core.specs.Rule.{IsRuleTotal};
ghost use Rattle.flagops_files.specs.Question.{question_view};
ghost use Rattle.flagops_rollouts.specs.Beside.{AreBefore, part_if};
ghost use Rattle.flagops_rollouts.specs.ByHand.{TellsEdit};
ghost use Rattle.flagops_rollouts.specs.Doubts.{NamesDoubted};
ghost use Rattle.flagops_shell.specs.Diagnostic.{Says};
ghost use Rattle.file_diagnostics.specs.Named.{Names};
ghost use Rattle.plan_text.specs.Answer.{planned_view};

use crate::beside::behind;
use crate::by_hand::edit_of;
use crate::recorded::page_asked;
use flagops_files::{Evidence, Question};
use flagops_shell::Remark;
use flagops_words::{Factor, factor_of};
use page_tally::{BookFile, Recorded};
use plan_text::Planned;
use rollout_diagnostics::of_planned;
use std::alloc::{AllocError, Global};
use std::thread::Threads;

/// What a person is told beside an answer to the request of a path: what is noted of it, and before that, where it is asked
/// for, the answer in words.
pub fn told(
    rt: &(impl Threads + Sync),
    alloc: Global,
    request: &str,
    book: &str,
    question: &Question,
    planned: &Planned,
    refine: Option<Factor>,
    explain: bool,
    noted: Option<Remark>,
) -> Option<Remark>
    requires { IfSome noted (Says (NamesDoubted request.now book.now)) }
    ensures told { is_some result ≡ (explain || is_some noted) }
    ensures notes { IfSome result (Says (NamesDoubted request.now book.now)) }
    ensures edit { explain ≡ true → IfSome result (Says (TellsEdit request.now (question_view question.now) (unwrap_or (option_map (λ m. m.number) refine) 1) (planned_view planned.now))) }
    ensures beside { AreBefore (part_if explain (TellsEdit request.now (question_view question.now) (unwrap_or (option_map (λ m. m.number) refine) 1) (planned_view planned.now))) noted result }
{
    if explain {
        let words = explained(rt, alloc, request, question, planned, refine);
        behind(Some(words), noted)
    } else {
        noted
    }
}

/// The answer in words.
#[tactic(auto, using(flagops_files::proofs::Told::says, crate::proofs::Edits::names))]
fn explained(
    rt: &(impl Threads + Sync),
    alloc: Global,
    path: &str,
    question: &Question,
    planned: &Planned,
    refine: Option<Factor>,
) -> Remark
    ensures names { Says (Names path.now) result }
    ensures edit { Says (TellsEdit path.now (question_view question.now) (unwrap_or (option_map (λ m. m.number) refine) 1) (planned_view planned.now)) result }
{
    Remark::of(lines(rt, alloc, path, question, planned, refine))
}

/// The answer in words, and what the edit by hand would switch beside it.
#[tactic(auto, using(crate::proofs::Edits::tells))]
fn lines(
    rt: &(impl Threads + Sync),
    alloc: Global,
    path: &str,
    question: &Question,
    planned: &Planned,
    refine: Option<Factor>,
) -> Result<String, AllocError>
    ensures { IfOk result (λ s. TellsEdit path.now (question_view question.now) (unwrap_or (option_map (λ m. m.number) refine) 1) (planned_view planned.now) (string_bytes s)) }
{
    let mut lines = answer_lines(rt, alloc, path, question, planned, refine)?;
    let edit = edit_of(rt, alloc, question, factor_of(refine), planned)?;
    lines.push_str(edit.as_str())?;
    Ok(lines)
}

fn answer_lines(
    rt: &(impl Threads + Sync),
    alloc: Global,
    path: &str,
    question: &Question,
    planned: &Planned,
    refine: Option<Factor>,
) -> Result<String, AllocError>
    ensures { IfOk result (λ s. Names path.now (string_bytes s)) }
{
    match (planned, &question.evidence) {
        (Planned::Emit(rule, _), Evidence::Book(book)) => {
            let counts = counts(rt, alloc, question, book, rule.total())?;
            words(alloc, path, question, planned, refine, counts.as_slice())
        }
        (_, Evidence::Tally(tally)) => {
            let counts = tally.counts.as_slice();
            words(alloc, path, question, planned, refine, counts)
        }
        _ => words(alloc, path, question, planned, refine, &[]),
    }
}

/// The answer in words, by the number of recorded inputs at each point.
fn words(
    alloc: Global,
    path: &str,
    question: &Question,
    planned: &Planned,
    refine: Option<Factor>,
    counts: &[u32],
) -> Result<String, AllocError>
    ensures { IfOk result (λ s. Names path.now (string_bytes s)) }
{
    let (flags, request) = (&question.flags, &question.request);
    of_planned(
        alloc,
        path,
        flags,
        request,
        factor_of(refine),
        counts,
        planned,
    )
}

/// How many inputs of a book fall on each point.
fn counts(
    rt: &(impl Threads + Sync),
    alloc: Global,
    question: &Question,
    book: &BookFile,
    total: u32,
) -> Result<Vec<u32>, AllocError>
    requires { IsRuleTotal total }
{
    let Ok(request) = question.request.asked() else {
        return Ok(Vec::new(alloc));
    };
    match page_asked(alloc, &question.flags, request)? {
        Some(page) => book.tally(rt, alloc, &page, total),
        None => Ok(Vec::new(alloc)),
    }
}
