//! The command `apply --keep`: a document with the rule of a plan file at the site of its request, and all else as it was.
ghost use Rattle.std.specs.Prelude.{◌≡◌, ◌||◌, [], ◌∷◌, false, is_some, IfErr, IfOk, IfSome, Ok, Some, option_map, string_bytes};
ghost use Rattle.plan_text.specs.Answer.{planned_view};
ghost use Rattle.flagops_rollouts.specs.Apply.{none_report};
ghost use Rattle.flagops_rollouts.specs.Attempts.{TellsOfFirst, keep_attempts};
ghost use Rattle.flagops_rollouts.specs.Calls.{apply_itself, keep_calls, puts_document};
ghost use Rattle.flagops_shell.specs.Ending.{KeepsUnlessDone};
ghost use Rattle.flagops_rollouts.specs.Beside.{Tells, noted_with};
ghost use Rattle.flagops_rollouts.specs.Keep.{IsKeepReport, IsKeepWith, IsKeptPut, IsWritten, LeavesDocument, is_finer_there, kept_view, written_text};
ghost use Rattle.flagops_rollouts.specs.Subjects.{is_of_kept_answer, is_of_kept_document, is_of_kept_request, keep_subjects};
ghost use Rattle.flagops_rollouts.specs.Doubts.{NamesDoubted, doubt_of, doubt_subjects, settle};
ghost use Rattle.flagops_rollouts.specs.Remarks.{TellsKeptAt, keep_parts};
ghost use Rattle.flagops_shell.specs.Files.{KeepsOthers};
ghost use Rattle.flagops_files.specs.Question.{question_view};
ghost use Rattle.flagops_rollouts.specs.Refusal.{ComesFrom, GivesOne, GivesUnlessWant, call_of, is_file_fault, TellsOfOne};
ghost use Rattle.flagops_shell.specs.Outcomes.{beside};
ghost use Rattle.flagops_shell.specs.Report.{outcome_view};
ghost use Rattle.flagops_files.specs.Told.{file};
ghost use Rattle.flagops_shell.specs.Diagnostic.{Says};
ghost use Rattle.flagops_rollouts.specs.declared.refusal.RolloutCall.TheVariants.{Apply};
ghost use Rattle.flagops_rollouts.specs.declared.refusal.RolloutRefusal.TheVariants.{WantOfMemory};

use crate::doubts::settled;
use crate::finer::{times_asked, with_points};
use crate::kept::kept;
use crate::loading::{load_planned, load_question, store};
use crate::refusal::{Refused, RolloutCall, out_of_memory};
use crate::verifying::Paths;
use flagops_files::Question;
use flagops_shell::{FileSet, Outcome, Remark, Status};
use flagops_words::{Factor, factor_of};
use plan_text::Planned;
use std::alloc::{AllocError, Global};
use std::thread::Threads;

/// The document with the rule of a plan file, where `verify` tells that it is right, at the site of the request; or the
/// number of its bytes, once they were written over the document. `none` where the plan has no rule. What is doubted of it is told, or
/// refused where that is asked for; that the rule has finer points than the one that stood there is told too. The document may
/// have floats, or may not.
#[tactic(auto, unfolding(crate::specs::Keep::IsKeepReport))]
pub fn keep<R: Threads + Sync, F: FileSet>(
    rt: &R,
    alloc: Global,
    files: &mut F,
    document: &str,
    floats: bool,
    plan: &str,
    request: &str,
    book: &str,
    write: bool,
    refine: Option<Factor>,
    strict: bool,
) -> Result<Outcome, Refused>
    ensures exact { IfSome (F.holding files.old) (λ at. GivesOne outcome_view result (IsKeepReport floats at (F.holding files.new) document.now plan.now request.now book.now write (option_map (λ m. m.number) refine) strict)) }
    ensures calls { ComesFrom keep_calls result }
    ensures failed { F.has_failed files.new ≡ (F.has_failed files.old || is_file_fault result) }
    ensures left { LeavesDocument (F.holding files.old) (F.holding files.new) document.now write }
    ensures kept { KeepsUnlessDone (F.holding files.old) (F.holding files.new) result }
    ensures names { TellsOfOne (keep_subjects document.now plan.now request.now book.now) result }
    ensures first { IfSome (F.holding files.old) (λ at. TellsOfFirst (keep_attempts floats at document.now plan.now request.now book.now) result) }
    ensures notes { IfOk result (λ o. IfSome o.remark (Says (NamesDoubted request.now book.now))) }
    ensures parts { IfSome (F.holding files.old) (λ at. IfOk result (λ o. TellsKeptAt floats at document.now plan.now request.now book.now o.remark)) }
{
    let factor = factor_of(refine);
    let question = load_question(rt, alloc, files, document, floats, request, book, factor)?;
    let planned = load_planned(alloc, files, plan)?;
    let paths = Paths {
        request,
        book,
        plan,
    };
    answer(
        rt, alloc, files, document, floats, write, paths, &question, &planned, refine, strict,
    )
}

/// The report on an answer to a question, whose document was loaded from a path.
fn answer<F: FileSet>(
    rt: &(impl Threads + Sync),
    alloc: Global,
    files: &mut F,
    document: &str,
    floats: bool,
    write: bool,
    paths: Paths<'_>,
    question: &Question,
    planned: &Planned,
    refine: Option<Factor>,
    strict: bool,
) -> Result<Outcome, Refused>
    ensures exact { IfSome (F.holding files.old) (λ at. GivesOne outcome_view result (IsKeepWith floats at (F.holding files.new) document.now write strict (option_map (λ m. m.number) refine) question.now.document.items (question_view question.now) (planned_view planned.now))) }
    ensures calls { ComesFrom puts_document result }
    ensures failed { F.has_failed files.new ≡ (F.has_failed files.old || is_file_fault result) }
    ensures left { LeavesDocument (F.holding files.old) (F.holding files.new) document.now write }
    ensures kept { KeepsUnlessDone (F.holding files.old) (F.holding files.new) result }
    ensures names { TellsOfOne ((file paths.entry.request.now, is_of_kept_request) ∷ (file paths.entry.plan.now, is_of_kept_answer) ∷ (file document.now, is_of_kept_document) ∷ doubt_subjects paths.entry.request.now paths.entry.book.now) result }
    ensures notes { IfOk result (λ o. IfSome o.remark (Says (NamesDoubted paths.entry.request.now paths.entry.book.now))) }
    ensures parts { IfOk result (λ o. Tells (keep_parts paths.entry.request.now paths.entry.book.now (question_view question.now) (planned_view planned.now)) o.remark) }
{
    let text = kept(
        rt, alloc, document, paths, question, planned, refine, floats,
    )?;
    let (request, book) = (paths.request, paths.book);
    let remark = noted(rt, alloc, request, book, question, planned, strict)?;
    put(alloc, files, document, write, text, remark)
}

/// What a person is told beside a document with the rule of an answer: what is doubted of it, and that the rule has finer points than
/// the one that stood there; or that the first is refused.
fn noted(
    rt: &(impl Threads + Sync),
    alloc: Global,
    request: &str,
    book: &str,
    question: &Question,
    planned: &Planned,
    strict: bool,
) -> Result<Option<Remark>, Refused>
    ensures exact { GivesUnlessWant (λ r. is_some r) result (noted_with (is_finer_there (question_view question.now) (planned_view planned.now)) (settle Apply strict (doubt_of (question_view question.now)))) }
    ensures calls { IfErr result (λ r. call_of r.refusal ≡ Apply) }
    ensures read { is_file_fault result ≡ false }
    ensures names { TellsOfOne (doubt_subjects request.now book.now) result }
    ensures notes { IfOk result (λ r. IfSome r (Says (NamesDoubted request.now book.now))) }
    ensures parts { IfOk result (Tells (keep_parts request.now book.now (question_view question.now) (planned_view planned.now))) }
{
    let call = RolloutCall::Apply;
    let doubted = settled(rt, alloc, call, request, book, question, strict)?;
    match times_asked(alloc, &question.flags, question.request.bytes(), planned) {
        Ok(factor) => Ok(with_points(alloc, request, factor, planned, doubted)),
        Err(AllocError) => Err(out_of_memory(call)),
    }
}

/// Puts the text where it goes: to the output, or over the document; `none` where there is no text.
pub fn put<F: FileSet>(
    alloc: Global,
    files: &mut F,
    document: &str,
    write: bool,
    text: Option<Vec<u8>>,
    remark: Option<Remark>,
) -> Result<Outcome, Refused>
    ensures exact { IfSome (F.holding files.old) (λ at. GivesOne outcome_view result (IsKeptPut at (F.holding files.new) document.now write (is_some remark) (kept_view text))) }
    ensures calls { ComesFrom puts_document result }
    ensures failed { F.has_failed files.new ≡ (F.has_failed files.old || is_file_fault result) }
    ensures left { LeavesDocument (F.holding files.old) (F.holding files.new) document.now write }
    ensures kept { KeepsUnlessDone (F.holding files.old) (F.holding files.new) result }
    ensures names { TellsOfOne ((file document.now, is_of_kept_document) ∷ []) result }
    ensures remark { IfOk result (λ o. o.remark ≡ remark) }
{
    match text {
        None => none(alloc, remark),
        Some(text) => if write {
            written(alloc, files, document, text.as_slice(), remark)
        } else {
            Ok(Outcome {
                text,
                status: Status::Done,
                remark,
            })
        },
    }
}

/// The report of a plan without a rule.
fn none(alloc: Global, remark: Option<Remark>) -> Result<Outcome, Refused>
    ensures exact { GivesUnlessWant outcome_view result (beside (is_some remark) (Ok none_report)) }
    ensures calls { ComesFrom apply_itself result }
    ensures read { is_file_fault result ≡ false }
    ensures wants { IfErr result (λ r. r.refusal ≡ WantOfMemory Apply) }
    ensures remark { IfOk result (λ o. o.remark ≡ remark) }
{
    match Vec::from_slice(alloc, b"none\n") {
        Ok(text) => Ok(Outcome {
            text,
            status: Status::NoneExists,
            remark,
        }),
        Err(AllocError) => Err(out_of_memory(RolloutCall::Apply)),
    }
}

/// Writes the text over the document, and reports the number of its bytes.
fn written<F: FileSet>(
    alloc: Global,
    files: &mut F,
    document: &str,
    text: &[u8],
    remark: Option<Remark>,
) -> Result<Outcome, Refused>
    ensures exact { IfSome (F.holding files.old) (λ at. GivesOne outcome_view result (IsWritten at (F.holding files.new) document.now (is_some remark) text.now)) }
    ensures calls { ComesFrom puts_document result }
    ensures failed { F.has_failed files.new ≡ (F.has_failed files.old || is_file_fault result) }
    ensures others { KeepsOthers (F.holding files.old) (F.holding files.new) document.now }
    ensures kept { KeepsUnlessDone (F.holding files.old) (F.holding files.new) result }
    ensures names { TellsOfOne ((file document.now, is_of_kept_document) ∷ []) result }
    ensures remark { IfOk result (λ o. o.remark ≡ remark) }
{
    // The report is made first, so that what was written is reported.
    let line = written_line(alloc, text.len())?;
    store(alloc, files, document, text)?;
    Ok(Outcome {
        text: line.into_bytes(),
        status: Status::Done,
        remark,
    })
}

fn written_line(alloc: Global, count: usize) -> Result<String, Refused>
    ensures exact { IfOk result (λ s. string_bytes s ≡ written_text count) }
    ensures wants { IfErr result (λ r. r.refusal ≡ WantOfMemory Apply) }
{
    match written_text(alloc, count) {
        Ok(line) => Ok(line),
        Err(AllocError) => Err(out_of_memory(RolloutCall::Apply)),
    }
}

#[tactic(auto, unfolding(crate::specs::Keep::written_text))]
fn written_text(alloc: Global, count: usize) -> Result<String, AllocError>
    ensures { IfOk result (λ s. string_bytes s ≡ written_text count) }
{
    format!(in alloc; "written {count}\n")
}
