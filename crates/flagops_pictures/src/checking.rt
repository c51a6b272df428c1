//! The picture of an answer, where it is right.
ghost use Rattle.std.specs.Prelude.{◌≡◌, ◌<◌, IfSome, OnOk, option_map};
ghost use Rattle.flag_defs.specs.Flags.{flags_view};
ghost use Rattle.flagops_files.specs.Question.{question_view};
ghost use Rattle.flagops_pictures.specs.Pictured.{IsDrawnOrDenied, text_view};
ghost use Rattle.flagops_rollouts.specs.Verify.{IsShownOn, IsToldOn, MayBeTold};
ghost use Rattle.plan_text.specs.Answer.{planned_view};

use crate::drawing::{Asked, drawn};
use flag_defs::Flags;
use flagops_files::{Evidence, Question};
use flagops_words::Factor;
use plan_text::Planned;
use rollout::{RequestFile, RolloutFault, VerifyFault, verify_file, verify_file_on_tally};
use std::alloc::{AllocError, Global};
use std::thread::Threads;

/// The picture of an answer that is right for a question, on the site's rule refined by the factor where one is given; or the
/// refusal of the request or of the check.
pub(crate) fn checked_picture(
    rt: &(impl Threads + Sync),
    alloc: Global,
    question: &Question,
    planned: &Planned,
    refine: Option<Factor>,
) -> Result<String, VerifyFault>
    ensures { IsDrawnOrDenied (option_map (λ m. m.number) refine) (question_view question.now) (planned_view planned.now) (text_view result) }
{
    verified(rt, alloc, question, planned, refine)?;
    let asked = asked_of(question, refine);
    match drawn(rt, alloc, asked, planned) {
        Ok(text) => Ok(text),
        Err(AllocError) => Err(VerifyFault::Request(RolloutFault::WantOfMemory)),
    }
}

/// Whether the answer is right.
fn verified(
    rt: &(impl Threads + Sync),
    alloc: Global,
    question: &Question,
    planned: &Planned,
    refine: Option<Factor>,
) -> Result<(), VerifyFault>
    ensures { MayBeTold (option_map (λ m. m.number) refine) (question_view question.now) (planned_view planned.now) result }
{
    let (flags, request) = (&question.flags, &question.request);
    let m = factor_in(refine);
    verified_on(rt, alloc, flags, request, &question.evidence, planned, m)
}

/// The same over what was recorded. The condition is a factor from 1.
fn verified_on(
    rt: &(impl Threads + Sync),
    alloc: Global,
    flags: &Flags,
    request: &RequestFile,
    evidence: &Evidence,
    planned: &Planned,
    m: Option<u32>,
) -> Result<(), VerifyFault>
    requires { IfSome m (λ m. 0 < m) }
    ensures told { IsToldOn m (planned_view planned.now) (flags_view flags.now) request.now evidence.now result }
    ensures shown { OnOk result (IsShownOn m (planned_view planned.now) (flags_view flags.now) request.now evidence.now) }
{
    match evidence {
        Evidence::Book(book) => verify_file(rt, alloc, flags, request, book, planned, m),
        Evidence::Tally(tally) => verify_file_on_tally(alloc, flags, request, tally, planned, m),
    }
}

/// What a question asks, refined by a factor where one is given.
fn asked_of(question: &Question, refine: Option<Factor>) -> Asked<'_>
    ensures flags { result.flags.now ≡ question.now.flags }
    ensures request { result.request.now ≡ question.now.request }
    ensures evidence { result.evidence.now ≡ question.now.evidence }
    ensures refine { result.refine ≡ option_map (λ m. m.number) refine }
    ensures factor { IfSome result.refine (λ m. 0 < m) }
{
    Asked {
        flags: &question.flags,
        request: question.request.bytes(),
        evidence: &question.evidence,
        refine: factor_in(refine),
    }
}

/// The number of a factor, where one is given.
fn factor_in(refine: Option<Factor>) -> Option<u32>
    ensures number { result ≡ option_map (λ m. m.number) refine }
    ensures factor { IfSome result (λ m. 0 < m) }
{
    match refine {
        Some(m) => Some(m.number),
        None => None,
    }
}
