//! What is doubted of an answer that is drawn, which a person is told.
ghost use Rattle.std.specs.Prelude.{◌≡◌, is_some, IfOk, IfSome};
ghost use Rattle.flagops_rollouts.specs.Beside.{Tells};
ghost use Rattle.flagops_rollouts.specs.Doubts.{NamesDoubted, doubt_of, doubt_parts};
ghost use Rattle.flagops_shell.specs.Diagnostic.{Says};
ghost use Rattle.flagops_files.specs.Question.{question_view};

use crate::asked::Picturing;
use flagops_files::Question;
use flagops_ramps::first_of;
use flagops_rollouts::{doubt_in_evidence, remark_in, unread_in_file};
use flagops_shell::Remark;
use std::alloc::{AllocError, Global};
use std::thread::Threads;

/// What a person is told beside the picture of an answer to a question.
#[tactic(auto, using(crate::proofs::Diagnosed::for_request, crate::proofs::Diagnosed::noted))]
pub(crate) fn noted<R: Threads>(
    rt: &R,
    alloc: Global,
    asked: &Picturing<'_>,
    question: &Question,
) -> Result<Option<Remark>, AllocError>
    ensures told { IfOk result (λ r. is_some r ≡ is_some (doubt_of (question_view question.now))) }
    ensures notes { IfOk result (λ r. IfSome r (Says (NamesDoubted asked.now.request.now asked.now.book.now))) }
    ensures parts { IfOk result (Tells (doubt_parts asked.now.request.now asked.now.book.now (question_view question.now))) }
{
    let unread = unread_in_file(alloc, asked.request, &question.request)?;
    let (flags, evidence) = (&question.flags, &question.evidence);
    let request = question.request.bytes();
    let recorded = doubt_in_evidence(rt, alloc, asked.book, flags, request, evidence)?;
    Ok(remark_in(first_of(unread, recorded)))
}
