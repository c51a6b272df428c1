//! What is doubted of an answer to a rollout request: a person is told, and `--strict` refuses it.
ghost use Rattle.std.specs.Prelude.{◌≡◌, false, is_some, IfErr, IfOk, IfSome, option_map};
ghost use Rattle.flagops_rollouts.specs.Beside.{AreBoth, Tells};
ghost use Rattle.flagops_rollouts.specs.Doubts.{NamesDoubt, NamesDoubted, doubt_of, doubt_parts, doubt_subjects, first_doubt, settle};
ghost use Rattle.flagops_files.specs.Question.{question_view};
ghost use Rattle.flagops_rollouts.specs.Refusal.{GivesUnlessWant, call_of, is_file_fault, TellsOfOne};
ghost use Rattle.flagops_shell.specs.Diagnostic.{Says};
ghost use Rattle.file_diagnostics.specs.Named.{Names};

use crate::beside::joined;
use crate::passed_over::unread_in_file;
use crate::recorded::doubt_of_recorded;
use crate::refusal::{Doubt, Refused, RolloutCall, RolloutRefusal, out_of_memory};
use flagops_files::Question;
use flagops_shell::Remark;
use std::alloc::{AllocError, Global};
use std::thread::Threads;

/// What is doubted, with what a person is told of it.
#[derive(Debug, Drop)]
pub struct NotedDoubt {
    pub doubt: Doubt,
    pub remark: Remark,
}

/// What a person is told beside the answer to a question, whose request and book were loaded from these paths; or that the
/// answer is refused by this call, where it is doubted and that is to be refused.
pub fn settled<R: Threads>(
    rt: &R,
    alloc: Global,
    call: RolloutCall,
    request: &str,
    book: &str,
    question: &Question,
    strict: bool,
) -> Result<Option<Remark>, Refused>
    ensures exact { GivesUnlessWant (λ r. is_some r) result (settle call strict (doubt_of (question_view question.now))) }
    ensures calls { IfErr result (λ r. call_of r.refusal ≡ call) }
    ensures read { is_file_fault result ≡ false }
    ensures names { TellsOfOne (doubt_subjects request.now book.now) result }
    ensures notes { IfOk result (λ r. IfSome r (Says (NamesDoubted request.now book.now))) }
    ensures parts { IfOk result (Tells (doubt_parts request.now book.now (question_view question.now))) }
{
    match doubted(rt, alloc, request, book, question) {
        Ok(doubted) => settle(call, request, book, doubted, strict),
        Err(AllocError) => Err(out_of_memory(call)),
    }
}

/// The remark on a doubt, or its refusal.
#[tactic(auto, using(crate::proofs::Doubting::said, crate::proofs::Doubting::named))]
fn settle(
    call: RolloutCall,
    request: &str,
    book: &str,
    doubted: Option<NotedDoubt>,
    strict: bool,
) -> Result<Option<Remark>, Refused>
    requires { IfSome doubted (λ d. Says (NamesDoubt request.now book.now d.doubt) d.remark) }
    ensures exact { GivesUnlessWant (λ r. is_some r) result (settle call strict (option_map (λ d. d.doubt) doubted)) }
    ensures calls { IfErr result (λ r. call_of r.refusal ≡ call) }
    ensures read { is_file_fault result ≡ false }
    ensures names { TellsOfOne (doubt_subjects request.now book.now) result }
    ensures notes { IfOk result (λ r. IfSome r (Says (NamesDoubted request.now book.now))) }
    ensures remark { IfOk result (λ r. r ≡ option_map (λ d. d.remark) doubted) }
{
    match doubted {
        Some(NotedDoubt { doubt, remark }) => if strict {
            Err(Refused {
                refusal: RolloutRefusal::Doubted(call, doubt),
                remark,
            })
        } else {
            Ok(Some(remark))
        },
        None => Ok(None),
    }
}

/// The first that is doubted of the answer to a question; all that is doubted is told.
fn doubted<R: Threads>(
    rt: &R,
    alloc: Global,
    request: &str,
    book: &str,
    question: &Question,
) -> Result<Option<NotedDoubt>, AllocError>
    ensures doubt { IfOk result (λ o. option_map (λ d. d.doubt) o ≡ doubt_of (question_view question.now)) }
    ensures notes { IfOk result (λ o. IfSome o (λ d. Says (NamesDoubt request.now book.now d.doubt) d.remark)) }
    ensures parts { IfOk result (λ o. Tells (doubt_parts request.now book.now (question_view question.now)) (option_map (λ d. d.remark) o)) }
{
    let unread = unread_in_file(alloc, request, &question.request)?;
    let recorded = doubt_of_recorded(rt, alloc, book, question)?;
    Ok(first_of(request, book, unread, recorded))
}

/// The first of two doubts, with what is told of both. The paths are what the contract names.
fn first_of(
    request: &str,
    book: &str,
    unread: Option<Remark>,
    recorded: Option<NotedDoubt>,
) -> Option<NotedDoubt>
    requires unread { IfSome unread (Says (Names request.now)) }
    requires recorded { IfSome recorded (λ d. Says (NamesDoubt request.now book.now d.doubt) d.remark) }
    ensures doubt { option_map (λ d. d.doubt) result ≡ first_doubt (is_some unread) (option_map (λ d. d.doubt) recorded) }
    ensures notes { IfSome result (λ d. Says (NamesDoubt request.now book.now d.doubt) d.remark) }
    ensures both { AreBoth unread (option_map (λ d. d.remark) recorded) (option_map (λ d. d.remark) result) }
{
    match unread {
        Some(remark) => Some(NotedDoubt {
            doubt: Doubt::Unread,
            remark: joined(remark, remark_in(recorded)),
        }),
        None => recorded,
    }
}

/// What a person is told of a doubt, where there is one.
pub fn remark_in(noted: Option<NotedDoubt>) -> Option<Remark>
    ensures told { is_some result ≡ is_some (option_map (λ d. d.doubt) noted) }
    ensures remark { result ≡ option_map (λ d. d.remark) noted }
{
    match noted {
        Some(NotedDoubt { remark, .. }) => Some(remark),
        None => None,
    }
}
