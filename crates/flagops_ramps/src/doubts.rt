//! What is doubted of answers to steps: a person is told, and `--strict` refuses it.
ghost use Rattle.std.specs.Prelude.{◌≡◌, List, ℕ, false, is_some, option_map, IfOk, IfSome};
ghost use Rattle.flag_text.specs.Reading.{tree_of};
ghost use Rattle.flag_text.specs.View.{members_view, view};
ghost use Rattle.flagops_files.specs.Loading.{max_text};
ghost use Rattle.flagops_rollouts.specs.Doubts.{NamesDoubt, NamesDoubted, first_doubt};
ghost use Rattle.flagops_files.specs.Question.{question_view};
ghost use Rattle.flagops_rollouts.specs.Beside.{AreBoth, Tells};
ghost use Rattle.flagops_ramps.specs.Doubts.{doubt_of_steps, doubt_parts_of_steps, first_request, has_unread, has_unread_member, if_read, is_read, is_unread, settle, steps_parts};
ghost use Rattle.flagops_ramps.specs.Report.{GivesUnlessWant, is_file_fault};
ghost use Rattle.flagops_ramps.specs.Diagnostics.{Diagnoses, IsOfDoubted};
ghost use Rattle.file_diagnostics.specs.Named.{Names};
ghost use Rattle.flagops_shell.specs.Diagnostic.{Says};
ghost use Rattle.ramp.specs.Steps.{requests_view};

use crate::asked::Ramping;
use crate::judging::out_of_memory;
use crate::refusal::{RampRefusal, StepCall};
use file_diagnostics::of_unread;
use flag_text::{TextFault, Tree, read_tree};
use flagops_files::{Question, TEXT_LIMIT};
use flagops_rollouts::{
    Doubt, NotedDoubt, doubt_in_evidence, joined, remark_in, repeated, with_more,
};
use flagops_shell::{Refused, Remark};
use member_names::Reader;
use std::alloc::{AllocError, Global};
use std::thread::Threads;

/// What a person is told beside the answers to the steps of a question, which was loaded for what is asked; or that the call
/// refuses them, where they are doubted and that is to be refused.
pub(crate) fn settled<R: Threads>(
    rt: &R,
    alloc: Global,
    call: StepCall,
    asked: &Ramping<'_>,
    question: &Question,
    steps: &[Vec<u8>],
) -> Result<Option<Remark>, Refused<RampRefusal>>
    ensures exact { GivesUnlessWant (λ r. is_some r) result (settle call asked.now.strict (doubt_of_steps (question_view question.now) (requests_view steps.now))) }
    ensures read { is_file_fault result ≡ false }
    ensures names { Diagnoses (IsOfDoubted asked.now.steps.now asked.now.book.now) result }
    ensures notes { IfOk result (λ r. IfSome r (Says (NamesDoubted asked.now.steps.now asked.now.book.now))) }
    ensures parts { IfOk result (Tells (doubt_parts_of_steps asked.now.steps.now asked.now.book.now (question_view question.now) (requests_view steps.now))) }
{
    match doubted(rt, alloc, asked, question, steps) {
        Ok(doubted) => settle(call, asked, doubted),
        Err(AllocError) => Err(out_of_memory()),
    }
}

/// The remark on a doubt, or its refusal.
#[tactic(auto, using(crate::proofs::Diagnosed::doubt_said))]
fn settle(
    call: StepCall,
    asked: &Ramping<'_>,
    doubted: Option<NotedDoubt>,
) -> Result<Option<Remark>, Refused<RampRefusal>>
    requires { IfSome doubted (λ d. Says (NamesDoubt asked.now.steps.now asked.now.book.now d.doubt) d.remark) }
    ensures exact { GivesUnlessWant (λ r. is_some r) result (settle call asked.now.strict (option_map (λ d. d.doubt) doubted)) }
    ensures read { is_file_fault result ≡ false }
    ensures names { Diagnoses (IsOfDoubted asked.now.steps.now asked.now.book.now) result }
    ensures notes { IfOk result (λ r. IfSome r (Says (NamesDoubted asked.now.steps.now asked.now.book.now))) }
    ensures remark { IfOk result (λ r. r ≡ option_map (λ d. d.remark) doubted) }
{
    match doubted {
        Some(NotedDoubt { doubt, remark }) => if asked.strict {
            Err(Refused {
                refusal: RampRefusal::Doubted(call, doubt),
                remark,
            })
        } else {
            Ok(Some(remark))
        },
        None => Ok(None),
    }
}

/// The first that is doubted of the answers to steps; all that is doubted is told.
#[tactic(auto, using(crate::proofs::Diagnosed::for_request))]
pub fn doubted<R: Threads>(
    rt: &R,
    alloc: Global,
    asked: &Ramping<'_>,
    question: &Question,
    steps: &[Vec<u8>],
) -> Result<Option<NotedDoubt>, AllocError>
    ensures doubt { IfOk result (λ o. option_map (λ d. d.doubt) o ≡ doubt_of_steps (question_view question.now) (requests_view steps.now)) }
    ensures notes { IfOk result (λ o. IfSome o (λ d. Says (NamesDoubt asked.now.steps.now asked.now.book.now d.doubt) d.remark)) }
    ensures parts { IfOk result (λ o. Tells (doubt_parts_of_steps asked.now.steps.now asked.now.book.now (question_view question.now) (requests_view steps.now)) (option_map (λ d. d.remark) o)) }
{
    let unread = unread(alloc, asked.steps, question.request.bytes())?;
    let (flags, evidence) = (&question.flags, &question.evidence);
    let request = first_request(steps);
    let recorded = doubt_in_evidence(rt, alloc, asked.book, flags, request, evidence)?;
    Ok(first_of(unread, recorded))
}

/// The first of two doubts, with what is told of both.
pub fn first_of(unread: Option<Remark>, recorded: Option<NotedDoubt>) -> Option<NotedDoubt>
    ensures doubt { option_map (λ d. d.doubt) result ≡ first_doubt (is_some unread) (option_map (λ d. d.doubt) recorded) }
    ensures notes { (request book : List ℕ) → IfSome unread (Says (Names request)) → IfSome recorded (λ d. Says (NamesDoubt request book d.doubt) d.remark) → IfSome result (λ d. Says (NamesDoubt request book d.doubt) d.remark) }
    ensures both { AreBoth unread (option_map (λ d. d.remark) recorded) (option_map (λ d. d.remark) result) }
{
    match unread {
        Some(remark) => Some(NotedDoubt {
            doubt: Doubt::Unread,
            remark: joined(remark, remark_in(recorded)),
        }),
        None => recorded,
    }
}

/// The request of the first step.
pub(crate) fn first_request(steps: &[Vec<u8>]) -> &[u8]
    ensures { result.now ≡ first_request (requests_view steps.now) }
{
    match steps.first() {
        Some(request) => request.as_slice(),
        None => &[],
    }
}

/// What is told of members of a file of steps that are not read, where there are any.
fn unread(alloc: Global, path: &str, bytes: &[u8]) -> Result<Option<Remark>, AllocError>
    ensures unread { IfOk result (λ r. is_some r ≡ is_unread bytes.now) }
    ensures notes { IfOk result (λ r. IfSome r (Says (Names path.now))) }
    ensures parts { IfOk result (Tells (steps_parts path.now bytes.now)) }
{
    let unread = unread_member(alloc, path, bytes)?;
    let repeated = repeated(alloc, path, bytes)?;
    Ok(with_more(path, unread, repeated))
}

/// The same of members by their names alone.
fn unread_member(alloc: Global, path: &str, bytes: &[u8]) -> Result<Option<Remark>, AllocError>
    ensures unread { IfOk result (λ r. is_some r ≡ if_read (tree_of bytes.now max_text)) }
    ensures notes { IfOk result (λ r. IfSome r (Says (Names path.now))) }
{
    match read_tree(alloc, bytes, TEXT_LIMIT as usize) {
        Ok(tree) => unread_in(alloc, path, tree),
        Err(TextFault::WantOfMemory) => Err(AllocError),
        Err(_) => Ok(None),
    }
}

fn unread_in(alloc: Global, path: &str, tree: Tree) -> Result<Option<Remark>, AllocError>
    ensures unread { IfOk result (λ r. is_some r ≡ has_unread (view tree)) }
    ensures notes { IfOk result (λ r. IfSome r (Says (Names path.now))) }
{
    match tree {
        Tree::Object(members) => unread_among(alloc, path, members),
        _ => Ok(None),
    }
}

#[tactic(auto, using(flagops_files::proofs::Told::says))]
fn unread_among(
    alloc: Global,
    path: &str,
    members: Vec<(String, Tree)>,
) -> Result<Option<Remark>, AllocError>
    ensures unread { IfOk result (λ r. is_some r ≡ has_unread_member (members_view members.items)) }
    ensures notes { IfOk result (λ r. IfSome r (Says (Names path.now))) }
{
    if !has_unread(members.as_slice()) {
        return Ok(None);
    }
    let others = Tree::Object(without_steps(alloc, members)?);
    let lines = of_unread(alloc, path, &others, Reader::Request);
    Ok(Some(Remark::of(lines)))
}

/// Whether one of these members is not read.
fn has_unread(members: &[(String, Tree)]) -> bool
    ensures { result ≡ has_unread_member (members_view members.now) }
{
    for (name, _) in members {
        if !is_read(name.as_str()) {
            return true;
        }
    }
    false
}

fn is_read(name: &str) -> bool
    ensures { result ≡ is_read name.now }
{
    Reader::Request.reads(name) || name == "steps"
}

/// The members that a request may have too.
fn without_steps(
    alloc: Global,
    members: Vec<(String, Tree)>,
) -> Result<Vec<(String, Tree)>, AllocError> {
    let mut others = Vec::with_capacity(alloc, members.len())?;
    for (name, member) in members {
        if name.as_str() != "steps" {
            others.push((name, member))?;
        }
    }
    Ok(others)
}
