//! The plan of a token, applied.
ghost use Rattle.std.specs.Prelude.{Ok, IsErrOf, IsUtf8};
ghost use Rattle.flag_defs.specs.Flags.{flags_view};
ghost use Rattle.note_streams.specs.LogLines.{files_view};
ghost use Rattle.plan_text.specs.Answer.{planned_view};
ghost use Rattle.rollout.specs.CheckedTally.{IsTallyOutcome, tally_problem_of};
ghost use Rattle.rollout.specs.Verified.{refining_for};
ghost use Rattle.control_answers.specs.Apply.{IsApplied, IsAppliedOf, IsAppliedOn, IsApplyAnswer, IsApplyOf, applied_view};
ghost use Rattle.control_answers.specs.Snapshot.{snapshot_view};
ghost use Rattle.control_answers.specs.Target.{target_view};
ghost use Rattle.control_answers.specs.Token.{token_view};
ghost use Rattle.control_answers.specs.Turns.{Gives, OfFiles};
ghost use Rattle.control_answers.specs.declared.refusal.ControlRefusal.TheVariants.{BadToken};

use crate::changing::changed;
use crate::doubting::doubt_of;
use crate::question::{Question, question_of};
use crate::refusal::{ControlRefusal, of_read, of_verdict_of_token};
use crate::snapshot::Snapshot;
use crate::target::Target;
use crate::token::{Token, is_tag_of, token_in};
use note_streams::{LogFile, tally_files};
use note_tallies::PageTally;
use plan_text::{Planned, read_planned};
use rollout::{RequestFile, verify_file_on_tally};
use std::alloc::Global;

/// What is to be written, and what is told of it in the history.
#[derive(Drop)]
pub struct Applied {
    /// The new text of the document.
    pub document: String,
    /// The request of the plan.
    pub request: RequestFile,
    /// The plan.
    pub planned: Planned,
    /// The number of recorded inputs that it was checked on.
    pub inputs: u64,
}

/// What comes of the plan of a token where it is applied to the document of a snapshot: its plan is checked on what log files hold
/// now, and then the document has its rule.
///
/// The refusals come in the order of the token, its document, its plan file, its request, the request's site, the files, the request
/// on their tally, the check, the document with the rule, and what is doubted: a member of the request that is passed over, or that
/// nothing is recorded.
pub fn apply_answer(
    alloc: Global,
    snapshot: &Snapshot<'_>,
    token: &[u8],
    files: &[LogFile<'_>],
) -> Result<Applied, ControlRefusal>
    ensures exact { Gives applied_view (IsApplyAnswer (snapshot_view snapshot.now) token.now (files_view files.now)) result }
    // What is no text is refused without memory.
    ensures no_text { ¬ (IsUtf8 token.now) → IsErrOf result BadToken }
{
    let token = token_in(alloc, token)?;
    if !is_tag_of(alloc, token.document, snapshot.document)? {
        return Err(ControlRefusal::OtherDocument);
    }
    apply_token(alloc, snapshot, &token, files)
}

/// The same of a token of the snapshot's document.
fn apply_token(
    alloc: Global,
    snapshot: &Snapshot<'_>,
    token: &Token<'_>,
    files: &[LogFile<'_>],
) -> Result<Applied, ControlRefusal>
    ensures { Gives applied_view (IsApplyOf (snapshot_view snapshot.now) (token_view token.now) (files_view files.now)) result }
{
    let planned = match read_planned(alloc, token.plan) {
        Ok(planned) => planned,
        Err(fault) => return Err(of_read(fault)),
    };
    apply_planned(alloc, snapshot, token.request, planned, files)
}

/// The same of an answer that was read.
fn apply_planned(
    alloc: Global,
    snapshot: &Snapshot<'_>,
    request: &[u8],
    planned: Planned,
    files: &[LogFile<'_>],
) -> Result<Applied, ControlRefusal>
    ensures { Gives applied_view (IsAppliedOf (snapshot_view snapshot.now) request.now (files_view files.now) (planned_view planned)) result }
{
    let bytes = request.to_vec(alloc)?;
    let Question { request, target } = question_of(alloc, snapshot.flags, bytes)?;
    apply_recorded(alloc, snapshot, request, planned, target, files)
}

/// The same on what is held of a target.
fn apply_recorded(
    alloc: Global,
    snapshot: &Snapshot<'_>,
    request: RequestFile,
    planned: Planned,
    target: Target,
    files: &[LogFile<'_>],
) -> Result<Applied, ControlRefusal>
    ensures { Gives applied_view (OfFiles (files_view files.now) (target_view target) (IsAppliedOn (snapshot_view snapshot.now) request (planned_view planned))) result }
{
    let tally = tally_files(alloc, target.page, target.total, files)?;
    apply_on(alloc, snapshot, request, planned, &tally)
}

/// The same on a tally.
fn apply_on(
    alloc: Global,
    snapshot: &Snapshot<'_>,
    request: RequestFile,
    planned: Planned,
    tally: &PageTally,
) -> Result<Applied, ControlRefusal>
    ensures { Gives applied_view (IsAppliedOn (snapshot_view snapshot.now) request (planned_view planned) tally.now) result }
{
    match verify_file_on_tally(alloc, snapshot.flags, &request, tally, &planned, None) {
        Ok(()) => apply_right(alloc, snapshot, request, planned, tally),
        Err(fault) => Err(of_verdict_of_token(fault)),
    }
}

/// What comes of an answer that is right.
fn apply_right(
    alloc: Global,
    snapshot: &Snapshot<'_>,
    request: RequestFile,
    planned: Planned,
    tally: &PageTally,
) -> Result<Applied, ControlRefusal>
    requires { IsTallyOutcome (tally_problem_of (refining_for (planned_view planned)) (flags_view snapshot.now.flags.now) request tally.now) (planned_view planned) (Ok tt) }
    ensures { Gives applied_view (IsApplied (snapshot_view snapshot.now) request (planned_view planned) tally.now) result }
{
    let document = changed(alloc, snapshot, &request, &planned)?;
    match doubt_of(alloc, &request, tally)? {
        Some(doubt) => Err(doubt),
        None => Ok(Applied {
            document,
            request,
            planned,
            inputs: tally.inputs,
        }),
    }
}
