//! The plan of a request on what is recorded.
ghost use Rattle.std.specs.Prelude.{◌≡◌, ◌<◌, ◌≤◌, ◌++◌, false, length, Ok, OnOk, IfOk, IsErrOf, string_bytes, sum_by};
ghost use Rattle.std.specs.Str.{is_utf8};
ghost use Rattle.flag_defs.specs.Flags.{flags_view};
ghost use Rattle.limits.specs.Limits.{tally_inputs};
ghost use Rattle.note_streams.specs.LogLines.{files_view};
ghost use Rattle.plan_text.specs.Answer.{planned_view};
ghost use Rattle.price_core.specs.Request.{max_request};
ghost use Rattle.rollout.specs.Plan.{IsTallyPlanned};
ghost use Rattle.rollout.specs.CheckedTally.{tally_problem_of};
ghost use Rattle.rollout.specs.declared.refining.Refining.TheVariants.{Times};
ghost use Rattle.rule_switches.specs.Switches.{rows_view};
ghost use Rattle.control_answers.specs.Body.{edit_words, switched_in};
ghost use Rattle.control_answers.specs.Plan.{IsPlanAnswer, IsPlanOn, IsTold};
ghost use Rattle.control_answers.specs.Snapshot.{snapshot_view};
ghost use Rattle.control_answers.specs.Refusal.{bad_request};
ghost use Rattle.control_answers.specs.Target.{target_view};
ghost use Rattle.control_answers.specs.Turns.{Gives, OfFiles};
ghost use Rattle.control_answers.specs.View.{bytes_view, told_view};

use crate::body::{Told, switched_in, told_text};
use crate::changing::changed_if_any;
use crate::question::{Question, question_of};
use crate::refusal::{ControlRefusal, of_printed};
use crate::snapshot::Snapshot;
use crate::target::Target;
use crate::token::token_text;
use crate::{Effect, effect_of, picture_of, posed};
use note_streams::{LogFile, tally_files};
use note_tallies::PageTally;
use plan_text::{Planned, print_planned};
use rollout::{RequestFile, plan_file_on_tally};
use rollout_diagnostics::of_planned;
use std::alloc::{AllocError, Global};

/// The plan of a request on the flags of a snapshot and on what log files hold of the request's page, at the rule's total, as JSON:
/// the plan file, how many of the recorded inputs switch, from which name to which, beside how many the edit that comes to mind
/// first would switch, a picture of that, the document with the new rule, and the token by which the plan is applied.
///
/// The refusals come in the order of the request, its site, the files, the request on their tally, and the size of the plan file.
pub fn plan_answer(
    alloc: Global,
    snapshot: &Snapshot<'_>,
    request: Vec<u8>,
    files: &[LogFile<'_>],
) -> Result<Vec<u8>, ControlRefusal>
    ensures exact { Gives bytes_view (IsPlanAnswer (snapshot_view snapshot.now) request.items (files_view files.now)) result }
    // What is too large for a request or no text is refused without memory.
    ensures large { max_request < length request.items → IsErrOf result bad_request }
    ensures no_text { length request.items ≤ max_request → is_utf8 request.items ≡ false → IsErrOf result bad_request }
{
    let Question { request, target } = question_of(alloc, snapshot.flags, request)?;
    plan_recorded(alloc, snapshot, &request, target, files)
}

/// The same on what is held of a target.
fn plan_recorded(
    alloc: Global,
    snapshot: &Snapshot<'_>,
    request: &RequestFile,
    target: Target,
    files: &[LogFile<'_>],
) -> Result<Vec<u8>, ControlRefusal>
    ensures { Gives bytes_view (OfFiles (files_view files.now) (target_view target) (IsPlanOn (snapshot_view snapshot.now) request.now)) result }
{
    let tally = tally_files(alloc, target.page, target.total, files)?;
    plan_on(alloc, snapshot, request, &tally)
}

/// The same on a tally.
fn plan_on(
    alloc: Global,
    snapshot: &Snapshot<'_>,
    request: &RequestFile,
    tally: &PageTally,
) -> Result<Vec<u8>, ControlRefusal>
    ensures { Gives bytes_view (IsPlanOn (snapshot_view snapshot.now) request.now tally.now) result }
{
    let planned = plan_file_on_tally(alloc, snapshot.flags, request, tally, 1)?;
    let plan = match print_planned(alloc, &planned) {
        Ok(plan) => plan,
        Err(fault) => return Err(of_printed(fault)),
    };
    let told = told_of(alloc, snapshot, request, tally, &planned, plan)?;
    Ok(told_text(alloc, &told)?)
}

/// What is told of a plan that was printed.
fn told_of(
    alloc: Global,
    snapshot: &Snapshot<'_>,
    request: &RequestFile,
    tally: &PageTally,
    planned: &Planned,
    plan: Vec<u8>,
) -> Result<Told, AllocError>
    requires { IsTallyPlanned (tally_problem_of (Times 1) (flags_view snapshot.now.flags.now) request.now tally.now) (Ok planned.now) }
    ensures told { IfOk result (λ t. IsTold (snapshot_view snapshot.now) request.now tally.now (planned_view planned.now) plan.items (told_view t)) }
    ensures few { IfOk result (λ t. sum_by (λ r. r.1) (rows_view t.effect.switches.items) ≤ tally_inputs) }
{
    let flags = snapshot.flags;
    let token = token_text(alloc, snapshot.document, request.bytes(), plan.as_slice())?;
    let document = changed_if_any(alloc, snapshot, request, planned)?;
    let problem = posed(alloc, flags, request, tally, planned)?;
    let effect = effect_of(alloc, &problem, planned)?;
    let picture = picture_of(alloc, &problem, planned)?;
    let counts = tally.counts.as_slice();
    let mut explained = of_planned(alloc, "request", flags, request, 1, counts, planned)?;
    push_edit(&mut explained, tally.inputs, &effect)?;
    Ok(Told {
        snapshot: snapshot.number,
        inputs: tally.inputs,
        plan,
        effect,
        document,
        explained,
        picture,
        token,
    })
}

/// Adds what the edit that comes to mind first would switch, in the words of `plan --explain`.
#[tactic(auto, unfolding(crate::specs::Body::edit_words))]
fn push_edit(out: &mut String, all: u64, effect: &Effect) -> Result<(), AllocError>
    requires { sum_by (λ r. r.1) (rows_view effect.now.switches.items) ≤ tally_inputs }
    ensures { OnOk result (string_bytes out.new ≡ string_bytes out.old ++ edit_words effect.now.by_hand all (switched_in (rows_view effect.now.switches.items))) }
{
    let Some(by_hand) = effect.by_hand else {
        return Ok(());
    };
    let by_plan = switched_in(effect.switches.as_slice());
    write!(
        out,
        "  your edit by hand, each variant in one block, would switch {by_hand} of {all}; this plan switches {by_plan}\n"
    )
}
