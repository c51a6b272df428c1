//! Whether an answer is right on what is recorded.
ghost use Rattle.std.specs.Prelude.{◌≡◌, ◌<◌, ◌≤◌, false, length, IfOk, IsErrOf, string_bytes};
ghost use Rattle.std.specs.Str.{is_utf8};
ghost use Rattle.flag_defs.specs.Flags.{flags_view};
ghost use Rattle.note_streams.specs.LogLines.{files_view};
ghost use Rattle.plan_text.specs.Answer.{planned_view};
ghost use Rattle.plan_text.specs.PlanFile.{max_plan};
ghost use Rattle.plan_text.specs.declared.fault.PlanFileFault.TheVariants.{BadPlan, TooLarge};
ghost use Rattle.control_answers.specs.Check.{IsCheckAnswer, IsVerdictOf, IsVerdictOn, valid_text};
ghost use Rattle.control_answers.specs.Target.{target_view};
ghost use Rattle.control_answers.specs.Turns.{Gives, OfFiles};
ghost use Rattle.control_answers.specs.declared.refusal.ControlRefusal.TheVariants.{ReadPlan};

use crate::question::{Question, question_of};
use crate::refusal::{ControlRefusal, of_read};
use crate::target::Target;
use flag_defs::Flags;
use note_streams::{LogFile, tally_files};
use note_tallies::PageTally;
use plan_text::{Planned, read_planned};
use rollout::{RequestFile, verify_file_on_tally};
use std::alloc::{AllocError, Global};

/// That the answer of a plan file is right on what log files hold, with its cost, as JSON.
///
/// The refusals come in the order of the plan file, the request, its site, the files, the request on their tally, and the check.
pub fn check_answer(
    alloc: Global,
    flags: &Flags,
    request: &[u8],
    plan: &[u8],
    files: &[LogFile<'_>],
) -> Result<String, ControlRefusal>
    ensures exact { Gives string_bytes (IsCheckAnswer (flags_view flags.now) request.now plan.now (files_view files.now)) result }
    // What is too large for a plan file or no text is refused without memory.
    ensures large { max_plan < length plan.now → IsErrOf result (ReadPlan TooLarge) }
    ensures no_text { length plan.now ≤ max_plan → is_utf8 plan.now ≡ false → IsErrOf result (ReadPlan BadPlan) }
{
    let planned = match read_planned(alloc, plan) {
        Ok(planned) => planned,
        Err(fault) => return Err(of_read(fault)),
    };
    check_planned(alloc, flags, request, &planned, files)
}

/// The same of an answer that was read.
fn check_planned(
    alloc: Global,
    flags: &Flags,
    request: &[u8],
    planned: &Planned,
    files: &[LogFile<'_>],
) -> Result<String, ControlRefusal>
    ensures { Gives string_bytes (IsVerdictOf (flags_view flags.now) request.now (files_view files.now) (planned_view planned.now)) result }
{
    let bytes = request.to_vec(alloc)?;
    let Question { request, target } = question_of(alloc, flags, bytes)?;
    check_recorded(alloc, flags, &request, planned, target, files)
}

/// The same on what is held of a target.
fn check_recorded(
    alloc: Global,
    flags: &Flags,
    request: &RequestFile,
    planned: &Planned,
    target: Target,
    files: &[LogFile<'_>],
) -> Result<String, ControlRefusal>
    ensures { Gives string_bytes (OfFiles (files_view files.now) (target_view target) (IsVerdictOn (flags_view flags.now) request.now (planned_view planned.now))) result }
{
    let tally = tally_files(alloc, target.page, target.total, files)?;
    check_on(alloc, flags, request, planned, &tally)
}

/// The same on a tally.
fn check_on(
    alloc: Global,
    flags: &Flags,
    request: &RequestFile,
    planned: &Planned,
    tally: &PageTally,
) -> Result<String, ControlRefusal>
    ensures { Gives string_bytes (IsVerdictOn (flags_view flags.now) request.now (planned_view planned.now) tally.now) result }
{
    verify_file_on_tally(alloc, flags, request, tally, planned, None)?;
    Ok(valid_text(alloc, planned)?)
}

/// What is told of a right answer.
fn valid_text(alloc: Global, planned: &Planned) -> Result<String, AllocError>
    ensures { IfOk result (λ s. string_bytes s ≡ valid_text (planned_view planned.now)) }
{
    match planned {
        Planned::Emit(_, certificate) => {
            let cost = certificate.cost;
            format!(in alloc; "{{\"cost\":{cost},\"valid\":true}}\n")
        }
        Planned::NoneExists(_) => String::from_str(alloc, "{\"cost\":null,\"valid\":true}\n"),
    }
}
