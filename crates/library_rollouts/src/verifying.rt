//! Whether an answer is right, whoever made it.
ghost use Rattle.std.specs.Prelude.{◌≡◌, ◌<◌, ◌≤◌, false, length, IsErrOf};
ghost use Rattle.std.specs.Str.{is_utf8};
ghost use Rattle.flag_defs.specs.Document.{max_bytes};
ghost use Rattle.flag_defs.specs.Flags.{flags_view};
ghost use Rattle.flag_defs.specs.declared.fault.DefFault.TheVariants as fault;
ghost use Rattle.plan_text.specs.Answer.{planned_view};
ghost use Rattle.library_rollouts.specs.Verify.{IsVerdict, IsVerdictOn};
ghost use Rattle.library_rollouts.specs.View.{right_view};
ghost use Rattle.library_rollouts.specs.Writing.{Makes};
ghost use Rattle.library_rollouts.specs.declared.refusal.RolloutRefusal.TheVariants as refusal;

use crate::refusal::RolloutRefusal;
use flag_defs::{Flags, read_flags};
use note_tallies::{PageTally, read_tally};
use plan_text::{Planned, read_planned};
use rollout::verify_tally;
use std::alloc::Global;

/// Checks that the answer of a plan file is right for a request over a tally. Its rule may stand on the site's rule refined, and
/// the tally then has as many points.
///
/// The refusals come in the order of the document, the tally, the plan file, the request, and the check.
pub fn verify(
    alloc: Global,
    document: &[u8],
    request: &[u8],
    tally: &[u8],
    plan: &[u8],
) -> Result<(), RolloutRefusal>
    ensures verdict { Makes right_view (IsVerdict document.now request.now tally.now plan.now) result }
    // these need no memory
    ensures large { max_bytes < length document.now → IsErrOf result (refusal.Document fault.TooLarge) }
    ensures no_text { length document.now ≤ max_bytes → is_utf8 document.now ≡ false → IsErrOf result (refusal.Document fault.NotJson) }
{
    let flags = read_flags(alloc, document)?;
    let tally = read_tally(alloc, tally)?;
    let planned = read_planned(alloc, plan)?;
    verdict_on(alloc, &flags, request, &tally, &planned)
}

/// The same of what was read.
fn verdict_on(
    alloc: Global,
    flags: &Flags,
    request: &[u8],
    tally: &PageTally,
    planned: &Planned,
) -> Result<(), RolloutRefusal>
    ensures { Makes right_view (IsVerdictOn request.now (flags_view flags.now) tally.now (planned_view planned.now)) result }
{
    verify_tally(alloc, flags, request, tally, planned)?;
    Ok(())
}
