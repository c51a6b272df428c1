//! The answer to a request over a tally.
ghost use Rattle.std.specs.Prelude.{◌≡◌, ◌<◌, ◌≤◌, false, length, IsErrOf};
ghost use Rattle.std.specs.Str.{is_utf8};
ghost use Rattle.flag_defs.specs.Document.{max_bytes};
ghost use Rattle.flag_defs.specs.Flags.{flags_view};
ghost use Rattle.flag_defs.specs.declared.fault.DefFault.TheVariants as fault;
ghost use Rattle.plan_text.specs.Answer.{planned_view};
ghost use Rattle.library_rollouts.specs.Plan.{IsPlan, IsPlanOn, has_rule};
ghost use Rattle.library_rollouts.specs.View.{line_view};
ghost use Rattle.library_rollouts.specs.Writing.{Makes, Writes};
ghost use Rattle.library_rollouts.specs.declared.refusal.RolloutRefusal.TheVariants as refusal;

use crate::refusal::RolloutRefusal;
use crate::writing::write;
use flag_defs::{Flags, read_flags};
use note_tallies::{PageTally, read_tally};
use plan_text::{Planned, print_planned_line};
use rollout::plan_tally;
use std::alloc::Global;

/// Writes the plan file of the rule that fits a request and costs the inputs of a tally the least, or of a set of names which
/// shows that no rule fits, as a line. It tells which of the two: true where a rule fits.
///
/// The refusals come in the order of the document, the tally, the request, the size of the plan file, and the room.
pub fn plan(
    alloc: Global,
    document: &[u8],
    request: &[u8],
    tally: &[u8],
    out: &mut [u8],
    written: &mut usize,
) -> Result<bool, RolloutRefusal>
    ensures writes { Writes (IsPlan document.now request.now tally.now) result (record { bytes = out.old; written = written.old }) (record { bytes = out.new; written = written.new }) }
    // these need no memory
    ensures large { max_bytes < length document.now → IsErrOf result (refusal.Document fault.TooLarge) }
    ensures no_text { length document.now ≤ max_bytes → is_utf8 document.now ≡ false → IsErrOf result (refusal.Document fault.NotJson) }
{
    let plan = planned(alloc, document, request, tally)?;
    write(plan.line.as_slice(), out, written)?;
    Ok(plan.has_rule)
}

/// The plan file of an answer.
#[derive(Drop)]
struct PlanLine {
    /// Its bytes, with the line end.
    line: Vec<u8>,
    /// Whether a rule fits.
    has_rule: bool,
}

/// The plan file of the answer to a request.
fn planned(
    alloc: Global,
    document: &[u8],
    request: &[u8],
    tally: &[u8],
) -> Result<PlanLine, RolloutRefusal>
    ensures made { Makes line_view (IsPlan document.now request.now tally.now) result }
    ensures large { max_bytes < length document.now → IsErrOf result (refusal.Document fault.TooLarge) }
    ensures no_text { length document.now ≤ max_bytes → is_utf8 document.now ≡ false → IsErrOf result (refusal.Document fault.NotJson) }
{
    let flags = read_flags(alloc, document)?;
    let tally = read_tally(alloc, tally)?;
    planned_on(alloc, &flags, request, &tally)
}

/// The same over flags and a tally that were read.
fn planned_on(
    alloc: Global,
    flags: &Flags,
    request: &[u8],
    tally: &PageTally,
) -> Result<PlanLine, RolloutRefusal>
    ensures { Makes line_view (IsPlanOn request.now (flags_view flags.now) tally.now) result }
{
    let planned = plan_tally(alloc, flags, request, tally, 1)?;
    let line = print_planned_line(alloc, &planned)?;
    Ok(PlanLine {
        line,
        has_rule: has_rule(&planned),
    })
}

fn has_rule(planned: &Planned) -> bool
    ensures { result ≡ has_rule (planned_view planned.now) }
{
    matches!(planned, Planned::Emit(_, _))
}
