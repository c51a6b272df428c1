//! What was asked that has been planned.
ghost use Rattle.std.specs.Prelude.{◌≡◌, Ok, IfOk};
ghost use Rattle.bucket_core.specs.Rule.{total_weight};
ghost use Rattle.flag_defs.specs.Flags.{flags_view};
ghost use Rattle.rollout.specs.Plan.{IsTallyPlanned};
ghost use Rattle.rollout.specs.CheckedTally.{tally_problem_of, tally_view};
ghost use Rattle.rollout.specs.declared.refining.Refining.TheVariants.{Times};
ghost use Rattle.transport_core.specs.Tally.{IsTally};

use flag_defs::Flags;
use note_tallies::PageTally;
use plan_text::Planned;
use rollout::{Problem, Refining, RequestFile, RolloutFault, problem_of_tally};
use std::alloc::{AllocError, Global};

/// What was asked of a tally and has been planned: the rule that a planned rule takes the place of, and how many inputs fall on each
/// of its points. The condition is that this is planned.
pub fn posed<'a>(
    alloc: Global,
    flags: &Flags,
    request: &'a RequestFile,
    tally: &PageTally,
    planned: &Planned,
) -> Result<Problem<'a>, AllocError>
    requires { IsTallyPlanned (tally_problem_of (Times 1) (flags_view flags.now) request.now tally.now) (Ok planned.now) }
    ensures asked { IfOk result (λ p. tally_problem_of (Times 1) (flags_view flags.now) request.now tally.now ≡ Ok (tally_view p)) }
    ensures tally { IfOk result (λ p. IsTally (total_weight p.old) p.counts.items) }
{
    match problem_of_tally(alloc, Refining::Times(1), flags, request, tally) {
        Ok(problem) => Ok(problem),
        Err(RolloutFault::WantOfMemory) => Err(AllocError),
        // What was planned is lawful.
        Err(_) => unreachable!(),
    }
}
