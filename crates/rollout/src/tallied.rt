//! The answer of the planner to a request on a tally.
ghost use Rattle.std.specs.Prelude.{◌≡◌, ◌<◌, IfOk};
ghost use Rattle.flag_defs.specs.Flags.{flags_view};
ghost use Rattle.plan_text.specs.Answer.{IsOrdered, planned_view};
ghost use Rattle.plan_text.specs.PlanFile.{IsWhole};
ghost use Rattle.rollout.specs.Plan.{IsTallyPlanned};
ghost use Rattle.rollout.specs.CheckedTally.{tally_problem_asked, tally_problem_of};
ghost use Rattle.rollout.specs.Planned.{PrintsOrRefuses};
ghost use Rattle.rollout.specs.declared.refining.Refining.TheVariants.{Times};

use crate::planner::plan_on;
use crate::{Refining, RequestFile, RolloutFault, tally_problem_asked};
use flag_defs::Flags;
use min_cost_flow::Effort;
use note_tallies::PageTally;
use plan_text::Planned;
use price_core::Request;
use std::alloc::Global;
use std::marker::Brand;
use std::sync::ledger::{Blank, Ledger};

/// As [`crate::plan_refined`], on a tally of the request's page: up to 67,108,864 inputs on a point and 8,589,934,592 in all. The
/// rule that is answered costs all inputs of which so many fall on each point the least. The condition is m from 1.
///
/// It refuses as [`crate::plan_refined`], and after `NoWeight` with `OtherTally` where the tally is of another page than the
/// request's, or of another total than that of the site's rule refined by m.
pub fn plan_tally(
    alloc: Global,
    flags: &Flags,
    request: &[u8],
    tally: &PageTally,
    m: u32,
) -> Result<Planned, RolloutFault>
    requires { 0 < m }
    ensures exact { IsTallyPlanned (tally_problem_of (Times m) (flags_view flags.now) request.now tally.now) result }
    ensures answer { PrintsOrRefuses request.now result }
{
    let request = Request::read(alloc, request)?;
    plan_asked::<Brand>(alloc, flags, &request, tally, m, Blank::new(2))
}

/// As [`plan_tally`], of the file of a request, which was read. The condition is m from 1.
pub fn plan_file_on_tally(
    alloc: Global,
    flags: &Flags,
    request: &RequestFile,
    tally: &PageTally,
    m: u32,
) -> Result<Planned, RolloutFault>
    requires { 0 < m }
    ensures exact { IsTallyPlanned (tally_problem_of (Times m) (flags_view flags.now) request.now tally.now) result }
    ensures answer { PrintsOrRefuses request.now result }
{
    let request = request.asked()?;
    plan_asked::<Brand>(alloc, flags, request, tally, m, Blank::new(2))
}

/// The answer to a request that was read, over a counter of its own.
fn plan_asked<L: Ledger>(
    alloc: Global,
    flags: &Flags,
    request: &Request,
    tally: &PageTally,
    m: u32,
    blank: Blank,
) -> Result<Planned, RolloutFault>
    requires some { 0 < m }
    requires name { blank.name ≡ L.name }
    requires parts { blank.parts ≡ L.parts }
    requires two { blank.parts ≡ 2 }
    ensures exact { IsTallyPlanned (tally_problem_asked (Times m) (flags_view flags.now) request.now tally.now) result }
    ensures ordered { IfOk result (λ a. IsOrdered (planned_view a)) }
    ensures whole { IfOk result (λ a. IsWhole (planned_view a)) }
{
    let mut effort = Effort::<L>::none(blank);
    // Called for what its contract says: flags have at most 64 variants.
    let _count = flags.len();
    let problem = tally_problem_asked(alloc, Refining::Times(m), flags, request, tally)?;
    plan_on(alloc, &problem, &mut effort)
}
