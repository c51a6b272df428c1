//! The answer of the planner to a request.
ghost use Rattle.std.specs.Prelude.{◌≡◌, ◌<◌, IfOk, IfErr, MatchResult};
ghost use Rattle.book_core.specs.Book.{Inputs};
ghost use Rattle.bucket_core.specs.Rule.{total_weight};
ghost use Rattle.flag_defs.specs.Flags.{flags_view};
ghost use Rattle.transport_core.specs.Tally.{IsTally};
ghost use Rattle.plan_text.specs.Answer.{IsOrdered, planned_view};
ghost use Rattle.plan_text.specs.PlanFile.{IsWhole};
ghost use Rattle.rollout.specs.Lawful.{IsCounted, problem_asked, problem_of, problem_view};
ghost use Rattle.rollout.specs.Plan.{IsPlan, IsPlanned};
ghost use Rattle.rollout.specs.Effort.{Spends, SpendsOn};
ghost use Rattle.rollout.specs.Planned.{IsInstanceOf, IsPlannable, PrintsOrRefuses};
ghost use Rattle.transport_plan.specs.Solved.{IsSolution};
ghost use Rattle.rollout.specs.declared.fault.RolloutFault.TheVariants.{WantOfMemory};
ghost use Rattle.rollout.specs.declared.refining.Refining.TheVariants.{Times};

use crate::{Problem, Refining, RequestFile, RolloutFault, problem_asked};
use flag_defs::Flags;
use min_cost_flow::Effort;
use page_tally::Recorded;
use plan_text::Planned;
use price_core::Request;
use std::alloc::{AllocError, Global};
use std::marker::Brand;
use std::sync::ledger::{Blank, Ledger};
use std::thread::Threads;
use transport_core::Instance;
use transport_plan::{Solved, solve, spread};

/// The rule that meets a request and costs the recorded inputs the least, with its certificate, or a set of names which
/// shows that no rule does: a set over its high limits where there is one, and else one under its low limits. Of what was
/// recorded only how many inputs of the page fall on each point is asked for. Beside that and the search it takes `O(log n)`
/// steps for each point, at n points.
///
/// It refuses an unlawful request, in this order, with `Request`, `UnknownFlag`, `NoSite`, `Computed`, `NoWeight`,
/// `UnknownVariant`, `TotalsSum` and `TotalTooLarge`. One above its limit or that is not UTF-8 is refused before memory is
/// taken. A lawful one is always decided, unless memory runs out.
pub fn plan<R: Threads + Sync, B: Recorded>(
    rt: &R,
    alloc: Global,
    flags: &Flags,
    request: &[u8],
    book: &B,
) -> Result<Planned, RolloutFault>
    ensures exact { IsPlanned (problem_of (Times 1) (flags_view flags.now) request.now (B.contents book.now)) result }
    ensures answer { PrintsOrRefuses request.now result }
{
    plan_refined(rt, alloc, flags, request, book, 1)
}

/// As [`plan`], on the site's rule refined by m. The condition is m from 1.
pub fn plan_refined<R: Threads + Sync, B: Recorded>(
    rt: &R,
    alloc: Global,
    flags: &Flags,
    request: &[u8],
    book: &B,
    m: u32,
) -> Result<Planned, RolloutFault>
    requires { 0 < m }
    ensures exact { IsPlanned (problem_of (Times m) (flags_view flags.now) request.now (B.contents book.now)) result }
    ensures answer { PrintsOrRefuses request.now result }
{
    let request = Request::read(alloc, request)?;
    plan_asked::<Brand, R, B>(rt, alloc, flags, &request, book, m, Blank::new(2))
}

/// As [`plan_refined`], of the file of a request, which was read. The condition is m from 1.
pub fn plan_file<R: Threads + Sync, B: Recorded>(
    rt: &R,
    alloc: Global,
    flags: &Flags,
    request: &RequestFile,
    book: &B,
    m: u32,
) -> Result<Planned, RolloutFault>
    requires { 0 < m }
    ensures exact { IsPlanned (problem_of (Times m) (flags_view flags.now) request.now (B.contents book.now)) result }
    ensures answer { PrintsOrRefuses request.now result }
{
    let request = request.asked()?;
    plan_asked::<Brand, R, B>(rt, alloc, flags, request, book, m, Blank::new(2))
}

/// As [`plan_refined`], with m 1 as [`plan`], for a caller that counts: what the search takes is counted as by [`solve`], at W
/// points at most 2 W augmentations and at most (2 W + 2) (groups + names) settlings, and nothing of a request that is
/// refused. The condition is m from 1.
pub fn plan_counted<L: Ledger, R: Threads + Sync, B: Recorded>(
    rt: &R,
    alloc: Global,
    flags: &Flags,
    request: &[u8],
    book: &B,
    m: u32,
    effort: &mut Effort<L>,
) -> Result<Planned, RolloutFault>
    requires { 0 < m }
    ensures exact { IsPlanned (problem_of (Times m) (flags_view flags.now) request.now (B.contents book.now)) result }
    ensures answer { PrintsOrRefuses request.now result }
    ensures spent { Spends (problem_of (Times m) (flags_view flags.now) request.now (B.contents book.now)) effort.old effort.new }
{
    let request = Request::read(alloc, request)?;
    plan_asked_counted(rt, alloc, flags, &request, book, m, effort)
}

/// The answer to a request that was read, over a counter of its own.
fn plan_asked<L: Ledger, R: Threads + Sync, B: Recorded>(
    rt: &R,
    alloc: Global,
    flags: &Flags,
    request: &Request,
    book: &B,
    m: u32,
    blank: Blank,
) -> Result<Planned, RolloutFault>
    requires some { 0 < m }
    requires name { blank.name ≡ L.name }
    requires parts { blank.parts ≡ L.parts }
    requires two { blank.parts ≡ 2 }
    ensures exact { IsPlanned (problem_asked (Times m) (flags_view flags.now) request.now (B.contents book.now)) result }
    ensures ordered { IfOk result (λ a. IsOrdered (planned_view a)) }
    ensures whole { IfOk result (λ a. IsWhole (planned_view a)) }
{
    let mut effort = Effort::<L>::none(blank);
    plan_asked_counted(rt, alloc, flags, request, book, m, &mut effort)
}

/// The answer to a request that was read, counted as by [`plan_counted`].
fn plan_asked_counted<L: Ledger, R: Threads + Sync, B: Recorded>(
    rt: &R,
    alloc: Global,
    flags: &Flags,
    request: &Request,
    book: &B,
    m: u32,
    effort: &mut Effort<L>,
) -> Result<Planned, RolloutFault>
    requires { 0 < m }
    ensures exact { IsPlanned (problem_asked (Times m) (flags_view flags.now) request.now (B.contents book.now)) result }
    ensures ordered { IfOk result (λ a. IsOrdered (planned_view a)) }
    ensures whole { IfOk result (λ a. IsWhole (planned_view a)) }
    ensures spent { Spends (problem_asked (Times m) (flags_view flags.now) request.now (B.contents book.now)) effort.old effort.new }
{
    // Called for what its contract says: flags have at most 64 variants.
    let _count = flags.len();
    let problem = problem_asked(rt, alloc, Refining::Times(m), flags, request, book)?;
    plan_on(alloc, &problem, effort)
}

/// The answer to what a lawful request asks.
pub(crate) fn plan_on<L: Ledger>(
    alloc: Global,
    problem: &Problem<'_>,
    effort: &mut Effort<L>,
) -> Result<Planned, RolloutFault>
    requires plannable { IsPlannable problem.now.old problem.now.totals }
    requires tally { IsTally (total_weight problem.now.old) problem.now.counts.items }
    ensures exact { (inputs : Inputs) → IsCounted problem.now inputs → MatchResult result (λ a. IsPlan (problem_view problem.now inputs) (planned_view a)) (λ e. e ≡ WantOfMemory) }
    ensures decides { IfErr result (λ e. e ≡ WantOfMemory) }
    ensures ordered { IfOk result (λ a. IsOrdered (planned_view a)) }
    ensures whole { IfOk result (λ a. IsWhole (planned_view a)) }
    ensures spent { (inputs : Inputs) → IsCounted problem.now inputs → SpendsOn (problem_view problem.now inputs) effort.old effort.new }
{
    let prices = problem.request.prices();
    let Problem {
        old,
        totals,
        counts,
        ..
    } = problem;
    let counts = counts.as_slice();
    let instance = Instance::make(alloc, old, totals, prices, counts)?;
    let solved = solve(alloc, &instance, effort)?;
    Ok(answer(alloc, problem, &instance, solved)?)
}

/// What is solved, as an answer: the rule that has the assignment, or the set of names.
fn answer(
    alloc: Global,
    problem: &Problem<'_>,
    instance: &Instance<'_>,
    solved: Solved,
) -> Result<Planned, AllocError>
    requires tally { IsTally (total_weight problem.now.old) problem.now.counts.items }
    requires instance { IsInstanceOf problem.now instance.now }
    requires solved { IsSolution instance.now solved }
    ensures plan { IfOk result (λ a. (inputs : Inputs) → IsCounted problem.now inputs → IsPlan (problem_view problem.now inputs) (planned_view a)) }
    ensures ordered { IfOk result (λ a. IsOrdered (planned_view a)) }
    ensures whole { IfOk result (λ a. IsWhole (planned_view a)) }
{
    let Problem {
        old,
        totals,
        counts,
        ..
    } = problem;
    // Called for what their contracts say: a rule's total is from 1 to 2^31-1, and limits are lawful.
    let _weight = old.total();
    let _limits = totals.entries();
    match solved {
        Solved::Plan(assignment, certificate) => {
            let counts = counts.as_slice();
            let rule = spread(alloc, old, counts, instance, assignment)?;
            // Called for the same of the new rule, which a plan file is to hold.
            let _total = rule.total();
            Ok(Planned::Emit(rule, certificate))
        }
        Solved::None(cut) => Ok(Planned::NoneExists(cut)),
    }
}
