//! The answers to a rollout in steps.
ghost use Rattle.std.specs.Prelude.{◌≡◌, ◌<◌, ◌-◌, ◌^◌, length, Ok, IfOk};
ghost use Rattle.std.specs.List.{All};
ghost use Rattle.flag_text.specs.Outcome.{GivesUnless};
ghost use Rattle.flag_defs.specs.Flags.{flags_view};
ghost use Rattle.plan_text.specs.Answer.{IsOrdered, planned_view};
ghost use Rattle.plan_text.specs.PlanFile.{IsWhole};
ghost use Rattle.ramp.specs.Ramp.{AnswersStep, IsRamp, Standing, in_book, in_tally, requests_view};

use crate::basis::{Basis, CountedBook};
use crate::fault::StepFault;
use crate::standing::{behind, first, goes_on};
use flag_defs::Flags;
use page_tally::Recorded;
use plan_text::Planned;
use rollout::{PageTally, RolloutFault};
use std::alloc::Global;
use std::thread::Threads;

/// The answers to the requests of steps: the first is planned on the site's rule refined by m, and each other on the flags
/// with the rule of the step before. The first step for which no rule fits is the last that is answered.
///
/// The first step that is refused is told, as `rollout::plan` refuses its request, or as `rollout::apply` the rule of the step
/// before. The conditions are m from 1, and fewer than 2^32 - 1 steps.
pub fn plan_steps<R: Threads + Sync, B: Recorded>(
    rt: &R,
    alloc: Global,
    flags: &Flags,
    steps: &[Vec<u8>],
    book: &B,
    m: u32,
) -> Result<Vec<Planned>, StepFault>
    requires factor { 0 < m }
    requires few { length steps.now < 2 ^ 32 - 1 }
    ensures exact { IsRamp (Ok (flags_view flags.now)) m (requests_view steps.now) (in_book (B.contents book.now)) result }
    ensures ordered { IfOk result (λ v. All (λ p. IsOrdered (planned_view p)) v.items) }
    ensures whole { IfOk result (λ v. All (λ p. IsWhole (planned_view p)) v.items) }
{
    plan_in_turn(alloc, flags, steps, &CountedBook { rt, book }, m)
}

/// As [`plan_steps`], on a tally of the page of the requests. Each rule that is answered costs all inputs of which so many fall
/// on each point the least. The conditions are m from 1, and fewer than 2^32 - 1 steps.
///
/// A step is refused as by `rollout::plan_tally`: with `OtherTally`, too, where the tally is of another page than the step's
/// request, or of another total than that of the site's rule refined by m. All rules that follow have that total.
pub fn plan_steps_on_tally(
    alloc: Global,
    flags: &Flags,
    steps: &[Vec<u8>],
    tally: &PageTally,
    m: u32,
) -> Result<Vec<Planned>, StepFault>
    requires factor { 0 < m }
    requires few { length steps.now < 2 ^ 32 - 1 }
    ensures exact { IsRamp (Ok (flags_view flags.now)) m (requests_view steps.now) (in_tally tally.now) result }
    ensures ordered { IfOk result (λ v. All (λ p. IsOrdered (planned_view p)) v.items) }
    ensures whole { IfOk result (λ v. All (λ p. IsWhole (planned_view p)) v.items) }
{
    plan_in_turn(alloc, flags, steps, tally, m)
}

/// The answers to the requests on what was recorded.
fn plan_in_turn<E: Basis>(
    alloc: Global,
    flags: &Flags,
    steps: &[Vec<u8>],
    basis: &E,
    m: u32,
) -> Result<Vec<Planned>, StepFault>
    requires needs { E.Needs }
    requires factor { 0 < m }
    requires few { length steps.now < 2 ^ 32 - 1 }
    ensures exact { IsRamp (Ok (flags_view flags.now)) m (requests_view steps.now) (E.recorded basis.now) result }
    ensures ordered { IfOk result (λ v. All (λ p. IsOrdered (planned_view p)) v.items) }
    ensures whole { IfOk result (λ v. All (λ p. IsWhole (planned_view p)) v.items) }
{
    let mut answers = Vec::new(alloc);
    let mut standing = first(alloc, flags);
    let mut factor = m;
    for i in 0..steps.len() {
        let request = steps[i].as_slice();
        let planned = match answer(alloc, &standing, request, basis, factor) {
            Ok(planned) => planned,
            Err(fault) => {
                return Err(StepFault {
                    step: i as u32 + 1,
                    fault,
                });
            }
        };
        let more = goes_on(&planned);
        standing = behind(alloc, standing, request, &planned, i + 1 < steps.len());
        answers.push(planned)?;
        if !more {
            return Ok(answers);
        }
        factor = 1;
    }
    Ok(answers)
}

/// The answer to a step.
fn answer<E: Basis>(
    alloc: Global,
    standing: &Result<Flags, RolloutFault>,
    request: &[u8],
    basis: &E,
    m: u32,
) -> Result<Planned, RolloutFault>
    requires needs { E.Needs }
    requires factor { 0 < m }
    ensures exact { (s : Standing) → GivesUnless RolloutFault.WantOfMemory flags_view standing.now s → AnswersStep s m request.now (E.recorded basis.now) result }
    ensures ordered { IfOk result (λ p. IsOrdered (planned_view p)) }
    ensures whole { IfOk result (λ p. IsWhole (planned_view p)) }
{
    match standing {
        Ok(flags) => {
            // Called for what its contract says: flags are lawful together.
            let _count = flags.len();
            basis.plan(alloc, flags, request, m)
        }
        Err(fault) => Err(*fault),
    }
}
