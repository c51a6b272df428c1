//! The numbers of answers.
ghost use Rattle.std.specs.Prelude.{◌≡◌};
ghost use Rattle.flagops_c.specs.Calls.{result_number, taken_number};
ghost use Rattle.flagops_c.specs.Rollouts.{planned_number, rollout_number};

use library_rollouts::RolloutRefusal;
use library_seat::Refusal;

/// Note lines were taken, and one was not kept before.
const FULL: u32 = 7;

/// A plan was written that has no rule, since none fits.
const NO_RULE: u32 = 9;

/// 0, or the number of the refusal.
pub(crate) fn number_of(answer: Result<(), Refusal>) -> u32
    ensures { result ≡ result_number answer }
{
    match answer {
        Ok(()) => 0,
        Err(refusal) => refusal.number(),
    }
}

/// The same of note lines that were taken.
pub(crate) fn number_of_taken(taken: Result<bool, Refusal>) -> u32
    ensures { result ≡ taken_number taken }
{
    match taken {
        Ok(true) => FULL,
        Ok(false) => 0,
        Err(refusal) => refusal.number(),
    }
}

/// 0, or the number of the refusal of a rollout.
pub(crate) fn number_of_rollout(answer: Result<(), RolloutRefusal>) -> u32
    ensures { result ≡ rollout_number answer }
{
    match answer {
        Ok(()) => 0,
        Err(refusal) => refusal.number(),
    }
}

/// The same of a plan, which has a rule where one fits.
pub(crate) fn number_of_planned(planned: Result<bool, RolloutRefusal>) -> u32
    ensures { result ≡ planned_number planned }
{
    match planned {
        Ok(true) => 0,
        Ok(false) => NO_RULE,
        Err(refusal) => refusal.number(),
    }
}
