//! The flags that a step stands on.
ghost use Rattle.std.specs.Prelude.{◌≡◌, true, Ok};
ghost use Rattle.flag_text.specs.Outcome.{GivesUnless};
ghost use Rattle.flag_defs.specs.Flags.{flags_view};
ghost use Rattle.plan_text.specs.Answer.{planned_view};
ghost use Rattle.ramp.specs.Ramp.{Standing, goes_on, left_by};

use flag_defs::Flags;
use plan_text::Planned;
use price_core::Request;
use rollout::{RolloutFault, apply};
use std::alloc::Global;

/// A copy of the flags, on which the first step stands.
pub(crate) fn first(alloc: Global, flags: &Flags) -> Result<Flags, RolloutFault>
    ensures { GivesUnless RolloutFault.WantOfMemory flags_view result (Ok (flags_view flags.now)) }
{
    Ok(flags.copy(alloc)?)
}

/// What the answer to a request leaves for the next step; where there is none, nothing is asked of it.
pub(crate) fn behind(
    alloc: Global,
    standing: Result<Flags, RolloutFault>,
    request: &[u8],
    planned: &Planned,
    more: bool,
) -> Result<Flags, RolloutFault>
    ensures { (s : Standing) → more ≡ true → GivesUnless RolloutFault.WantOfMemory flags_view standing s → GivesUnless RolloutFault.WantOfMemory flags_view result (left_by s request.now (planned_view planned.now)) }
{
    if more {
        next(alloc, &standing, request, planned)
    } else {
        standing
    }
}

fn next(
    alloc: Global,
    standing: &Result<Flags, RolloutFault>,
    request: &[u8],
    planned: &Planned,
) -> Result<Flags, RolloutFault>
    ensures { (s : Standing) → GivesUnless RolloutFault.WantOfMemory flags_view standing.now s → GivesUnless RolloutFault.WantOfMemory flags_view result (left_by s request.now (planned_view planned.now)) }
{
    match standing {
        Ok(flags) => left_by(alloc, flags, request, planned),
        Err(fault) => Err(*fault),
    }
}

/// The flags with the rule of an answer at the site that its request names; the flags as they are where it has none.
pub fn left_by(
    alloc: Global,
    flags: &Flags,
    request: &[u8],
    planned: &Planned,
) -> Result<Flags, RolloutFault>
    ensures { GivesUnless RolloutFault.WantOfMemory flags_view result (left_by (Ok (flags_view flags.now)) request.now (planned_view planned.now)) }
{
    match planned {
        Planned::Emit(rule, _) => {
            let asked = Request::read(alloc, request)?;
            apply(alloc, flags, asked.flag(), asked.site(), rule)
        }
        Planned::NoneExists(_) => Ok(flags.copy(alloc)?),
    }
}

/// Whether the answer has a rule, after which the rollout goes on.
pub(crate) fn goes_on(planned: &Planned) -> bool
    ensures { result ≡ goes_on (planned_view planned.now) }
{
    match planned {
        Planned::Emit(_, _) => true,
        Planned::NoneExists(_) => false,
    }
}
