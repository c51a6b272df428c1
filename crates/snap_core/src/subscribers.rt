//! The events of subscribers.
ghost use Rattle.std.specs.Prelude.{◌≡◌, ◌≢◌, IfOk, OnErr};
ghost use Rattle.snap_core.specs.declared.fault.HubFault.TheVariants.{WantOfMemory as HubWantOfMemory};
ghost use Rattle.snap_core.specs.Agreement.{Steps};
ghost use Rattle.snap_core.specs.Event.{answer_view, joins, leaves, refused, takes};
ghost use Rattle.snap_core.specs.WorldView.{world_view};
ghost use Rattle.snap_core.specs.declared.event.Refusal.TheVariants.{Hub};

use crate::event::{Answer, Refusal};
use crate::fault::HubFault;
use crate::hub::SubId;
use crate::world::World;
use std::alloc::{AllocError, Global};

pub(crate) fn join(world: &mut World) -> Result<Answer, AllocError>
    ensures steps { IfOk result (λ a. Steps (world_view world.old) joins (answer_view a) (world_view world.new)) }
    ensures kept { OnErr result (world_view world.new ≡ world_view world.old) }
{
    match world.hub.join() {
        Ok(sub) => Ok(Answer::Joined(sub)),
        Err(fault) => refused_by_hub(fault),
    }
}

pub(crate) fn take(alloc: Global, world: &mut World, sub: SubId) -> Result<Answer, AllocError>
    ensures steps { IfOk result (λ a. Steps (world_view world.old) (takes sub.0) (answer_view a) (world_view world.new)) }
    ensures kept { OnErr result (world_view world.new ≡ world_view world.old) }
{
    match world.hub.take(alloc, sub) {
        Ok(snapshot) => Ok(Answer::Taken(snapshot)),
        Err(fault) => refused_by_hub(fault),
    }
}

pub(crate) fn leave(world: &mut World, sub: SubId) -> Result<Answer, AllocError>
    ensures steps { IfOk result (λ a. Steps (world_view world.old) (leaves sub.0) (answer_view a) (world_view world.new)) }
    ensures kept { OnErr result (world_view world.new ≡ world_view world.old) }
{
    match world.hub.leave(sub) {
        Ok(()) => Ok(Answer::Done),
        Err(fault) => refused_by_hub(fault),
    }
}

/// The answer to a refusal of the hub; its want of memory is passed on.
fn refused_by_hub(fault: HubFault) -> Result<Answer, AllocError>
    ensures answer { IfOk result (λ a. answer_view a ≡ refused (Hub fault)) }
    ensures not_want { IfOk result (λ a. fault ≢ HubWantOfMemory) }
{
    match fault {
        HubFault::WantOfMemory => Err(AllocError),
        fault => Ok(Answer::Refused(Refusal::Hub(fault))),
    }
}
