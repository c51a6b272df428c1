//! The events of sources, and publishing.
ghost use Rattle.std.specs.Prelude.{◌≡◌, ◌≢◌, IfOk, OnErr};
ghost use Rattle.source_merge.specs.declared.fault.SourceFault.TheVariants.{WantOfMemory as SourceWantOfMemory};
ghost use Rattle.snap_core.specs.Agreement.{Steps};
ghost use Rattle.snap_core.specs.Event.{answer_view, sets, clears, publishes, refused};
ghost use Rattle.snap_core.specs.WorldView.{world_view};
ghost use Rattle.snap_core.specs.declared.event.Refusal.TheVariants.{Source};

use crate::event::{Answer, Refusal};
use crate::world::World;
use source_merge::SourceFault;
use std::alloc::{AllocError, Global};

pub(crate) fn set_source(
    alloc: Global,
    world: &mut World,
    source: &str,
    bytes: &[u8],
) -> Result<Answer, AllocError>
    ensures steps { IfOk result (λ a. Steps (world_view world.old) (sets source.now bytes.now) (answer_view a) (world_view world.new)) }
    ensures kept { OnErr result (world_view world.new ≡ world_view world.old) }
{
    match world.sources.set(alloc, source, bytes) {
        Ok(()) => Ok(Answer::Done),
        Err(fault) => refused_by_sources(fault),
    }
}

pub(crate) fn clear_source(world: &mut World, source: &str) -> Result<Answer, AllocError>
    ensures steps { IfOk result (λ a. Steps (world_view world.old) (clears source.now) (answer_view a) (world_view world.new)) }
    ensures kept { OnErr result (world_view world.new ≡ world_view world.old) }
{
    match world.sources.clear(source) {
        Ok(()) => Ok(Answer::Done),
        Err(fault) => refused_by_sources(fault),
    }
}

pub(crate) fn publish(alloc: Global, world: &mut World) -> Result<Answer, AllocError>
    ensures steps { IfOk result (λ a. Steps (world_view world.old) publishes (answer_view a) (world_view world.new)) }
    ensures kept { OnErr result (world_view world.new ≡ world_view world.old) }
{
    match world.sources.merged(alloc) {
        Ok(flags) => match world.hub.publish(flags) {
            Ok(number) => Ok(Answer::Published(number)),
            Err(fault) => Ok(Answer::Refused(Refusal::Hub(fault))),
        },
        Err(fault) => refused_by_sources(fault),
    }
}

/// The answer to a refusal of the sources; their want of memory is passed on.
fn refused_by_sources(fault: SourceFault) -> Result<Answer, AllocError>
    ensures answer { IfOk result (λ a. answer_view a ≡ refused (Source fault)) }
    ensures not_want { IfOk result (λ a. fault ≢ SourceWantOfMemory) }
{
    match fault {
        SourceFault::WantOfMemory => Err(AllocError),
        fault => Ok(Answer::Refused(Refusal::Source(fault))),
    }
}
