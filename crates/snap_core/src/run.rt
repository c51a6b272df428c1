//! A run of events.
ghost use Rattle.std.specs.Prelude.{◌≡◌, ◌+◌, ◌<◌, ◌≤◌, [], ◌∷◌, ◌++◌, length, vec_len, vec_capacity, IfOk, IfErr, OnOk, OnErr};
ghost use Rattle.snap_core.specs.Agreement.{Runs, RunsFirst, Steps};
ghost use Rattle.snap_core.specs.Event.{Reply, answer_view, answers_view, event_view, events_view};
ghost use Rattle.snap_core.specs.WorldView.{world_view};

use crate::book::{note, seal};
use crate::event::{Answer, Event};
use crate::subscribers::{join, leave, take};
use crate::supply::{clear_source, publish, set_source};
use crate::world::World;
use std::alloc::{AllocError, Global};
use thiserror::Error;

/// Memory ran out after so many events; the service is as they have left it.
#[derive(Clone, Copy, Debug, PartialEq, Eq, Error)]
#[error("out of memory after {done} events")]
pub struct Short {
    /// How many events have run.
    pub done: usize,
}

/// Runs events one after the other, and gives the answer to each. An event that is refused changes nothing. Where memory
/// runs out, the events before that one have run, and no others.
pub fn run_events(alloc: Global, world: &mut World, events: &[Event]) -> Result<Vec<Answer>, Short>
    ensures runs { IfOk result (λ answers. Runs (world_view world.old) (events_view events.now) (answers_view answers.items) (world_view world.new)) }
    ensures short { IfErr result (λ short. RunsFirst (world_view world.old) (events_view events.now) short.done (world_view world.new)) }
    ensures within { IfErr result (λ short. short.done < length events.now) }
{
    let mut answers = match Vec::with_capacity(alloc, events.len()) {
        Ok(answers) => answers,
        Err(AllocError) => return Err(Short { done: 0 }),
    };
    for i in 0..events.len() {
        match run_next(alloc, world, &events[i], &mut answers) {
            Ok(()) => {}
            Err(AllocError) => return Err(Short { done: i }),
        }
    }
    Ok(answers)
}

/// Runs an event and keeps its answer, for which there is room.
fn run_next(
    alloc: Global,
    world: &mut World,
    event: &Event,
    answers: &mut Vec<Answer>,
) -> Result<(), AllocError>
    requires { vec_len answers.old < vec_capacity answers.old }
    ensures steps { OnOk result ((a : Reply) × (answers_view answers.new.items ≡ answers_view answers.old.items ++ a ∷ [])
        × Steps (world_view world.old) (event_view event.now) a (world_view world.new)) }
    ensures len { OnOk result (vec_len answers.new ≡ vec_len answers.old + 1) }
    ensures room { vec_capacity answers.old ≤ vec_capacity answers.new }
    ensures kept { OnErr result (world_view world.new ≡ world_view world.old) }
{
    let answer = run_event(alloc, world, event)?;
    answers.push(answer)?;
    Ok(())
}

/// Runs an event.
fn run_event(alloc: Global, world: &mut World, event: &Event) -> Result<Answer, AllocError>
    ensures steps { IfOk result (λ a. Steps (world_view world.old) (event_view event.now) (answer_view a) (world_view world.new)) }
    ensures kept { OnErr result (world_view world.new ≡ world_view world.old) }
{
    match event {
        Event::SetSource { source, bytes } => {
            set_source(alloc, world, source.as_str(), bytes.as_slice())
        }
        Event::ClearSource { source } => clear_source(world, source.as_str()),
        Event::Publish => publish(alloc, world),
        Event::Join => join(world),
        Event::Take { sub } => take(alloc, world, *sub),
        Event::Leave { sub } => leave(world, *sub),
        Event::Note { seat, page, input } => note(alloc, world, *seat, page, input.as_str()),
        Event::Seal => Ok(seal(world)),
    }
}
