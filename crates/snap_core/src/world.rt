//! A flag service.
ghost use Rattle.std.specs.Prelude.{◌≡◌, None, IfOk, IfErr, IfSome, IsErrOf, map, string_bytes};
ghost use Rattle.snap_core.specs.Agreement.{Agrees};
ghost use Rattle.snap_core.specs.Opening.{first_refusal, opening};

use crate::fault::WorldFault;
use crate::hub::Hub;
use crate::names::{has_double, sources_of};
use book_core::Book;
use limits::SOURCES;
use source_merge::Sources;
use std::alloc::Global;

/// The most seats.
const MOST_SEATS: u32 = limits::SEATS as u32;

/// A flag service: its sources, the last published snapshot with its subscribers, and the book of what was noted.
#[derive(Drop)]
pub struct World {
    pub(crate) sources: Sources,
    pub(crate) hub: Hub,
    pub(crate) book: Book,
    pub(crate) seats: u32,
    pub(crate) is_sealed: bool,
}

impl World {
    ghost use Rattle.snap_core.specs.WorldView.{world_view};

    /// A service with sources of these names, the last one the latest, and so many seats. Refusals, in this order: `Known`
    /// where a name stands twice, `TooMany` for more than 16 names, `NoSeats`, `TooManySeats` for more than 64 seats. None
    /// of them takes memory. Cost: each two names are compared.
    pub fn new(alloc: Global, sources: &[String], seats: u32) -> Result<World, WorldFault>
        ensures refused { IfSome (first_refusal (map string_bytes sources.now) seats) (λ fault. IsErrOf result fault) }
        ensures opens { IfOk result (λ w. Agrees (opening (map string_bytes sources.now) seats) (world_view w)) }
        ensures no_other { first_refusal (map string_bytes sources.now) seats ≡ None → IfErr result (λ fault. fault ≡ WorldFault.WantOfMemory) }
    {
        if has_double(sources) {
            return Err(WorldFault::Known);
        }
        if sources.len() > SOURCES {
            return Err(WorldFault::TooMany);
        }
        if seats == 0 {
            return Err(WorldFault::NoSeats);
        }
        if seats > MOST_SEATS {
            return Err(WorldFault::TooManySeats);
        }
        let sources = sources_of(alloc, sources)?;
        Ok(World {
            sources,
            hub: Hub::new(alloc),
            book: Book::new(alloc),
            seats,
            is_sealed: false,
        })
    }
}
