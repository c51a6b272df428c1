//! Several tallies as one.
ghost use Rattle.note_tallies.specs.Joined.{JoinsAll};

use crate::{JoinFault, PageTally, join};

/// The tally of the lines of all: of the first one, and of the others in their order. One without lines stands anywhere.
///
/// Refusals, of the first that does not follow those before it, in this order: `Page`, `Order`, `TooMany`. It takes no memory.
pub fn join_all(first: PageTally, others: Vec<PageTally>) -> Result<PageTally, JoinFault>
    ensures { JoinsAll first others.items result }
{
    let mut all = first;
    for next in others {
        all = join(all, next)?;
    }
    Ok(all)
}
