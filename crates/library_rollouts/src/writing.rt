//! A text that is written into a room.
ghost use Rattle.library_rollouts.specs.Writing.{Puts};

use crate::refusal::RolloutRefusal;
use library_seat::put;

/// Writes a text to the beginning of `out`. Where the room is too small it is left alone. `written` is told how many bytes
/// there are, also where there is no room for them. It takes no memory.
pub(crate) fn write(text: &[u8], out: &mut [u8], written: &mut usize) -> Result<(), RolloutRefusal>
    ensures { Puts text.now result (record { bytes = out.old; written = written.old }) (record { bytes = out.new; written = written.new }) }
{
    match put(text, out, written) {
        Ok(()) => Ok(()),
        Err(_) => Err(RolloutRefusal::Room),
    }
}
