//! Bytes that are written into a room.
ghost use Rattle.std.specs.Prelude.{◌≢◌, ◌≤◌, length, Err, IsOk};
ghost use Rattle.library_seat.specs.Room.{IsPut, Writes};
ghost use Rattle.library_seat.specs.declared.refusal.Refusal.TheVariants as refusal;

use crate::refusal::Refusal;

/// Writes bytes to the beginning of `out`. Where the room is too small it is left alone. `written` is told how many bytes
/// there are, also where there is no room for them. It takes no memory.
pub fn put(text: &[u8], out: &mut [u8], written: &mut usize) -> Result<(), Refusal>
    ensures put { Writes text.now result (record { bytes = out.old; written = written.old }) (record { bytes = out.new; written = written.new }) }
    ensures fits { length text.now ≤ length out.old → IsOk result }
    ensures memory { result ≢ Err refusal.WantOfMemory }
{
    if text.len() > out.len() {
        *written = text.len();
        return Err(Refusal::Room);
    }
    write(text, out, written);
    Ok(())
}

/// Writes bytes to the beginning of `out`, which has room for them.
pub(crate) fn write(text: &[u8], out: &mut [u8], written: &mut usize)
    requires { length text.now ≤ length out.old }
    ensures { IsPut text.now (record { bytes = out.old; written = written.old }) (record { bytes = out.new; written = written.new }) }
{
    *written = text.len();
    out[..text.len()].copy_from_slice(text);
}
