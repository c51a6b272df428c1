//! From a stream to a batch of its bytes.
ghost use Rattle.std.specs.Prelude.{◌≡◌, ◌≤◌, ◌<◌, ◌+◌, length, take, true, false, IfOk, IfErr, OnOk, OnErr};
ghost use Rattle.std.specs.Io.KnownBytes.{Consumes, IsAtEnd, Keeps};
ghost use Rattle.byte_streams.specs.Fill.{Grows, GrowsPartly};
ghost use Rattle.byte_streams.specs.declared.filling.FillFault.TheVariants.{WantOfMemory};

use crate::inlet::Inlet;
use std::alloc::AllocError;
use thiserror::Error;

/// Why a stream is not read on.
#[derive(Clone, Copy, Debug, PartialEq, Eq, Error)]
pub enum FillFault {
    /// Memory ran out.
    #[error("out of memory")]
    WantOfMemory,
    /// A read failed.
    #[error("a read failed")]
    Read,
}

impl From<AllocError> for FillFault {
    ghost from_gives = { λ _ e. e ≡ WantOfMemory };

    fn from(_e: AllocError) -> FillFault {
        FillFault::WantOfMemory
    }
}

/// Reads, by way of `piece`, until the batch has at least `size` bytes or the stream ends. Returns true at the end of the
/// stream. A batch that begins with at most `size` bytes ends with at most `size + piece.len()`. `piece` must not be empty.
///
/// What was read before a read that failed is in the batch. At `WantOfMemory` what was read last is lost, at most
/// `piece.len()` bytes, and the batch has what was read before.
pub fn fill<I: Inlet>(
    batch: &mut Vec<u8>,
    input: &mut I,
    piece: &mut [u8],
    size: usize,
) -> Result<bool, FillFault>
    requires some { 0 < length piece.old }
    requires whole { I.is_broken input.old ≡ false }
    ensures room { length piece.new ≡ length piece.old }
    ensures grows { OnOk result (Grows (I.bytes input.old) (I.bytes input.new) batch.old.items batch.new.items) }
    ensures ended { IfOk result (λ ended. ended ≡ true → IsAtEnd (I.bytes input.new)) }
    ensures full { IfOk result (λ ended. ended ≡ false → size ≤ length batch.new.items) }
    ensures few { OnOk result (length batch.old.items ≤ size → length batch.new.items ≤ size + length piece.old) }
    ensures unbroken { OnOk result (I.is_broken input.new ≡ false) }
    ensures broken { IfErr result (λ e. e ≡ FillFault.Read → I.is_broken input.new ≡ true) }
    ensures read { IfErr result (λ e. e ≡ FillFault.Read → Grows (I.bytes input.old) (I.bytes input.new) batch.old.items batch.new.items) }
    ensures partly { OnErr result (GrowsPartly (length piece.old) (I.bytes input.old) (I.bytes input.new) batch.old.items batch.new.items) }
{
    'reads: while batch.len() < size {
        let n = read_piece(input, piece)?;
        if n == 0 {
            return Ok(true);
        }
        batch.extend_from_slice(&piece[..n])?;
    }
    Ok(false)
}

/// Reads once.
fn read_piece<I: Inlet>(input: &mut I, piece: &mut [u8]) -> Result<usize, FillFault>
    requires { I.is_broken input.old ≡ false }
    ensures room { length piece.new ≡ length piece.old }
    ensures bound { IfOk result (λ n. n ≤ length piece.new) }
    ensures bytes { IfOk result (λ n. Consumes (I.bytes input.old) (I.bytes input.new) (take n piece.new)) }
    ensures end { IfOk result (λ n. n ≡ 0 → 0 < length piece.new → IsAtEnd (I.bytes input.new)) }
    ensures unbroken { OnOk result (I.is_broken input.new ≡ false) }
    ensures broken { IfErr result (λ e. (e ≡ FillFault.Read) × (I.is_broken input.new ≡ true)) }
    ensures kept { OnErr result (Keeps (I.bytes input.old) (I.bytes input.new)) }
{
    match input.read(piece) {
        Ok(n) => Ok(n),
        Err(_) => Err(FillFault::Read),
    }
}
