//! What a text means, against what it should.
ghost use Rattle.std.specs.Prelude.{◌≡◌, ◌<◌, ◌↔◌, true, length, Ok, IfOk, IfErr, IsErrOf};
ghost use Rattle.flag_defs.specs.Document.{max_bytes};
ghost use Rattle.flag_defs.specs.Flags.{flags_view};
ghost use Rattle.flag_defs.specs.Floats.{MeansAs};
ghost use Rattle.kept_document.specs.Kept.{IsRefusedText, of_document};

use crate::fault::KeepFault;
use flag_defs::{DefFault, Flags, print_flags, read_flags_as};
use limits::TEXT_BYTES;
use std::alloc::{AllocError, Global};

/// The text itself, where it means these flags, read as one that may have floats, or may not.
///
/// Refusals, in this order: `TooLong`, before anything is read; `Differs`.
pub(crate) fn checked(
    alloc: Global,
    text: Vec<u8>,
    wanted: &Flags,
    floats: bool,
) -> Result<Vec<u8>, KeepFault>
    ensures same { IfOk result (λ v. v.items ≡ text.items) }
    ensures means { IfOk result (λ v. MeansAs floats v.items (Ok (flags_view wanted.now))) }
    ensures refused { IfErr result (IsRefusedText floats text.items (flags_view wanted.now)) }
    ensures long { max_bytes < length text.items → IsErrOf result KeepFault.TooLong }
{
    if text.len() > TEXT_BYTES {
        return Err(KeepFault::TooLong);
    }
    match read_flags_as(alloc, text.as_slice(), floats) {
        Ok(flags) => if are_same(alloc, &flags, wanted)? {
            Ok(text)
        } else {
            Err(KeepFault::Differs)
        },
        Err(fault) => Err(of_document(fault)),
    }
}

/// The fault of a text that is no document.
fn of_document(fault: DefFault) -> KeepFault
    ensures { result ≡ of_document fault }
{
    match fault {
        DefFault::WantOfMemory => KeepFault::WantOfMemory,
        DefFault::NotJson | DefFault::NoFlags | DefFault::TooLarge => KeepFault::Differs,
    }
}

/// Whether two documents' flags are the same: they are printed alike.
fn are_same(alloc: Global, one: &Flags, other: &Flags) -> Result<bool, AllocError>
    ensures { IfOk result (λ b. (b ≡ true) ↔ (flags_view one.now ≡ flags_view other.now)) }
{
    let one = print_flags(alloc, one)?;
    let other = print_flags(alloc, other)?;
    Ok(one.as_slice() == other.as_slice())
}
