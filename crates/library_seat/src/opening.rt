//! Documents.
ghost use Rattle.std.specs.Prelude.{◌≡◌, ◌≢◌, ◌<◌, ◌≤◌, true, false, length, Ok, IfErr, IfOk, IsErrOf};
ghost use Rattle.std.specs.Str.{is_utf8};
ghost use Rattle.flag_defs.specs.Document.{DocumentMeans, max_bytes};
ghost use Rattle.flag_defs.specs.Flags.{flags_view};
ghost use Rattle.flag_defs.specs.Floats.{are_unmarked, floats_view};
ghost use Rattle.flag_defs.specs.declared.fault.DefFault.TheVariants as fault;
ghost use Rattle.library_seat.specs.Told.{IsRefused};
ghost use Rattle.library_seat.specs.declared.refusal.Refusal.TheVariants as refusal;

use crate::refusal::Refusal;
use flag_defs::{Flags, read_flags};
use std::alloc::Global;

/// The flags of a document.
pub(crate) fn flags_of(alloc: Global, document: &[u8]) -> Result<Flags, Refusal>
    ensures flags { IfOk result (λ flags. DocumentMeans document.now (Ok (flags_view flags))) }
    ensures floats { IfOk result (λ flags. are_unmarked (floats_view flags) ≡ true) }
    ensures refused { IfErr result (λ e. e ≢ refusal.WantOfMemory → IsRefused document.now e) }
    ensures large { max_bytes < length document.now → IsErrOf result (refusal.Document fault.TooLarge) }
    ensures no_text { length document.now ≤ max_bytes → is_utf8 document.now ≡ false → IsErrOf result (refusal.Document fault.NotJson) }
{
    match read_flags(alloc, document) {
        Ok(flags) => Ok(flags),
        Err(fault) => Err(Refusal::of_document(fault)),
    }
}
