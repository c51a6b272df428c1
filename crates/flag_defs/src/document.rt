//! From the bytes of a document to its flags.
ghost use Rattle.std.specs.Prelude.{◌≡◌, ◌<◌, ◌≤◌, true, false, length, IfOk, IsErrOf};
ghost use Rattle.std.specs.Str.{is_utf8};
ghost use Rattle.spelled_numbers.specs.Marks.{marks_of_text};
ghost use Rattle.flag_defs.specs.Document.{DocumentMeans, max_bytes};
ghost use Rattle.flag_defs.specs.Flags.{HoldsUnless, flags_view};
ghost use Rattle.flag_defs.specs.Floats.{AreMarkedAs, MeansAs, MeansWithFloats, are_unmarked, floats_view, marked};

use crate::bounded::limited;
use crate::entries::read_entries;
use crate::fault::DefFault;
use crate::flags::Flags;
use crate::marks::read_entries_with_floats;
use std::alloc::Global;

/// The flags of a document: a JSON object with the member `flags`, an object from key to definition, and perhaps
/// `$evaluators`, to which targetings refer. A definition that breaks a rule makes a broken flag.
///
/// Refusals, in this order: `TooLarge` above 4,194,304 bytes, before anything is read; `NotJson`; `NoFlags`; `TooLarge` for
/// more than 10,000 flags, and for flags that are printed in more than 4,194,304 bytes. The first, and `NotJson` of bytes
/// that are no UTF-8, take no memory. No targeting is expanded before it is known that all of them together have so few
/// bytes.
pub fn read_flags(alloc: Global, bytes: &[u8]) -> Result<Flags, DefFault>
    ensures means { HoldsUnless (DocumentMeans bytes.now) result }
    ensures floats { IfOk result (λ fs. are_unmarked (floats_view fs) ≡ true) }
    ensures large { max_bytes < length bytes.now → IsErrOf result DefFault.TooLarge }
    ensures no_text { length bytes.now ≤ max_bytes → is_utf8 bytes.now ≡ false → IsErrOf result DefFault.NotJson }
{
    let flags = read_entries(alloc, bytes)?;
    limited(alloc, flags)
}

/// The flags of a document whose variants may be any numbers of JSON. The values of variants that have a number which is not whole
/// stand as texts, which are their spelling, and [`Flag::has_floats`] tells that they do. A document whose numbers are all whole is
/// read as [`read_flags`] reads it.
///
/// The refusals are those of [`read_flags`], in the same order.
///
/// [`Flag::has_floats`]: crate::Flag::has_floats
pub fn read_flags_with_floats(alloc: Global, bytes: &[u8]) -> Result<Flags, DefFault>
    ensures means { HoldsUnless (MeansWithFloats bytes.now) result }
    ensures floats { IfOk result (λ fs. floats_view fs ≡ marked (marks_of_text bytes.now) (flags_view fs)) }
    ensures large { max_bytes < length bytes.now → IsErrOf result DefFault.TooLarge }
    ensures no_text { length bytes.now ≤ max_bytes → is_utf8 bytes.now ≡ false → IsErrOf result DefFault.NotJson }
{
    let flags = read_entries_with_floats(alloc, bytes)?;
    limited(alloc, flags)
}

/// The flags of a document as [`read_flags_with_floats`] reads it, where it may have floats, and else as [`read_flags`] does.
pub fn read_flags_as(alloc: Global, bytes: &[u8], floats: bool) -> Result<Flags, DefFault>
    ensures means { HoldsUnless (MeansAs floats bytes.now) result }
    ensures floats { IfOk result (λ fs. AreMarkedAs floats bytes.now (flags_view fs) (floats_view fs)) }
    ensures large { max_bytes < length bytes.now → IsErrOf result DefFault.TooLarge }
    ensures no_text { length bytes.now ≤ max_bytes → is_utf8 bytes.now ≡ false → IsErrOf result DefFault.NotJson }
{
    if floats {
        read_flags_with_floats(alloc, bytes)
    } else {
        read_flags(alloc, bytes)
    }
}
