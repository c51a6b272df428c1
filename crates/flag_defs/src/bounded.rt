//! The limits of flags together.
ghost use Rattle.std.specs.Prelude.{◌≡◌, ◌<◌, length, nat_lt, IfOk, IsErrOf};
ghost use Rattle.std.specs.Cmp.Lexicographic.{slice_cmp};
ghost use Rattle.std.specs.List.Sorted.{IsStrictlySortedBy};
ghost use Rattle.std.specs.Map.{keys_of};
ghost use Rattle.std.specs.Ordering.{nat_cmp};
ghost use Rattle.flag_text.specs.Outcome.{GivesUnless};
ghost use Rattle.flag_defs.specs.Document.{limited, max_bytes, max_flags, printed};
ghost use Rattle.flag_defs.specs.Flag.{entries_view};
ghost use Rattle.flag_defs.specs.Lent.{lent_view};
ghost use Rattle.flag_defs.specs.Flags.{flags_view};

use crate::fault::DefFault;
use crate::flag::Flag;
use crate::flags::Flags;
use crate::lent::are_heavy;
use flag_metadata::Metadata;
use limits::FLAGS;
use std::alloc::{AllocError, Global};

/// Flags of these entries, unless there are too many or they are printed in too many bytes.
pub(crate) fn limited(alloc: Global, flags: Vec<(String, Flag)>) -> Result<Flags, DefFault>
    requires { IsStrictlySortedBy (slice_cmp nat_cmp) (keys_of (entries_view flags.items)) }
    ensures exact { GivesUnless DefFault.WantOfMemory flags_view result (limited (entries_view flags.items)) }
    ensures same { IfOk result (λ fs. fs.flags.items ≡ flags.items) }
    ensures many { max_flags < length flags.items → IsErrOf result DefFault.TooLarge }
{
    if flags.len() > FLAGS {
        return Err(DefFault::TooLarge);
    }
    if weighs_too_much(alloc, flags.as_slice())? {
        return Err(DefFault::TooLarge);
    }
    Ok(Flags {
        flags,
        metadata: Metadata::none(alloc),
    })
}

/// Whether flags are printed in more bytes than a document may have. None is printed for it.
fn weighs_too_much(alloc: Global, flags: &[(String, Flag)]) -> Result<bool, AllocError>
    requires { IsStrictlySortedBy (slice_cmp nat_cmp) (keys_of (entries_view flags.now)) }
    ensures { IfOk result (λ b. b ≡ nat_lt max_bytes (length (printed (entries_view flags.now)))) }
{
    let lent = lent(alloc, flags)?;
    Ok(are_heavy(lent.as_slice()))
}

/// The same flags under the same keys, lent.
fn lent<'a>(
    alloc: Global,
    flags: &'a [(String, Flag)],
) -> Result<Vec<(&'a str, &'a Flag)>, AllocError>
    ensures { IfOk result (λ v. lent_view v.items ≡ entries_view flags.now) }
{
    let mut lent = Vec::with_capacity(alloc, flags.len())?;
    for (key, flag) in flags {
        lent.push((key.as_str(), flag))?;
    }
    Ok(lent)
}
