//! Flags of a list, and copies.
ghost use Rattle.std.specs.Prelude.{◌≡◌, ◌<◌, length, IfOk, IsErrOf};
ghost use Rattle.std.specs.Cmp.Lexicographic.{slice_cmp};
ghost use Rattle.std.specs.List.Sorted.{IsStrictlySortedBy};
ghost use Rattle.std.specs.Map.{keys_of};
ghost use Rattle.std.specs.Ordering.{nat_cmp};
ghost use Rattle.flag_text.specs.Outcome.{GivesUnless};
ghost use Rattle.flag_defs.specs.Changes.{by_key};
ghost use Rattle.flag_defs.specs.Document.{limited, max_flags};
ghost use Rattle.flag_defs.specs.Flag.{entries_view};
ghost use Rattle.flag_defs.specs.Flags.{flags_view};
ghost use Rattle.flag_defs.specs.Floats.{entries_floats, floats_view, lent_floats, marks_by_key};
ghost use Rattle.flag_defs.specs.Lent.{lent_view};

use crate::bounded::limited;
use crate::copy::copy_entries;
use crate::fault::DefFault;
use crate::flag::Flag;
use crate::flags::Flags;
use crate::lent::{are_heavy, copy_lent};
use crate::sort::sort_entries;
use flag_metadata::Metadata;
use limits::FLAGS;
use std::alloc::{AllocError, Global};

impl Flags {
    /// The flags of a list of keys and flags, in any order. Of one key the last entry counts. It refuses more than 10,000
    /// flags, and flags that are printed in more than 4,194,304 bytes, with `TooLarge`.
    pub fn make(alloc: Global, entries: Vec<(String, Flag)>) -> Result<Flags, DefFault>
        ensures exact { GivesUnless DefFault.WantOfMemory flags_view result (limited (by_key (entries_view entries.items))) }
        ensures floats { IfOk result (λ fs. floats_view fs ≡ marks_by_key (entries_floats entries.items)) }
    {
        limited(alloc, sort_entries(alloc, entries)?)
    }

    /// Copies of flags that others hold, under their keys. `TooLarge` for more than 10,000 flags, which takes no memory, and
    /// for flags that are printed in more than 4,194,304 bytes: their bytes are counted first, and only
    /// then are they copied. The condition is keys that rise strictly as bytes.
    pub fn copied(alloc: Global, entries: &[(&str, &Flag)]) -> Result<Flags, DefFault>
        requires { IsStrictlySortedBy (slice_cmp nat_cmp) (keys_of (lent_view entries.now)) }
        ensures exact { GivesUnless DefFault.WantOfMemory flags_view result (limited (lent_view entries.now)) }
        ensures floats { IfOk result (λ fs. floats_view fs ≡ lent_floats entries.now) }
        ensures many { max_flags < length entries.now → IsErrOf result DefFault.TooLarge }
    {
        if entries.len() > FLAGS {
            return Err(DefFault::TooLarge);
        }
        if are_heavy(entries) {
            return Err(DefFault::TooLarge);
        }
        let flags = copy_lent(alloc, entries)?;
        Ok(Flags {
            flags,
            metadata: Metadata::none(alloc),
        })
    }

    /// Equal flags, without metadata.
    pub fn copy(&self, alloc: Global) -> Result<Flags, AllocError>
        ensures value { IfOk result (λ fs. flags_view fs ≡ flags_view self.now) }
        ensures floats { IfOk result (λ fs. floats_view fs ≡ floats_view self.now) }
    {
        let flags = copy_entries(alloc, self.flags.as_slice())?;
        Ok(Flags {
            flags,
            metadata: Metadata::none(alloc),
        })
    }
}
