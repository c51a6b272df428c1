//! Flags by their keys.
ghost use Rattle.std.specs.Prelude.{◌≡◌, ◌≤◌, ◌<◌, ◌↔◌, true, [], length, Some};
ghost use Rattle.std.specs.Cmp.Lexicographic.{slice_cmp};
ghost use Rattle.std.specs.List.{slice_get};
ghost use Rattle.std.specs.List.Sorted.{IsStrictlySortedBy};
ghost use Rattle.std.specs.Map.{keys_of};
ghost use Rattle.std.specs.Ordering.{nat_cmp};
ghost use Rattle.std.proofs.lemmas.Map.Keys.{IsStrictlySortedBy-prop};
ghost use Rattle.flag_defs.specs.Document.{max_flags, max_bytes, printed};
ghost use Rattle.flag_defs.specs.Flag.{entries_view, flag_view};

use crate::flag::Flag;
use flag_metadata::Metadata;

/// Flags by their keys, which rise strictly as bytes: at most 10,000, printed in at most 4,194,304 bytes.
#[derive(Drop)]
pub struct Flags {
    pub(crate) flags: Vec<(String, Flag)>,
    /// That of the documents that they are of, where it was given them.
    pub(crate) metadata: Metadata,
    pub ghost rising: { IsStrictlySortedBy (slice_cmp nat_cmp) (keys_of (entries_view flags.items)) } by { IsStrictlySortedBy-prop (slice_cmp nat_cmp) (keys_of (entries_view flags.items)) },
    pub ghost few: { length flags.items ≤ max_flags },
    pub ghost small: { length (printed (entries_view flags.items)) ≤ max_bytes },
}

impl Flags {
    ghost use Rattle.flag_defs.specs.Flags.{flags_view, AreFlags};
    ghost use Rattle.flag_defs.specs.Floats.{floats_of, floats_view};
    ghost use Rattle.flag_defs.specs.SpelledLaw.{AreMarked};

    /// How many flags there are.
    pub fn len(&self) -> usize
        ensures value { result ≡ length (flags_view self.now) }
        ensures lawful { AreFlags (flags_view self.now) }
        ensures spelled { AreMarked (flags_view self.now) (floats_view self.now) }
    {
        self.flags.len()
    }

    /// Whether there are none.
    pub fn is_empty(&self) -> bool
        ensures { result ≡ true ↔ (flags_view self.now ≡ []) }
    {
        self.flags.is_empty()
    }

    /// The flag at a place in the order of the keys' bytes, with its key.
    pub fn at(&self, i: usize) -> (&str, &Flag)
        requires { i < length (flags_view self.now) }
        ensures { slice_get (flags_view self.now) i ≡ Some (result.0.now, flag_view result.1.now) }
    {
        self.entry(i)
    }

    /// The same, of which it is known whether the flag has floats, too.
    pub fn entry(&self, i: usize) -> (&str, &Flag)
        requires { i < length (flags_view self.now) }
        ensures value { slice_get (flags_view self.now) i ≡ Some (result.0.now, flag_view result.1.now) }
        ensures floats { slice_get (floats_view self.now) i ≡ Some (result.0.now, floats_of result.1.now) }
    {
        let (key, flag) = &self.flags[i];
        (key.as_str(), flag)
    }
}
