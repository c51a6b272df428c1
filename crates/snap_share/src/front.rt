//! What was seen of the history.
ghost use Rattle.std.specs.Prelude.{◌≡◌, ◌+◌, ◌<◌, ◌^◌, ◌++◌, ◌∷◌, [], length, Some};
ghost use Rattle.std.specs.Bool.{MatchBool, OnTrue};
ghost use mathlib.Core.List.{IsPrefix};
ghost use Rattle.snap_share.specs.Known.{last_of};

use crate::history::{Add, Head, Law, Nothing, ShareName};
use flag_defs::Flags;
use logbook::{Offer, Seen};
use std::marker::{Model, PhantomData};

/// A prefix of the history that was seen. Contracts see it as its flags.
#[derive(Drop)]
pub struct HistoryPrefix<J: ShareName> {
    count: u64,
    seen: Seen<Flags, u64, Law>,
    of: PhantomData<J>,
}

impl<J: ShareName> Model for HistoryPrefix<J> {
    ghost use Rattle.std.specs.Prelude.{◌≡◌, List, length};
    ghost use Rattle.flag_defs.specs.declared.flags.Flags.{Flags};
    ghost use Rattle.flag_defs.specs.contracts.flags.Flags as entry;
    ghost use Rattle.std.specs.Coded.{codes};

    ghost Value = { List Flags };

    ghost coded = { Prim.hlevel (codes, entry.the_row.coded) };

    ghost view = { λ f. f.seen.log };

    ghost invariant = { λ f. (f.count ≡ length f.seen.log) × (f.seen.book ≡ J.book) };
}

impl<J: ShareName> HistoryPrefix<J> {
    pub(crate) fn of(seen: Seen<Flags, u64, Law>) -> HistoryPrefix<J>
        requires { (seen.log ≡ []) × (seen.book ≡ J.book) }
        ensures { result ≡ [] }
    {
        HistoryPrefix {
            count: 0,
            seen,
            of: PhantomData,
        }
    }

    /// How many flags it has.
    pub(crate) fn len(&self) -> u64
        ensures { result ≡ length self.now }
    {
        self.count
    }

    /// A copy.
    pub(crate) fn again(&self) -> HistoryPrefix<J>
        ensures { result ≡ self.now }
    {
        HistoryPrefix {
            count: self.count,
            seen: self.seen.again(),
            of: PhantomData,
        }
    }

    /// True if this prefix is not longer than the other, and so begins it; else the other begins this one.
    pub(crate) fn begins(&self, other: &HistoryPrefix<J>) -> bool
        ensures { MatchBool result (IsPrefix self.now other.now) (IsPrefix other.now self.now) }
    {
        let mut both = self.seen.again();
        both.learn(&other.seen);
        if self.count > other.count {
            return false;
        }
        true
    }

    /// Two of one length are the same.
    pub(crate) fn agree(&self, other: &HistoryPrefix<J>)
        requires { length self.now ≡ length other.now }
        ensures { self.now ≡ other.now }
    {
        self.begins(other);
    }

    /// Puts flags behind all that was seen, and says whether it did. It did not where the history is longer, which it is not
    /// while one publisher alone adds to it.
    pub(crate) fn add(&mut self, head: &Head<J>, flags: &Flags) -> bool
        requires room { length self.old + 1 < 2 ^ 64 }
        ensures { OnTrue result (self.new ≡ self.old ++ flags.now ∷ []) }
    {
        let mut offer: Offer<Flags, u64, Law, Nothing> = self
            .seen
            .plain::<Nothing, Flags, Add>(flags);
        let mut pen = self.seen.no_pen();
        let count = self.count;
        let found = head
            .word
            .compare_exchange::<Add, Nothing>(
                count,
                count + 1,
                &mut self.seen,
                &mut offer,
                &mut pen,
            );
        self.count = if found == count { count + 1 } else { found };
        found == count
    }
}
