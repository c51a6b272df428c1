//! What readers take: a snapshot, and the history whose last its flags are.
ghost use Rattle.std.specs.Prelude.{◌≡◌, length, IfOk};
ghost use Rattle.std.specs.Bool.{MatchBool};
ghost use Rattle.std.specs.Arc.{arc_value};
ghost use Rattle.snap_share.specs.Known.{IsSnapshotOf};

use crate::front::HistoryPrefix;
use crate::history::ShareName;
use std::alloc::AllocError;
use std::marker::Model;
use std::sync::Arc;
use sync_frames::SharedSnapshot;

/// A published snapshot, with the history up to its flags. Contracts see it as that history.
#[derive(Drop)]
pub struct Stamp<J: ShareName> {
    snapshot: SharedSnapshot,
    front: HistoryPrefix<J>,
}

impl<J: ShareName> Model for Stamp<J> {
    ghost use Rattle.std.specs.Prelude.{List};
    ghost use Rattle.std.specs.Arc.{arc_value};
    ghost use Rattle.flag_defs.specs.declared.flags.Flags.{Flags};
    ghost use Rattle.flag_defs.specs.contracts.flags.Flags as entry;
    ghost use Rattle.std.specs.Coded.{codes};
    ghost use Rattle.snap_share.specs.Known.{IsSnapshotOf};

    ghost Value = { List Flags };

    ghost coded = { Prim.hlevel (codes, entry.the_row.coded) };

    ghost view = { λ stamp. stamp.front };

    ghost invariant = { λ stamp. IsSnapshotOf stamp.front (arc_value stamp.snapshot) };
}

impl<J: ShareName> Stamp<J> {
    pub(crate) fn of(snapshot: SharedSnapshot, front: HistoryPrefix<J>) -> Stamp<J>
        requires { IsSnapshotOf front (arc_value snapshot) }
        ensures { result ≡ front }
    {
        Stamp { snapshot, front }
    }

    /// The same, once more.
    pub(crate) fn another(&self) -> Result<Stamp<J>, AllocError>
        ensures { IfOk result (λ s. s ≡ self.now) }
    {
        let snapshot = Arc::try_clone(&self.snapshot)?;
        Ok(Stamp::of(snapshot, self.front.again()))
    }

    /// Takes the place of this one where it is there and has this number, and says whether it did.
    pub(crate) fn becomes(&mut self, next: Option<Stamp<J>>, number: u64) -> bool
        ensures { MatchBool result (length self.new ≡ number) (self.new ≡ self.old) }
    {
        match next {
            Some(next) if next.front.len() == number => {
                *self = next;
                true
            }
            _ => false,
        }
    }

    /// The history up to the flags.
    pub(crate) fn front(&self) -> &HistoryPrefix<J>
        ensures { result.now ≡ self.now }
    {
        &self.front
    }

    /// The snapshot.
    pub(crate) fn into_snapshot(self) -> SharedSnapshot
        ensures { IsSnapshotOf self (arc_value result) }
    {
        let Stamp {
            snapshot,
            front: _front,
        } = self;
        snapshot
    }
}
