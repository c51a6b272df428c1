//! The seats that read.
ghost use Rattle.std.specs.Prelude.{◌≡◌, ◌+◌, true, Contains, None, Some, IfErr, IfOk, MatchResult};
ghost use mathlib.Core.List.{IsPrefix};
ghost use Rattle.std.specs.Arc.{arc_value};
ghost use Rattle.sync_frames.specs.Snapshots.{snapshot_view};
ghost use Rattle.snap_share.specs.Fault.{is_of_current};
ghost use Rattle.snap_share.specs.Known.{IsSnapshotOf, WasRead, snapshots_of};
ghost use Rattle.snap_share.specs.Lists.{StartsWith};

use crate::cell::{StampReader, read};
use crate::current::Current;
use crate::fault::ShareFault;
use crate::front::HistoryPrefix;
use crate::history::ShareName;
use crate::publisher::Told;
use crate::stamp::Stamp;
use core::mem::replace_with;
use http_server::Log;
use std::marker::Model;
use sync_frames::SharedSnapshot;

/// Reads the current snapshot, and never goes back. Contracts see it as the published flags that it knows, and how often it
/// was read.
#[derive(Drop)]
pub struct ReadSeat<J: ShareName> {
    pub(crate) reader: StampReader<J>,
    pub(crate) known: HistoryPrefix<J>,
    /// A pair for each time that what the copies show was read, which only proofs see.
    pub(crate) reads: Log<u8, u8>,
}

impl<J: ShareName> Model for ReadSeat<J> {
    ghost use Rattle.std.specs.Prelude.{length};
    ghost use Rattle.flag_defs.specs.contracts.flags.Flags as entry;
    ghost use Rattle.std.specs.Coded.{codes};
    ghost use Rattle.snap_share.specs.Known.{Seat};

    ghost Value = { Seat };

    ghost coded = { Prim.hlevel (codes, entry.the_row.coded) };

    ghost view = { λ seat. record { known = seat.known; reads = length seat.reads.items } };

    ghost invariant = { λ seat. Unit {0} };
}

impl<J: ShareName> ReadSeat<J> {
    pub(crate) fn of(reader: StampReader<J>, known: HistoryPrefix<J>) -> ReadSeat<J>
        ensures { result.known ≡ known }
    {
        ReadSeat {
            reader,
            known,
            reads: Log::new(),
        }
    }

    /// From now on it knows what was told, and answers nothing older.
    pub fn learn(&mut self, told: Told<J>)
        ensures grows { IsPrefix self.old.known self.new.known }
        ensures told { IsPrefix told self.new.known }
        ensures reads { self.new.reads ≡ self.old.reads }
    {
        if self.known.begins(&told.front) {
            self.known = told.front;
        }
    }

    /// The current snapshot, the last of what the seat then knows.
    fn read_on(&mut self) -> Result<SharedSnapshot, ShareFault>
        ensures forward { IsPrefix self.old.known self.new.known }
        ensures once { self.new.reads ≡ self.old.reads + 1 }
        ensures last { IfOk result (λ s. IsSnapshotOf self.new.known (arc_value s)) }
        ensures faults { IfErr result (λ fault. is_of_current fault ≡ true) }
    {
        let stamp = self.read_stamp()?;
        if !self.known.begins(stamp.front()) {
            return Err(ShareFault::Closed);
        }
        self.known = stamp.front().again();
        Ok(stamp.into_snapshot())
    }

    /// What the copies show.
    fn read_stamp(&mut self) -> Result<Stamp<J>, ShareFault>
        ensures stays { self.new.known ≡ self.old.known }
        ensures once { self.new.reads ≡ self.old.reads + 1 }
        ensures faults { IfErr result (λ fault. is_of_current fault ≡ true) }
    {
        self.reads = self.reads.and(&0, &0);
        replace_with(
            &mut self.reader,
            (),
            |reader: StampReader<J>, _nothing: ()| -> (StampReader<J>, Result<Stamp<J>, ShareFault>)
                ensures { IfErr result.1 (λ fault. is_of_current fault ≡ true) }
            { read(reader) },
        )
    }
}

impl<J: ShareName> Current for ReadSeat<J> {
    ghost known = { λ seat. snapshots_of seat.known };

    ghost was_read = { WasRead };

    /// The current snapshot: the last of what the seat then knows. It is refused with Closed where the publisher was given
    /// up, and with WantOfMemory where too many share it; what the seat knows may then have grown.
    fn current(&mut self) -> Result<SharedSnapshot, ShareFault>
        ensures grows { StartsWith (snapshots_of self.new.known) (snapshots_of self.old.known) }
        ensures known { IfOk result (λ s. Contains (snapshots_of self.new.known) (snapshot_view (arc_value s))) }
        ensures read { MatchResult result (λ s. WasRead self.old (Some (snapshot_view (arc_value s))) self.new) (λ _. WasRead self.old None self.new) }
        ensures last { IfOk result (λ s. IsSnapshotOf self.new.known (arc_value s)) }
        ensures faults { IfErr result (λ fault. is_of_current fault ≡ true) }
    {
        self.read_on()
    }
}
