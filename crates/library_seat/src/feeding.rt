//! Streams of snapshots, in pieces.
ghost use Rattle.std.specs.Prelude.{◌≡◌, ◌≢◌, ℕ, List, [], Some, None, IfErr, IfOk, IsErrOf, IsOk, option_map, true, ◌↔◌};
ghost use Rattle.std.specs.List.{last_or};
ghost use Rattle.sync_frames.specs.Snapshots.{Numbered, snapshot_view};
ghost use Rattle.sync_frames.specs.Feed.{snapshots_view, waiting_in};
ghost use Rattle.sync_frames.specs.Frames.{IsDone};
ghost use Rattle.sync_frames.specs.declared.fault.FrameFault.{FrameFault as Fault};
ghost use Rattle.sync_frames.specs.declared.fault.FrameFault.TheVariants as frame;
ghost use Rattle.library_seat.specs.Connection.{HasGiven, ShowsNow, begun};
ghost use Rattle.library_seat.specs.Feeding.{Brings, Feeding, HearsNothing, IsIdle, Refuses, hearing};
ghost use Rattle.library_seat.specs.Refusal.{of_frame};
ghost use Rattle.library_seat.specs.Seat.{with_connection};
ghost use Rattle.library_seat.specs.View.{connection_view, seat_view};
ghost use Rattle.library_seat.specs.declared.refusal.Refusal.TheVariants as refusal;

use crate::held::HeldFlags;
use crate::refusal::Refusal;
use crate::seat::Seat;
use snap_core::Snapshot;
use std::alloc::Global;
use sync_frames::{Feed, FrameFault};

impl Seat {
    /// Takes the next piece of a stream, cut anywhere. Where it makes frames of snapshots whole, the seat has the flags of the
    /// newest from now on, `number` is its number, and `came` says so. A fault of the stream comes as
    /// [`sync_frames::Feed::feed`] says it, and leaves the flags. Where memory runs out the piece is not taken. A piece without a
    /// byte takes none, and changes nothing where no fault waits.
    pub fn feed(
        &mut self,
        alloc: Global,
        piece: &[u8],
        number: &mut u64,
        came: &mut bool,
    ) -> Result<(), Refusal>
        ensures feeding { Feeding piece.now result
            (record { seat = seat_view self.old; number = number.old; came = came.old })
            (record { seat = seat_view self.new; number = number.new; came = came.new }) }
        // these need no memory
        ensures waiting { (fault : Fault) → waiting_in (seat_view self.old).connection.stage ≡ Some fault → IsErrOf result (of_frame fault) }
        ensures length { ShowsNow (seat_view self.old).connection piece.now frame.Length → IsErrOf result (refusal.Frame frame.Length) }
        ensures stays { ShowsNow (seat_view self.old).connection piece.now frame.NotRising → IsErrOf result (refusal.Frame frame.NotRising) }
        ensures idle { IsIdle piece.now (seat_view self.old).connection → IsOk result × HearsNothing
            (record { seat = seat_view self.old; number = number.old; came = came.old })
            (record { seat = seat_view self.new; number = number.new; came = came.new }) }
    {
        match take_piece(alloc, &mut self.feed, piece) {
            Ok(newest) => {
                self.hear(newest, number, came);
                Ok(())
            }
            Err(refusal) => Err(refusal),
        }
    }

    /// From now on the pieces are of a new connection, whose numbers begin again. The flags stay.
    pub fn connect(&mut self, alloc: Global)
        ensures { seat_view self.new ≡ with_connection begun (seat_view self.old) }
    {
        self.feed = new_feed(alloc);
    }

    /// Whether what came over the connection is whole frames and nothing else.
    pub fn at_frame_end(&self) -> bool
        ensures { (stream : List ℕ) → HasGiven (seat_view self.now).connection stream → (result ≡ true ↔ IsDone stream) }
    {
        self.feed.done()
    }

    /// The seat has the flags of the newest snapshot, where one came.
    fn hear(&mut self, newest: Option<Snapshot>, number: &mut u64, came: &mut bool)
        ensures { record { seat = seat_view self.new; number = number.new; came = came.new } ≡ hearing (option_map snapshot_view newest)
            (record { seat = seat_view self.old; number = number.old; came = came.old }) }
    {
        match newest {
            Some(snapshot) => {
                *number = snapshot.number;
                self.flags = Some(HeldFlags::Own(snapshot.flags));
                *came = true;
            }
            None => *came = false,
        }
    }
}

/// A feed to which nothing came.
pub(crate) fn new_feed(alloc: Global) -> Feed
    ensures { connection_view result ≡ begun }
{
    Feed::new(alloc)
}

/// Takes a piece, and answers the newest of the snapshots that it makes whole.
fn take_piece(alloc: Global, feed: &mut Feed, piece: &[u8]) -> Result<Option<Snapshot>, Refusal>
    ensures brings { IfOk result (λ newest. (snapshots : List Numbered)
        × Brings piece.now snapshots (connection_view feed.old) (connection_view feed.new)
        × (option_map snapshot_view newest ≡ last_or None snapshots)) }
    ensures refuses { IfErr result (λ e. Refuses piece.now e (connection_view feed.old) (connection_view feed.new)) }
    ensures waiting { (fault : Fault) → waiting_in (connection_view feed.old).stage ≡ Some fault → IsErrOf result (of_frame fault) }
    ensures length { ShowsNow (connection_view feed.old) piece.now frame.Length → IsErrOf result (refusal.Frame frame.Length) }
    ensures stays { ShowsNow (connection_view feed.old) piece.now frame.NotRising → IsErrOf result (refusal.Frame frame.NotRising) }
    ensures idle { IsIdle piece.now (connection_view feed.old) → IsOk result }
{
    match feed.feed(alloc, piece) {
        Ok(snapshots) => Ok(newest_of(snapshots)),
        Err(fault) => refused(piece, fault),
    }
}

/// What a fault of a piece comes to. There is nothing to take memory for where the piece has no byte.
fn refused(piece: &[u8], fault: FrameFault) -> Result<Option<Snapshot>, Refusal>
    ensures nothing { IfOk result (λ newest. (newest ≡ None) × (piece.now ≡ []) × (fault ≡ frame.WantOfMemory)) }
    ensures refused { IfErr result (λ e. (e ≡ of_frame fault) × (fault ≡ frame.WantOfMemory → piece.now ≢ [])) }
{
    match fault {
        FrameFault::WantOfMemory if piece.is_empty() => Ok(None),
        fault => Err(Refusal::of_frame(fault)),
    }
}

/// The newest of snapshots, which is the last.
fn newest_of(snapshots: Vec<Snapshot>) -> Option<Snapshot>
    ensures { option_map snapshot_view result ≡ last_or None (snapshots_view snapshots.items) }
{
    let mut snapshots = snapshots;
    snapshots.pop()
}
