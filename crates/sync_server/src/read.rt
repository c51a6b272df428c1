//! Reading a stream into a list.
ghost use Rattle.std.specs.Prelude.{◌≡◌, false, Some};
ghost use Rattle.sync_frames.specs.Feed.{snapshots_view};
ghost use Rattle.sync_server.specs.Ends.{ReadsTo};
ghost use Rattle.sync_server.specs.Reads.{ReadWithin};

use crate::end::ReadEnd;
use crate::follow::follow_stream;
use crate::sink::Sink;
use byte_streams::Inlet;
use snap_core::Snapshot;
use std::alloc::Global;

/// The snapshots that were taken, as a list.
#[derive(Drop)]
struct Collected {
    snapshots: Vec<Snapshot>,
    full: bool,
}

impl Sink for Collected {
    ghost use Rattle.std.specs.Prelude.{◌≡◌, [], ◌∷◌, ◌++◌};
    ghost use Rattle.sync_frames.specs.Feed.{snapshots_view};

    ghost took = { λ old s new. snapshots_view new.snapshots.items ≡ snapshots_view old.snapshots.items ++ s ∷ [] };

    ghost refused = { λ old s new. snapshots_view new.snapshots.items ≡ snapshots_view old.snapshots.items };

    ghost is_full = { λ c. c.full };

    fn take(&mut self, snapshot: Snapshot) -> bool {
        self.full = self.snapshots.push(snapshot).is_err();
        !self.full
    }
}

/// Reads the snapshots of a stream, as [`follow_stream`] hands them on. They are those of the bytes that were read; at
/// WantOfMemory, the first of them. The condition is an inlet that is not broken.
pub fn read_stream<I: Inlet>(alloc: Global, inlet: &mut I, limit: u64) -> (Vec<Snapshot>, ReadEnd)
    requires { I.is_broken inlet.old ≡ false }
    ensures ends { ReadsTo (I.bytes inlet.old) (I.bytes inlet.new) (I.is_broken inlet.new) (snapshots_view result.0.items) result.1 }
    ensures reads { ReadWithin I.was_read limit inlet.old inlet.new (Some result.1) }
{
    let snapshots = Vec::new(alloc);
    let mut collected = Collected {
        snapshots,
        full: false,
    };
    match follow_stream(alloc, inlet, &mut collected, limit) {
        Some(end) => (collected.snapshots, end),
        None => (collected.snapshots, ReadEnd::WantOfMemory),
    }
}
