//! Who takes the snapshots of a stream.
ghost use Rattle.std.specs.Prelude.{◌≡◌, Bool, false, not};
ghost use Rattle.std.specs.Bool.{MatchBool};
ghost use Rattle.sync_frames.specs.Snapshots.{Numbered, snapshot_view};

use snap_core::Snapshot;

/// Takes snapshots, one after the other. Contracts see what taking one makes of it, and whether it is full: it did not take
/// a snapshot that it was handed. A function that is handed a sink asks for one that is not full.
pub trait Sink {
    // What it was, the snapshot that it took, and what it then is.
    ghost took: { Self → Numbered → Self → Type 0 };

    // What it was, the snapshot that it did not take, and what it then is.
    ghost refused: { Self → Numbered → Self → Type 0 };

    // It did not take a snapshot that it was handed.
    ghost is_full: { Self → Bool };

    /// Takes a snapshot, and says whether it did.
    fn take(&mut self, snapshot: Snapshot) -> bool
        requires { is_full self.old ≡ false }
        ensures took { MatchBool result (took self.old (snapshot_view snapshot) self.new) (refused self.old (snapshot_view snapshot) self.new) }
        ensures full { is_full self.new ≡ not result };
}
