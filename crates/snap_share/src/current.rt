//! Where the current snapshot is read.
ghost use Rattle.std.specs.Prelude.{◌≡◌, List, Contains, Option, None, Some, IfOk, MatchResult};
ghost use Rattle.std.specs.Arc.{arc_value};
ghost use Rattle.sync_frames.specs.Snapshots.{Numbered, snapshot_view};
ghost use Rattle.snap_share.specs.Lists.{StartsWith};

use crate::fault::ShareFault;
use sync_frames::SharedSnapshot;

/// A place that the current snapshot is read from. Contracts see the published snapshots that are known there, a list that
/// only grows and has each snapshot that was answered, and what a read makes of it.
pub trait Current {
    // The published snapshots that are known.
    ghost known: { Self → List Numbered };

    // What it was before it was read, the snapshot that it answered, if it did, and what it then is.
    ghost was_read: { Self → Option Numbered → Self → Type 0 };

    /// The current snapshot, which all who read it share. It waits for nobody, and copies no flags.
    fn current(&mut self) -> Result<SharedSnapshot, ShareFault>
        ensures grows { StartsWith (known self.new) (known self.old) }
        ensures known { IfOk result (λ s. Contains (known self.new) (snapshot_view (arc_value s))) }
        ensures read { MatchResult result (λ s. was_read self.old (Some (snapshot_view (arc_value s))) self.new) (λ _. was_read self.old None self.new) };
}
