//! A snapshot with its frame.
ghost use Rattle.std.specs.Prelude.{◌≡◌, IfOk};
ghost use Rattle.sync_frames.specs.Snapshots.{snapshot_view};
ghost use Rattle.sync_frames.specs.Framed.{IsFrameOf};

use crate::write::write_frame;
use flag_defs::Flags;
use snap_core::Snapshot;
use std::alloc::{AllocError, Global};
use std::marker::Model;
use std::sync::Arc;

/// A snapshot with its frame, which is printed once, however many send it. Contracts see it as the snapshot.
#[derive(Drop)]
pub struct FramedSnapshot {
    snapshot: Snapshot,
    frame: Vec<u8>,
}

/// A snapshot that all who send or read it share.
pub type SharedSnapshot = Arc<FramedSnapshot>;

impl Model for FramedSnapshot {
    ghost use Rattle.sync_frames.specs.Snapshots.{snapshot_view};
    ghost use Rattle.snap_core.specs.declared.snapshot.Snapshot.{Snapshot};
    ghost use Rattle.snap_core.specs.contracts.snapshot.Snapshot as entry;
    ghost use Rattle.sync_frames.specs.Framed.{IsFrameOf};

    ghost Value = { Snapshot };

    ghost coded = { entry.the_row.coded };

    ghost view = { λ framed. framed.snapshot };

    ghost invariant = { λ framed. IsFrameOf (snapshot_view framed.snapshot) framed.frame.items };
}

impl FramedSnapshot {
    /// The snapshot with its frame, as [`write_frame`] writes it. It fails only where memory runs out.
    pub fn make(alloc: Global, snapshot: Snapshot) -> Result<FramedSnapshot, AllocError>
        ensures { IfOk result (λ framed. framed ≡ snapshot) }
    {
        let frame = write_frame(alloc, &snapshot)?;
        Ok(FramedSnapshot { snapshot, frame })
    }

    /// The place among the published flags, from 1.
    pub fn number(&self) -> u64
        ensures { result ≡ self.now.number }
    {
        self.snapshot.number
    }

    /// The flags, whole.
    pub fn flags(&self) -> &Flags
        ensures { result.now ≡ self.now.flags }
    {
        &self.snapshot.flags
    }

    /// The frame's bytes.
    pub fn frame(&self) -> &[u8]
        ensures { IsFrameOf (snapshot_view self.now) result.now }
    {
        self.frame.as_slice()
    }
}
