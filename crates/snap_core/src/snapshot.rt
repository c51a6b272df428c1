ghost use Rattle.std.specs.Prelude.{◌≡◌, IfOk};
ghost use Rattle.flag_defs.specs.Floats.{floats_view};
ghost use Rattle.snap_core.specs.HubView.{snapshot_view};

use flag_defs::Flags;
use std::alloc::{AllocError, Global};

/// Published flags with their number, from 1.
#[derive(Drop)]
pub struct Snapshot {
    /// The place among the published flags, from 1.
    pub number: u64,
    /// The flags, whole.
    pub flags: Flags,
}

impl Snapshot {
    /// An equal snapshot. Want of memory is its one fault.
    pub fn copy(&self, alloc: Global) -> Result<Snapshot, AllocError>
        ensures value { IfOk result (λ s. snapshot_view s ≡ snapshot_view self.now) }
        ensures floats { IfOk result (λ s. floats_view s.flags ≡ floats_view self.now.flags) }
    {
        let flags = self.flags.copy(alloc)?;
        Ok(Snapshot {
            number: self.number,
            flags,
        })
    }
}
