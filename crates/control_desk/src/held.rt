//! A snapshot with what is known of its documents.
ghost use Rattle.std.specs.Prelude.{◌≡◌};
ghost use Rattle.flag_defs.specs.Flags.{flags_view};
ghost use Rattle.control_answers.specs.Snapshot.{snapshot_view};
ghost use Rattle.control_desk.specs.Held.{held_view};

use control_answers::Snapshot;
use flag_defs::Flags;
use sync_frames::SharedSnapshot;

/// A snapshot with what is known of its documents beside their flags.
#[derive(Drop)]
pub(crate) struct HeldSnapshot {
    pub(crate) shared: SharedSnapshot,
    pub(crate) document: String,
    pub(crate) remarks: String,
}

impl HeldSnapshot {
    /// The snapshot, as it is answered from.
    pub(crate) fn snapshot(&self) -> Snapshot<'_>
        ensures { snapshot_view result ≡ held_view self.now }
    {
        Snapshot {
            number: self.shared.number(),
            document: self.document.as_str(),
            flags: self.shared.flags(),
        }
    }

    /// Its flags.
    pub(crate) fn flags(&self) -> &Flags
        ensures { flags_view result.now ≡ (held_view self.now).flags }
    {
        self.shared.flags()
    }
}
