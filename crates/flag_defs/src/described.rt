//! The metadata of the documents that flags are of.
ghost use Rattle.std.specs.Prelude.{◌≡◌};
ghost use Rattle.flag_defs.specs.Described.{described_by};
ghost use Rattle.flag_defs.specs.Flags.{flags_view};
ghost use Rattle.flag_defs.specs.Floats.{floats_view};
ghost use Rattle.flag_metadata.specs.View.{metadata_view};

use crate::flags::Flags;
use flag_metadata::Metadata;

impl Flags {
    /// The same flags with the metadata of the documents that they are of. It is no part of what they are: it is neither printed nor
    /// copied.
    pub fn with_metadata(self, metadata: Metadata) -> Flags
        ensures value { flags_view result ≡ flags_view self }
        ensures floats { floats_view result ≡ floats_view self }
        ensures metadata { described_by result ≡ metadata_view metadata }
    {
        let Flags {
            flags,
            metadata: _earlier,
        } = self;
        Flags { flags, metadata }
    }

    /// The metadata that they were given: that of no document, where none was.
    pub fn metadata(&self) -> &Metadata
        ensures { metadata_view result.now ≡ described_by self.now }
    {
        &self.metadata
    }
}
