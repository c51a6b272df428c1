//! What documents say of themselves and of their flags, beside what the flags are.
ghost use Rattle.std.specs.Prelude.{◌≡◌, IfOk, map};
ghost use Rattle.flag_defs.specs.Flags.{flags_view};
ghost use Rattle.flag_metadata.specs.Document.{document_of};
ghost use Rattle.flag_metadata.specs.View.{metadata_view};
ghost use Rattle.flagops_streams.specs.Documents.{texts_of};
ghost use Rattle.source_merge.specs.View.{sources_view};
ghost use Rattle.flagops_service.specs.Merging.{AreDescribed, AreMerged};

use crate::watched::Watched;
use flag_defs::Flags;
use flag_metadata::Metadata;
use source_merge::SourceFault;
use std::alloc::{AllocError, Global};

/// The metadata of documents, of which the last is the latest.
fn metadata_of(alloc: Global, texts: &[Vec<u8>]) -> Result<Metadata, AllocError>
    ensures { IfOk result (λ metadata. metadata_view metadata ≡ map document_of (texts_of texts.now)) }
{
    let mut metadata = Metadata::none(alloc);
    for text in texts {
        metadata.add(alloc, text.as_slice())?;
    }
    Ok(metadata)
}

impl Watched<'_> {
    /// The same flags with the metadata of the documents.
    pub(crate) fn described(&self, flags: Flags) -> Result<Flags, AllocError>
        ensures value { IfOk result (λ fs. flags_view fs ≡ flags_view flags) }
        ensures described { IfOk result (AreDescribed (texts_of self.now.accepted.items)) }
    {
        let metadata = metadata_of(self.alloc, self.accepted.as_slice())?;
        Ok(flags.with_metadata(metadata))
    }

    /// The merge of the documents, with their metadata.
    pub(crate) fn merged(&self) -> Result<Flags, SourceFault>
        ensures merged { IfOk result (AreMerged (sources_view self.now.sources)) }
        ensures described { IfOk result (AreDescribed (texts_of self.now.accepted.items)) }
    {
        let flags = self.sources.merged(self.alloc)?;
        Ok(self.described(flags)?)
    }
}
