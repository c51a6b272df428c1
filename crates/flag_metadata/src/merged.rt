//! The metadata of several documents together.
ghost use Rattle.std.specs.Prelude.{◌≡◌, ◌++◌, ◌∷◌, [], IfOk, OnErr, OnOk, option_map, string_bytes};
ghost use Rattle.flag_metadata.specs.Document.{broken_of, document_of};
ghost use Rattle.flag_metadata.specs.Merged.{all_entries, entries_of, flag_metadata, merged_metadata};
ghost use Rattle.flag_metadata.specs.Spelled.{by_name};
ghost use Rattle.flag_metadata.specs.View.{broken_view, entries_view, lent_view, metadata_view};

use crate::document::{Broken, DocumentMetadata};
use crate::member::Member;
use crate::object::{in_order, object_text, push_members, put_all};
use crate::read::read_metadata;
use std::alloc::{AllocError, Global};
use std::collections::BTreeMap;

/// The metadata of documents and of their flags. A flag is described by the members of the latest document that has it, and by its
/// own, which win over those of the same name.
#[derive(Drop)]
pub struct Metadata {
    pub(crate) documents: Vec<DocumentMetadata>,
}

impl Metadata {
    /// That of no documents. It takes no memory.
    pub fn none(alloc: Global) -> Metadata
        ensures { metadata_view result ≡ [] }
    {
        Metadata {
            documents: Vec::new(alloc),
        }
    }

    /// Adds the metadata of the document that the bytes are, as that of the latest, and answers which of it is broken. Bytes that are
    /// no document have none. Where memory runs out it is as it was.
    pub fn add(&mut self, alloc: Global, bytes: &[u8]) -> Result<Broken, AllocError>
        ensures adds { OnOk result (metadata_view self.new ≡ metadata_view self.old ++ document_of bytes.now ∷ []) }
        ensures broken { IfOk result (λ broken. broken_view broken ≡ broken_of bytes.now) }
        ensures stays { OnErr result (metadata_view self.new ≡ metadata_view self.old) }
    {
        let (metadata, broken) = read_metadata(alloc, bytes)?;
        self.documents.push(metadata)?;
        Ok(broken)
    }

    /// Adds the text of the metadata of the flag of a key, an object, its members by name.
    #[tactic(auto, unfolding(crate::specs::Merged::flag_metadata))]
    pub fn push_flag(&self, alloc: Global, text: &mut String, key: &str) -> Result<(), AllocError>
        ensures { OnOk result (string_bytes text.new ≡ string_bytes text.old ++ flag_metadata (metadata_view self.now) key.now) }
    {
        let (document, own) = self.members_of(key);
        push_members(alloc, text, document, own)
    }

    /// The members of the latest document that has the flag, and those of the flag.
    fn members_of(&self, key: &str) -> (&[Member], &[Member])
        ensures { entries_view result.0.now ++ entries_view result.1.now ≡ entries_of (metadata_view self.now) key.now }
    {
        let mut found: (&[Member], &[Member]) = (&[], &[]);
        for document in &self.documents {
            found = document.describe(key, found);
        }
        found
    }

    /// The text of the metadata of all documents, an object, its members by name: of one name that of the latest counts. None where no
    /// document has a member.
    #[tactic(auto, unfolding(crate::specs::Merged::merged_metadata))]
    pub fn merged(&self, alloc: Global) -> Result<Option<String>, AllocError>
        ensures { IfOk result (λ text. option_map string_bytes text ≡ merged_metadata (metadata_view self.now)) }
    {
        let members = in_order(alloc, self.by_name(alloc)?)?;
        object_text(alloc, members.as_slice())
    }

    /// The members of all documents, by name.
    fn by_name(&self, alloc: Global) -> Result<BTreeMap<&str, &str>, AllocError>
        ensures { IfOk result (λ m. lent_view m.entries ≡ by_name (all_entries (metadata_view self.now))) }
    {
        let mut by_name = BTreeMap::new(alloc);
        for document in &self.documents {
            put_all(&mut by_name, document.document.as_slice())?;
        }
        Ok(by_name)
    }
}
