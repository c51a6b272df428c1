//! The metadata of one document.
ghost use Rattle.std.specs.Prelude.{◌≡◌, ◌++◌, option_map};
ghost use Rattle.std.specs.Map.{lookup};
ghost use Rattle.std.specs.Str.{bytes_eq};
ghost use Rattle.flag_metadata.specs.Merged.{if_flag};
ghost use Rattle.flag_metadata.specs.View.{document_view, entries_view};

use crate::member::Member;
use std::collections::BTreeMap;

/// The members of a document's metadata, and those of each of its flags.
#[derive(Drop)]
pub struct DocumentMetadata {
    pub(crate) document: Vec<Member>,
    pub(crate) flags: BTreeMap<String, Vec<Member>>,
}

/// Metadata that has no members, since it is no object, or a value in it is no boolean, number or text.
#[derive(Drop)]
pub struct Broken {
    /// Whether that of the document is.
    pub document: bool,
    /// The keys of the flags of which it is, in the order of the document.
    pub flags: Vec<String>,
}

impl DocumentMetadata {
    /// Its members and those of the flag of a key, where it has the flag, and else what was found.
    pub(crate) fn describe<'a>(
        &'a self,
        key: &str,
        found: (&'a [Member], &'a [Member]),
    ) -> (&'a [Member], &'a [Member])
        ensures { entries_view result.0.now ++ entries_view result.1.now ≡ if_flag (entries_view found.entry.0.now ++ entries_view found.entry.1.now) (document_view self.now) (lookup (bytes_eq key.now) (document_view self.now).flags) }
    {
        match self.own_members(key) {
            Some(own) => (self.document.as_slice(), own),
            None => found,
        }
    }

    /// The members of the flag of a key, where it has the flag.
    fn own_members(&self, key: &str) -> Option<&[Member]>
        ensures { option_map (λ own. entries_view own.now) result ≡ lookup (bytes_eq key.now) (document_view self.now).flags }
    {
        match self.flags.get(key) {
            Some(own) => Some(own.as_slice()),
            None => None,
        }
    }
}
