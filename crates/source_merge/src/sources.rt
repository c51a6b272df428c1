ghost use Rattle.std.specs.Prelude.{◌≡◌, ◌≤◌, ◌<◌, [], ◌∷◌, ◌++◌, length, None, IfOk, OnOk, OnErr, IsErrOf, true, false, option_map};
ghost use Rattle.std.specs.Str.{is_utf8};
ghost use Rattle.flag_text.specs.Outcome.{GivesUnless};
ghost use Rattle.flag_defs.specs.Document.{limited, max_bytes};
ghost use Rattle.flag_defs.specs.Flags.{flags_view};
ghost use Rattle.flag_defs.specs.Floats.{floats_view, lent_floats};
ghost use Rattle.flag_defs.specs.Lent.{lent_view};
ghost use Rattle.source_merge.specs.Floats.{IsMarkedAs, IsMarkedBy, IsUnmarked, entries_floats, merged_marks, sources_floats, with_marks};
ghost use Rattle.source_merge.specs.Merge.{IsMerge, Rise, flags_or_fault, merged_of};
ghost use Rattle.source_merge.specs.Outcome.{Unless, outcome};
ghost use Rattle.source_merge.specs.Sources.{Sets, SetsAs, SetsWithFloats, added, cleared, entries_view, is_source, most_sources, with_document};

use crate::choice::chosen;
use crate::fault::SourceFault;
use flag_defs::{DefFault, Flag, Flags, read_flags, read_flags_with_floats};
use indexmap::IndexMap;
use limits::SOURCES;
use std::alloc::{AllocError, Global};

/// Sources of flags by their names, in the order in which they were added, each with the document that it last accepted.
#[derive(Drop)]
pub struct Sources {
    pub(crate) documents: IndexMap<String, Option<Flags>>,
}

impl Sources {
    ghost use Rattle.source_merge.specs.View.{sources_view};

    /// No sources. It takes no memory yet.
    pub fn new(alloc: Global) -> Sources
        ensures { sources_view result ≡ [] }
    {
        Sources {
            documents: IndexMap::new(alloc),
        }
    }

    /// Adds a source without a document, as the latest. Refusals, in this order: `Known` where there is one of this name,
    /// `TooMany` where there are 16. A refusal leaves the sources as they were; these two take no memory.
    pub fn add(&mut self, alloc: Global, name: &str) -> Result<(), SourceFault>
        ensures exact { GivesUnless SourceFault.WantOfMemory (λ _. sources_view self.new) result (added (sources_view self.old) name.now) }
        ensures floats { OnOk result (sources_floats self.new ≡ sources_floats self.old ++ (name.now, None) ∷ []) }
        ensures refused { OnErr result (sources_view self.new ≡ sources_view self.old) }
        ensures stay { OnErr result (sources_floats self.new ≡ sources_floats self.old) }
        ensures known { is_source name.now (sources_view self.old) ≡ true → IsErrOf result SourceFault.Known }
        ensures too_many { is_source name.now (sources_view self.old) ≡ false → most_sources ≤ length (sources_view self.old) → IsErrOf result SourceFault.TooMany }
    {
        if knows(&self.documents, name) {
            return Err(SourceFault::Known);
        }
        if self.documents.len() >= SOURCES {
            return Err(SourceFault::TooMany);
        }
        push(alloc, &mut self.documents, name)?;
        Ok(())
    }

    /// Reads a document and puts it in the place of the last one of a source, which keeps its place in the order. Refusals,
    /// in this order: `Unknown` where there is no source of this name, before anything is read; `Refused` where `read_flags`
    /// refuses. The last accepted document stays then.
    pub fn set(&mut self, alloc: Global, name: &str, bytes: &[u8]) -> Result<(), SourceFault>
        ensures exact { Unless SourceFault.WantOfMemory (Sets (sources_view self.old) name.now bytes.now) (outcome (sources_view self.new) result) }
        ensures floats { OnOk result (IsUnmarked name.now (sources_floats self.old) (sources_floats self.new)) }
        ensures refused { OnErr result (sources_view self.new ≡ sources_view self.old) }
        ensures stay { OnErr result (sources_floats self.new ≡ sources_floats self.old) }
        ensures unknown { is_source name.now (sources_view self.old) ≡ false → IsErrOf result SourceFault.Unknown }
        ensures large { is_source name.now (sources_view self.old) ≡ true → max_bytes < length bytes.now → IsErrOf result (SourceFault.Refused DefFault.TooLarge) }
        ensures no_text { is_source name.now (sources_view self.old) ≡ true → length bytes.now ≤ max_bytes → is_utf8 bytes.now ≡ false → IsErrOf result (SourceFault.Refused DefFault.NotJson) }
    {
        if !knows(&self.documents, name) {
            return Err(SourceFault::Unknown);
        }
        let flags = read_flags(alloc, bytes)?;
        put(&mut self.documents, name, Some(flags));
        Ok(())
    }

    /// The same of a document with floats, which `read_flags_with_floats` reads.
    pub fn set_with_floats(
        &mut self,
        alloc: Global,
        name: &str,
        bytes: &[u8],
    ) -> Result<(), SourceFault>
        ensures exact { Unless SourceFault.WantOfMemory (SetsWithFloats (sources_view self.old) name.now bytes.now) (outcome (sources_view self.new) result) }
        ensures floats { OnOk result (IsMarkedBy name.now bytes.now (sources_floats self.old) (sources_floats self.new)) }
        ensures refused { OnErr result (sources_view self.new ≡ sources_view self.old) }
        ensures stay { OnErr result (sources_floats self.new ≡ sources_floats self.old) }
        ensures unknown { is_source name.now (sources_view self.old) ≡ false → IsErrOf result SourceFault.Unknown }
        ensures large { is_source name.now (sources_view self.old) ≡ true → max_bytes < length bytes.now → IsErrOf result (SourceFault.Refused DefFault.TooLarge) }
        ensures no_text { is_source name.now (sources_view self.old) ≡ true → length bytes.now ≤ max_bytes → is_utf8 bytes.now ≡ false → IsErrOf result (SourceFault.Refused DefFault.NotJson) }
    {
        if !knows(&self.documents, name) {
            return Err(SourceFault::Unknown);
        }
        let flags = read_flags_with_floats(alloc, bytes)?;
        put(&mut self.documents, name, Some(flags));
        Ok(())
    }

    /// The same as [`Sources::set_with_floats`], where the document may have floats, and else as [`Sources::set`].
    pub fn set_as(
        &mut self,
        alloc: Global,
        name: &str,
        bytes: &[u8],
        floats: bool,
    ) -> Result<(), SourceFault>
        ensures exact { Unless SourceFault.WantOfMemory (SetsAs floats (sources_view self.old) name.now bytes.now) (outcome (sources_view self.new) result) }
        ensures floats { OnOk result (IsMarkedAs floats name.now bytes.now (sources_floats self.old) (sources_floats self.new)) }
        ensures refused { OnErr result (sources_view self.new ≡ sources_view self.old) }
        ensures stay { OnErr result (sources_floats self.new ≡ sources_floats self.old) }
        ensures unknown { is_source name.now (sources_view self.old) ≡ false → IsErrOf result SourceFault.Unknown }
        ensures large { is_source name.now (sources_view self.old) ≡ true → max_bytes < length bytes.now → IsErrOf result (SourceFault.Refused DefFault.TooLarge) }
        ensures no_text { is_source name.now (sources_view self.old) ≡ true → length bytes.now ≤ max_bytes → is_utf8 bytes.now ≡ false → IsErrOf result (SourceFault.Refused DefFault.NotJson) }
    {
        if floats {
            self.set_with_floats(alloc, name, bytes)
        } else {
            self.set(alloc, name, bytes)
        }
    }

    /// Drops the document of a source, which keeps its place in the order. `Unknown` where there is no source of this name.
    /// It takes no memory.
    pub fn clear(&mut self, name: &str) -> Result<(), SourceFault>
        ensures exact { outcome (sources_view self.new) result ≡ cleared (sources_view self.old) name.now }
        ensures floats { OnOk result (sources_floats self.new ≡ with_marks name.now None (sources_floats self.old)) }
        ensures stay { OnErr result (sources_floats self.new ≡ sources_floats self.old) }
        ensures refused { OnErr result (sources_view self.new ≡ sources_view self.old) }
    {
        if !knows(&self.documents, name) {
            return Err(SourceFault::Unknown);
        }
        put(&mut self.documents, name, None);
        Ok(())
    }

    /// The merge: key by key the whole entry of the latest added source that has it, broken entries too. A flag of it has floats
    /// where that entry has. `TooLarge` for more
    /// than 10,000 flags, and for flags that are printed in more than 4,194,304 bytes; both are known before a flag is
    /// copied. Each flag that stays is printed once and copied once. Cost: the entries of all sources, each looked up once
    /// among those that stay.
    pub fn merged(&self, alloc: Global) -> Result<Flags, SourceFault>
        ensures exact { GivesUnless SourceFault.WantOfMemory flags_view result (merged_of (sources_view self.now)) }
        ensures latest { IfOk result (λ fs. IsMerge (sources_view self.now) (flags_view fs)) }
        ensures floats { IfOk result (λ fs. floats_view fs ≡ merged_marks (sources_floats self.now)) }
    {
        let entries = chosen(alloc, &self.documents)?;
        copied(alloc, entries.as_slice())
    }
}

/// Whether there is a source of this name.
fn knows(documents: &IndexMap<String, Option<Flags>>, name: &str) -> bool
    ensures { result ≡ is_source name.now (entries_view documents.now.entries) }
{
    documents.contains_key(name)
}

/// One more source, without a document.
fn push(
    alloc: Global,
    documents: &mut IndexMap<String, Option<Flags>>,
    name: &str,
) -> Result<(), AllocError>
    requires { is_source name.now (entries_view documents.old.entries) ≡ false }
    ensures pushed { OnOk result (entries_view documents.new.entries ≡ entries_view documents.old.entries ++ (name.now, None) ∷ []) }
    ensures floats { OnOk result (entries_floats documents.new.entries ≡ entries_floats documents.old.entries ++ (name.now, None) ∷ []) }
    ensures kept { OnErr result (documents.new.entries ≡ documents.old.entries) }
{
    documents.insert(String::from_str(alloc, name)?, None)?;
    Ok(())
}

/// Puts a document in the place of the last one of a source.
fn put(documents: &mut IndexMap<String, Option<Flags>>, name: &str, document: Option<Flags>)
    ensures documents { entries_view documents.new.entries ≡ with_document name.now (option_map flags_view document) (entries_view documents.old.entries) }
    ensures floats { entries_floats documents.new.entries ≡ with_marks name.now (option_map floats_view document) (entries_floats documents.old.entries) }
{
    if let Some(kept) = documents.get_mut(name) {
        *kept = document;
    }
}

/// Flags of these entries, unless they pass the limits.
fn copied(alloc: Global, entries: &[(&str, &Flag)]) -> Result<Flags, SourceFault>
    requires { Rise (lent_view entries.now) }
    ensures exact { GivesUnless SourceFault.WantOfMemory flags_view result (flags_or_fault (limited (lent_view entries.now))) }
    ensures floats { IfOk result (λ fs. floats_view fs ≡ lent_floats entries.now) }
{
    match Flags::copied(alloc, entries) {
        Ok(flags) => Ok(flags),
        Err(DefFault::WantOfMemory) => Err(SourceFault::WantOfMemory),
        Err(_) => Err(SourceFault::TooLarge),
    }
}
