//! The documents that are published one after the other.
ghost use Rattle.std.specs.Prelude.{◌≡◌, ◌≤◌, ◌+◌, ◌++◌, ◌∷◌, [], decimal, string_bytes, false, None, Ok, Err, IfErr, IfOk, OnErr, OnOk};
ghost use Rattle.flag_defs.specs.Flags.{flags_view};
ghost use Rattle.flag_defs.specs.Floats.{floats_view};
ghost use Rattle.source_merge.specs.Floats.{IsMarkedAs, merged_marks, sources_floats};
ghost use Rattle.source_merge.specs.Merge.{merged_of};
ghost use Rattle.source_merge.specs.Sources.{SetsAs, most_sources};
ghost use Rattle.source_merge.specs.View.{sources_view};
ghost use Rattle.flagops_streams.specs.Documents.{LeavesSources, MayRefuse, documents_in, source_added, texts_of};
ghost use Rattle.flagops_streams.specs.Refusal.{GivesUnlessWant, is_unreadable};
ghost use Rattle.flagops_streams.specs.Why.{refused_document};

use crate::refusal::Refusal;
use flag_defs::Flags;
use limits::SOURCES;
use source_merge::{SourceFault, Sources};
use std::alloc::{AllocError, Global};

/// The documents to be published, by their bytes, and the sources that they are merged from: one for each, and one more
/// where a document is still to be put.
#[derive(Drop)]
pub struct Documents {
    pub sources: Sources,
    pub texts: Vec<Vec<u8>>,
}

impl Documents {
    /// No documents.
    pub fn new(alloc: Global) -> Documents
        ensures none { documents_in result ≡ 0 }
        ensures texts { texts_of result.texts.items ≡ [] }
        ensures sources { sources_view result.sources ≡ [] }
    {
        Documents {
            sources: Sources::new(alloc),
            texts: Vec::new(alloc),
        }
    }

    /// How many there are.
    pub fn len(&self) -> usize
        ensures { result ≡ documents_in self.now }
    {
        self.texts.len()
    }

    /// Adds the source of one more document, whose name is its place from 1. It is refused with `TooMany` where there are 16
    /// documents, which takes no memory. A refusal leaves all as it was.
    pub fn add_source(&mut self, alloc: Global) -> Result<(), Refusal>
        ensures exact { GivesUnlessWant (λ _. sources_view self.new.sources) result (source_added (sources_view self.old.sources) (documents_in self.old + 1)) }
        ensures full { most_sources ≤ documents_in self.old → result ≡ Err (Refusal.Add SourceFault.TooMany) }
        ensures same { documents_in self.new ≡ documents_in self.old }
        ensures texts { self.new.texts ≡ self.old.texts }
        ensures kept { OnErr result (sources_view self.new.sources ≡ sources_view self.old.sources) }
        ensures loads { IfErr result (λ refusal. is_unreadable refusal ≡ false) }
        ensures unread { IfErr result (λ refusal. refused_document refusal ≡ None) }
    {
        let place = self.texts.len();
        if place >= SOURCES {
            return Err(Refusal::Add(SourceFault::TooMany));
        }
        let name = name_of(alloc, place as u64 + 1)?;
        match self.sources.add(alloc, name.as_str()) {
            Ok(()) => Ok(()),
            Err(fault) => Err(Refusal::Add(fault)),
        }
    }

    /// Puts the document of the source that was added last. It is refused for want of memory alone, and leaves all as it was then.
    pub fn push(&mut self, text: Vec<u8>) -> Result<(), Refusal>
        ensures more { OnOk result (documents_in self.new ≡ documents_in self.old + 1) }
        ensures text { OnOk result (texts_of self.new.texts.items ≡ texts_of self.old.texts.items ++ text.items ∷ []) }
        ensures kept { OnErr result (texts_of self.new.texts.items ≡ texts_of self.old.texts.items) }
        ensures sources { self.new.sources ≡ self.old.sources }
        ensures want { IfErr result (λ refusal. refusal ≡ Refusal.WantOfMemory) }
        ensures loads { IfErr result (λ refusal. is_unreadable refusal ≡ false) }
        ensures unread { IfErr result (λ refusal. refused_document refusal ≡ None) }
    {
        self.texts.push(text)?;
        Ok(())
    }
}

/// Sets the document of the source of a number, which may have floats or may not, and merges all that were set. Where the
/// merge is refused the document stays set; any other refusal leaves the sources as they were.
pub fn merge_next(
    alloc: Global,
    sources: &mut Sources,
    number: u64,
    text: &[u8],
    floats: bool,
) -> Result<Flags, Refusal>
    ensures merged { IfOk result (λ flags. SetsAs floats (sources_view sources.old) (decimal number) text.now (Ok (sources_view sources.new)) × (merged_of (sources_view sources.new) ≡ Ok (flags_view flags))) }
    ensures floats { IfOk result (λ flags. floats_view flags ≡ merged_marks (sources_floats sources.new)) }
    ensures marks { IfOk result (λ flags. IsMarkedAs floats (decimal number) text.now (sources_floats sources.old) (sources_floats sources.new)) }
    ensures refused { IfErr result (λ refusal. MayRefuse floats number (sources_view sources.old) text.now refusal) }
    ensures left { IfErr result (λ refusal. LeavesSources floats number (sources_view sources.old) text.now (sources_view sources.new) refusal) }
{
    let name = name_of(alloc, number)?;
    if let Err(fault) = sources.set_as(alloc, name.as_str(), text, floats) {
        return Err(Refusal::Set(fault, number));
    }
    match sources.merged(alloc) {
        Ok(flags) => Ok(flags),
        Err(fault) => Err(Refusal::Merged(fault)),
    }
}

/// The name of the source of a number.
fn name_of(alloc: Global, number: u64) -> Result<String, AllocError>
    ensures { IfOk result (λ s. string_bytes s ≡ decimal number) }
{
    format!(in alloc; "{number}")
}
