//! The flags that the documents make at the start.
ghost use Rattle.std.specs.Prelude.{◌≡◌, ◌<◌, ◌∷◌, [], IfOk, List, None, decimal, length, ℕ};
ghost use Rattle.flag_defs.specs.Flags.{flags_view};
ghost use Rattle.source_merge.specs.View.{sources_view};
ghost use Rattle.flagops_streams.specs.Documents.{texts_of};
ghost use Rattle.flagops_streams.specs.Loading.{documents_view};
ghost use Rattle.flagops_streams.specs.Refusal.{GivesUnlessWant};
ghost use Rattle.flagops_service.specs.Merging.{AreMerged, AreRead, GivesMore};
ghost use Rattle.flagops_service.specs.Starting.{numbered};

use flag_defs::Flags;
use flagops_streams::{Documents, Refusal, merge_next};
use source_merge::Sources;
use std::alloc::Global;

/// Documents of these texts, each with a source under its number.
pub(crate) fn numbered(alloc: Global, texts: Vec<Vec<u8>>) -> Result<Documents, Refusal>
    ensures { GivesUnlessWant documents_view result (numbered (texts_of texts.items)) }
{
    let mut documents = Documents::new(alloc);
    for text in texts {
        documents.add_source(alloc)?;
        documents.push(text)?;
    }
    Ok(documents)
}

/// Sets and merges documents as [`merge_all`] does. A document that is alone then has the only source, with the flags that its text
/// means.
pub(crate) fn merge_documents(
    alloc: Global,
    sources: &mut Sources,
    texts: &[Vec<u8>],
) -> Result<Flags, Refusal>
    requires some { 0 < length texts.now }
    requires alone { (text : List ℕ) → texts_of texts.now ≡ text ∷ [] → sources_view sources.old ≡ (decimal 1, None) ∷ [] }
    ensures gives { GivesMore (sources_view sources.old) (sources_view sources.new) (texts_of texts.now) [] result }
    ensures read { IfOk result (λ _. AreRead (texts_of texts.now) (sources_view sources.new)) }
{
    match texts {
        [] => unreachable!(),
        [text] => merge_next(alloc, sources, 1, text.as_slice(), true),
        [_, _, ..] => merge_all(alloc, sources, texts),
    }
}

/// Sets each document, of which there is one at least, at the source of its place, merged over those before it, and gives the
/// last merge. The first that refuses is the answer.
fn merge_all(alloc: Global, sources: &mut Sources, texts: &[Vec<u8>]) -> Result<Flags, Refusal>
    requires { 0 < length texts.now }
    ensures { GivesMore (sources_view sources.old) (sources_view sources.new) (texts_of texts.now) [] result }
{
    let [first, others @ ..] = texts else {
        unreachable!()
    };
    let flags = merge_next(alloc, sources, 1, first.as_slice(), true)?;
    merge_others(alloc, sources, others, flags)
}

/// The same of the documents behind the first, whose merge is given.
fn merge_others(
    alloc: Global,
    sources: &mut Sources,
    texts: &[Vec<u8>],
    first: Flags,
) -> Result<Flags, Refusal>
    requires { AreMerged (sources_view sources.old) first }
    ensures { GivesMore (sources_view sources.old) (sources_view sources.new) (texts_of texts.now) (flags_view first ∷ []) result }
{
    let mut flags = first;
    let mut number = 1;
    for text in texts {
        flags = merge_next(alloc, sources, number + 1, text.as_slice(), true)?;
        number += 1;
    }
    Ok(flags)
}
