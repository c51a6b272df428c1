//! What desks are told of documents beside their flags.
ghost use Rattle.std.specs.Prelude.{◌≡◌, ◌∷◌, [], IfOk, IfSome, List, Ok, is_some, string_bytes, ℕ};
ghost use Rattle.control_desk.specs.Sources.{IsDocumentOf};
ghost use Rattle.flag_defs.specs.Flags.{flags_view};
ghost use Rattle.flag_defs.specs.Floats.{MeansWithFloats};
ghost use Rattle.flagops_service.specs.Merging.{AreMerged, AreRead};
ghost use Rattle.flagops_service.specs.Shown.{ArePrepared, AreRemarks, document_text, shown_of};
ghost use Rattle.flagops_streams.specs.Documents.{texts_of};
ghost use Rattle.source_merge.specs.View.{sources_view};

use crate::asked::Answering;
use crate::watched::Watched;
use control_desk::{PublishedSources, ShownText, SourceText};
use file_diagnostics::of_definition_errors;
use flag_defs::{Flags, print_flags_with_floats};
use snap_share::{ShareName, Told};
use std::alloc::{AllocError, Global};
use std::sync::Wait;

/// What desks are told of documents beside their flags.
#[derive(Drop)]
pub(crate) struct DocumentTexts {
    /// The text of the document, where it is one alone, and else the flags of all, printed.
    pub(crate) document: String,
    /// What a person is told of the broken flags.
    pub(crate) remarks: String,
}

/// What desks are told of documents beside these flags, which are their merge, where there are desks.
pub(crate) fn texts_of(
    watched: &Watched<'_>,
    answering: &Answering<'_>,
    flags: &Flags,
) -> Result<Option<DocumentTexts>, AllocError>
    requires read { AreRead (texts_of watched.now.accepted.items) (sources_view watched.now.sources) }
    requires merged { AreMerged (sources_view watched.now.sources) flags.now }
    ensures { IfOk result (ArePrepared (is_some answering.now.admin) (texts_of watched.now.accepted.items) flags.now) }
{
    if answering.admin.is_none() {
        return Ok(None);
    }
    let texts = watched.accepted.as_slice();
    let document = document_of(watched.alloc, texts, flags)?;
    let remarks = remarks_of(watched.alloc, texts)?;
    Ok(Some(DocumentTexts { document, remarks }))
}

/// The text of a document, where it is one alone, and else the flags of all, printed. It means these flags, as a document that is alone
/// does.
fn document_of(alloc: Global, texts: &[Vec<u8>], flags: &Flags) -> Result<String, AllocError>
    requires { (text : List ℕ) → texts_of texts.now ≡ text ∷ [] → MeansWithFloats text (Ok (flags_view flags.now)) }
    ensures text { IfOk result (λ s. string_bytes s ≡ document_text (texts_of texts.now) flags.now) }
    ensures means { IfOk result (λ s. MeansWithFloats (string_bytes s) (Ok (flags_view flags.now))) }
{
    let bytes = document_bytes(alloc, texts, flags)?;
    match String::from_utf8(bytes) {
        Ok(text) => Ok(text),
        Err(_) => unreachable!(),
    }
}

/// The bytes of that text.
fn document_bytes(alloc: Global, texts: &[Vec<u8>], flags: &Flags) -> Result<Vec<u8>, AllocError>
    requires { (text : List ℕ) → texts_of texts.now ≡ text ∷ [] → MeansWithFloats text (Ok (flags_view flags.now)) }
    ensures bytes { IfOk result (λ v. v.items ≡ document_text (texts_of texts.now) flags.now) }
    ensures means { IfOk result (λ v. MeansWithFloats v.items (Ok (flags_view flags.now))) }
{
    match texts {
        [] => print_flags_with_floats(alloc, flags),
        [text] => text.as_slice().to_vec(alloc),
        [_, _, ..] => print_flags_with_floats(alloc, flags),
    }
}

/// What a person is told of the broken flags of documents, a line each.
fn remarks_of(alloc: Global, texts: &[Vec<u8>]) -> Result<String, AllocError>
    ensures { IfOk result (λ s. AreRemarks (texts_of texts.now) (string_bytes s)) }
{
    let mut remarks = String::new(alloc);
    for text in texts {
        let lines = of_definition_errors(alloc, text.as_slice(), true)?;
        remarks.push_str(lines.as_str())?;
    }
    Ok(remarks)
}

/// Shows desks what is known of the documents of the snapshot that was published last, as its publisher told it.
pub(crate) fn show_texts<J: ShareName, R: Wait>(
    rt: &R,
    sources: &PublishedSources<J>,
    told: Told<J>,
    texts: Option<DocumentTexts>,
) -> Option<ShownText<J>>
    requires { IfSome texts (λ t. IsDocumentOf told (string_bytes t.document)) }
    ensures { result ≡ shown_of told texts }
{
    let DocumentTexts { document, remarks } = texts?;
    ShownText::of(sources.set(rt, SourceText::new(told, document, remarks)))
}
