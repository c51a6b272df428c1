//! The document of a snapshot, for whoever polls it.
ghost use Rattle.std.specs.Prelude.{IfOk};
ghost use Rattle.control_answers.specs.Held.{IsTagOf, field_view};

use ofrep_requests::{entity_tag, is_listed, opaque_tag};
use std::alloc::{AllocError, Global};

/// The tag of a document.
#[derive(Drop)]
pub struct DocumentTag {
    /// As the field `ETag` has it.
    pub tag: String,
    /// Whether whoever asks has the document: it is answered 304 then, without it.
    pub is_held: bool,
}

/// The tag of the document of a snapshot, for a request with this value of the field `If-None-Match`, where it has one.
pub fn document_tag(
    alloc: Global,
    document: &str,
    field: Option<&[u8]>,
) -> Result<DocumentTag, AllocError>
    ensures { IfOk result (λ t. IsTagOf document.now (field_view field.entry) t) }
{
    let opaque = opaque_tag(alloc, document.as_bytes())?;
    let is_held = match field {
        Some(field) => is_listed(opaque.as_str(), field),
        None => false,
    };
    let tag = entity_tag(alloc, opaque.as_str())?;
    Ok(DocumentTag { tag, is_held })
}
