//! What the definitions amount to.
ghost use Rattle.flag_metadata.specs.Law.{BareDocumentsHaveNoMetadata};

/// Where no document and no flag has a member, a flag is answered with an empty object, and there is no metadata of all documents.
pub fn bare_documents_have_no_metadata()
    ensures { BareDocumentsHaveNoMetadata }
{}
