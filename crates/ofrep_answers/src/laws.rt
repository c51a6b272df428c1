//! What the definitions amount to.
ghost use Rattle.ofrep_answers.specs.Law.{FloatsChangeNothing, MetadataChangesNothing, NeverMismatches, ValuesAreSpelled};

use crate::texts_are_of_bodies;
use flag_metadata::bare_documents_have_no_metadata;

/// No flag is evaluated for another kind than that of its variants.
pub fn no_evaluation_mismatches()
    ensures kind { NeverMismatches }
{}

/// Flags of which none has floats are answered without metadata as they are without floats. The value that the answer tells of a flag with floats is
/// the bytes of its variant.
pub fn floats_are_spelled()
    ensures same { FloatsChangeNothing }
    ensures value { ValuesAreSpelled }
{
    texts_are_of_bodies();
}

/// Where no document and no flag has a member of metadata, the answers are those without metadata.
pub fn metadata_changes_nothing()
    ensures { MetadataChangesNothing }
{
    bare_documents_have_no_metadata();
}
