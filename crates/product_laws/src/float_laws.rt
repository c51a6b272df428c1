//! What holds of documents whose numbers are all whole.
ghost use Rattle.product_laws.specs.Documents.{MeaningsStay, NoneIsMarked, SourcesStay, TreesStay};
ghost use Rattle.product_laws.specs.Frames.{FramesStay, PlainFlagsAreFramed, RefusalsStay};
ghost use Rattle.product_laws.specs.FloatKept.{WholeNumbersStay};

use crate::the_bytes_of_a_part_read_as_it;

/// A document whose numbers are all whole has the same tree with floats and without, and the same meaning or refusal; none of its
/// flags has floats, and a source takes it, or refuses it, alike. A law: it computes nothing.
pub fn documents_stay()
    ensures trees { TreesStay }
    ensures meanings { MeaningsStay }
    ensures none { NoneIsMarked }
    ensures sources { SourcesStay }
{
    spelled_numbers::floats_change_nothing();
    spelled_numbers::whole_flags_have_no_floats();
}

/// A frame whose document has whole numbers alone carries what it would carry if documents were read without floats, and is
/// refused alike; the frame of flags of which none has floats has their document as it is printed without floats. A law: it
/// computes nothing.
pub fn frames_stay()
    ensures frames { FramesStay }
    ensures refusals { RefusalsStay }
    ensures sent { PlainFlagsAreFramed }
{
    spelled_numbers::floats_change_nothing();
    spelled_numbers::whole_flags_have_no_floats();
}

/// Where the numbers of a document are whole, so are those of the document with a rule in the place of a site's buckets, if the
/// rule has entries of weights that a document may have. A law: it computes nothing.
pub fn whole_numbers_stay()
    ensures { WholeNumbersStay }
{
    the_bytes_of_a_part_read_as_it();
}
