//! What holds of the definitions alone.
ghost use Rattle.flag_defs.specs.Document.{HasOneMeaning};
ghost use Rattle.flag_defs.specs.FloatsLaw.{FloatsChangeNothing, HasOneMeaningWithFloats, NoneHasFloats};
ghost use Rattle.flag_defs.specs.SpelledLaw.{DocumentsAreMarked, PrintedWithFloatsReadsBack};

use spelled_numbers::whole_flags_have_no_floats;

/// A document means one thing: its flags, or one refusal.
pub fn a_document_has_one_meaning()
    ensures { HasOneMeaning }
{}

/// A document whose numbers are all whole means with floats what it means without them, and none of its flags has floats. A document
/// with floats means one thing, too.
pub fn floats_change_nothing()
    ensures same { FloatsChangeNothing }
    ensures none { NoneHasFloats }
    ensures one { HasOneMeaningWithFloats }
{
    spelled_numbers::floats_change_nothing();
    whole_flags_have_no_floats();
}

/// What is printed for flags of which some have floats is a document with floats that means these flags, and gives them the same
/// marks, where the texts that the variants of these are spell such variants. So are those of each document with floats.
pub fn printed_floats_read_back()
    ensures marked { DocumentsAreMarked }
    ensures back { PrintedWithFloatsReadsBack }
{}
