//! What the definitions amount to.
ghost use Rattle.note_tallies.specs.Filter.{StreamIsTallied};
ghost use Rattle.note_tallies.specs.Joined.{JoinsAllHashes, JoinsAllSets};

use crate::{
    a_join_is_the_tally_of_both, a_join_of_hashes_is_the_tally_of_both, a_tally_is_of_its_hashes,
    a_tally_is_of_its_lines, tallied_lines_are_of_one_kind,
};

/// Where no line of a stream was refused, its note lines rise strictly, and either all have inputs, and what was tallied is the tally
/// of the page's inputs among them, each there once; or all have hashes, and it is the tally of the page's hashes, each there once.
pub fn a_stream_is_tallied()
    ensures { StreamIsTallied }
{
    a_tally_is_of_its_lines();
    a_tally_is_of_its_hashes();
    tallied_lines_are_of_one_kind();
}

/// What is joined of the tallies of sets of inputs is the tally of their union, in which each input is there once.
pub fn joined_tallies_are_of_all()
    ensures { JoinsAllSets }
{
    a_join_is_the_tally_of_both();
}

/// What is joined of the tallies of sets of hashes is the tally of their union.
pub fn joined_tallies_are_of_all_hashes()
    ensures { JoinsAllHashes }
{
    a_join_of_hashes_is_the_tally_of_both();
}
