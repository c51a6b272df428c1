//! What the definitions amount to.
ghost use Rattle.flagops_filters.specs.Law.{JoinsFileSets};

use note_tallies::a_join_is_the_tally_of_both;

/// What `join` makes of files with the tallies of sets of inputs is the tally of their union, in which each input is there once.
pub fn joined_files_are_of_all()
    ensures { JoinsFileSets }
{
    a_join_is_the_tally_of_both();
}
