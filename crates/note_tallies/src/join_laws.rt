//! What the definition of a tally amounts to.
ghost use Rattle.note_tallies.specs.JoinLaw.{HashesStandForInputs, JoinsHashes, JoinsSets, TalliesInAnyOrder};

/// What is joined of the tallies of two sets of inputs is the tally of their union. The sets have no input in common,
/// since the lines of one come after those of the other.
pub fn a_join_is_the_tally_of_both()
    ensures { JoinsSets }
{}

/// The tally of some inputs is that of them in any order. So what is tallied of sorted lines is the tally of the book with
/// these inputs, although a book has them in the order of their own bytes.
pub fn a_tally_is_in_any_order()
    ensures { TalliesInAnyOrder }
{}

/// What is joined of the tallies of two sets of hashes is the tally of their union.
pub fn a_join_of_hashes_is_the_tally_of_both()
    ensures { JoinsHashes }
{}

/// The tally of the hashes of some inputs is that of these inputs, where no two of them have one hash. Where some have, it counts
/// them once.
pub fn hashes_stand_for_inputs()
    ensures { HashesStandForInputs }
{}
