//! What the definitions amount to.
ghost use Rattle.note_streams.specs.Law.{StreamIsOfItsInputs, StreamIsOfItsLines};

use note_tallies::{a_stream_is_tallied, a_tally_is_in_any_order, hashes_stand_for_inputs};

/// Where no line of a stream was refused, its note lines rise strictly, all with inputs or all with hashes, and what was tallied is
/// the tally of the page's inputs, or hashes, among them, each there once.
pub fn a_stream_is_of_its_lines()
    ensures { StreamIsOfItsLines }
{
    a_stream_is_tallied();
}

/// What was tallied of a stream is the tally of its inputs in any order: of a book with these inputs. Of hashes it is the tally of
/// all inputs that have them, where no two of these have one hash.
pub fn a_stream_is_of_its_inputs()
    ensures { StreamIsOfItsInputs }
{
    a_stream_is_tallied();
    a_tally_is_in_any_order();
    hashes_stand_for_inputs();
}
