//! What the definitions of the commands amount to.
ghost use Rattle.flagops_ramps.specs.Valid.{RampsAreValid};

use ramp::ramps_are_valid;

/// What `ramp` prints of the evidence of some inputs is a file of answers, and of each file of these bytes `verify-ramp` tells that
/// they are valid, by the same factor. A law: it computes nothing.
pub fn printed_ramps_are_valid()
    ensures { RampsAreValid }
{
    ramps_are_valid();
}
