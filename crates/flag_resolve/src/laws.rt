//! What holds of the definitions alone.
ghost use Rattle.flag_resolve.specs.Alike.{OthersStay, ResolvesAlike};
ghost use Rattle.flag_resolve.specs.Floats.{FloatsAreOfTheirKind, FloatsChangeNothing, NothingIsSpelled, PlainTextsStay, WholeNumbersAreFloats};

/// A flag with another targeting, whose evaluation gives the same value or fault, resolves as before but for what was reached.
/// Flags that stay as they were resolve as before.
pub fn the_same_value_resolves_alike()
    ensures changed { ResolvesAlike }
    ensures others { OthersStay }
{}

/// Flags of which none has floats resolve as they do without floats, and are printed so. A value of a flag with floats is given to who wants the flag's
/// kind, and to nobody else; who wants a float has the value of a flag of whole numbers, too.
pub fn floats_are_of_their_kind()
    ensures same { FloatsChangeNothing }
    ensures given { FloatsAreOfTheirKind }
    ensures whole { WholeNumbersAreFloats }
    ensures plain { NothingIsSpelled }
    ensures printed { PlainTextsStay }
{}
