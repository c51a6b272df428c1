//! What the definitions amount to.
ghost use Rattle.spelled_numbers.specs.Law.{FloatsChangeNothing, NumbersKeepTheirSpelling, TextsAreTheirValues, WholeFlagsHaveNoFloats};

/// A document whose numbers are all whole stands for what it always stood for.
pub fn floats_change_nothing()
    ensures { FloatsChangeNothing }
{}

/// No flag of a document whose numbers are all whole has floats.
pub fn whole_flags_have_no_floats()
    ensures { WholeFlagsHaveNoFloats }
{}

/// The text that a number of such variants stands as is its spelling.
pub fn numbers_keep_their_spelling()
    ensures { NumbersKeepTheirSpelling }
{}

/// The text that a value of such variants stands as is that value, where it is printed as it is.
pub fn texts_are_their_values()
    ensures { TextsAreTheirValues }
{}
