//! What the definitions amount to.
ghost use Rattle.spelled_numbers.specs.SentLaw.{WholeNumbersStay};

/// A text whose numbers are all spelled as whole ones stands for what it always stood for.
pub fn whole_numbers_stay()
    ensures { WholeNumbersStay }
{}
