//! What the definitions amount to.
ghost use Rattle.logic_values.specs.Law.{OrderOfRationals};

/// Numbers are in the order of the fractions that their numerals spell: no digit is lost, however far their exponents are apart.
pub fn numbers_are_rationals()
    ensures { OrderOfRationals }
{}
