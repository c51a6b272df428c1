ghost use Rattle.transport_core.specs.Laws.{DeficientFitsNone, DualsBound, DualsProveLeast, TalliesCost};

/// Weak duality: no rule that fits costs less than dual prices prove, whatever its shape, so a rule that fits and costs just
/// that costs the least (linear programming; Ahuja, Magnanti, Orlin, Network Flows, section 9.4). A law: it computes nothing.
pub fn weak_duality()
    ensures bound { DualsBound }
    ensures least { DualsProveLeast }
{}

/// A deficient set shows that no rule fits, whatever its shape (the easy half of Hall's condition and of Hoffman's circulation
/// theorem). A law: it computes nothing.
pub fn deficient_sets_fit_none()
    ensures none { DeficientFitsNone }
{}

/// What a change costs needs no more to be known of the inputs than how many fall on each point: the cost over their tally is
/// theirs. A law: it computes nothing.
pub fn tallies_cost()
    ensures { TalliesCost }
{}
