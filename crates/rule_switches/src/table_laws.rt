//! What the tally of a page tells of its inputs.
ghost use Rattle.rule_switches.specs.Table.{TalliesTellUsers};

/// By how many inputs fall on each point it is known how many of them go from one variant to another. A law: it computes
/// nothing.
pub fn tallies_tell_users()
    ensures { TalliesTellUsers }
{}
