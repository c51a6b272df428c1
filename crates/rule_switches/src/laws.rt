//! What the definitions amount to.
ghost use Rattle.rule_switches.specs.Switches.{SwitchesAreCost};

/// As many inputs switch as the new rule costs where each change costs 1. A law: it computes nothing.
pub fn switches_are_cost()
    ensures { SwitchesAreCost }
{}
