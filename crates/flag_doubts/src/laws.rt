//! What holds of the definitions alone.
ghost use Rattle.flag_doubts.specs.Laws.{ABadWeightFaults, EachValueIsAnOutcome, NeverMatches, NoWeightGivesNull};

/// Whatever a targeting is evaluated to is among what it can result in, or null. So a flag of which it is told that its
/// targeting can never give a variant resolves by a match of its targeting for nobody. And where the weights
/// of a `fractional` are told of, each evaluation that reaches it faults, or gives null where each weight is 0.
pub fn doubts_are_of_evaluations()
    ensures values { EachValueIsAnOutcome }
    ensures matches { NeverMatches }
    ensures faults { ABadWeightFaults }
    ensures nulls { NoWeightGivesNull }
{}
