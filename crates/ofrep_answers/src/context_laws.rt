//! What the definitions amount to.
ghost use Rattle.ofrep_answers.specs.ContextLaw.{HasWays};

/// The details of a context that is refused for its levels name the way to the first place that is too deep.
pub fn refused_contexts_have_ways()
    ensures ways { HasWays }
{}
