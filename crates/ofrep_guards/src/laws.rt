//! What holds of the definitions alone.
ghost use Rattle.ofrep_guards.specs.Laws.{ServesEvaluationsAlone};

/// A guard that serves the evaluations alone answers whatever else is asked, such as what is counted, as an unknown path.
pub fn operations_are_elsewhere()
    ensures { ServesEvaluationsAlone }
{}
