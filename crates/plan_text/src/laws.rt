//! What the definitions of a plan file amount to.
ghost use Rattle.std.specs.Prelude.{◌≡◌, is_some, is_none};
ghost use Rattle.flag_text.specs.Shape.{Shape};
ghost use Rattle.plan_text.specs.Misfit.{misfit_of};
ghost use Rattle.plan_text.specs.PlanFile.{planned_of};

/// A tree has a misfit exactly where it is no plan: what is told of one that is refused is always there to tell.
pub fn a_misfit_is_all_that_refuses()
    ensures { (t : Shape) → is_some (misfit_of t) ≡ is_none (planned_of t) }
{}
