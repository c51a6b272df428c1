//! What the definitions of a request amount to.
ghost use Rattle.std.specs.Prelude.{◌≡◌, is_some, is_none};
ghost use Rattle.flag_text.specs.Shape.{Shape};
ghost use Rattle.price_core.specs.Misfit.{misfit_of};
ghost use Rattle.price_core.specs.Request.{written_of};

/// A tree has a misfit exactly where it is no request: what is told of one that is refused is always there to tell.
pub fn a_misfit_is_all_that_refuses()
    ensures { (t : Shape) → is_some (misfit_of t) ≡ is_none (written_of t) }
{}
