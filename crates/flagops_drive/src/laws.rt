//! What the definitions of an ask amount to.
ghost use Rattle.std.specs.Prelude.{◌≡◌, is_some, is_none};
ghost use Rattle.flag_text.specs.Shape.{Shape};
ghost use Rattle.flagops_drive.specs.Asks.{asks_of};
ghost use Rattle.flagops_drive.specs.FloatsLaw.{AnswersStay, AsksStay, FloatsChangeNothing, NothingIsSpelled};
ghost use Rattle.flagops_drive.specs.Misfit.{misfit_of};

/// A tree has a misfit exactly where it is no list of asks: what is told of one that is refused is always there to tell.
pub fn a_misfit_is_all_that_refuses()
    ensures { (t : Shape) → is_some (misfit_of t) ≡ is_none (asks_of t) }
{}

/// By flags of which none has floats an ask is asked as it stands and resolves as without floats, and no value is printed by its
/// spelling. So what comes of asks, with the book that is written, is the same by each such flags. A law: it computes nothing.
pub fn floats_change_nothing()
    ensures asked { AsksStay }
    ensures answers { AnswersStay }
    ensures plain { NothingIsSpelled }
    ensures same { FloatsChangeNothing }
{}
