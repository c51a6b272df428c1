//! What the pictures on a tally amount to.
ghost use Rattle.flagops_pictures.specs.Laws.{TallyPicturesAreOfBooks, TallyRampPicturesAreOfBooks};

/// A picture of an answer on the tally of a page's inputs is one of it on the book that has them, and so are the pictures of the
/// answers to steps. A law: it computes nothing.
pub fn tallies_draw_as_books()
    ensures answers { TallyPicturesAreOfBooks }
    ensures ramps { TallyRampPicturesAreOfBooks }
{
    rollout::tallies_plan_as_books();
}
