//! What the definitions of the commands amount to.
ghost use Rattle.flagops_rollouts.specs.Passed.{UnreadIsPassedOver};
ghost use Rattle.flagops_rollouts.specs.Tallies.{TalliesPlanAsAnyBooks, TalliesPlanAsBooks, TalliesTellAsAnyBooks, TalliesTellAsBooks};
ghost use Rattle.flagops_rollouts.specs.Valid.{PlansAreValid};

use rollout::tallies_plan_as_books;

/// What `plan` prints is a plan file, its line end included, and of each file of these bytes `verify` tells that its answer is
/// valid, by the same factor: on a book, and on a tally that some inputs have. A law: it computes nothing.
pub fn printed_plans_are_valid()
    ensures { PlansAreValid }
{}

/// A request asks the same without the members that are told as not read. A law: it computes nothing.
pub fn unread_members_are_passed_over()
    ensures { UnreadIsPassedOver }
{}

/// On a book and on the tally of a page of it `plan` may report the same, and what `verify` tells on the tally it may tell on
/// the book, unless the tally is refused as that of another page or total than the request's, or the page has an input that is
/// none of its flag. Where it has, they differ only in that a person is told, or that `--strict` refuses. A law: it computes
/// nothing.
pub fn tallies_answer_as_books()
    ensures plans { TalliesPlanAsBooks }
    ensures verdicts { TalliesTellAsBooks }
    ensures any_plans { TalliesPlanAsAnyBooks }
    ensures any_verdicts { TalliesTellAsAnyBooks }
{
    tallies_plan_as_books();
}
