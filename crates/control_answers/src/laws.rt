//! What the definitions amount to.
ghost use Rattle.control_answers.specs.Law.{AnswersPlanTheRecord, AppliedPlansAreRight, ChecksAreOfTheRecord};

use note_tallies::hashes_stand_for_inputs;
use rollout::tallies_plan_as_books;

/// What is answered to a request is a plan on just the inputs that the files hold, each counted once, or on all that have just the
/// hashes which the files hold. A law: it computes nothing.
pub fn answers_plan_the_record()
    ensures { AnswersPlanTheRecord }
{
    tallies_plan_as_books();
    hashes_stand_for_inputs();
}

/// A plan that is found right, and one that is applied, costs just the inputs that the files hold, each counted once, the least of
/// all that fit, or no rule fits; and what is applied is the plan of a token of the snapshot's very document. A law: it computes
/// nothing.
pub fn right_plans_are_of_the_record()
    ensures checks { ChecksAreOfTheRecord }
    ensures applied { AppliedPlansAreRight }
{
    tallies_plan_as_books();
    hashes_stand_for_inputs();
}
