ghost use Rattle.rollout.specs.Laws.{AppliedIsLocal, PlansAreValid, RefinedPlansAreValid, RefinedRulesAreValid};
ghost use Rattle.rollout.specs.Tallied.{PlansAreByCounts, TalliesAskAsBooks, TallyPlansAreOfBooks};

/// What is planned is told as valid, unless memory ran out: by [`crate::verify`] an answer of [`crate::plan`], by
/// [`crate::verify_refined`] an answer of [`crate::plan_refined`] with the same factor, and by [`crate::verify`] also each
/// rule that was planned on a refined one, since its total tells the factor. With the read-back of what is printed, a printed
/// plan is valid. A law: it computes nothing.
pub fn plans_are_valid()
    ensures plain { PlansAreValid }
    ensures refined { RefinedPlansAreValid }
    ensures rule { RefinedRulesAreValid }
{}

/// Where a rule is put at a site, all other flags stay as they were, and the flag itself resolves as before wherever each input
/// that its evaluation reaches at the site is given the same name by the old entries and by the rule. A law: it computes
/// nothing.
pub fn applied_is_local()
    ensures { AppliedIsLocal }
{}

/// A plan knows of the inputs no more than how many fall on each point, and a request asks of a tally what it asks of a book
/// that has the tally's inputs on its page: so [`crate::plan_tally`] and [`crate::plan_refined`] have the same answers to give.
/// A law: it computes nothing.
pub fn tallies_plan_as_books()
    ensures counts { PlansAreByCounts }
    ensures asks { TalliesAskAsBooks }
    ensures plans { TallyPlansAreOfBooks }
{}
