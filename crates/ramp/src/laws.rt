ghost use Rattle.ramp.specs.Laws.{NobodyFallsBack, OneTotal, RampsAreValid, RefinedRampsAreValid, TallyRampsAreOfBooks, TallyRefusalsAreOfBooks, TallyVerdictsAreOfBooks};

/// Where the steps ask for a rule at one site and forbid to leave a name for any other that has a total, whoever is given the
/// name by the site's rule, or by that of a step, is given it by each rule that follows. All rules of the steps are of one
/// total. On a tally so where it is that of some inputs. A law: it computes nothing.
pub fn nobody_falls_back()
    ensures kept { NobodyFallsBack }
    ensures totals { OneTotal }
{
    rollout::tallies_plan_as_books();
}

/// What is planned is told as valid, unless memory ran out: by [`crate::verify_steps`] the answers of [`crate::plan_steps`] with
/// the same factor, and without one where the first is a rule, since its total tells the factor. So it is on a tally of some
/// inputs, by [`crate::verify_steps_on_tally`] what [`crate::plan_steps_on_tally`] answers. With the read-back of what is printed,
/// a printed ramp is valid. A law: it computes nothing.
pub fn ramps_are_valid()
    ensures planned { RampsAreValid }
    ensures rule { RefinedRampsAreValid }
{
    rollout::tallies_plan_as_books();
}

/// On the tally of a page's inputs and on the book that has them, [`crate::plan_steps_on_tally`] and [`crate::plan_steps`] answer
/// and refuse alike, but for a tally of another page or total; and so [`crate::verify_steps_on_tally`] and
/// [`crate::verify_steps`] tell alike. A law: it computes nothing.
pub fn tallies_ramp_as_books()
    ensures planned { TallyRampsAreOfBooks }
    ensures refused { TallyRefusalsAreOfBooks }
    ensures told { TallyVerdictsAreOfBooks }
{
    rollout::tallies_plan_as_books();
}
