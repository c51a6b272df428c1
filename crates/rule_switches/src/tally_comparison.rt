//! What an edit does to the inputs of a tally.
ghost use Rattle.std.specs.Prelude.{◌≡◌, ◌≤◌, IfOk, option_copied, true};
ghost use Rattle.flag_defs.specs.Flags.{flags_view};
ghost use Rattle.limits.specs.Limits.{tally_inputs};
ghost use Rattle.rule_switches.specs.Found.{found_view, inputs_in, switches_in};
ghost use Rattle.rule_switches.specs.Rules.{rules_on};
ghost use Rattle.rule_switches.specs.Tallied.{AreTallyFound, ComparesTally, GivesFound, IsTallyFound, IsWhereFits, fits};
ghost use Rattle.note_tallies.specs.Tally.{IsPageTally};

use crate::book::is_asked;
use crate::comparison::{Comparison, Found};
use crate::fault::TallyFault;
use crate::page_counting::users_in;
use crate::page_edit::Edit;
use crate::rules::{Rules, rules_on};
use crate::tally_switches;
use bucket_core::Rule;
use note_tallies::PageTally;
use std::alloc::Global;

/// What an edit does on the page of a tally, where it is asked for. It is refused with `OtherTally` where both documents have a
/// rule there, and the total of one does not divide the number of points of the tally.
#[tactic(auto, using(crate::proofs::Placing::asked_found, crate::proofs::Placing::asked_refused, crate::proofs::Placing::not_asked))]
pub fn compare_tally(
    alloc: Global,
    edit: Edit<'_>,
    only: Option<&str>,
    tally: &PageTally,
) -> Result<Comparison, TallyFault>
    ensures { ComparesTally (AreTallyFound (flags_view edit.entry.old.now) (flags_view edit.entry.new.now) (option_copied only.entry) tally.now) result }
{
    let mut compared = Comparison::new(alloc);
    if is_asked(only, &tally.page) {
        let found = found_of(alloc, edit, tally)?;
        let page = tally.page.copy(alloc)?;
        compared.add(page, found)?;
    }
    Ok(compared)
}

/// What an edit does on the page of a tally.
#[tactic(auto, using(crate::proofs::Placing::tallied_both, crate::proofs::Placing::tallied_none))]
fn found_of(alloc: Global, edit: Edit<'_>, tally: &PageTally) -> Result<Found, TallyFault>
    ensures found { GivesFound result (IsTallyFound (rules_on (flags_view edit.entry.old.now) (flags_view edit.entry.new.now) tally.now.page) tally.now) }
    ensures few { IfOk result (λ f. (switches_in (found_view f) ≤ tally_inputs) × (inputs_in (found_view f) ≤ tally_inputs)) }
{
    match rules_on(alloc, edit, &tally.page)? {
        Rules::Both(before, after) => switched_in(alloc, &before, &after, tally),
        Rules::None(side, reason) => Ok(Found::Left(side, reason)),
    }
}

/// What two rules do to the inputs of a tally, where their totals divide its number of points.
#[tactic(auto, using(crate::proofs::Placing::where_fits, crate::proofs::Placing::where_not))]
fn switched_in(
    alloc: Global,
    before: &Rule,
    after: &Rule,
    tally: &PageTally,
) -> Result<Found, TallyFault>
    ensures found { GivesFound result (IsWhereFits (fits tally.now before.now after.now) before.now after.now tally.now) }
    ensures few { IfOk result (λ f. (switches_in (found_view f) ≤ tally_inputs) × (inputs_in (found_view f) ≤ tally_inputs)) }
{
    if fits(tally, before, after) {
        return switched_by(alloc, before, after, tally);
    }
    Err(TallyFault::OtherTally)
}

/// What two rules do to the inputs of a tally whose number of points both totals divide.
#[tactic(auto, using(crate::proofs::Placing::first_fits, crate::proofs::Placing::other_fits, crate::proofs::Placing::fitting))]
fn switched_by(
    alloc: Global,
    before: &Rule,
    after: &Rule,
    tally: &PageTally,
) -> Result<Found, TallyFault>
    requires { fits tally.now before.now after.now ≡ true }
    ensures found { GivesFound result (IsWhereFits true before.now after.now tally.now) }
    ensures few { IfOk result (λ f. (switches_in (found_view f) ≤ tally_inputs) × (inputs_in (found_view f) ≤ tally_inputs)) }
{
    let rows = tally_switches(alloc, before, after, tally.total, counts_in(tally))?;
    let users = users_in(rows.as_slice());
    Ok(Found::Counted(tally.inputs, users, rows))
}

/// Whether the totals of both rules divide the number of points of a tally.
fn fits(tally: &PageTally, before: &Rule, after: &Rule) -> bool
    ensures { result ≡ fits tally.now before.now after.now }
{
    tally.total % before.total() == 0 && tally.total % after.total() == 0
}

/// The counts of a tally, by point.
fn counts_in(tally: &PageTally) -> &[u32]
    ensures value { result.now ≡ tally.now.counts }
    ensures lawful { IsPageTally tally.now }
{
    tally.counts.as_slice()
}
