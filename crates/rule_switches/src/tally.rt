//! The switches of a tally, and those of the edit that comes to mind first.
ghost use Rattle.std.specs.Prelude.{◌≡◌, ◌≤◌, ◌%◌, length, sum, sum_by, IfOk};
ghost use Rattle.exposures.specs.Exposure.{Inputs};
ghost use Rattle.exposures.specs.Counts.{counts_of};
ghost use Rattle.bucket_core.specs.Rule.{IsRuleTotal, total_weight};
ghost use Rattle.limits.specs.Limits.{tally_inputs};
ghost use Rattle.rule_switches.specs.Counting.{AreTallied};
ghost use Rattle.rule_switches.specs.Switches.{AreSwitches, rows_view};

use crate::counting::Counting;
use crate::switch::Switch;
use bucket_core::Rule;
use std::alloc::{AllocError, Global};

/// How many inputs go from each name to each other one, by how many fall on each of so many points. The conditions are that the
/// totals of both rules divide the number of points, that there is a number for each, and that these are 8,589,934,592 in all at
/// most. It takes `O(points · log entries)` steps.
pub fn tally_switches(
    alloc: Global,
    before: &Rule,
    after: &Rule,
    total: u32,
    counts: &[u32],
) -> Result<Vec<Switch>, AllocError>
    requires total { IsRuleTotal total }
    requires before { total % total_weight before.now ≡ 0 }
    requires after { total % total_weight after.now ≡ 0 }
    requires points { length counts.now ≡ total }
    requires few { sum counts.now ≤ tally_inputs }
    ensures few { IfOk result (λ v. sum_by (λ r. r.1) (rows_view v.items) ≤ sum counts.now) }
    ensures switches { IfOk result (λ v. (inputs : Inputs) → counts.now ≡ counts_of inputs total → AreSwitches before.now after.now inputs (rows_view v.items)) }
{
    // Called for what their contracts say: no rule's total is 0.
    let _before = before.total();
    let _after = after.total();
    let counting = tallied(alloc, before, after, total, counts)?;
    counting.switches(alloc)
}

/// The inputs of a tally, counted.
fn tallied<'a>(
    alloc: Global,
    before: &'a Rule,
    after: &'a Rule,
    total: u32,
    counts: &[u32],
) -> Result<Counting<'a>, AllocError>
    requires total { IsRuleTotal total }
    requires points { length counts.now ≡ total }
    requires few { sum counts.now ≤ tally_inputs }
    ensures { IfOk result (AreTallied before.entry.now after.entry.now total counts.now) }
{
    let mut counting = Counting::of_span(alloc, before, after, u64::from(total))?;
    let mut point = 0;
    for count in counts {
        counting.add_number(point, u64::from(*count));
        point += 1;
    }
    Ok(counting)
}
