//! The table of the switches between variants.
ghost use Rattle.std.specs.Prelude.{◌≡◌, ◌≢◌, ◌≤◌, ◌<◌, ◌^◌, ◌*◌, ◌+◌, ℕ, IfOk, MatchOption, length, replicate, sum};
ghost use Rattle.std.specs.List.{AllPairs};
ghost use Rattle.std.specs.Map.{keys_of};
ghost use Rattle.bucket_core.specs.Rule.{total_weight};
ghost use Rattle.limits.specs.Limits.{tally_inputs};
ghost use Rattle.price_core.specs.Limits.{limits_view};
ghost use Rattle.rule_switches.specs.Runs.{AreFew, run_view, runs_view};
ghost use Rattle.rule_switches.specs.Table.{AreSmall, HasRun, IsSwitchTable, IsTableOf, name_of, no_switch, switch_at};

use crate::change::{Run, runs};
use bucket_core::Rule;
use price_core::{Limit, Totals};
use std::alloc::{AllocError, Global};
use std::marker::Model;

/// How many points and users go from one variant to another.
#[derive(Clone, Copy, Debug, PartialEq, Eq)]
pub struct PairSwitches {
    /// The number of points.
    pub points: u64,
    /// The number of inputs that fall on them.
    pub users: u64,
}

/// The switches between so many variants, from each to each.
#[derive(Drop)]
pub struct SwitchTable {
    width: usize,
    // row by row: the switches from the first variant to each, then those from the second
    switches: Vec<PairSwitches>,
}

impl Model for SwitchTable {
    ghost use Rattle.std.specs.Prelude.{◌≡◌, ◌*◌, length, ℕ, List};
    ghost use Rattle.rule_switches.specs.declared.table.PairSwitches.{PairSwitches};

    ghost Value = { ℕ × List PairSwitches };

    ghost view = { λ t. (t.width, t.switches.items) };

    ghost invariant = { λ t. length t.switches.items ≡ t.width * t.width };
}

impl SwitchTable {
    /// The number of variants.
    pub fn width(&self) -> usize
        ensures { result ≡ self.now.0 }
    {
        self.width
    }

    /// What goes from one variant to another, by their places.
    pub fn get(&self, from: usize, to: usize) -> PairSwitches
        requires from { from < self.now.0 }
        requires to { to < self.now.0 }
        ensures { result ≡ switch_at self.now from to }
    {
        self.switches[place(self.width, from, to)]
    }
}

/// The switches between the variants that have limits, in their order. The conditions are those of [`runs`].
pub fn switch_table(
    alloc: Global,
    totals: &Totals,
    old: &Rule,
    new: &Rule,
    counts: &[u32],
) -> Result<SwitchTable, AllocError>
    requires points { length counts.now ≡ total_weight old.now }
    requires few { sum counts.now ≤ tally_inputs }
    ensures { IfOk result (IsSwitchTable old.now new.now (keys_of totals.now) counts.now) }
{
    // Called for what its contract says: a rule's total is below 2^31.
    let _total = old.total();
    let runs = runs(alloc, old, new, counts)?;
    let table = table_of(alloc, totals.entries(), runs.as_slice())?;
    Ok(table)
}

const NO_SWITCH: PairSwitches = PairSwitches {
    points: 0,
    users: 0,
};

/// The switches of the runs, between the names of the limits.
#[tactic(auto, using(crate::proofs::TablePlacing::long_keys))]
fn table_of(alloc: Global, names: &[Limit], runs: &[Run<'_>]) -> Result<SwitchTable, AllocError>
    requires apart { AllPairs (λ x y. x ≢ y) (keys_of (limits_view names.now)) }
    requires few { AreFew (runs_view runs.now) }
    ensures { IfOk result (IsTableOf (keys_of (limits_view names.now)) (runs_view runs.now)) }
{
    let mut switches = no_switches(alloc, names)?;
    for run in runs {
        add_run(&mut switches, names, run);
    }
    Ok(SwitchTable {
        width: names.len(),
        switches,
    })
}

/// No switch from any name to any.
#[tactic(auto, using(crate::proofs::TablePlacing::long_keys))]
fn no_switches(alloc: Global, names: &[Limit]) -> Result<Vec<PairSwitches>, AllocError>
    ensures { IfOk result (λ v. v.items ≡ replicate (length (keys_of (limits_view names.now)) * length (keys_of (limits_view names.now))) no_switch) }
{
    let row = vec![in alloc; NO_SWITCH; names.len()]?;
    let mut switches = Vec::new(alloc);
    for _ in names {
        switches.extend_from_slice(row.as_slice())?;
    }
    Ok(switches)
}

/// Adds the points and users of a run to the switches from its one name to its other, where both are known.
#[tactic(auto, using(crate::proofs::TablePlacing::long_keys))]
fn add_run(switches: &mut Vec<PairSwitches>, names: &[Limit], run: &Run<'_>)
    requires square { length switches.old.items ≡ length (keys_of (limits_view names.now)) * length (keys_of (limits_view names.now)) }
    requires apart { AllPairs (λ x y. x ≢ y) (keys_of (limits_view names.now)) }
    requires small { AreSmall switches.old.items }
    requires few { run.now.users ≤ tally_inputs }
    ensures { HasRun (keys_of (limits_view names.now)) (run_view run.now) switches.old.items switches.new.items }
{
    let Some(from) = place_of(names, run.from) else {
        return;
    };
    let Some(to) = place_of(names, run.to) else {
        return;
    };
    let at = place(names.len(), from, to);
    switches[at] = more(switches[at], run);
}

/// With the points and users of a run.
fn more(switch: PairSwitches, run: &Run<'_>) -> PairSwitches
    requires points { switch.points < 2 ^ 31 }
    requires users { switch.users ≤ tally_inputs }
    requires few { run.now.users ≤ tally_inputs }
    ensures points { result.points ≡ switch.points + run.now.points }
    ensures users { result.users ≡ switch.users + run.now.users }
{
    PairSwitches {
        points: switch.points + u64::from(run.points),
        users: switch.users + run.users,
    }
}

/// The place of the name among those of the limits.
#[tactic(auto, using(crate::proofs::TablePlacing::long_keys))]
fn place_of(names: &[Limit], name: &str) -> Option<usize>
    ensures { MatchOption result
        ((i : ℕ) → i < length (keys_of (limits_view names.now)) → name_of (keys_of (limits_view names.now)) i ≢ name.now)
        (λ i. (i < length (keys_of (limits_view names.now))) × (name_of (keys_of (limits_view names.now)) i ≡ name.now)) }
{
    for (i, limit) in names.iter().enumerate() {
        if limit.name.as_str() == name {
            return Some(i);
        }
    }
    None
}

/// Where the switches from one place to another stand.
fn place(width: usize, from: usize, to: usize) -> usize
    requires from { from < width }
    requires to { to < width }
    requires fits { width * width < 2 ^ 64 }
    ensures value { result ≡ from * width + to }
    ensures inside { result < width * width }
{
    from * width + to
}
