//! The runs of a change.
ghost use Rattle.std.specs.Prelude.{◌≡◌, ◌≤◌, ◌<◌, ◌+◌, ◌^◌, ℕ, IfOk, length, sum};
ghost use Rattle.bucket_core.specs.Rule.{total_weight};
ghost use Rattle.limits.specs.Limits.{tally_inputs};
ghost use Rattle.price_core.specs.Cost.{name_at};
ghost use Rattle.rule_switches.specs.Runs.{AreRuns, IsRunAt, run_view, runs_view};

use bucket_core::Rule;
use std::alloc::{AllocError, Global};

/// Points that lie side by side and go from one variant to another, with the users that fall on them.
#[derive(Clone, Copy, Debug)]
pub struct Run<'a> {
    /// The variant that the old rule gives the points.
    pub from: &'a str,
    /// The variant that the new rule gives them, empty where it has no such points.
    pub to: &'a str,
    /// The number of the points, from 1.
    pub points: u32,
    /// How many inputs fall on them.
    pub users: u64,
}

/// The runs of the old rule's points, in order. It takes `O(points + runs · log entries)` steps. The condition is that there is a
/// number of inputs for each point, as many in all as a tally has at most.
pub fn runs<'a>(
    alloc: Global,
    old: &'a Rule,
    new: &'a Rule,
    counts: &[u32],
) -> Result<Vec<Run<'a>>, AllocError>
    requires points { length counts.now ≡ total_weight old.now }
    requires few { sum counts.now ≤ tally_inputs }
    ensures { IfOk result (λ v. AreRuns old.entry.now new.entry.now counts.now 0 (runs_view v.items) (total_weight old.entry.now)) }
{
    let total = old.total();
    let mut runs = Vec::new(alloc);
    let mut point = 0;
    while point < total {
        let run = run_at(old, new, counts, point);
        point += run.points;
        runs.push(run)?;
    }
    Ok(runs)
}

/// The run that begins at the point.
fn run_at<'a>(old: &'a Rule, new: &'a Rule, counts: &[u32], point: u32) -> Run<'a>
    requires points { length counts.now ≡ total_weight old.now }
    requires few { sum counts.now ≤ tally_inputs }
    requires inside { point < total_weight old.now }
    ensures run { IsRunAt old.entry.now new.entry.now counts.now point (run_view result) }
    ensures end { point + result.points ≤ total_weight old.entry.now }
{
    let from = old.entry_at(point);
    let old_end = old.end_of(from);
    let (to, new_end) = named_from(new, point);
    let end = old_end.min(new_end);
    Run {
        from: old.entry_name(from),
        to,
        points: end - point,
        users: inputs_on(&counts[point as usize..end as usize]),
    }
}

/// The name that a rule has from a point on, and the point before which it has it; no name where the rule has no such points.
#[tactic(auto, using(crate::proofs::Naming::same_name, crate::proofs::Naming::no_name))]
fn named_from(rule: &Rule, point: u32) -> (&str, u32)
    requires { point + 1 < 2 ^ 32 }
    ensures name { (q : ℕ) → point ≤ q → q < result.1 → name_at rule.entry.now q ≡ result.0.now }
    ensures some { point < result.1 }
{
    if point < rule.total() {
        let entry = rule.entry_at(point);
        (rule.entry_name(entry), rule.end_of(entry))
    } else {
        ("", u32::MAX)
    }
}

/// How many inputs fall on these points.
fn inputs_on(counts: &[u32]) -> u64
    requires { sum counts.now ≤ tally_inputs }
    ensures { result ≡ sum counts.now }
{
    counts.iter().map(|count| u64::from(*count)).sum()
}
