//! The edit that comes to mind first, and what it would switch.
ghost use Rattle.std.specs.Prelude.{◌≡◌, ◌≤◌, ◌++◌, List, ℕ, length, sum, sum_by, IfOk, OnOk};
ghost use Rattle.std.specs.List.{list_any};
ghost use Rattle.std.specs.Map.{keys_of};
ghost use Rattle.std.specs.Str.{bytes_eq};
ghost use Rattle.bucket_core.specs.Rule.{IsRuleTotal, entries_view, total_weight};
ghost use Rattle.limits.specs.Limits.{tally_inputs};
ghost use Rattle.rule_switches.specs.Edit.{IsObvious, contiguous, firsts, with_totals};
ghost use Rattle.rule_switches.specs.Switches.{rows_view};

use crate::switch::Switch;
use crate::tally::tally_switches;
use bucket_core::{Rule, RuleFault};
use std::alloc::{AllocError, Global};

/// The rule that has each name in one block, with as many points as in the new rule, by the order of the names in the old one. It
/// takes `O(entries · names)` steps.
pub fn obvious_edit(alloc: Global, before: &Rule, after: &Rule) -> Result<Rule, AllocError>
    ensures { IfOk result (λ r. r ≡ contiguous before.now after.now) }
{
    let mut entries = Vec::new(alloc);
    add_names(alloc, &mut entries, before, after)?;
    add_names(alloc, &mut entries, after, after)?;
    // Called for what its contract says: a rule's total is from 1 to 2^31-1.
    let _total = after.total();
    made(alloc, entries)
}

/// The rule of entries whose weights are known to make one.
fn made(alloc: Global, entries: Vec<(String, u64)>) -> Result<Rule, AllocError>
    requires { IsRuleTotal (total_weight (entries_view entries.items)) }
    ensures { IfOk result (λ r. r ≡ entries_view entries.items) }
{
    match Rule::make(alloc, entries) {
        Ok(rule) => Ok(rule),
        Err(fault) => match fault {
            RuleFault::WantOfMemory => Err(AllocError),
            // Entries are refused for their total alone.
            _ => unreachable!(),
        },
    }
}

/// How many inputs the edit that comes to mind first would switch, by how many inputs fall on each point of the old rule: a new
/// rule that keeps the totals of this one, but with each name in one block. The conditions are that the rules are of one total,
/// and that there is a number for each point, 8,589,934,592 in all at most.
pub fn obvious_switches(
    alloc: Global,
    before: &Rule,
    after: &Rule,
    counts: &[u32],
) -> Result<u64, AllocError>
    requires total { total_weight after.now ≡ total_weight before.now }
    requires points { length counts.now ≡ total_weight before.now }
    requires few { sum counts.now ≤ tally_inputs }
    ensures { IfOk result (IsObvious before.now after.now counts.now) }
{
    let edit = obvious_edit(alloc, before, after)?;
    let switches = tally_switches(alloc, before, &edit, before.total(), counts)?;
    Ok(users_in(switches.as_slice()))
}

/// Adds the names of a rule that are none of the entries, with their totals in another rule.
fn add_names(
    alloc: Global,
    entries: &mut Vec<(String, u64)>,
    rule: &Rule,
    totals: &Rule,
) -> Result<(), AllocError>
    ensures { OnOk result ((more : List (List ℕ)) →
        entries_view entries.new.items ++ with_totals totals.now (firsts (keys_of (entries_view entries.new.items)) more)
        ≡ entries_view entries.old.items ++ with_totals totals.now (firsts (keys_of (entries_view entries.old.items)) (keys_of rule.now ++ more))) }
{
    for (name, _) in rule.entries() {
        if !is_among(entries.as_slice(), name) {
            let points = totals.total_of(name);
            entries.push((String::from_str(alloc, name)?, points))?;
        }
    }
    Ok(())
}

/// Whether an entry has the name.
fn is_among(entries: &[(String, u64)], name: &str) -> bool
    ensures { result ≡ list_any (bytes_eq name.now) (keys_of (entries_view entries.now)) }
{
    for (other, _) in entries {
        if name == other.as_str() {
            return true;
        }
    }
    false
}

/// How many inputs switch in all.
fn users_in(switches: &[Switch]) -> u64
    requires { sum_by (λ r. r.1) (rows_view switches.now) ≤ tally_inputs }
    ensures { result ≡ sum_by (λ r. r.1) (rows_view switches.now) }
{
    switches.iter().map(|switch| switch.users).sum()
}
