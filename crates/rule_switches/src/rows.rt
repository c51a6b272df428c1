//! Changes of name in order, each once.
ghost use Rattle.std.specs.Prelude.{◌≡◌, ◌⊎◌, ◌+◌, ◌<◌, ◌^◌, Bool, IfOk, OnOk, if◌then◌else◌, length, map, sum_by};
ghost use Rattle.std.specs.List.{All};
ghost use Rattle.std.specs.List.Sorted.{IsStrictlySortedBy};
ghost use Rattle.std.specs.Map.{keys_of};
ghost use Rattle.price_core.specs.Pricing.{Pair, lent_entry, pair_cmp};
ghost use Rattle.rule_switches.specs.Counting.{moves, names_in, passed};
ghost use Rattle.rule_switches.specs.Switches.{rows_view};

use crate::counting::Cell;
use crate::switch::Switch;
use bucket_core::Rule;
use std::alloc::{AllocError, Global};
use std::collections::BTreeMap;

/// Adds the inputs of a cell, where the names of its entries differ.
pub(crate) fn add_cell<'a>(
    rows: &mut BTreeMap<(&'a str, &'a str), u64>,
    before: &'a Rule,
    after: &'a Rule,
    cell: &Cell,
) -> Result<(), AllocError>
    requires inside { (cell.now.users ≡ 0) ⊎ ((cell.now.from < length before.now) × (cell.now.to < length after.now)) }
    requires room { sum_by (λ e. e.1) rows.old.entries + cell.now.users < 2 ^ 64 }
    ensures numbers { OnOk result ((test : Pair → Bool) → passed test (map lent_entry rows.new.entries) ≡ passed test (map lent_entry rows.old.entries) + (if moves test (names_in before.entry.now after.entry.now cell.now) then cell.now.users else 0)) }
    ensures some { OnOk result (All (λ e. 0 < e.1) rows.old.entries → All (λ e. 0 < e.1) rows.new.entries) }
{
    if cell.users == 0 {
        return Ok(());
    }
    let from = before.entry_name(cell.from);
    let to = after.entry_name(cell.to);
    if from == to {
        return Ok(());
    }
    add_switch(rows, from, to, cell.users)
}

/// Adds to the inputs that go from one name to another.
pub(crate) fn add_switch<'a>(
    rows: &mut BTreeMap<(&'a str, &'a str), u64>,
    from: &'a str,
    to: &'a str,
    users: u64,
) -> Result<(), AllocError>
    requires { sum_by (λ e. e.1) rows.old.entries + users < 2 ^ 64 }
    ensures numbers { OnOk result ((test : Pair → Bool) → passed test (map lent_entry rows.new.entries) ≡ passed test (map lent_entry rows.old.entries) + (if test (from.now, to.now) then users else 0)) }
    ensures some { OnOk result (0 < users → All (λ e. 0 < e.1) rows.old.entries → All (λ e. 0 < e.1) rows.new.entries) }
{
    if let Some(number) = rows.get_mut(&(from, to)) {
        *number += users;
        return Ok(());
    }
    rows.insert((from, to), users)?;
    Ok(())
}

/// The changes in their order.
pub(crate) fn listed(
    alloc: Global,
    rows: BTreeMap<(&str, &str), u64>,
) -> Result<Vec<Switch>, AllocError>
    ensures rows { IfOk result (λ v. rows_view v.items ≡ map lent_entry rows.entry.entries) }
    ensures rise { IfOk result (λ v. IsStrictlySortedBy pair_cmp (keys_of (rows_view v.items))) }
{
    let mut list = Vec::new(alloc);
    for ((from, to), users) in rows {
        let from = String::from_str(alloc, from)?;
        let to = String::from_str(alloc, to)?;
        list.push(Switch { from, to, users })?;
    }
    Ok(list)
}
