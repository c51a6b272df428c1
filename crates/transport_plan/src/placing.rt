//! Where groups stand: as far from the last one of the name as the numbers are apart, or found by halving.
ghost use Rattle.std.specs.Bool.{OnTrue};
ghost use Rattle.std.specs.List.Sorted.{IsStrictlySortedBy};
ghost use Rattle.std.specs.List.{All, Contains};
ghost use Rattle.std.specs.Map.{keys_of};
ghost use Rattle.std.specs.Prelude.{◌≡◌, ◌≤◌, ◌<◌, ℕ, List, Some, IfOk, OnOk, length, slice_get, slice_index};
ghost use Rattle.bucket_core.specs.Rule.{total_weight};
ghost use Rattle.transport_core.specs.Groups.{AreSizesBy, group_by, group_cmp, rows_view};
ghost use Rattle.transport_core.specs.Instance.{max_planned_total};
ghost use Rattle.transport_plan.specs.Placing.{AddsPlaces, AreFamilies, HaveFamilies};

use bucket_core::Rule;
use std::alloc::{AllocError, Global};

/// The group of each point, as an index, where so many inputs fall on each point. It goes over the rule's entries beside the
/// numbers.
pub(crate) fn groups_of(
    alloc: Global,
    old: &Rule,
    counts: &[u32],
    groups: &[((&str, u32), u32)],
) -> Result<Vec<u32>, AllocError>
    requires sizes { AreSizesBy old.now (slice_index counts.now) (rows_view groups.now) }
    requires whole { length counts.now ≡ total_weight old.now }
    requires few { length groups.now ≤ max_planned_total }
    ensures many { IfOk result (λ v. length v.items ≡ total_weight old.now) }
    ensures grouped { IfOk result (λ v. (p : ℕ) → p < total_weight old.now → slice_get (keys_of (rows_view groups.now)) (slice_index v.items p) ≡ Some (group_by old.now (slice_index counts.now) p)) }
{
    let families = families_of(alloc, groups)?;
    let mut points = Vec::with_capacity(alloc, counts.len())?;
    let total = old.total();
    let mut start = 0;
    while start < total {
        let entry = old.entry_at(start);
        let end = old.end_of(entry);
        push_groups(
            &mut points,
            groups,
            families.as_slice(),
            old.entry_name(entry),
            &counts[start as usize..end as usize],
        )?;
        start = end;
    }
    Ok(points)
}

/// For each group the place of the first one of its name, so that names are told apart without their texts.
fn families_of(alloc: Global, groups: &[((&str, u32), u32)]) -> Result<Vec<usize>, AllocError>
    ensures many { IfOk result (λ v. length v.items ≡ length groups.now) }
    ensures families { IfOk result (λ v. AreFamilies (keys_of (rows_view groups.now)) v.items) }
{
    let mut families = Vec::with_capacity(alloc, groups.len())?;
    let mut first = 0;
    for (place, ((name, _), _)) in groups.iter().enumerate() {
        if groups[first].0.0 != *name {
            first = place;
        }
        families.push(first)?;
    }
    Ok(families)
}

/// Adds the groups of points in a row that have this name, on each of which so many inputs fall. A group is looked up first
/// as far from that of the point before as the numbers are apart.
fn push_groups(
    points: &mut Vec<u32>,
    groups: &[((&str, u32), u32)],
    families: &[usize],
    name: &str,
    counts: &[u32],
) -> Result<(), AllocError>
    requires families { HaveFamilies (length groups.now) (keys_of (rows_view groups.now)) families.now }
    requires stand { All (λ n. Contains (keys_of (rows_view groups.now)) (name.now, n)) counts.now }
    ensures { OnOk result (AddsPlaces (keys_of (rows_view groups.now)) name.now counts.now (length counts.now) points.old.items points.new.items) }
{
    let Some(first) = counts.first() else {
        return Ok(());
    };
    let mut known = *first;
    let mut group = group_of(groups, name, known);
    for count in counts {
        group = group_beside(groups, families, name, *count, known, group);
        known = *count;
        points.push(group as u32)?;
    }
    Ok(())
}

/// The place of the group of this name and number of inputs, where another group of the name is known with its place: mostly
/// as far from it as the numbers are apart, since the groups of a name stand by their numbers.
fn group_beside(
    groups: &[((&str, u32), u32)],
    families: &[usize],
    name: &str,
    count: u32,
    known: u32,
    place: usize,
) -> usize
    requires families { HaveFamilies (length groups.now) (keys_of (rows_view groups.now)) families.now }
    requires inside { place < length groups.now }
    requires known { slice_get (keys_of (rows_view groups.now)) place ≡ Some (name.now, known) }
    requires stands { Contains (keys_of (rows_view groups.now)) (name.now, count) }
    ensures within { result < length groups.now }
    ensures place { slice_get (keys_of (rows_view groups.now)) result ≡ Some (name.now, count) }
{
    let guess = (place + count as usize).saturating_sub(known as usize);
    if stands_at(groups, families, guess, place, count) {
        guess
    } else {
        group_of(groups, name, count)
    }
}

/// Whether a group of this number of inputs stands at the place, and has the name of that at the other place.
fn stands_at(
    groups: &[((&str, u32), u32)],
    families: &[usize],
    place: usize,
    other: usize,
    count: u32,
) -> bool
    requires many { length families.now ≡ length groups.now }
    requires families { AreFamilies (keys_of (rows_view groups.now)) families.now }
    requires other { other < length groups.now }
    ensures within { OnTrue result (place < length groups.now) }
    ensures place { OnTrue result ((name : List ℕ) (known : ℕ) → slice_get (keys_of (rows_view groups.now)) other ≡ Some (name, known) → slice_get (keys_of (rows_view groups.now)) place ≡ Some (name, count)) }
{
    match groups.get(place) {
        Some(((_, number), _)) => *number == count && families[place] == families[other],
        None => false,
    }
}

/// The place of the group of this name and number of inputs.
fn group_of(groups: &[((&str, u32), u32)], name: &str, count: u32) -> usize
    requires rise { IsStrictlySortedBy group_cmp (keys_of (rows_view groups.now)) }
    requires stands { Contains (keys_of (rows_view groups.now)) (name.now, count) }
    ensures within { result < length groups.now }
    ensures place { slice_get (keys_of (rows_view groups.now)) result ≡ Some (name.now, count) }
{
    groups.partition_point(|((other, number), _)| {
        other.cmp(&name).then(number.cmp(&count)).is_lt()
    })
}
