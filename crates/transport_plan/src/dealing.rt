//! Dealing: each point is given one of the names that its group has left.
ghost use Rattle.std.specs.List.{All};
ghost use Rattle.std.specs.Prelude.{◌≡◌, ◌≤◌, ◌<◌, ◌+◌, ◌*◌, ◌^◌, ℕ, IfOk, length, sum, slice_index};
ghost use Rattle.transport_plan.specs.Dealing.{row, AreDealt, AreNames, DealsTo, HasStretch, MayDeal};

use crate::stretches::{Stretch, other};
use crate::thresholds::{Threshold, thresholds_of};
use std::alloc::{AllocError, Global};

/// The name that each point is given, as an index: of each group's points each name is given to as many as the group's number
/// of it says. The numbers stand by group and then by name; a point is given by the index of its group. Which of a group's
/// points have which name is no promise: it is chosen to make few runs of equal names. It goes over the points twice, and
/// writes the names over them.
pub(crate) fn deal(
    alloc: Global,
    mut points: Vec<u32>,
    mut numbers: Vec<u32>,
    groups: usize,
    names: usize,
) -> Result<Vec<u32>, AllocError>
    requires numbers { MayDeal groups names numbers.items points.items }
    requires some { 0 < names }
    requires few { names ≤ 64 }
    requires small { length points.items < 2 ^ 32 }
    requires short { groups < 2 ^ 32 }
    ensures { IfOk result (λ v. AreDealt groups names numbers.items points.items v.items) }
{
    let bases = bases_of(alloc, numbers.as_slice(), groups, names)?;
    let bases = bases.as_slice();
    let (mut thresholds, ranks) = thresholds_of(
        alloc,
        points.as_slice(),
        numbers.as_slice(),
        bases,
        names,
    )?;
    let left = numbers.as_mut_slice();
    let thresholds = thresholds.as_mut_slice();
    deal_by(
        points.as_mut_slice(),
        left,
        bases,
        thresholds,
        ranks.as_slice(),
        names,
    );
    Ok(points)
}

/// The name that the most points of each group are given.
fn bases_of(
    alloc: Global,
    numbers: &[u32],
    groups: usize,
    names: usize,
) -> Result<Vec<usize>, AllocError>
    requires shape { length numbers.now ≡ groups * names }
    requires some { 0 < names }
    requires few { names ≤ 64 }
    ensures many { IfOk result (λ v. length v.items ≡ groups) }
    ensures named { IfOk result (λ v. All (λ w. w < names) v.items) }
{
    let mut bases = Vec::with_capacity(alloc, groups)?;
    for group in 0..groups {
        let start = group * names;
        bases.push(most_given(&numbers[start..start + names]))?;
    }
    Ok(bases)
}

/// The first name with the largest number.
fn most_given(row: &[u32]) -> usize
    requires some { 0 < length row.now }
    ensures within { result < length row.now }
    ensures most { All (λ n. n ≤ slice_index row.now result) row.now }
{
    let mut most = 0;
    for (name, many) in row.iter().enumerate() {
        if *many > row[most] {
            most = name;
        }
    }
    most
}

/// Deals out all that is left: point by point in a group of which none changes, and else stretch by stretch.
fn deal_by(
    points: &mut [u32],
    left: &mut [u32],
    bases: &[usize],
    thresholds: &mut [Threshold],
    ranks: &[u8],
    names: usize,
)
    requires numbers { MayDeal (length bases.now) names left.old points.old }
    requires few { names ≤ 64 }
    requires thresholds { length thresholds.old ≡ length bases.now }
    requires base { All (λ w. w < names) bases.now }
    ensures { AreDealt (length bases.now) names left.old points.old points.new }
{
    let mut start = 0;
    let mut seen = 0;
    while start < points.len() {
        let group = points[start] as usize;
        let base = bases[group];
        if thresholds[group].has_any() {
            let before = last_or(&points[..start], base);
            let stretch = Stretch::first(&points[start..], bases, before);
            let changes = thresholds[group].changes(rank_at(ranks, seen), stretch.points);
            deal_stretch(points, start, left, names, &stretch, changes);
            seen += 1;
            start += stretch.points;
        } else {
            deal_point(points, start, left, names, group, base, base);
            start += 1;
        }
    }
}

/// The rank at this place among those of the stretches, of which each has one.
fn rank_at(ranks: &[u8], place: usize) -> usize {
    match ranks.get(place) {
        Some(rank) => usize::from(*rank),
        None => 0,
    }
}

/// The last of the names, else this one.
fn last_or(names: &[u32], name: usize) -> usize
    ensures among { (width : ℕ) → All (λ w. w < width) names.now → name < width → result < width }
{
    match names {
        [] => name,
        [.., last] => *last as usize,
    }
}

/// Deals the points of the stretch that begins at the point, of which so many change.
fn deal_stretch(
    points: &mut [u32],
    start: usize,
    left: &mut [u32],
    names: usize,
    stretch: &Stretch,
    changes: usize,
)
    requires few { names ≤ 64 }
    requires stretch { HasStretch names start stretch.now left.old points.old }
    requires changes { changes ≤ stretch.now.points }
    ensures { DealsTo names stretch.now.group start (start + stretch.now.points) left.old left.new points.old points.new }
{
    let end = start + stretch.points;
    if changes == 0 {
        deal_run(points, start, end, left, names, stretch, stretch.base);
    } else {
        deal_parts(points, start, left, names, stretch, changes);
    }
}

/// The same where some change: beside the neighbour that has their new name.
fn deal_parts(
    points: &mut [u32],
    start: usize,
    left: &mut [u32],
    names: usize,
    stretch: &Stretch,
    changes: usize,
)
    requires few { names ≤ 64 }
    requires stretch { HasStretch names start stretch.now left.old points.old }
    requires changes { changes ≤ stretch.now.points }
    ensures { DealsTo names stretch.now.group start (start + stretch.now.points) left.old left.new points.old points.new }
{
    let row = stretch.group * names;
    let name = stretch.wish(&left[row..row + names]);
    let end = start + stretch.points;
    if name == stretch.after && name != stretch.before {
        let middle = end - changes;
        deal_run(points, start, middle, left, names, stretch, stretch.base);
        deal_run(points, middle, end, left, names, stretch, name);
    } else {
        let middle = start + changes;
        deal_run(points, start, middle, left, names, stretch, name);
        deal_run(points, middle, end, left, names, stretch, stretch.base);
    }
}

/// Deals the points of a stretch from one to another: the name as long as the group has it left, and then others.
fn deal_run(
    points: &mut [u32],
    start: usize,
    end: usize,
    left: &mut [u32],
    names: usize,
    stretch: &Stretch,
    name: usize,
)
    requires names { AreNames names stretch.now.base name }
    requires order { start ≤ end }
    requires inside { end ≤ length points.old }
    requires room { stretch.now.group * names + names ≤ length left.old }
    requires enough { end ≤ start + sum (row names left.old stretch.now.group) }
    ensures { DealsTo names stretch.now.group start end left.old left.new points.old points.new }
{
    for point in start..end {
        deal_point(
            points,
            point,
            left,
            names,
            stretch.group,
            stretch.base,
            name,
        );
    }
}

/// Deals the point to the name, if the group has it left, and else to another.
fn deal_point(
    points: &mut [u32],
    point: usize,
    left: &mut [u32],
    names: usize,
    group: usize,
    base: usize,
    name: usize,
)
    requires names { AreNames names base name }
    requires inside { point < length points.old }
    requires room { group * names + names ≤ length left.old }
    requires enough { 0 < sum (row names left.old group) }
    ensures { DealsTo names group point (point + 1) left.old left.new points.old points.new }
{
    let start = group * names;
    let next = next(&left[start..start + names], base, name);
    left[start + next] -= 1;
    points[point] = next as u32;
}

/// The name, if the group has any of it left, else the first but the base that it has, and else the base.
fn next(row: &[u32], base: usize, name: usize) -> usize
    requires some { 0 < sum row.now }
    requires base { base < length row.now }
    requires name { name < length row.now }
    ensures within { result < length row.now }
    ensures there { 0 < slice_index row.now result }
{
    if row[name] > 0 {
        return name;
    }
    other(row, base)
}
