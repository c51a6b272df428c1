//! Which points of a group change: those of its stretches whose change costs the fewest entries.
ghost use Rattle.std.specs.Prelude.{◌≡◌, ◌≤◌, ◌<◌, ◌*◌, ◌^◌, IfOk, length, sum};
ghost use Rattle.transport_plan.specs.Dealing.{HaveBases};

use crate::stretches::{RANKS, Stretch, other};
use std::alloc::{AllocError, Global};

/// Which points of a group change: all of a rank below `rank`, and `more` points of rank `rank`.
#[derive(Clone, Copy)]
pub(crate) struct Threshold {
    rank: usize,
    more: usize,
    /// The first name that the group gives but its base.
    other: usize,
}

impl Threshold {
    /// How many of the points of a stretch of this rank change; those of the rank of the threshold are counted off.
    pub(crate) fn changes(&mut self, rank: usize, points: usize) -> usize
        ensures { result ≤ points }
    {
        if rank < self.rank {
            return points;
        }
        if rank > self.rank {
            return 0;
        }
        let many = points.min(self.more);
        self.more -= many;
        many
    }

    /// Whether any points change.
    pub(crate) fn has_any(&self) -> bool {
        self.rank > 0 || self.more > 0
    }
}

/// The threshold of each group, and the rank of each stretch of the groups of which any points change, in order. The points that
/// change are those that are given another name than the base of their group.
pub(crate) fn thresholds_of(
    alloc: Global,
    points: &[u32],
    numbers: &[u32],
    bases: &[usize],
    names: usize,
) -> Result<(Vec<Threshold>, Vec<u8>), AllocError>
    requires bases { HaveBases names numbers.now bases.now points.now }
    requires few { names ≤ 64 }
    requires small { length points.now < 2 ^ 32 }
    requires short { length bases.now < 2 ^ 32 }
    ensures many { IfOk result (λ v. length v.0.items ≡ length bases.now) }
{
    let mut thresholds = Vec::with_capacity(alloc, bases.len())?;
    for (group, base) in bases.iter().enumerate() {
        let start = group * names;
        let row = &numbers[start..start + names];
        thresholds.push(Threshold {
            rank: 0,
            more: others(row, *base),
            other: other(row, *base),
        })?;
    }
    let (sizes, ranks) = ranks_of(alloc, points, numbers, bases, names, thresholds.as_slice())?;
    raise(thresholds.as_mut_slice(), sizes.as_slice());
    Ok((thresholds, ranks))
}

/// The sum of the numbers of all names but this one.
fn others(row: &[u32], base: usize) -> usize
    requires { length row.now ≤ 64 }
{
    let mut sum = 0;
    for (name, many) in row.iter().enumerate() {
        if name != base {
            sum += *many as usize;
        }
    }
    sum
}

/// How many points of each group, if any of it change, lie in stretches of each rank, and the ranks of these stretches in order.
fn ranks_of(
    alloc: Global,
    points: &[u32],
    numbers: &[u32],
    bases: &[usize],
    names: usize,
    thresholds: &[Threshold],
) -> Result<(Vec<u32>, Vec<u8>), AllocError>
    requires bases { HaveBases names numbers.now bases.now points.now }
    requires small { length points.now < 2 ^ 32 }
    requires short { length bases.now < 2 ^ 32 }
    requires thresholds { length thresholds.now ≡ length bases.now }
    ensures many { IfOk result (λ v. length v.0.items ≡ length bases.now * RANKS) }
{
    let mut sizes = vec![in alloc; 0u32; bases.len() * RANKS]?;
    let mut ranks = Vec::new(alloc);
    let mut start = 0;
    while start < points.len() {
        if thresholds[points[start] as usize].has_any() {
            let before = bases[points[start.saturating_sub(1)] as usize];
            let stretch = Stretch::first(&points[start..], bases, before);
            let group = stretch.group;
            let row = group * names;
            let rank = stretch.rank(&numbers[row..row + names], thresholds[group].other);
            ranks.push(rank as u8)?;
            sizes[group * RANKS + rank] += stretch.points as u32;
            start += stretch.points;
        } else {
            start += 1;
        }
    }
    Ok((sizes, ranks))
}

/// Moves each threshold up to the rank at which the points that are to change run out.
fn raise(thresholds: &mut [Threshold], sizes: &[u32])
    requires { length sizes.now ≡ length thresholds.old * RANKS }
    ensures { length thresholds.new ≡ length thresholds.old }
{
    for (group, threshold) in thresholds.iter_mut().enumerate() {
        if threshold.has_any() {
            let start = group * RANKS;
            (threshold.rank, threshold.more) = reached(
                &sizes[start..start + RANKS],
                threshold.more,
            );
        }
    }
}

/// The rank up to which so many points of the sizes change, and how many more of this rank.
fn reached(sizes: &[u32], points: usize) -> (usize, usize) {
    let mut more = points;
    for (rank, size) in sizes.iter().enumerate() {
        let size = *size as usize;
        if size > more {
            return (rank, more);
        }
        more -= size;
    }
    (sizes.len(), more)
}
