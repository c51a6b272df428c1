//! The lines of the points.
ghost use Rattle.std.specs.Prelude.{◌≡◌, ◌≢◌, ◌≤◌, ◌<◌, ◌+◌, ◌++◌, ◌∷◌, ◌-◌, ◌^◌, ◌↔◌, [], ℕ, List, length, replicate, string_bytes, drop, IfOk, IfErr, OnOk, MatchOption, IsTrue, nat_lt, ◌&&◌};
ghost use Rattle.note_tallies.specs.Point.{point_line};
ghost use Rattle.note_tallies.specs.Tally.{most_points, most_at_point};
ghost use Rattle.note_tallies.specs.Counts.{Refuses, AddsUp};
ghost use Rattle.note_tallies.specs.File.{points_text, point_text};
ghost use Rattle.note_tallies.specs.Reading.{AreSmall, BeginNoPoint, IsPointBelow};

use crate::file_fault::TallyFileFault;
use crate::{MOST_AT_POINT, MOST_IN_ALL, PointCount, push_point, take_point};
use std::alloc::{AllocError, Global};

/// Adds the lines of the points that have inputs.
pub(crate) fn push_points(text: &mut String, counts: &[u32]) -> Result<(), AllocError>
    requires { length counts.now ≤ most_points }
    ensures { OnOk result (string_bytes text.new ≡ string_bytes text.old ++ points_text 0 counts.now) }
{
    for point in 0..counts.len() {
        push_if_some(text, point as u32, counts[point])?;
    }
    Ok(())
}

/// Adds the line of a point, if it has inputs.
fn push_if_some(text: &mut String, point: u32, inputs: u32) -> Result<(), AllocError>
    ensures { OnOk result (string_bytes text.new ≡ string_bytes text.old ++ point_text point inputs) }
{
    if inputs > 0 {
        push_point(text, PointCount { point, inputs })?;
    }
    Ok(())
}

/// The inputs on each of so many points, of the bytes behind the second line.
pub(crate) fn read_counts(
    alloc: Global,
    bytes: &[u8],
    total: u32,
) -> Result<Vec<u32>, TallyFileFault>
    requires { total ≤ most_points }
    ensures text { IfOk result (λ counts. bytes.now ≡ points_text 0 counts.items) }
    ensures whole { IfOk result (λ counts. length counts.items ≡ total) }
    ensures small { IfOk result (λ counts. AreSmall counts.items) }
    ensures refused { IfErr result (Refuses bytes.now total) }
{
    let mut counts = Vec::with_capacity(alloc, total as usize)?;
    let mut rest = bytes;
    let mut line = 3u32;
    'lines: while !rest.is_empty() {
        let Some((count, more)) = next_point(rest, total) else {
            return Err(TallyFileFault::Line(line));
        };
        if (count.point as usize) < counts.len() {
            return Err(TallyFileFault::Order(line));
        }
        add_count(&mut counts, count)?;
        rest = more;
        line += 1;
    }
    counts.resize(total as usize, 0)?;
    Ok(counts)
}

/// The point below the total whose line the bytes begin with.
fn next_point(bytes: &[u8], total: u32) -> Option<(PointCount, &[u8])>
    ensures { MatchOption result (BeginNoPoint total bytes.now) (λ r. IsPointBelow total r.0 × (bytes.now ≡ point_line r.0 ++ r.1.now) × (length r.1.now < length bytes.now)) }
{
    let (count, rest) = take_point(bytes)?;
    if is_below(count, total) {
        Some((count, rest))
    } else {
        None
    }
}

/// Whether a point is below the total and has inputs.
fn is_below(count: PointCount, total: u32) -> bool
    ensures { result ≡ (nat_lt count.point total && nat_lt 0 count.inputs) }
{
    count.point < total && count.inputs > 0
}

/// Adds the inputs of a point, and none of those between.
fn add_count(counts: &mut Vec<u32>, count: PointCount) -> Result<(), AllocError>
    requires { length counts.old.items ≤ count.point }
    ensures { OnOk result (counts.new.items ≡ counts.old.items ++ replicate (count.point - length counts.old.items) 0 ++ count.inputs ∷ []) }
{
    counts.resize(count.point as usize, 0)?;
    counts.push(count.inputs)?;
    Ok(())
}

/// Whether the inputs on the points are as many as this, and not too many.
pub(crate) fn add_up(counts: &[u32], inputs: u64) -> bool
    requires { length counts.now ≤ most_points }
    ensures { IsTrue result ↔ AddsUp counts.now inputs }
{
    let sum: u64 = counts.iter().map(|n| u64::from(*n)).sum();
    let few = counts.iter().all(|n| *n <= MOST_AT_POINT);
    sum == inputs && inputs <= MOST_IN_ALL && few
}
