//! Rows of points whose inputs are counted: for each run of points with one name, how many have each number of inputs.
ghost use Rattle.std.specs.Prelude.{◌≡◌, ◌<◌, ◌^◌, IfOk, OnOk, length, slice_index};
ghost use Rattle.bucket_core.specs.Rule.{total_weight};
ghost use Rattle.transport_core.specs.Groups.{rows_view};
ghost use Rattle.transport_core.specs.Rows.{AddsCounts, CoversPoints};

use crate::rows::Row;
use bucket_core::Rule;
use std::alloc::{AllocError, Global};

/// Rows that are the points of a rule, on each of which so many inputs fall. A run of points with one name makes a row for
/// each number that occurs there, so that the rows are few where the runs are long.
pub(crate) fn counted_rows<'a>(
    alloc: Global,
    rule: &'a Rule,
    counts: &[u32],
) -> Result<Vec<Row<'a>>, AllocError>
    requires { length counts.now ≡ total_weight rule.now }
    ensures { IfOk result (λ v. CoversPoints rule.now (slice_index counts.now) (total_weight rule.now) (rows_view v.items)) }
{
    let mut rows = Vec::new(alloc);
    let mut sorted = Vec::new(alloc);
    let mut point = 0;
    for entry in 0..rule.entries().len() {
        let end = rule.end_of(entry);
        if point < end {
            let run = &counts[point as usize..end as usize];
            add_run(&mut rows, rule.entry_name(entry), run, &mut sorted)?;
            point = end;
        }
    }
    Ok(rows)
}

/// Adds the rows of points with one name, on each of which so many inputs fall. The numbers are sorted in the memory that
/// is lent for it.
fn add_run<'a>(
    rows: &mut Vec<Row<'a>>,
    name: &'a str,
    counts: &[u32],
    sorted: &mut Vec<u32>,
) -> Result<(), AllocError>
    requires { length counts.now < 2 ^ 32 }
    ensures { OnOk result (AddsCounts name.now counts.now (rows_view rows.old.items) (rows_view rows.new.items)) }
{
    sorted.clear();
    sorted.extend_from_slice(counts)?;
    sorted.sort_unstable();
    add_counts(rows, name, sorted.as_slice())
}

/// The same, with a row for each stretch of equal numbers.
fn add_counts<'a>(rows: &mut Vec<Row<'a>>, name: &'a str, counts: &[u32]) -> Result<(), AllocError>
    requires { length counts.now < 2 ^ 32 }
    ensures { OnOk result (AddsCounts name.now counts.now (rows_view rows.old.items) (rows_view rows.new.items)) }
{
    let Some((first, rest)) = counts.split_first() else {
        return Ok(());
    };
    let mut count = *first;
    let mut points = 1;
    for next in rest {
        if *next == count {
            points += 1;
        } else {
            rows.push(((name, count), points))?;
            count = *next;
            points = 1;
        }
    }
    rows.push(((name, count), points))?;
    Ok(())
}
