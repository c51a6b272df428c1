//! Assignments: how many points of each group a planner gives each name.
ghost use Rattle.std.specs.Prelude.{◌≡◌, ◌≤◌, ◌++◌, IfOk, OnOk, drop, length, take};
ghost use Rattle.std.specs.Map.{keys_of};
ghost use Rattle.price_core.specs.Limits.{limits_view};
ghost use Rattle.transport_core.specs.Assignment.{assigned_view, flows_of, row_flows};
ghost use Rattle.transport_core.specs.Groups.{row_view};

use crate::instance::Instance;
use crate::rows::Row;
use price_core::Limit;
use std::alloc::{AllocError, Global};

/// How the points of an instance are spread: for each of its groups, and for each name of its totals, how many points of the
/// group are given the name, by group and then by name. The instance's `groups` and `totals` give the order, and `rows` puts
/// them beside the numbers.
#[derive(Debug, Drop)]
pub struct Assignment {
    pub numbers: Vec<u32>,
}

/// So many points of a group, which is an old name with a number of inputs, that are given a variant.
#[derive(Clone, Copy, Debug, PartialEq, Eq)]
pub struct AssignmentRow<'a> {
    pub name: &'a str,
    pub count: u32,
    pub variant: &'a str,
    pub points: u32,
}

impl Assignment {
    /// What each group gives each name, by group and then by name, of the instance that was solved.
    pub fn rows<'a>(
        &self,
        alloc: Global,
        instance: &Instance<'a>,
    ) -> Result<Vec<AssignmentRow<'a>>, AllocError>
        ensures { IfOk result (λ rows. assigned_view rows.items ≡ flows_of instance.now self.now.numbers.items) }
    {
        let limits = instance.totals().entries();
        let mut rows = Vec::new(alloc);
        let mut rest = self.numbers.as_slice();
        for group in instance.groups() {
            let (row, more) = cut(rest, limits.len());
            push_row(&mut rows, group, limits, row)?;
            rest = more;
        }
        Ok(rows)
    }
}

/// The front of so many numbers, or of as many as there are, and the rest.
fn cut(numbers: &[u32], width: usize) -> (&[u32], &[u32])
    ensures front { result.0.now ≡ take width numbers.now }
    ensures back { result.1.now ≡ drop width numbers.now }
    ensures few { length result.0.now ≤ width }
{
    if width < numbers.len() {
        numbers.split_at(width)
    } else {
        (numbers, &[])
    }
}

/// Adds what a group gives each name, of which the first have a number.
fn push_row<'a>(
    rows: &mut Vec<AssignmentRow<'a>>,
    group: &Row<'a>,
    limits: &'a [Limit],
    row: &[u32],
) -> Result<(), AllocError>
    requires { length row.now ≤ length limits.now }
    ensures { OnOk result (assigned_view rows.new.items ≡ assigned_view rows.old.items ++ row_flows (row_view group.now).0 (keys_of (limits_view limits.now)) row.now) }
{
    for (place, points) in row.iter().enumerate() {
        rows.push(AssignmentRow {
            name: group.0.0,
            count: group.0.1,
            variant: limits[place].name.as_str(),
            points: *points,
        })?;
    }
    Ok(())
}
