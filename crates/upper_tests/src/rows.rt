//! Rows of a table, one a line: what is given, ` -> `, and what is wanted of it.
use std::alloc::Global;
use std::test::Fail;

/// Whether what is given comes to what is wanted.
pub(crate) type Holds = fn(Global, &str, &str) -> bool;

/// What stands before the first ` -> ` and behind it; a line that has none wants what nothing comes to.
fn parts(row: &str) -> (&str, &str) {
    row.split_once(" -> ")
        .unwrap_or((row, "a row with no arrow"))
}

/// Fails with the first row that does not hold.
pub(crate) fn each(alloc: Global, rows: &str, holds: Holds) -> Result<(), Fail>
    requires { Holds.IsAlwaysCallable holds }
{
    for row in rows.lines() {
        let (given, want) = parts(row);
        if !holds(alloc, given, want) {
            return Err(row.into());
        }
    }
    Ok(())
}
