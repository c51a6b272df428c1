//! What is printed of pages as JSON.
ghost use Rattle.std.specs.Prelude.{◌≡◌, ◌++◌, false, IfOk, OnOk, string_bytes};
ghost use Rattle.flagops_compare.specs.Printed.{comma_if, left_object, object_on, page_opening, row_object, row_objects, sum_object};
ghost use Rattle.rule_switches.specs.Found.{page_view};
ghost use Rattle.rule_switches.specs.Switches.{row_view, rows_view};

use crate::reasons::{reason_name, side_name};
use book_core::Page;
use flagops_files::quoted;
use rule_switches::{Found, NoRule, PageFound, Side, Switch};
use std::alloc::{AllocError, Global};

/// Adds the object of a page, with its line's end.
pub(crate) fn push_object(
    alloc: Global,
    out: &mut String,
    page: &PageFound,
) -> Result<(), AllocError>
    ensures { OnOk result (string_bytes out.new ≡ string_bytes out.old ++ object_on (page_view page.now).page (page_view page.now).found) }
{
    match &page.found {
        Found::Counted(inputs, users, rows) => {
            let opening = page_opening(alloc, &page.page, *inputs, *users)?;
            out.push_str(opening.as_str())?;
            push_rows(alloc, out, rows.as_slice())?;
            out.push_str("]}\n")
        }
        Found::Left(side, reason) => {
            let object = left_object(alloc, &page.page, *side, *reason)?;
            out.push_str(object.as_str())
        }
    }
}

fn page_opening(alloc: Global, page: &Page, inputs: u64, users: u64) -> Result<String, AllocError>
    ensures { IfOk result (λ s. string_bytes s ≡ page_opening page.now inputs users) }
{
    let flag = quoted(alloc, page.flag.as_str())?;
    let site = page.site;
    format!(in alloc;
        "{{\"flag\":{flag},\"inputs\":{inputs},\"site\":{site},\"switch\":{users},\"switches\":["
    )
}

fn left_object(alloc: Global, page: &Page, side: Side, reason: NoRule) -> Result<String, AllocError>
    ensures { IfOk result (λ s. string_bytes s ≡ left_object page.now side reason) }
{
    let document = side_name(side);
    let flag = quoted(alloc, page.flag.as_str())?;
    let reason = reason_name(reason);
    let site = page.site;
    format!(in alloc;
        "{{\"document\":\"{document}\",\"flag\":{flag},\"reason\":\"{reason}\",\"site\":{site}}}\n"
    )
}

/// Adds the objects of changes.
fn push_rows(alloc: Global, out: &mut String, rows: &[Switch]) -> Result<(), AllocError>
    ensures { OnOk result (string_bytes out.new ≡ string_bytes out.old ++ row_objects false (rows_view rows.now)) }
{
    let mut later = false;
    for row in rows {
        let object = row_object(alloc, row)?;
        out.push_str(comma_if(later))?;
        out.push_str(object.as_str())?;
        later = true;
    }
    Ok(())
}

fn comma_if(later: bool) -> &'static str
    ensures { result.now ≡ comma_if later }
{
    if later { "," } else { "" }
}

fn row_object(alloc: Global, row: &Switch) -> Result<String, AllocError>
    ensures { IfOk result (λ s. string_bytes s ≡ row_object (row_view row.now)) }
{
    let from = quoted(alloc, row.from.as_str())?;
    let to = quoted(alloc, row.to.as_str())?;
    let users = row.users;
    format!(in alloc; "{{\"from\":{from},\"inputs\":{users},\"to\":{to}}}")
}

/// The object of the sums, with its line's end.
pub(crate) fn sum_object(
    alloc: Global,
    inputs: u64,
    users: u64,
    left: u64,
) -> Result<String, AllocError>
    ensures { IfOk result (λ s. string_bytes s ≡ sum_object inputs users left) }
{
    format!(in alloc; "{{\"inputs\":{inputs},\"left\":{left},\"switch\":{users}}}\n")
}
