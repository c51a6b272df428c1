//! What is printed of pages.
ghost use Rattle.std.specs.Prelude.{◌≡◌, ◌++◌, IfOk, OnOk, flat_map, string_bytes};
ghost use Rattle.flagops_compare.specs.Printed.{left_line, lines_on, page_line, page_text, report_text, row_line, row_lines, sum_lines, sum_text};
ghost use Rattle.rule_switches.specs.Found.{AreSums, found_view, page_view, pages_view};
ghost use Rattle.rule_switches.specs.Switches.{row_view, rows_view};

use crate::objects::{push_object, sum_object};
use book_core::Page;
use flagops_files::quoted;
use rule_switches::{Comparison, Found, PageFound, Switch};
use std::alloc::{AllocError, Global};

/// The pages, and the sums.
#[tactic(auto, unfolding(crate::specs::Printed::report_text))]
pub(crate) fn printed(
    alloc: Global,
    compared: &Comparison,
    json: bool,
) -> Result<String, AllocError>
    requires { AreSums compared.now }
    ensures { IfOk result (λ s. string_bytes s ≡ report_text json (pages_view compared.now.pages.items)) }
{
    let mut out = String::new(alloc);
    push_pages(alloc, &mut out, compared.pages.as_slice(), json)?;
    let sums = sum_text(
        alloc,
        compared.inputs,
        compared.switched,
        compared.left,
        json,
    )?;
    out.push_str(sums.as_str())?;
    Ok(out)
}

fn push_pages(
    alloc: Global,
    out: &mut String,
    pages: &[PageFound],
    json: bool,
) -> Result<(), AllocError>
    ensures { OnOk result (string_bytes out.new ≡ string_bytes out.old ++ flat_map (page_text json) (pages_view pages.now)) }
{
    for page in pages {
        push_page(alloc, out, page, json)?;
    }
    Ok(())
}

/// Adds what is printed of a page.
fn push_page(
    alloc: Global,
    out: &mut String,
    page: &PageFound,
    json: bool,
) -> Result<(), AllocError>
    ensures { OnOk result (string_bytes out.new ≡ string_bytes out.old ++ page_text json (page_view page.now)) }
{
    if json {
        return push_object(alloc, out, page);
    }
    push_lines(alloc, out, &page.page, &page.found)
}

/// Adds the lines of a page.
fn push_lines(alloc: Global, out: &mut String, page: &Page, found: &Found) -> Result<(), AllocError>
    ensures { OnOk result (string_bytes out.new ≡ string_bytes out.old ++ lines_on page.now (found_view found.now)) }
{
    match found {
        Found::Counted(inputs, users, rows) => {
            let line = page_line(alloc, page, *inputs, *users)?;
            out.push_str(line.as_str())?;
            push_rows(alloc, out, rows.as_slice())
        }
        Found::Left(_, _) => Ok(()),
    }
}

fn page_line(alloc: Global, page: &Page, inputs: u64, users: u64) -> Result<String, AllocError>
    ensures { IfOk result (λ s. string_bytes s ≡ page_line page.now inputs users) }
{
    let flag = quoted(alloc, page.flag.as_str())?;
    let site = page.site;
    format!(in alloc; "{flag} {site} inputs {inputs} switch {users}\n")
}

/// Adds the lines of changes.
fn push_rows(alloc: Global, out: &mut String, rows: &[Switch]) -> Result<(), AllocError>
    ensures { OnOk result (string_bytes out.new ≡ string_bytes out.old ++ row_lines (rows_view rows.now)) }
{
    for row in rows {
        let line = row_line(alloc, row)?;
        out.push_str(line.as_str())?;
    }
    Ok(())
}

fn row_line(alloc: Global, row: &Switch) -> Result<String, AllocError>
    ensures { IfOk result (λ s. string_bytes s ≡ row_line (row_view row.now)) }
{
    let from = quoted(alloc, row.from.as_str())?;
    let to = quoted(alloc, row.to.as_str())?;
    let users = row.users;
    format!(in alloc; "  {from} {to} {users}\n")
}

/// The sums.
fn sum_text(
    alloc: Global,
    inputs: u64,
    users: u64,
    left: u64,
    json: bool,
) -> Result<String, AllocError>
    ensures { IfOk result (λ s. string_bytes s ≡ sum_text json inputs users left) }
{
    if json {
        return sum_object(alloc, inputs, users, left);
    }
    let left = left_line(alloc, left)?;
    format!(in alloc; "switch {users} of {inputs}\n{left}")
}

/// How many pages were not compared, where there are any.
fn left_line(alloc: Global, left: u64) -> Result<String, AllocError>
    ensures { IfOk result (λ s. string_bytes s ≡ left_line left) }
{
    if left == 0 {
        return Ok(String::new(alloc));
    }
    format!(in alloc; "left {left}\n")
}
