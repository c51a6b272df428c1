//! The sites of flags.
ghost use Rattle.std.specs.Prelude.{◌≡◌, ◌++◌, ◌∷◌, [], IfOk, OnOk, map, string_bytes};
ghost use Rattle.std.specs.List.{flat_map};
ghost use Rattle.flag_defs.specs.Flag.{flag_view};
ghost use Rattle.flag_defs.specs.Flags.{flags_view};
ghost use Rattle.logic_ast.specs.Expr.{view};
ghost use Rattle.control_flags.specs.Joined.{number_or_null};
ghost use Rattle.control_flags.specs.Sites.{pages_in, recorded_on, site_row, site_rows, sites_text};

use crate::joined::{joined, number_or_null, push_row, quoted, text_or_null};
use crate::rules::rule_with_total;
use book_core::Page;
use flag_defs::{Flag, Flags};
use logic_ast::Expr;
use site_pages::pages_of;
use std::alloc::{AllocError, Global};
use std::collections::BTreeMap;

/// The rows of all sites, in the order of the flags' keys and of the sites.
pub(crate) fn sites_text(
    alloc: Global,
    flags: &Flags,
    recorded: &BTreeMap<Page, u64>,
) -> Result<String, AllocError>
    ensures { IfOk result (λ s. string_bytes s ≡ sites_text recorded.now.entries (flags_view flags.now)) }
{
    let rows = site_rows(alloc, flags, recorded)?;
    joined(alloc, rows.as_slice())
}

fn site_rows(
    alloc: Global,
    flags: &Flags,
    recorded: &BTreeMap<Page, u64>,
) -> Result<Vec<String>, AllocError>
    ensures { IfOk result (λ v. map string_bytes v.items ≡ flat_map (site_rows recorded.now.entries) (flags_view flags.now)) }
{
    let mut rows = Vec::new(alloc);
    for i in 0..flags.len() {
        let (key, flag) = flags.at(i);
        push_flag(alloc, &mut rows, key, flag, recorded)?;
    }
    Ok(rows)
}

/// Adds the rows of a flag.
fn push_flag(
    alloc: Global,
    rows: &mut Vec<String>,
    key: &str,
    flag: &Flag,
    recorded: &BTreeMap<Page, u64>,
) -> Result<(), AllocError>
    ensures { OnOk result (map string_bytes rows.new.items ≡ map string_bytes rows.old.items ++ site_rows recorded.now.entries (key.now, flag_view flag.now)) }
{
    match flag.targeting() {
        Some(targeting) => push_sites(alloc, rows, key, targeting, recorded),
        None => Ok(()),
    }
}

/// Adds the rows of a targeting.
fn push_sites(
    alloc: Global,
    rows: &mut Vec<String>,
    key: &str,
    targeting: &Expr,
    recorded: &BTreeMap<Page, u64>,
) -> Result<(), AllocError>
    ensures { OnOk result (map string_bytes rows.new.items ≡ map string_bytes rows.old.items ++ map (site_row recorded.now.entries (view targeting.now)) (pages_in key.now (view targeting.now))) }
{
    let pages = pages_of(alloc, key, targeting)?;
    push_pages(alloc, rows, pages.as_slice(), targeting, recorded)
}

/// Adds the rows of pages.
fn push_pages(
    alloc: Global,
    rows: &mut Vec<String>,
    pages: &[Page],
    targeting: &Expr,
    recorded: &BTreeMap<Page, u64>,
) -> Result<(), AllocError>
    ensures { OnOk result (map string_bytes rows.new.items ≡ map string_bytes rows.old.items ++ map (site_row recorded.now.entries (view targeting.now)) pages.now) }
{
    for page in pages {
        push_site(alloc, rows, page, targeting, recorded)?;
    }
    Ok(())
}

/// Adds the row of a page.
fn push_site(
    alloc: Global,
    rows: &mut Vec<String>,
    page: &Page,
    targeting: &Expr,
    recorded: &BTreeMap<Page, u64>,
) -> Result<(), AllocError>
    ensures { OnOk result (map string_bytes rows.new.items ≡ map string_bytes rows.old.items ++ site_row recorded.now.entries (view targeting.now) page.now ∷ []) }
{
    let row = site_row(alloc, page, targeting, recorded)?;
    push_row(rows, row)
}

/// The row of a page: the page, its rule where its buckets are literal, and how many inputs are recorded there.
fn site_row(
    alloc: Global,
    page: &Page,
    targeting: &Expr,
    recorded: &BTreeMap<Page, u64>,
) -> Result<String, AllocError>
    ensures { IfOk result (λ s. string_bytes s ≡ site_row recorded.now.entries (view targeting.now) page.now) }
{
    let by = text_or_null(alloc, &page.by)?;
    let flag = quoted(alloc, page.flag.as_str())?;
    let site = page.site;
    let rule = rule_with_total(alloc, targeting, page.site)?;
    let inputs = recorded_text(alloc, recorded, page)?;
    format!(in alloc;
        "{{\"by\":{by},\"flag\":{flag},\"site\":{site},\"rule\":{rule},\"inputs\":{inputs}}}"
    )
}

/// How many inputs are recorded on a page.
fn recorded_text(
    alloc: Global,
    recorded: &BTreeMap<Page, u64>,
    page: &Page,
) -> Result<String, AllocError>
    ensures { IfOk result (λ s. string_bytes s ≡ number_or_null (recorded_on recorded.now.entries page.now)) }
{
    number_or_null(alloc, recorded.get(page).copied())
}
