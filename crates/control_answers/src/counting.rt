//! How many notes are recorded at the sites of flags.
ghost use Rattle.std.specs.Prelude.{◌∷◌, [], IfOk, OnOk};
ghost use Rattle.flag_defs.specs.Flag.{flag_view};
ghost use Rattle.flag_defs.specs.Flags.{flags_view};
ghost use Rattle.note_streams.specs.LogLines.{files_view};
ghost use Rattle.logic_ast.specs.Expr.{view};
ghost use Rattle.control_flags.specs.Sites.{pages_in};
ghost use Rattle.control_answers.specs.SiteCounts.{AreSiteCounts, Fills, pages_of_flag, site_pages};

use book_core::Page;
use flag_defs::{Flag, Flags};
use logic_ast::Expr;
use note_streams::{LogFile, count_notes};
use site_pages::pages_of;
use std::alloc::{AllocError, Global};
use std::collections::BTreeMap;

/// How many notes log files hold of pages, each counted once: of the page of each site of flags, 0 where they hold none, and of each
/// other page that has some. Want of memory is its one fault.
///
/// Cost: a sort of the lines of all files, once for all pages.
pub fn site_counts(
    alloc: Global,
    flags: &Flags,
    files: &[LogFile<'_>],
) -> Result<BTreeMap<Page, u64>, AllocError>
    ensures { IfOk result (λ counts. AreSiteCounts (flags_view flags.now) (files_view files.now) counts.entries) }
{
    let mut counts = count_notes(alloc, files)?;
    fill_sites(alloc, &mut counts, flags)?;
    Ok(counts)
}

/// Gives the page of each site a number, 0 where it has none.
fn fill_sites(
    alloc: Global,
    counts: &mut BTreeMap<Page, u64>,
    flags: &Flags,
) -> Result<(), AllocError>
    ensures { OnOk result (Fills counts.old.entries (site_pages (flags_view flags.now)) counts.new.entries) }
{
    for i in 0..flags.len() {
        let (key, flag) = flags.at(i);
        fill_flag(alloc, counts, key, flag)?;
    }
    Ok(())
}

/// The same of the sites of a flag.
fn fill_flag(
    alloc: Global,
    counts: &mut BTreeMap<Page, u64>,
    key: &str,
    flag: &Flag,
) -> Result<(), AllocError>
    ensures { OnOk result (Fills counts.old.entries (pages_of_flag (key.now, flag_view flag.now)) counts.new.entries) }
{
    match flag.targeting() {
        Some(targeting) => fill_targeting(alloc, counts, key, targeting),
        None => Ok(()),
    }
}

/// The same of the sites of a targeting.
fn fill_targeting(
    alloc: Global,
    counts: &mut BTreeMap<Page, u64>,
    key: &str,
    targeting: &Expr,
) -> Result<(), AllocError>
    ensures { OnOk result (Fills counts.old.entries (pages_in key.now (view targeting.now)) counts.new.entries) }
{
    let pages = pages_of(alloc, key, targeting)?;
    fill_pages(counts, pages)
}

/// The same of pages.
fn fill_pages(counts: &mut BTreeMap<Page, u64>, pages: Vec<Page>) -> Result<(), AllocError>
    ensures { OnOk result (Fills counts.old.entries pages.items counts.new.entries) }
{
    for page in pages {
        fill_page(counts, page)?;
    }
    Ok(())
}

/// The same of a page.
fn fill_page(counts: &mut BTreeMap<Page, u64>, page: Page) -> Result<(), AllocError>
    ensures { OnOk result (Fills counts.old.entries (page ∷ []) counts.new.entries) }
{
    let count = counts.get(&page).copied().unwrap_or(0);
    counts.insert(page, count)?;
    Ok(())
}
