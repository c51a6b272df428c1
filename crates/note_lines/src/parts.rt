//! From a tree to the page of a note and what stands behind it.
ghost use Rattle.std.specs.Prelude.{◌≡◌, IfOk, option_map};
ghost use Rattle.flag_text.specs.Shape.{no_items, item};
ghost use Rattle.flag_text.specs.View.{view, items_view};
ghost use Rattle.note_lines.specs.Reading.{page_from, parts_of, page_and_last};

use book_core::{Page, by_of, site_of};
use flag_text::Tree;
use std::alloc::{AllocError, Global};

/// The page of a list `[FLAG,SITE,BY,LAST]`, and its last part.
pub(crate) fn page_and_last(alloc: Global, tree: &Tree) -> Result<Option<(Page, &Tree)>, AllocError>
    ensures { IfOk result (λ r. option_map (λ p. (p.0, view p.1.now)) r ≡ page_and_last (view tree.now)) }
{
    match tree {
        Tree::List(parts) => parts_of(alloc, parts.as_slice()),
        _ => Ok(None),
    }
}

fn parts_of(alloc: Global, parts: &[Tree]) -> Result<Option<(Page, &Tree)>, AllocError>
    ensures { IfOk result (λ r. option_map (λ p. (p.0, view p.1.now)) r ≡ parts_of (items_view parts.now)) }
{
    match parts {
        [] => Ok(None),
        [_] => Ok(None),
        [_, _] => Ok(None),
        [_, _, _] => Ok(None),
        [flag, site, by, last] => four_parts(alloc, flag, site, by, last),
        [_, _, _, _, _, ..] => Ok(None),
    }
}

fn four_parts<'a>(
    alloc: Global,
    flag: &Tree,
    site: &Tree,
    by: &Tree,
    last: &'a Tree,
) -> Result<Option<(Page, &'a Tree)>, AllocError>
    ensures { IfOk result (λ r. option_map (λ p. (p.0, view p.1.now)) r ≡ parts_of (item (view flag.now) (item (view site.now) (item (view by.now) (item (view last.now) no_items))))) }
{
    let Some(page) = page_from(alloc, flag, site, by)? else {
        return Ok(None);
    };
    Ok(Some((page, last)))
}

fn page_from(alloc: Global, flag: &Tree, site: &Tree, by: &Tree) -> Result<Option<Page>, AllocError>
    ensures { IfOk result (λ page. page ≡ page_from (view flag.now) (view site.now) (view by.now)) }
{
    let Some(flag) = flag.as_text() else {
        return Ok(None);
    };
    let Some(site) = site_of(site) else {
        return Ok(None);
    };
    let Some(by) = by_of(by) else {
        return Ok(None);
    };
    let by = match by {
        None => None,
        Some(text) => Some(String::from_str(alloc, text)?),
    };
    let flag = String::from_str(alloc, flag)?;
    Ok(Some(Page { flag, site, by }))
}
