//! What an object, or a part of one, says of a page.
ghost use Rattle.std.specs.Prelude.{◌≡◌, ◌<◌, ◌^◌, codes, option_map, option_and_then, IfOk, IfSome};
ghost use Rattle.std.specs.Option.{option_copied};
ghost use Rattle.flag_text.specs.Readers.{as_text, member_of};
ghost use Rattle.flag_text.specs.View.{view};
ghost use Rattle.book_core.specs.Reading.{site_of, by_of, page_of};

use crate::page::Page;
use flag_text::Tree;
use limits::SITES;
use std::alloc::{AllocError, Global};

/// The page that an object names by its members `flag`, `site` and `by`; None where one is missing or of another kind.
#[tactic(auto, unfolding(crate::specs::Reading::page_of))]
pub fn page_in(alloc: Global, tree: &Tree) -> Result<Option<Page>, AllocError>
    ensures page { IfOk result (λ page. page ≡ page_of (view tree.now)) }
    ensures site { IfOk result (λ page. IfSome page (λ p. p.site < 2 ^ 32)) }
{
    let Some(flag) = flag_in(tree) else {
        return Ok(None);
    };
    let Some(site) = site_in(tree) else {
        return Ok(None);
    };
    let Some(by) = by_in(tree) else {
        return Ok(None);
    };
    let by = match by {
        None => None,
        Some(text) => Some(String::from_str(alloc, text)?),
    };
    let flag = String::from_str(alloc, flag)?;
    Ok(Some(Page { flag, site, by }))
}

fn flag_in(tree: &Tree) -> Option<&str>
    ensures { option_copied result ≡ option_and_then as_text (member_of (codes "flag") (view tree.now)) }
{
    tree.member("flag")?.as_text()
}

fn site_in(tree: &Tree) -> Option<u32>
    ensures number { result ≡ option_and_then site_of (member_of (codes "site") (view tree.now)) }
    ensures small { IfSome result (λ n. n < 2 ^ 32) }
{
    site_of(tree.member("site")?)
}

fn by_in(tree: &Tree) -> Option<Option<&str>>
    ensures { option_map option_copied result ≡ option_and_then by_of (member_of (codes "by") (view tree.now)) }
{
    by_of(tree.member("by")?)
}

/// The number of a site, or the total of a rule: a whole number from 0 to 4294967295.
pub fn site_of(tree: &Tree) -> Option<u32>
    ensures number { result ≡ site_of (view tree.now) }
    ensures small { IfSome result (λ n. n < 2 ^ 32) }
{
    match tree {
        Tree::Whole(n) if 0 <= *n && *n < SITES => Some(*n as u32),
        _ => None,
    }
}

/// What the inputs of a page are made by: the text of a bucketing expression, or null for the default input.
pub fn by_of(tree: &Tree) -> Option<Option<&str>>
    ensures { option_map option_copied result ≡ by_of (view tree.now) }
{
    match tree {
        Tree::Null => Some(None),
        Tree::Text(text) => Some(Some(text.as_str())),
        _ => None,
    }
}
