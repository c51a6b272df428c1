//! The place of a site's buckets.
ghost use Rattle.std.specs.Prelude.{◌≡◌, IfOk, option_map};
ghost use Rattle.flag_text.specs.View.{view};
ghost use Rattle.text_spans.specs.View.{path_of};
ghost use Rattle.kept_document.specs.Place.{at_spot, in_list, site_place, targeting_at, targeting_path};
ghost use Rattle.kept_document.specs.View.{place_view, spot_view};

use crate::following::{Spot, followed};
use crate::seeking::{Sought, find_site};
use flag_text::Tree;
use std::alloc::{AllocError, Global};
use text_spans::Step;

/// Where the buckets of a site stand in a document.
#[derive(Drop)]
pub enum SitePlace<'a> {
    /// They are the items of the list at this path, from index `first` up to index `last`.
    Buckets {
        list: Vec<Step<'a>>,
        first: usize,
        last: usize,
    },
    /// They stand in the evaluator of this name, to which other flags may refer too.
    Shared(&'a str),
    /// The flag has no such site, or its site has no buckets.
    Nowhere,
}

/// Where the buckets of a flag's site stand in the document that the flag was read from. `form` is the flag's targeting, as
/// it is written.
pub fn place_of_site<'a>(
    alloc: Global,
    document: &'a Tree,
    key: &'a str,
    form: &'a Tree,
    site: usize,
) -> Result<SitePlace<'a>, AllocError>
    ensures { IfOk result (λ p. place_view p ≡ site_place (view document.now) key.now (view form.now) site) }
{
    let Some(targeting) = targeting_of(document, key) else {
        return Ok(SitePlace::Nowhere);
    };
    match find_site(alloc, site, form)? {
        Sought::Later(_) => Ok(SitePlace::Nowhere),
        Sought::Here(way, front) => {
            let start = targeting_path(alloc, key)?;
            let spot = followed(start, targeting, way)?;
            Ok(buckets_at(front, spot))
        }
    }
}

/// The targeting of the flag of this key.
fn targeting_of<'a>(document: &'a Tree, key: &str) -> Option<&'a Tree>
    ensures { option_map (λ t. view t.now) result ≡ targeting_at (view document.now) key.now }
{
    let flags = document.member("flags")?;
    let flag = flags.member(key)?;
    flag.member("targeting")
}

/// The path of the targeting of the flag of this key.
fn targeting_path<'a>(alloc: Global, key: &'a str) -> Result<Vec<Step<'a>>, AllocError>
    ensures { IfOk result (λ v. path_of v.items ≡ targeting_path key.now) }
{
    let path = Vec::from_array(
        alloc,
        [
            Step::Name("flags"),
            Step::Name(key),
            Step::Name("targeting"),
        ],
    )?;
    Ok(path)
}

/// The buckets among the arguments of a site, of which so many stand before them.
fn buckets_at(front: usize, spot: Spot<'_>) -> SitePlace<'_>
    ensures { place_view result ≡ at_spot front (spot_view spot.entry) }
{
    match spot {
        Spot::Part(list, part) => match part.as_list() {
            Some(items) => in_list(list, front, items.len()),
            None => SitePlace::Nowhere,
        },
        Spot::Referred(name) => SitePlace::Shared(name),
        Spot::Lost => SitePlace::Nowhere,
    }
}

fn in_list(list: Vec<Step<'_>>, first: usize, count: usize) -> SitePlace<'_>
    ensures { place_view result ≡ in_list (path_of list.entry.items) first count }
{
    if first < count {
        SitePlace::Buckets {
            list,
            first,
            last: count - 1,
        }
    } else {
        SitePlace::Nowhere
    }
}
