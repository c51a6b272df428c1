//! What keeps a tree from being a request, and where.
ghost use Rattle.std.specs.Prelude.{◌≡◌, true, [], Ok, IfOk, is_some, option_map, option_and_then, codes};
ghost use Rattle.flag_text.specs.Readers.{as_list};
ghost use Rattle.flag_text.specs.View.{view, items_view, members_view};
ghost use Rattle.price_core.specs.Misfit.{unless, member_fault_of, misshape_of, misfit_of, first_unlimited, first_unread, first_again, change_parts, unlimited_in, unread_in, again_in};
ghost use Rattle.price_core.specs.Pricing.{lent_pair};
ghost use Rattle.price_core.specs.Request.{limit_of, price_parts, bar_parts};

use crate::draft::{
    bar_in, form_in, key_in, limit_of, list_in, members_in, pair_of, price_in, site_in, usual_in,
};
use flag_text::Tree;
use std::alloc::{AllocError, Global};
use std::collections::BTreeSet;

/// What keeps a tree from being a request. Places are counted from 0.
#[derive(Clone, Copy, Debug, PartialEq, Eq)]
pub enum Misfit {
    /// It is no object.
    NoObject,
    /// The member `plan` is neither 1 nor 2.
    Plan,
    /// The member `flag` is no text.
    Flag,
    /// The member `site` is no number from 0 to 4294967295.
    Site,
    /// The member `totals` is no object.
    Totals,
    /// The member `price` is no whole number.
    Price,
    /// The member `prices` is no list.
    Prices,
    /// The member `forbid` is no list.
    Forbid,
    /// The total at this place, in the order of the names, is no number from 0 to 2147483647, nor a list of two
    /// such where `plan` is 2.
    Total(usize),
    /// The item of `prices` at this place is no `[FROM,TO,n]`.
    PricesItem(usize),
    /// The item of `forbid` at this place is no `[FROM,TO]`.
    ForbidItem(usize),
    /// The change of the item of `prices` at this place stands there before.
    PricesTwice(usize),
    /// The change of the item of `forbid` at this place stands there before.
    ForbidTwice(usize),
}

impl Misfit {
    /// The first misfit of a tree, in the order of the variants; there is none exactly where the tree is a request. It
    /// takes memory for the changes of a list only where all else is of its form.
    pub fn of(alloc: Global, tree: &Tree) -> Result<Option<Misfit>, AllocError>
        ensures exact { IfOk result (λ m. m ≡ misfit_of (view tree.now)) }
        ensures misshapen { is_some (misshape_of (view tree.now)) ≡ true → result ≡ Ok (misshape_of (view tree.now)) }
    {
        if let Some(misfit) = misshape(tree) {
            return Ok(Some(misfit));
        }
        if let Some(place) = again_in(alloc, tree, "prices")? {
            return Ok(Some(Misfit::PricesTwice(place)));
        }
        match again_in(alloc, tree, "forbid")? {
            Some(place) => Ok(Some(Misfit::ForbidTwice(place))),
            None => Ok(None),
        }
    }
}

/// The old and the new variant of an item of `prices` or `forbid`.
pub fn change_in(item: &Tree) -> Option<(&str, &str)>
    ensures { option_map lent_pair result ≡ option_and_then change_parts (as_list (view item.now)) }
{
    change_parts(item.as_list()?)
}

pub(crate) fn change_parts(parts: &[Tree]) -> Option<(&str, &str)>
    ensures { option_map lent_pair result ≡ change_parts (items_view parts.now) }
{
    match parts {
        [from, to, ..] => pair_of(from, to),
        _ => None,
    }
}

/// The first that is not of its form.
fn misshape(tree: &Tree) -> Option<Misfit>
    ensures { result ≡ misshape_of (view tree.now) }
{
    if let Some(misfit) = member_fault(tree) {
        return Some(misfit);
    }
    if let Some(place) = unlimited_in(tree) {
        return Some(Misfit::Total(place));
    }
    if let Some(place) = unpriced_in(tree) {
        return Some(Misfit::PricesItem(place));
    }
    Some(Misfit::ForbidItem(unbarred_in(tree)?))
}

/// The first member that is missing or of another kind.
fn member_fault(tree: &Tree) -> Option<Misfit>
    ensures { result ≡ member_fault_of (view tree.now) }
{
    unless(tree.as_object().is_some(), Misfit::NoObject)
        .or(unless(form_in(tree).is_some(), Misfit::Plan))
        .or(unless(key_in(tree).is_some(), Misfit::Flag))
        .or(unless(site_in(tree).is_some(), Misfit::Site))
        .or(unless(members_in(tree).is_some(), Misfit::Totals))
        .or(unless(usual_in(tree).is_some(), Misfit::Price))
        .or(unless(list_in(tree, "prices").is_some(), Misfit::Prices))
        .or(unless(list_in(tree, "forbid").is_some(), Misfit::Forbid))
}

fn unless(is_so: bool, misfit: Misfit) -> Option<Misfit>
    ensures { result ≡ unless is_so misfit }
{
    if is_so { None } else { Some(misfit) }
}

fn unlimited_in(tree: &Tree) -> Option<usize>
    ensures { result ≡ unlimited_in (view tree.now) }
{
    let ranges = form_in(tree)?;
    first_unlimited(members_in(tree)?, ranges)
}

fn first_unlimited(members: &[(String, Tree)], ranges: bool) -> Option<usize>
    ensures { result ≡ first_unlimited (limit_of ranges) 0 (members_view members.now) }
{
    for (place, (_, total)) in members.iter().enumerate() {
        if limit_of(total, ranges).is_none() {
            return Some(place);
        }
    }
    None
}

fn unpriced_in(tree: &Tree) -> Option<usize>
    ensures { result ≡ unread_in price_parts (codes "prices") (view tree.now) }
{
    first_unpriced(list_in(tree, "prices")?)
}

fn first_unpriced(items: &[Tree]) -> Option<usize>
    ensures { result ≡ first_unread price_parts 0 (items_view items.now) }
{
    for (place, item) in items.iter().enumerate() {
        if price_in(item).is_none() {
            return Some(place);
        }
    }
    None
}

fn unbarred_in(tree: &Tree) -> Option<usize>
    ensures { result ≡ unread_in bar_parts (codes "forbid") (view tree.now) }
{
    first_unbarred(list_in(tree, "forbid")?)
}

fn first_unbarred(items: &[Tree]) -> Option<usize>
    ensures { result ≡ first_unread bar_parts 0 (items_view items.now) }
{
    for (place, item) in items.iter().enumerate() {
        if bar_in(item).is_none() {
            return Some(place);
        }
    }
    None
}

/// The first item of a list whose change stands in it before.
fn again_in(alloc: Global, tree: &Tree, name: &str) -> Result<Option<usize>, AllocError>
    ensures { IfOk result (λ o. o ≡ again_in name.now (view tree.now)) }
{
    match list_in(tree, name) {
        Some(items) => first_again(alloc, items),
        None => Ok(None),
    }
}

fn first_again(alloc: Global, items: &[Tree]) -> Result<Option<usize>, AllocError>
    ensures { IfOk result (λ o. o ≡ first_again [] 0 (items_view items.now)) }
{
    let mut seen = BTreeSet::new(alloc);
    for (place, item) in items.iter().enumerate() {
        let Some(change) = change_in(item) else {
            return Ok(None);
        };
        if !seen.insert(change)? {
            return Ok(Some(place));
        }
    }
    Ok(None)
}
