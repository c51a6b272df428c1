//! From a tree to a request as it is written, its prices not yet judged.
ghost use Rattle.std.specs.Prelude.{◌≡◌, ◌^◌, true, IfOk, option_map, option_and_then, option_copied, string_bytes};
ghost use Rattle.std.specs.List.Sorted.{IsStrictlySortedBy};
ghost use Rattle.std.specs.Map.{keys_of};
ghost use Rattle.flag_text.specs.Outcome.{GivesUnless};
ghost use Rattle.flag_text.specs.Readers.{as_list, member_of};
ghost use Rattle.flag_text.specs.Shape.{is_whole, no_items};
ghost use Rattle.flag_text.specs.View.{view, items_view, members_view};
ghost use Rattle.price_core.specs.Limits.{limits_view};
ghost use Rattle.price_core.specs.Pricing.{pair_cmp, entries_view, lent_pair, lent_entry};
ghost use Rattle.price_core.specs.Request.{form_in, flag_in, site_in, usual_in, members_in, totals_in, named_in, barred_in, limits_with, limit_of, range_of, number_below, pair_of, price_parts, bar_parts, each_of, if_there, if_written, written_of, draft_view, IsWritten};

use crate::change::{Change, once_each};
use crate::fault::PriceFault;
use crate::totals::Limit;
use flag_text::Tree;
use limits::SITES;
use std::alloc::Global;

const TOTALS: i64 = bucket_core::MAX_TOTAL as i64 + 1;

/// A request as it is written.
#[derive(Drop)]
pub(crate) struct Draft {
    pub(crate) flag: String,
    pub(crate) site: u32,
    pub(crate) totals: Vec<Limit>,
    pub(crate) usual: i64,
    pub(crate) named: Vec<(Change, i64)>,
    pub(crate) barred: Vec<(Change, ())>,
}

/// Whether totals may be ranges, by the form of the request.
pub(crate) fn form_in(tree: &Tree) -> Option<bool>
    ensures { result ≡ form_in (view tree.now) }
{
    match tree.member("plan")?.as_whole()? {
        1 => Some(false),
        2 => Some(true),
        _ => None,
    }
}

/// The key of the flag.
pub(crate) fn key_in(tree: &Tree) -> Option<&str>
    ensures { option_copied result ≡ flag_in (view tree.now) }
{
    tree.member("flag")?.as_text()
}

fn flag_in(alloc: Global, tree: &Tree) -> Result<String, PriceFault>
    ensures { GivesUnless PriceFault.WantOfMemory (λ s. string_bytes s) result (if_written (flag_in (view tree.now))) }
{
    match key_in(tree) {
        Some(key) => Ok(String::from_str(alloc, key)?),
        None => Err(PriceFault::BadRequest),
    }
}

pub(crate) fn site_in(tree: &Tree) -> Option<u32>
    ensures { result ≡ site_in (view tree.now) }
{
    match tree.member("site") {
        None => Some(0),
        Some(Tree::Whole(site)) if 0 <= *site && *site < SITES => Some(*site as u32),
        Some(_) => None,
    }
}

pub(crate) fn usual_in(tree: &Tree) -> Option<i64>
    ensures { result ≡ usual_in (view tree.now) }
{
    match tree.member("price") {
        None => Some(1),
        Some(price) => price.as_whole(),
    }
}

/// The names with their totals, not yet read.
pub(crate) fn members_in(tree: &Tree) -> Option<&[(String, Tree)]>
    ensures { option_map (λ ms. members_view ms.now) result ≡ members_in (view tree.now) }
{
    tree.member("totals")?.as_object()
}

fn totals_in(alloc: Global, tree: &Tree, ranges: bool) -> Result<Vec<Limit>, PriceFault>
    ensures { GivesUnless PriceFault.WantOfMemory (λ v. limits_view v.items) result (if_written (totals_in ranges (view tree.now))) }
{
    match members_in(tree) {
        Some(members) => limits_with(alloc, members, ranges),
        None => Err(PriceFault::BadRequest),
    }
}

fn limits_with(
    alloc: Global,
    members: &[(String, Tree)],
    ranges: bool,
) -> Result<Vec<Limit>, PriceFault>
    ensures { GivesUnless PriceFault.WantOfMemory (λ v. limits_view v.items) result (if_written (limits_with ranges (members_view members.now))) }
{
    let mut limits = Vec::new(alloc);
    for (name, total) in members {
        let Some((low, high)) = limit_of(total, ranges) else {
            return Err(PriceFault::BadRequest);
        };
        let name = name.clone()?;
        limits.push(Limit { name, low, high })?;
    }
    Ok(limits)
}

/// The least and the greatest total that one number, or a list of two where ranges are taken, stands for.
pub fn limit_of(tree: &Tree, ranges: bool) -> Option<(u32, u32)>
    ensures { result ≡ limit_of ranges (view tree.now) }
{
    match tree {
        Tree::List(parts) if ranges => range_of(parts.as_slice()),
        Tree::List(_) => None,
        _ => {
            let total = total_of(tree)?;
            Some((total, total))
        }
    }
}

fn range_of(parts: &[Tree]) -> Option<(u32, u32)>
    ensures { result ≡ range_of (items_view parts.now) }
{
    match parts {
        [low, high] => {
            let low = total_of(low)?;
            Some((low, total_of(high)?))
        }
        _ => None,
    }
}

fn total_of(tree: &Tree) -> Option<u32>
    ensures { result ≡ number_below (2 ^ 31) (view tree.now) }
{
    match tree {
        Tree::Whole(total) if 0 <= *total && *total < TOTALS => Some(*total as u32),
        _ => None,
    }
}

/// The items of the list of this name, none where there is no such member.
pub(crate) fn list_in<'a>(tree: &'a Tree, name: &str) -> Option<&'a [Tree]>
    ensures { option_map (λ ts. items_view ts.now) result ≡ if_there no_items as_list (member_of name.now (view tree.now)) }
{
    match tree.member(name) {
        None => Some(&[]),
        Some(list) => list.as_list(),
    }
}

fn named_in(alloc: Global, tree: &Tree) -> Result<Vec<(Change, i64)>, PriceFault>
    ensures exact { GivesUnless PriceFault.WantOfMemory (λ v. entries_view v.items) result (if_written (named_in (view tree.now))) }
    ensures rise { IfOk result (λ v. IsStrictlySortedBy pair_cmp (keys_of (entries_view v.items))) }
{
    let Some(items) = list_in(tree, "prices") else {
        return Err(PriceFault::BadRequest);
    };
    once_each(alloc, prices_of(alloc, items)?)
}

fn prices_of(alloc: Global, items: &[Tree]) -> Result<Vec<(Change, i64)>, PriceFault>
    ensures { GivesUnless PriceFault.WantOfMemory (λ v. entries_view v.items) result (if_written (each_of price_parts (items_view items.now))) }
{
    let mut prices = Vec::new(alloc);
    for item in items {
        let Some((change, price)) = price_in(item) else {
            return Err(PriceFault::BadRequest);
        };
        prices.push((Change::of(alloc, change)?, price))?;
    }
    Ok(prices)
}

/// The price of one change, `[from, to, n]`.
pub(crate) fn price_in(item: &Tree) -> Option<((&str, &str), i64)>
    ensures { option_map lent_entry result ≡ option_and_then price_parts (as_list (view item.now)) }
{
    price_parts(item.as_list()?)
}

pub(crate) fn price_parts(parts: &[Tree]) -> Option<((&str, &str), i64)>
    ensures { option_map lent_entry result ≡ price_parts (items_view parts.now) }
{
    match parts {
        [] => None,
        [_] => None,
        [_, _] => None,
        [from, to, price] => {
            let change = pair_of(from, to)?;
            Some((change, price.as_whole()?))
        }
        [_, _, _, _, ..] => None,
    }
}

fn barred_in(alloc: Global, tree: &Tree) -> Result<Vec<(Change, ())>, PriceFault>
    ensures exact { GivesUnless PriceFault.WantOfMemory (λ v. entries_view v.items) result (if_written (barred_in (view tree.now))) }
    ensures rise { IfOk result (λ v. IsStrictlySortedBy pair_cmp (keys_of (entries_view v.items))) }
{
    let Some(items) = list_in(tree, "forbid") else {
        return Err(PriceFault::BadRequest);
    };
    once_each(alloc, bars_of(alloc, items)?)
}

fn bars_of(alloc: Global, items: &[Tree]) -> Result<Vec<(Change, ())>, PriceFault>
    ensures { GivesUnless PriceFault.WantOfMemory (λ v. entries_view v.items) result (if_written (each_of bar_parts (items_view items.now))) }
{
    let mut bars = Vec::new(alloc);
    for item in items {
        let Some(entry) = bar_in(item) else {
            return Err(PriceFault::BadRequest);
        };
        bars.push((Change::of(alloc, entry.0)?, entry.1))?;
    }
    Ok(bars)
}

/// One forbidden change, `[from, to]`.
pub(crate) fn bar_in(item: &Tree) -> Option<((&str, &str), ())>
    ensures { option_map lent_entry result ≡ option_and_then bar_parts (as_list (view item.now)) }
{
    bar_parts(item.as_list()?)
}

fn bar_parts(parts: &[Tree]) -> Option<((&str, &str), ())>
    ensures { option_map lent_entry result ≡ bar_parts (items_view parts.now) }
{
    match parts {
        [] => None,
        [_] => None,
        [from, to] => Some((pair_of(from, to)?, ())),
        [_, _, _, ..] => None,
    }
}

/// Two texts: the variant that a key had, and the one that it is given.
pub(crate) fn pair_of<'a>(from: &'a Tree, to: &'a Tree) -> Option<(&'a str, &'a str)>
    ensures { option_map lent_pair result ≡ pair_of (view from.now) (view to.now) }
{
    let from = from.as_text()?;
    Some((from, to.as_text()?))
}

/// The request that a tree stands for, as it is written.
pub(crate) fn written(alloc: Global, tree: &Tree) -> Result<Draft, PriceFault>
    requires { is_whole (view tree.now) ≡ true }
    ensures exact { GivesUnless PriceFault.WantOfMemory draft_view result (if_written (written_of (view tree.now))) }
    ensures lawful { IfOk result (λ d. IsWritten (draft_view d)) }
{
    let ranges = form_in(tree).ok_or(PriceFault::BadRequest)?;
    let flag = flag_in(alloc, tree)?;
    let site = site_in(tree).ok_or(PriceFault::BadRequest)?;
    let usual = usual_in(tree).ok_or(PriceFault::BadRequest)?;
    let totals = totals_in(alloc, tree, ranges)?;
    let named = named_in(alloc, tree)?;
    let barred = barred_in(alloc, tree)?;
    Ok(Draft {
        flag,
        site,
        totals,
        usual,
        named,
        barred,
    })
}
