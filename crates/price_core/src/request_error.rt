//! What refuses a tree that is a request, and where.
ghost use Rattle.std.specs.Prelude.{◌≡◌, option_map, option_and_then, is_some, codes};
ghost use Rattle.flag_text.specs.Readers.{as_list};
ghost use Rattle.flag_text.specs.View.{view, items_view, members_view};
ghost use Rattle.price_core.specs.RequestError.{request_error_of, other_parts, fitting_parts, range_in, empty_in};
ghost use Rattle.price_core.specs.Misfit.{first_unlimited, first_unread, unread_in};
ghost use Rattle.price_core.specs.Pricing.{lent_pair};
ghost use Rattle.price_core.specs.Request.{as_price, usual_in};

use crate::draft::{limit_of, list_in, members_in, price_parts, usual_in};
use crate::misfit::change_parts;
use crate::request::as_price;
use flag_text::Tree;

/// Why a request that has no [`Misfit`](crate::Misfit) is refused: a change to the same variant, a price out of range or an empty
/// range. Places are counted from 0.
#[derive(Clone, Copy, Debug, PartialEq, Eq)]
pub enum RequestError {
    /// The item of `prices` at this place is a change from a variant to itself.
    PricesSelf(usize),
    /// The item of `forbid` at this place is a change from a variant to itself.
    ForbidSelf(usize),
    /// The member `price` is not from 0 to 1000000.
    UsualPrice,
    /// The price of the item of `prices` at this place is not from 0 to 1000000.
    Price(usize),
    /// The total at this place, in the order of the names, has a low limit above its high one.
    EmptyRange(usize),
}

impl RequestError {
    /// The first error of a tree that has no [`Misfit`], in the order of the variants.
    ///
    /// [`Misfit`]: crate::Misfit
    pub fn of(tree: &Tree) -> Option<RequestError>
        ensures { result ≡ request_error_of (view tree.now) }
    {
        if let Some(place) = self_in(tree, "prices") {
            return Some(RequestError::PricesSelf(place));
        }
        if let Some(place) = self_in(tree, "forbid") {
            return Some(RequestError::ForbidSelf(place));
        }
        if !usual_fits(tree) {
            return Some(RequestError::UsualPrice);
        }
        if let Some(place) = unfitting_in(tree) {
            return Some(RequestError::Price(place));
        }
        Some(RequestError::EmptyRange(empty_in(tree)?))
    }
}

fn self_in(tree: &Tree, name: &str) -> Option<usize>
    ensures { result ≡ unread_in other_parts name.now (view tree.now) }
{
    first_self(list_in(tree, name)?)
}

fn first_self(items: &[Tree]) -> Option<usize>
    ensures { result ≡ first_unread other_parts 0 (items_view items.now) }
{
    for (place, item) in items.iter().enumerate() {
        if other_in(item).is_none() {
            return Some(place);
        }
    }
    None
}

fn other_in(item: &Tree) -> Option<(&str, &str)>
    ensures { option_map lent_pair result ≡ option_and_then other_parts (as_list (view item.now)) }
{
    other_parts(item.as_list()?)
}

fn other_parts(parts: &[Tree]) -> Option<(&str, &str)>
    ensures { option_map lent_pair result ≡ other_parts (items_view parts.now) }
{
    let (from, to) = change_parts(parts)?;
    if from == to { None } else { Some((from, to)) }
}

fn usual_fits(tree: &Tree) -> bool
    ensures { result ≡ is_some (option_and_then as_price (usual_in (view tree.now))) }
{
    match usual_in(tree) {
        Some(price) => as_price(price).is_some(),
        None => false,
    }
}

fn unfitting_in(tree: &Tree) -> Option<usize>
    ensures { result ≡ unread_in fitting_parts (codes "prices") (view tree.now) }
{
    first_unfitting(list_in(tree, "prices")?)
}

fn first_unfitting(items: &[Tree]) -> Option<usize>
    ensures { result ≡ first_unread fitting_parts 0 (items_view items.now) }
{
    for (place, item) in items.iter().enumerate() {
        if fitting_in(item).is_none() {
            return Some(place);
        }
    }
    None
}

fn fitting_in(item: &Tree) -> Option<u64>
    ensures { result ≡ option_and_then fitting_parts (as_list (view item.now)) }
{
    fitting_parts(item.as_list()?)
}

fn fitting_parts(parts: &[Tree]) -> Option<u64>
    ensures { result ≡ fitting_parts (items_view parts.now) }
{
    let (_, price) = price_parts(parts)?;
    as_price(price)
}

fn empty_in(tree: &Tree) -> Option<usize>
    ensures { result ≡ empty_in (view tree.now) }
{
    first_empty(members_in(tree)?)
}

fn first_empty(members: &[(String, Tree)]) -> Option<usize>
    ensures { result ≡ first_unlimited range_in 0 (members_view members.now) }
{
    for (place, (_, total)) in members.iter().enumerate() {
        if range_in(total).is_none() {
            return Some(place);
        }
    }
    None
}

fn range_in(total: &Tree) -> Option<(u32, u32)>
    ensures { result ≡ range_in (view total.now) }
{
    let (low, high) = limit_of(total, true)?;
    if low <= high { Some((low, high)) } else { None }
}
