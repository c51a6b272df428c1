ghost use Rattle.std.specs.Prelude.{◌≡◌, ◌<◌, ◌≤◌, ◌&&◌, true, false, IfSome, IsErrOf, length, map, string_bytes};
ghost use Rattle.std.specs.Cmp.Lexicographic.{slice_cmp};
ghost use Rattle.std.specs.List.{list_any, list_all};
ghost use Rattle.std.specs.List.Sorted.{IsStrictlySortedBy};
ghost use Rattle.std.specs.Map.{keys_of};
ghost use Rattle.std.specs.Ordering.{nat_cmp};
ghost use Rattle.std.specs.Str.{is_utf8};
ghost use Rattle.flag_text.specs.Outcome.{GivesUnless};
ghost use Rattle.flag_text.specs.Shape.{is_whole};
ghost use Rattle.flag_text.specs.View.{view};
ghost use Rattle.price_core.specs.Limits.{limits_view};
ghost use Rattle.price_core.specs.Pricing.{IsPricing, max_price, entries_view};
ghost use Rattle.price_core.specs.Request.{IsWritten, draft_view, is_self_pair, as_price, as_prices, if_in_range, is_range, judged, max_request, request_of, asked_of, is_known, pair_is_known, are_known, all_known, totals_of};

use crate::change::Change;
use crate::draft::{Draft, written};
use crate::fault::PriceFault;
use crate::prices::Prices;
use crate::totals::{Limit, Totals, limits_on};
use flag_text::{Tree, read_tree};
use limits::TEXT_BYTES;
use std::alloc::Global;
use std::marker::Model;

const MAX_PRICE: i64 = limits::LARGEST_PRICE as i64;

/// What is asked of the new rule of a site: limits on the totals of its names, prices of changes
/// and forbidden changes.
#[derive(Drop)]
pub struct Request {
    flag: String,
    site: u32,
    totals: Vec<Limit>,
    prices: Prices,
}

impl Model for Request {
    ghost use Rattle.std.specs.Prelude.{string_bytes};
    ghost use Rattle.price_core.specs.Limits.{limits_view};
    ghost use Rattle.price_core.specs.Request.{Asked, IsAsked};

    ghost Value = { Asked };

    ghost view = { λ r. record { flag = string_bytes r.flag; site = r.site; totals = limits_view r.totals.items; prices = r.prices } };

    ghost invariant = { λ r. IsAsked (record { flag = string_bytes r.flag; site = r.site; totals = limits_view r.totals.items; prices = r.prices }) };
}

impl Request {
    /// The request that a JSON text of at most 4,194,304 bytes stands for. It refuses first what
    /// is no request, then a pair of equal names, then a price out of range, then an empty range.
    /// A longer text, and bytes that are no UTF-8, are refused before memory is taken.
    pub fn read(alloc: Global, bytes: &[u8]) -> Result<Request, PriceFault>
        ensures exact { GivesUnless PriceFault.WantOfMemory (λ r. r) result (asked_of bytes.now) }
        ensures large { max_request < length bytes.now → IsErrOf result PriceFault.BadRequest }
        ensures no_text { length bytes.now ≤ max_request → is_utf8 bytes.now ≡ false → IsErrOf result PriceFault.BadRequest }
    {
        let tree = read_tree(alloc, bytes, TEXT_BYTES)?;
        Request::of_tree(alloc, &tree)
    }

    /// The request that a tree stands for, with the refusals of [`Request::read`] behind its reading of the text. The condition is
    /// [`Tree::is_whole`], which each tree that was read meets.
    pub fn of_tree(alloc: Global, tree: &Tree) -> Result<Request, PriceFault>
        requires { is_whole (view tree.now) ≡ true }
        ensures { GivesUnless PriceFault.WantOfMemory (λ r. r) result (request_of (view tree.now)) }
    {
        let draft = written(alloc, tree)?;
        judge(alloc, draft)
    }

    /// The flag whose rule is to change.
    pub fn flag(&self) -> &str
        ensures { result.now ≡ self.now.flag }
    {
        self.flag.as_str()
    }

    /// The number of the site whose rule is to change.
    pub fn site(&self) -> u32
        ensures { result ≡ self.now.site }
    {
        self.site
    }

    /// The prices of changes and the forbidden changes.
    pub fn prices(&self) -> &Prices
        ensures value { result.now ≡ self.now.prices }
        ensures lawful { IsPricing result.now }
    {
        &self.prices
    }

    /// The limits on each of these names, both 0 where none are asked. It refuses a request that
    /// names another in its totals, prices or prohibitions, before memory is taken. Each name of the
    /// request is sought among these, which for a flag are 64 at most.
    pub fn totals(&self, alloc: Global, names: &[String]) -> Result<Totals, PriceFault>
        ensures exact { GivesUnless PriceFault.WantOfMemory (λ t. t) result (totals_of (map string_bytes names.now) self.now) }
        ensures unknown { all_known (map string_bytes names.now) self.now ≡ false → IsErrOf result PriceFault.UnknownVariant }
    {
        if !all_known(names, self.totals.as_slice(), &self.prices) {
            return Err(PriceFault::UnknownVariant);
        }
        let limits = limits_on(alloc, self.totals.as_slice(), names)?;
        Ok(Totals { limits })
    }
}

/// Whether each name that is asked for is one of these.
fn all_known(names: &[String], asked: &[Limit], prices: &Prices) -> bool
    ensures { result ≡ are_known (map string_bytes names.now) (limits_view asked.now) prices.now }
{
    names_are_known(names, asked)
        && changes_are_known(names, prices.named())
        && changes_are_known(names, prices.barred())
}

fn is_known(names: &[String], name: &str) -> bool
    ensures { result ≡ is_known (map string_bytes names.now) name.now }
{
    for known in names {
        if name == known.as_str() {
            return true;
        }
    }
    false
}

fn names_are_known(names: &[String], asked: &[Limit]) -> bool
    ensures { result ≡ list_all (is_known (map string_bytes names.now)) (keys_of (limits_view asked.now)) }
{
    for limit in asked {
        if !is_known(names, limit.name.as_str()) {
            return false;
        }
    }
    true
}

fn changes_are_known<X>(names: &[String], entries: &[(Change, X)]) -> bool
    ensures { result ≡ list_all (pair_is_known (map string_bytes names.now)) (keys_of (entries_view entries.now)) }
{
    for (change, _) in entries {
        if !is_known(names, change.from.as_str()) || !is_known(names, change.to.as_str()) {
            return false;
        }
    }
    true
}

fn has_self_pair<X>(entries: &[(Change, X)]) -> bool
    ensures { result ≡ list_any is_self_pair (keys_of (entries_view entries.now)) }
{
    for (change, _) in entries {
        if change.from.as_str() == change.to.as_str() {
            return true;
        }
    }
    false
}

pub(crate) fn as_price(price: i64) -> Option<u64>
    ensures value { result ≡ as_price price }
    ensures fits { IfSome result (λ n. n ≤ max_price) }
{
    if 0 <= price && price <= MAX_PRICE {
        Some(price as u64)
    } else {
        None
    }
}

fn as_prices(alloc: Global, named: Vec<(Change, i64)>) -> Result<Vec<(Change, u64)>, PriceFault>
    ensures { GivesUnless PriceFault.WantOfMemory (λ v. entries_view v.items) result (if_in_range (as_prices (entries_view named.items))) }
{
    let mut prices = Vec::new(alloc);
    for (change, price) in named {
        let Some(price) = as_price(price) else {
            return Err(PriceFault::PriceRange);
        };
        prices.push((change, price))?;
    }
    Ok(prices)
}

fn are_ranges(totals: &[Limit]) -> bool
    ensures { result ≡ list_all is_range (limits_view totals.now) }
{
    for limit in totals {
        if limit.low > limit.high {
            return false;
        }
    }
    true
}

/// The request that was written, unless its pairs, prices or ranges are refused.
fn judge(alloc: Global, draft: Draft) -> Result<Request, PriceFault>
    requires { IsWritten (draft_view draft) }
    ensures { GivesUnless PriceFault.WantOfMemory (λ r. r) result (judged (draft_view draft)) }
{
    let Draft {
        flag,
        site,
        totals,
        usual,
        named,
        barred,
    } = draft;
    if has_self_pair(named.as_slice()) || has_self_pair(barred.as_slice()) {
        return Err(PriceFault::SelfPair);
    }
    let Some(usual) = as_price(usual) else {
        return Err(PriceFault::PriceRange);
    };
    let named = as_prices(alloc, named)?;
    if !are_ranges(totals.as_slice()) {
        return Err(PriceFault::EmptyRange);
    }
    let prices = Prices::of(usual, named, barred);
    Ok(Request {
        flag,
        site,
        totals,
        prices,
    })
}
