ghost use Rattle.std.specs.Prelude.{◌≡◌, ◌<◌, ◌^◌, IfOk, option_map, option_copied, map, string_bytes, sum_by};
ghost use Rattle.std.specs.Cmp.Lexicographic.{slice_cmp};
ghost use Rattle.std.specs.List.Sorted.{IsStrictlySortedBy};
ghost use Rattle.std.specs.Map.{keys_of, lookup};
ghost use Rattle.std.specs.Ordering.{nat_cmp};
ghost use Rattle.std.specs.Str.{bytes_eq};
ghost use Rattle.price_core.specs.Limits.{AreLimits, limits_of, limits_view};
ghost use Rattle.price_core.specs.Request.{limits_on};

use std::alloc::{AllocError, Global};
use std::collections::BTreeMap;
use std::marker::Model;

/// The least and the greatest total that a name may have.
#[derive(Drop)]
pub struct Limit {
    /// The name of the variant.
    pub name: String,
    /// The least number of points that it may have.
    pub low: u32,
    /// The greatest number of points that it may have, at least `low` and below 2^31.
    pub high: u32,
}

/// Limits on the totals of some names, which stand in the order of their bytes.
#[derive(Drop)]
pub struct Totals {
    pub(crate) limits: Vec<Limit>,
}

impl Model for Totals {
    ghost use Rattle.price_core.specs.Limits.{Limits, AreLimits, limits_view};

    ghost Value = { Limits };

    ghost view = { λ t. limits_view t.limits.items };

    ghost invariant = { λ t. AreLimits (limits_view t.limits.items) };
}

impl Totals {
    /// Each name with its limits, in the order of the names' bytes.
    pub fn entries(&self) -> &[Limit]
        ensures value { limits_view result.now ≡ self.now }
        ensures lawful { AreLimits self.now }
    {
        self.limits.as_slice()
    }

    /// The sum of the low limits.
    pub fn low_sum(&self) -> u128
        ensures value { result ≡ sum_by (λ l. l.1.0) self.now }
        ensures small { result < 2 ^ 97 }
    {
        low_sum(self.limits.as_slice())
    }

    /// The sum of the high limits.
    pub fn high_sum(&self) -> u128
        ensures value { result ≡ sum_by (λ l. l.1.1) self.now }
        ensures small { result < 2 ^ 97 }
    {
        high_sum(self.limits.as_slice())
    }
}

fn low_sum(limits: &[Limit]) -> u128
    ensures value { result ≡ sum_by (λ l. l.1.0) (limits_view limits.now) }
    ensures small { result < 2 ^ 97 }
{
    let mut sum = 0u128;
    for limit in limits {
        sum += u128::from(limit.low);
    }
    sum
}

fn high_sum(limits: &[Limit]) -> u128
    ensures value { result ≡ sum_by (λ l. l.1.1) (limits_view limits.now) }
    ensures small { result < 2 ^ 97 }
{
    let mut sum = 0u128;
    for limit in limits {
        sum += u128::from(limit.high);
    }
    sum
}

/// The limits of a name among names in order, by halving.
pub(crate) fn find_limit(limits: &[Limit], name: &str) -> Option<(u32, u32)>
    requires { IsStrictlySortedBy (slice_cmp nat_cmp) (keys_of (limits_view limits.now)) }
    ensures { result ≡ lookup (bytes_eq name.now) (limits_view limits.now) }
{
    match limits.binary_search_by(|limit| limit.name.as_str().cmp(name)) {
        Ok(place) => {
            let limit = &limits[place];
            Some((limit.low, limit.high))
        }
        Err(_) => None,
    }
}

/// Each of the names once, in the order of their bytes, with the limits that are asked.
pub(crate) fn limits_on(
    alloc: Global,
    asked: &[Limit],
    names: &[String],
) -> Result<Vec<Limit>, AllocError>
    requires { IsStrictlySortedBy (slice_cmp nat_cmp) (keys_of (limits_view asked.now)) }
    ensures exact { IfOk result (λ v. limits_view v.items ≡ limits_on (limits_view asked.now) (map string_bytes names.now)) }
    ensures rise { IfOk result (λ v. IsStrictlySortedBy (slice_cmp nat_cmp) (keys_of (limits_view v.items))) }
{
    let mut by_name = BTreeMap::new(alloc);
    let mut left = names.len();
    while left > 0 {
        left -= 1;
        let name = names[left].as_str();
        by_name.insert(name, find_limit(asked, name).unwrap_or((0, 0)))?;
    }
    let mut limits = Vec::new(alloc);
    for (name, (low, high)) in by_name {
        let name = String::from_str(alloc, name)?;
        limits.push(Limit { name, low, high })?;
    }
    Ok(limits)
}
