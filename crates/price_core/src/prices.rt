ghost use Rattle.std.specs.Prelude.{◌≡◌, ◌≤◌};
ghost use Rattle.std.specs.Map.{keys_of};
ghost use Rattle.price_core.specs.Pricing.{price_of, is_forbidden, max_price, IsPricing, entries_view};

use crate::change::{Change, find};
use std::marker::Model;

/// The price of each change of variant, and the forbidden changes.
#[derive(Drop)]
pub struct Prices {
    usual: u64,
    // the changes that have a price of their own, in order
    named: Vec<(Change, u64)>,
    // the forbidden changes, in order
    barred: Vec<(Change, ())>,
}

impl Model for Prices {
    ghost use Rattle.std.specs.Map.{keys_of};
    ghost use Rattle.price_core.specs.Pricing.{Pricing, IsPricing, entries_view};

    ghost Value = { Pricing };

    ghost view = { λ p. record { usual = p.usual; named = entries_view p.named.items; barred = keys_of (entries_view p.barred.items) } };

    ghost invariant = { λ p. IsPricing (record { usual = p.usual; named = entries_view p.named.items; barred = keys_of (entries_view p.barred.items) }) };
}

impl Prices {
    /// The usual price, the changes that have another one, and the forbidden changes, each list
    /// in order.
    pub(crate) fn of(usual: u64, named: Vec<(Change, u64)>, barred: Vec<(Change, ())>) -> Prices
        requires { IsPricing (record { usual = usual; named = entries_view named.items; barred = keys_of (entries_view barred.items) }) }
        ensures value { result ≡ record { usual = usual; named = entries_view named.items; barred = keys_of (entries_view barred.items) } }
        ensures lawful { IsPricing result }
    {
        Prices {
            usual,
            named,
            barred,
        }
    }

    /// The price of a change that has none of its own.
    pub(crate) fn usual(&self) -> u64
        ensures value { result ≡ self.now.usual }
        ensures lawful { IsPricing self.now }
    {
        self.usual
    }

    /// The changes that have a price of their own.
    pub(crate) fn named(&self) -> &[(Change, u64)]
        ensures value { entries_view result.now ≡ self.now.named }
        ensures lawful { IsPricing self.now }
    {
        self.named.as_slice()
    }

    /// The forbidden changes.
    pub(crate) fn barred(&self) -> &[(Change, ())]
        ensures { keys_of (entries_view result.now) ≡ self.now.barred }
    {
        self.barred.as_slice()
    }

    /// The price of a change from the name a to the name b, at most 1,000,000, and 0 where they
    /// are equal. It takes the logarithm of the number of changes that have a price of their own.
    pub fn price(&self, a: &str, b: &str) -> u64
        ensures value { result ≡ price_of self.now a.now b.now }
        ensures small { result ≤ max_price }
        ensures lawful { IsPricing self.now }
    {
        let usual = self.usual;
        if a == b {
            return 0;
        }
        match find(self.named.as_slice(), a, b) {
            Some(price) => *price,
            None => usual,
        }
    }

    /// Whether a change from the name a to the name b is forbidden; false where they are equal.
    pub fn forbidden(&self, a: &str, b: &str) -> bool
        ensures value { result ≡ is_forbidden self.now a.now b.now }
        ensures lawful { IsPricing self.now }
    {
        let barred = self.barred.as_slice();
        a != b && find(barred, a, b).is_some()
    }
}
