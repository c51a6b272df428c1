//! Instances: what a planner is given.
ghost use Rattle.std.specs.Prelude.{◌≡◌, ◌≤◌, ◌⊎◌, ◌↔◌, List, ℕ, IfOk, IfErr, IsErrOf, IsTrue, length, slice_index};
ghost use Rattle.exposures.specs.Counts.{counts_of};
ghost use Rattle.bucket_core.specs.Rule.{total_weight};
ghost use Rattle.transport_core.specs.Groups.{AreSizes, AreSizesBy, rows_view};
ghost use Rattle.transport_core.specs.Instance.{IsProblem, AreListed, MissTotal, max_names, max_planned_total};
ghost use Rattle.transport_core.specs.Tally.{IsTally};

use crate::cut::names_are_listed;
use crate::fault::CheckFault;
use crate::grouping::groups;
use crate::rows::Row;
use bucket_core::Rule;
use price_core::{Prices, Totals};
use std::alloc::Global;
use std::marker::Model;

/// What a planner is given of a rule, of the inputs that were recorded for it, and of a request: the groups of the rule's
/// points, each with its number of points, and the limits and prices that are asked.
#[derive(Drop)]
pub struct Instance<'a> {
    groups: Vec<Row<'a>>,
    totals: &'a Totals,
    prices: &'a Prices,
}

impl<'a> Model for Instance<'a> {
    ghost use Rattle.transport_core.specs.Groups.{rows_view};
    ghost use Rattle.transport_core.specs.Instance.{TransportProblem, IsProblem};

    ghost Value = { TransportProblem };

    ghost view = { λ i. record { groups = rows_view i.groups.items; limits = i.totals.now; pricing = i.prices.now } };

    ghost invariant = { λ i. IsProblem (record { groups = rows_view i.groups.items; limits = i.totals.now; pricing = i.prices.now }) };
}

impl<'a> Instance<'a> {
    /// The instance of a rule, of limits and prices, and of the inputs that were recorded, of which so many fall on each
    /// point. It refuses with `Totals` where the low limits sum above the rule's total or the high ones below it. It takes
    /// `O(n log n)` steps at n points.
    pub fn make(
        alloc: Global,
        old: &'a Rule,
        totals: &'a Totals,
        prices: &'a Prices,
        counts: &[u32],
    ) -> Result<Instance<'a>, CheckFault>
        requires small { total_weight old.now ≤ max_planned_total }
        requires names { length totals.now ≤ max_names }
        requires listed { AreListed old.now totals.now }
        requires tally { IsTally (total_weight old.now) counts.now }
        ensures loads { IfOk result (λ i. AreSizesBy old.now (slice_index counts.now) i.groups) }
        ensures groups { IfOk result (λ i. (inputs : List (List ℕ)) → counts.now ≡ counts_of inputs (total_weight old.now) → AreSizes old.now inputs i.groups) }
        ensures limits { IfOk result (λ i. i.limits ≡ totals.now) }
        ensures pricing { IfOk result (λ i. i.pricing ≡ prices.now) }
        ensures totals { IsErrOf result CheckFault.Totals ↔ MissTotal old.now totals.now }
        ensures refused { IfErr result (λ fault. (fault ≡ CheckFault.WantOfMemory) ⊎ (fault ≡ CheckFault.Totals)) }
    {
        // Called for what its contract says: the limits are lawful.
        let _limits = totals.entries();
        let total = u128::from(old.total());
        if total < totals.low_sum() || totals.high_sum() < total {
            return Err(CheckFault::Totals);
        }
        Ok(Instance {
            groups: groups(alloc, old, counts)?,
            totals,
            prices,
        })
    }

    /// Whether each name of the rule has limits, as `make` asks.
    pub fn lists(old: &Rule, totals: &Totals) -> bool
        ensures { IsTrue result ↔ AreListed old.now totals.now }
    {
        names_are_listed(old, totals.entries())
    }

    /// The groups, by name and then by number of inputs, each with its number of points.
    pub fn groups(&self) -> &[((&'a str, u32), u32)]
        ensures value { rows_view result.now ≡ self.now.groups }
        ensures lawful { IsProblem self.now }
    {
        self.groups.as_slice()
    }

    /// The limits of each name, by name.
    pub fn totals(&self) -> &'a Totals
        ensures value { result.now ≡ self.now.limits }
    {
        self.totals
    }

    /// What each switch costs an input, and which are forbidden.
    pub fn prices(&self) -> &'a Prices
        ensures value { result.now ≡ self.now.pricing }
    {
        self.prices
    }
}
