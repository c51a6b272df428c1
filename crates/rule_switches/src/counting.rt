//! Counting inputs by the entries of two rules that they fall on.
ghost use Rattle.std.specs.Prelude.{◌≡◌, ◌+◌, ◌*◌, ◌/◌, ◌<◌, ◌^◌, ◌++◌, ◌≤◌, [], ◌∷◌, length, sum_by, IfOk};
ghost use Rattle.exposures.specs.Exposure.{Inputs};
ghost use Rattle.bucket_core.specs.Rule.{IsRuleTotal};
ghost use Rattle.price_core.specs.Cost.{name_at};
ghost use Rattle.rule_switches.specs.Counting.{Adds, AreRows, Counted, HasCounted, IsPlace, names_at, names_of};
ghost use Rattle.rule_switches.specs.Switches.{AreSwitches, rows_view};

use crate::rows::{add_cell, listed};
use crate::switch::Switch;
use bucket_core::{Rule, scale};
use murmur_core::hash;
use std::alloc::{AllocError, Global};
use std::collections::BTreeMap;
use std::marker::Model;

/// How many inputs fall on two entries, one of each rule.
#[derive(Clone, Copy, Debug)]
pub(crate) struct Cell {
    pub(crate) from: usize,
    pub(crate) to: usize,
    pub(crate) users: u64,
}

const NO_CELL: Cell = Cell {
    from: 0,
    to: 0,
    users: 0,
};

/// The number of hashes.
const HASHES: u64 = 1 << 32;

/// Inputs, counted by the entries of two rules that they fall on. The rules may differ in their totals.
///
/// As hashes rise, so do the entries that they fall on, in both rules. So no two pairs of entries have one sum, and the inputs of
/// each pair are counted at the sum of its places: an input takes its hash, two searches by halving, and no memory.
#[derive(Drop)]
pub struct Counting<'a> {
    before: &'a Rule,
    after: &'a Rule,
    span: u64,
    inputs: u64,
    cells: Vec<Cell>,
}

impl<'a> Model for Counting<'a> {
    ghost use Rattle.rule_switches.specs.Counting.{Counted, IsCounting};

    ghost Value = { Counted };

    ghost view = { λ c. record { before = c.before.now; after = c.after.now; span = c.span; inputs = c.inputs; cells = c.cells.items } };

    ghost invariant = { λ c. IsCounting (record { before = c.before.now; after = c.after.now; span = c.span; inputs = c.inputs; cells = c.cells.items }) };
}

impl<'a> Counting<'a> {
    /// No inputs yet, of two rules: it takes `O(entries)` memory.
    pub fn of_inputs(
        alloc: Global,
        before: &'a Rule,
        after: &'a Rule,
    ) -> Result<Counting<'a>, AllocError>
        ensures rules { IfOk result (λ c. (c.before ≡ before.entry.now) × (c.after ≡ after.entry.now)) }
        ensures span { IfOk result (λ c. c.span ≡ 2 ^ 32) }
        ensures none { IfOk result (λ c. HasCounted c []) }
    {
        Counting::of_span(alloc, before, after, HASHES)
    }

    /// No inputs yet, of two rules and so many numbers.
    pub(crate) fn of_span(
        alloc: Global,
        before: &'a Rule,
        after: &'a Rule,
        span: u64,
    ) -> Result<Counting<'a>, AllocError>
        requires { 0 < span }
        ensures rules { IfOk result (λ c. (c.before ≡ before.entry.now) × (c.after ≡ after.entry.now)) }
        ensures span { IfOk result (λ c. c.span ≡ span) }
        ensures none { IfOk result (λ c. HasCounted c []) }
    {
        let mut cells = vec![in alloc; NO_CELL; before.entries().len()]?;
        let others = vec![in alloc; NO_CELL; after.entries().len()]?;
        cells.extend_from_slice(others.as_slice())?;
        Ok(Counting {
            before,
            after,
            span,
            inputs: 0,
            cells,
        })
    }

    /// Counts one input more.
    pub fn add_input(&mut self, input: &[u8])
        requires span { self.old.span ≡ 2 ^ 32 }
        requires room { self.old.inputs + 1 < 2 ^ 64 }
        ensures adds { Adds self.old self.new (names_of self.old.before self.old.after input.now) 1 }
        ensures counts { (inputs : Inputs) → HasCounted self.old inputs → HasCounted self.new (inputs ++ input.now ∷ []) }
    {
        let hash = hash(input, 0);
        let before = scale(self.before.total(), hash);
        let after = scale(self.after.total(), hash);
        self.add(before, after, 1);
    }

    /// Counts so many inputs more, on which a number below the span falls.
    pub(crate) fn add_number(&mut self, number: u32, users: u64)
        requires below { number < self.old.span }
        requires room { self.old.inputs + users < 2 ^ 64 }
        ensures { Adds self.old self.new (names_at self.old number) users }
    {
        let before = place(number, self.before.total(), self.span);
        let after = place(number, self.after.total(), self.span);
        self.add(before, after, users);
    }

    /// Counts so many inputs more, which fall on these points of the rules.
    pub(crate) fn add(&mut self, before: u32, after: u32, users: u64)
        requires place { IsPlace self.old before after }
        requires room { self.old.inputs + users < 2 ^ 64 }
        ensures { Adds self.old self.new (name_at self.old.before before, name_at self.old.after after) users }
    {
        let from = self.before.entry_at(before);
        let to = self.after.entry_at(after);
        let at = from + to;
        self.cells[at] = Cell {
            from,
            to,
            users: self.cells[at].users + users,
        };
        self.inputs += users;
    }

    /// How many inputs were counted.
    pub fn inputs(&self) -> u64
        ensures { result ≡ self.now.inputs }
    {
        self.inputs
    }

    /// How many of the inputs go from each name to each other one: the changes that an input makes, each once, by the old name and
    /// then by the new one. It takes `O(entries · log changes)` steps.
    pub fn switches(&self, alloc: Global) -> Result<Vec<Switch>, AllocError>
        ensures rows { IfOk result (λ v. AreRows self.now (rows_view v.items)) }
        ensures few { IfOk result (λ v. sum_by (λ r. r.1) (rows_view v.items) ≤ self.now.inputs) }
        ensures each { IfOk result (λ v. (inputs : Inputs) → HasCounted self.now inputs → AreSwitches self.now.before self.now.after inputs (rows_view v.items)) }
    {
        let mut rows = BTreeMap::new(alloc);
        for cell in &self.cells {
            add_cell(&mut rows, self.before, self.after, cell)?;
        }
        listed(alloc, rows)
    }
}

/// The point among so many on which a number below the span falls, in proportion.
fn place(number: u32, total: u32, span: u64) -> u32
    requires below { number < span }
    requires allowed { IsRuleTotal total }
    ensures value { result ≡ number * total / span }
    ensures inside { result < total }
{
    (u64::from(number) * u64::from(total) / span) as u32
}
