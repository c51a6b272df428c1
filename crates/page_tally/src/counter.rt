//! The inputs of a page that were read: how many, and how many at each point.
ghost use Rattle.std.specs.Prelude.{◌≡◌, ◌+◌, ◌^◌, ◌<◌, ◌≤◌, ℕ, All, length, get_or, nat_le, nat_lt, replicate, IfOk, IfSome};
ghost use Rattle.bucket_core.specs.Rule.{IsRuleTotal};
ghost use Rattle.book_core.specs.Book.{Inputs, most_inputs};
ghost use Rattle.page_tally.specs.Folding.{passing, starting, with_input, with_inputs};
ghost use Rattle.page_tally.specs.Points.{points_if, with_points};

use bucket_core::scale;
use limits::PAGE_INPUTS;
use murmur_core::hash;
use std::alloc::{AllocError, Global};
use std::marker::Model;

/// How many inputs of a page were read, and, on the page that is asked for, how many fall on each of so many points.
#[derive(Drop)]
pub(crate) struct Counter {
    inputs: usize,
    total: Option<u32>,
    counts: Vec<u32>,
}

impl Model for Counter {
    ghost use Rattle.page_tally.specs.Folding.{Kept, IsKept};

    ghost Value = { Kept };

    ghost view = { λ c. record { inputs = c.inputs; total = c.total; counts = c.counts.items } };

    ghost invariant = { λ c. IsKept (record { inputs = c.inputs; total = c.total; counts = c.counts.items }) };
}

impl Counter {
    /// No input of any page, and a count for each point.
    pub(crate) fn new(alloc: Global, total: u32) -> Result<Counter, AllocError>
        ensures { IfOk result (λ c. c ≡ passing (replicate total 0)) }
    {
        let counts = vec![in alloc; 0u32; total as usize]?;
        Ok(Counter {
            inputs: 0,
            total: None,
            counts,
        })
    }

    /// Begins a page whose inputs are not counted at their points.
    pub(crate) fn pass(&mut self)
        ensures { self.new ≡ passing self.old.counts }
    {
        self.inputs = 0;
        self.total = None;
    }

    /// Begins the page whose inputs are counted, from nothing.
    pub(crate) fn start(&mut self, total: u32)
        requires allowed { IsRuleTotal total }
        requires whole { length self.old.counts ≡ total }
        ensures { self.new ≡ starting total }
    {
        self.inputs = 0;
        self.total = Some(total);
        self.counts.fill(0);
    }

    /// Whether the page takes one input more.
    pub(crate) fn has_room(&self) -> bool
        ensures { result ≡ nat_lt self.now.inputs most_inputs }
    {
        self.inputs < PAGE_INPUTS
    }

    /// Counts one input more.
    pub(crate) fn count(&mut self, input: &[u8])
        requires { self.old.inputs < most_inputs }
        ensures { self.new ≡ with_input self.old input.now }
    {
        self.inputs += 1;
        if let Some(total) = self.total {
            let point = scale(total, hash(input, 0));
            self.counts[point as usize] += 1;
        }
    }

    /// Among how many points inputs are counted, where they are.
    pub(crate) fn total(&self) -> Option<u32>
        ensures total { result ≡ self.now.total }
        ensures allowed { IfSome result IsRuleTotal }
    {
        self.total
    }

    /// Whether the page takes so many inputs more.
    pub(crate) fn has_room_for(&self, inputs: usize) -> bool
        ensures { result ≡ nat_le (self.now.inputs + inputs) most_inputs }
    {
        inputs <= PAGE_INPUTS - self.inputs
    }

    /// Counts so many inputs more, at these points.
    pub(crate) fn add(&mut self, inputs: usize, points: &[u32])
        requires room { self.old.inputs + inputs ≤ most_inputs }
        requires points { (xs : Inputs) × ((inputs ≡ length xs) × (points.now ≡ points_if self.old.total xs)) }
        ensures { (xs : Inputs) → inputs ≡ length xs → points.now ≡ points_if self.old.total xs → self.new ≡ with_inputs self.old xs }
    {
        self.inputs += inputs;
        if self.total.is_some() {
            add_points(&mut self.counts, points);
        }
    }

    /// The counts at the points.
    pub(crate) fn into_counts(self) -> Vec<u32>
        ensures { result.items ≡ self.counts }
    {
        self.counts
    }
}

/// Adds one at each of these points.
fn add_points(counts: &mut Vec<u32>, points: &[u32])
    requires inside { All (λ p. p < length counts.old.items) points.now }
    requires small { (p : ℕ) → get_or counts.old.items p 0 + length points.now < 2 ^ 32 }
    ensures { counts.new.items ≡ with_points counts.old.items points.now }
{
    for point in points {
        counts[*point as usize] += 1;
    }
}
