//! A tally.
use book_core::Page;
use std::marker::Model;

/// The most inputs on one point.
pub const MOST_AT_POINT: u32 = limits::POINT_INPUTS;

/// The most inputs in all.
pub const MOST_IN_ALL: u64 = limits::TALLY_INPUTS;

/// The most points.
pub const MOST_POINTS: u32 = limits::PLANNED_TOTAL;

/// How many inputs of one page fall on each of so many points. Where its lines have hashes, these stand for the inputs.
#[derive(Debug, Drop)]
pub struct PageTally {
    /// The page of the inputs.
    pub page: Page,
    /// The number of points, from 1 to 1,000,000.
    pub total: u32,
    /// The least line that was counted, with its line feed, where there is one.
    pub first: Option<Vec<u8>>,
    /// The greatest line that was counted, with its line feed, where there is one.
    pub last: Option<Vec<u8>>,
    /// The number of inputs, at most 8,589,934,592.
    pub inputs: u64,
    /// The number of inputs on each point, at most 67,108,864.
    pub counts: Vec<u32>,
}

impl Model for PageTally {
    ghost use Rattle.std.specs.Prelude.{option_map};
    ghost use Rattle.note_tallies.specs.Tally.{PageTally as Tally, IsPageTally};

    ghost Value = { Tally };

    ghost view = { λ t. record { page = t.page; total = t.total; first = option_map (λ v. v.items) t.first; last = option_map (λ v. v.items) t.last; inputs = t.inputs; counts = t.counts.items } };

    ghost invariant = { λ t. IsPageTally (record { page = t.page; total = t.total; first = option_map (λ v. v.items) t.first; last = option_map (λ v. v.items) t.last; inputs = t.inputs; counts = t.counts.items }) };
}
