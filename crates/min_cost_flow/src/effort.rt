ghost use Rattle.std.specs.Prelude.{◌≡◌, ◌+◌};

use std::marker::Model;
use std::sync::ledger::{Blank, Book, Ledger, Share};

/// How many augmentations a planner has made, and how many nodes its searches have settled. It takes no bytes, and only its two
/// counting methods change it.
#[derive(Drop)]
pub struct Effort<L: Ledger> {
    book: Book<L>,
    augmentations: Share<L>,
    settlings: Share<L>,
}

impl<L: Ledger> Model for Effort<L> {
    ghost use Rattle.std.specs.Prelude.{◌<◌};
    ghost use Rattle.min_cost_flow.specs.Spent.{Spent};

    ghost Value = { Spent };

    ghost view = { λ e. record { augmentations = e.augmentations.amount; settlings = e.settlings.amount } };

    ghost invariant = { λ e. (0 < e.augmentations.parts) × (0 < e.settlings.parts) };
}

impl<L: Ledger> Effort<L> {
    /// Both counts are 0. The conditions are a blank of the same name, in two parts.
    pub fn none(blank: Blank) -> Effort<L>
        requires name { blank.name ≡ L.name }
        requires whole { blank.parts ≡ L.parts }
        requires parts { blank.parts ≡ 2 }
        ensures augmentations { result.augmentations ≡ 0 }
        ensures settlings { result.settlings ≡ 0 }
    {
        let (book, mut augmentations) = blank.open::<L>();
        let settlings = augmentations.split_off(1, 0);
        Effort {
            book,
            augmentations,
            settlings,
        }
    }

    /// Counts an augmentation: a change of the flow along one augmenting path.
    pub fn count_augmentation(&mut self)
        ensures augmentations { self.new.augmentations ≡ self.old.augmentations + 1 }
        ensures settlings { self.new.settlings ≡ self.old.settlings }
    {
        self.book.add(&mut self.augmentations, 1);
    }

    /// Counts a node that a search has settled.
    pub fn count_settling(&mut self)
        ensures augmentations { self.new.augmentations ≡ self.old.augmentations }
        ensures settlings { self.new.settlings ≡ self.old.settlings + 1 }
    {
        self.book.add(&mut self.settlings, 1);
    }
}
