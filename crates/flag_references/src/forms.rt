//! Whether a tree has an inlined form, and the measure of this form.
ghost use Rattle.std.specs.Prelude.{◌≡◌, true, MatchOption};
ghost use Rattle.flag_text.specs.Shape.{Shape, members_are_tidy};
ghost use Rattle.flag_text.specs.View.{view, members_view};
ghost use Rattle.flag_references.specs.Inlining.{IsInlined};
ghost use Rattle.flag_references.specs.Measure.{measure};

use crate::inlined_measure::measured;
use crate::measure::Measure;
use crate::table::Evaluators;
use flag_text::Tree;

impl<'a> Evaluators<'a> {
    /// The measure of the inlined form of a tree, if it has one.
    pub fn measure_of(&self, tree: &Tree) -> Option<Measure>
        ensures tidy { members_are_tidy (members_view self.now) ≡ true }
        ensures measure { MatchOption result
            ((u : Shape) → ¬ IsInlined (members_view self.now) (view tree.now) u)
            (λ m. (u : Shape) × IsInlined (members_view self.now) (view tree.now) u × (measure u ≡ m)) }
    {
        measured(tree, &self.table)
    }
}
