//! From a reference straight to the tree that it stands for.
ghost use Rattle.std.specs.Prelude.{◌≡◌, ◌<◌, length, None, MatchOption};
ghost use Rattle.std.specs.List.{HoldsAt};
ghost use Rattle.flag_text.specs.Shape.{Shape};
ghost use Rattle.flag_text.specs.View.{view, members_view};
ghost use Rattle.flag_references.specs.Inlining.{IsInlined, reference_in};
ghost use Rattle.flag_references.specs.Table.{IsEndOf};

use crate::references::reference_in;
use crate::table::Evaluators;
use flag_text::{Tree, position_of};

impl<'a> Evaluators<'a> {
    /// The tree at the end of the references from one that has an inlined form: itself, where it is no reference.
    pub fn end_of(&self, tree: &'a Tree) -> &'a Tree
        requires found { (u : Shape) × IsInlined (members_view self.now) (view tree.now) u }
        ensures { IsEndOf (members_view self.now) (view tree.now) (view result.now) }
    {
        match self.referred_by(tree) {
            Some(end) => end,
            None => tree,
        }
    }

    /// The evaluator at the end of the references from a tree that has an inlined form, where it is wholly a reference.
    pub(crate) fn referred_by(&self, tree: &Tree) -> Option<&'a Tree>
        requires found { (u : Shape) × IsInlined (members_view self.now) (view tree.now) u }
        ensures { MatchOption result
            (reference_in (view tree.now) ≡ None)
            (λ h. IsEndOf (members_view self.now) (view tree.now) (view h.now)) }
    {
        let Some(name) = reference_in(tree) else {
            return None;
        };
        let table = &self.table;
        match position_of(table.members, name) {
            Some(i) => Some(tree_at(table.members, table.heads[i])),
            None => None,
        }
    }
}

fn tree_at(evaluators: &[(String, Tree)], i: usize) -> &Tree
    requires { i < length evaluators.now }
    ensures { HoldsAt (λ m. view result.now ≡ view m.1) evaluators.now i }
{
    &evaluators[i].1
}
