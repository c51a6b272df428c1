//! A tree of the context.
ghost use Rattle.std.specs.Prelude.{◌≡◌, true};
ghost use Rattle.flag_text.specs.Shape.{is_tidy};
ghost use Rattle.flag_text.specs.View.{view};

use flag_text::Tree;

/// A tree that the context holds. By its type the names of each object in it rise, so that a member is found by halving.
#[derive(Clone, Copy)]
pub struct Part<'a> {
    /// The tree.
    pub tree: &'a Tree,
    pub ghost tidy: { is_tidy (view tree.now) ≡ true },
}
