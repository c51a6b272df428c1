//! The scope of a whole expression.
ghost use Rattle.std.specs.Prelude.{◌≡◌, true};
ghost use Rattle.flag_text.specs.Shape.{is_tidy, members_are_tidy};
ghost use Rattle.flag_text.specs.View.{view, members_view};

use flag_text::Tree;

/// The context's members, whose names rise, as those of each object in them do, and what stands in place of a member `$flagd`.
#[derive(Clone, Copy)]
pub struct Root<'a> {
    /// The members, in the order of their names.
    pub members: &'a [(String, Tree)],
    /// What stands in place of a member `$flagd`.
    pub flagd: &'a Tree,
    pub ghost tidy: { members_are_tidy (members_view members.now) ≡ true },
    pub ghost flagd_tidy: { is_tidy (view flagd.now) ≡ true },
}
