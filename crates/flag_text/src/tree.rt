ghost use Rattle.std.specs.Prelude.{◌≡◌, ◌≤◌, ◌↔◌, IsTrue, true, false, not};
ghost use Rattle.flag_text.specs.Shape.{is_in_range, levels, items_levels, members_levels, has_other, items_have_other, members_have_other};
ghost use Rattle.flag_text.specs.View.{view, items_view, members_view};

/// A JSON value. A whole number is from -(2^53-1) to 2^53-1; `Other` is any number that is not whole.
/// The members of an object have distinct names, sorted by their UTF-8 bytes.
///
/// The type itself keeps neither: [`Tree::is_whole`] tests both, and what [`read_tree`] answers has
/// both.
///
/// [`read_tree`]: crate::read_tree
#[derive(Drop)]
pub enum Tree {
    Null,
    Bool(bool),
    Whole(i64),
    Other,
    Text(String),
    List(Vec<Tree>),
    Object(Vec<(String, Tree)>),
}

impl Tree {
    /// Whether lists and objects nest at most `most` deep: `1` has 0 levels, `[]` and `[1]` have 1,
    /// `[[]]` has 2. It looks no deeper than `most` levels.
    pub fn fits(&self, most: usize) -> bool
        ensures shallow { IsTrue result ↔ (levels (view self.now) ≤ most) }
    {
        fits(self, most)
    }
}

/// The largest whole number: from there on a double no longer holds each integer.
pub const MAX_WHOLE: u64 = (1 << 53) - 1;

/// Whether the number is from -(2^53-1) to 2^53-1.
pub fn is_in_range(n: i64) -> bool
    ensures { result ≡ is_in_range n }
{
    n.unsigned_abs() <= MAX_WHOLE
}

/// Whether the tree has at most so many levels.
#[cycle(fits)]
pub(crate) fn fits(tree: &Tree, most: usize) -> bool
    ensures { IsTrue result ↔ (levels (view tree.now) ≤ most) }
{
    match tree {
        Tree::List(items) => most > 0 && items_fit(items, most - 1),
        Tree::Object(members) => most > 0 && members_fit(members, most - 1),
        _ => true,
    }
}

#[cycle(fits)]
fn items_fit(items: &Vec<Tree>, most: usize) -> bool
    ensures { IsTrue result ↔ (items_levels (items_view items.now.items) ≤ most) }
{
    for item in items {
        if !fits(item, most) {
            return false;
        }
    }
    true
}

#[cycle(fits)]
fn members_fit(members: &Vec<(String, Tree)>, most: usize) -> bool
    ensures { IsTrue result ↔ (members_levels (members_view members.now.items) ≤ most) }
{
    for (_, member) in members {
        if !fits(member, most) {
            return false;
        }
    }
    true
}

/// Whether a number in the tree is not whole.
#[cycle(other)]
pub(crate) fn has_other(tree: &Tree) -> bool
    ensures { result ≡ has_other (view tree.now) }
{
    match tree {
        Tree::Other => true,
        Tree::List(items) => items_have_other(items),
        Tree::Object(members) => members_have_other(members),
        _ => false,
    }
}

#[cycle(other)]
fn items_have_other(items: &Vec<Tree>) -> bool
    ensures { result ≡ items_have_other (items_view items.now.items) }
{
    for item in items {
        if has_other(item) {
            return true;
        }
    }
    false
}

#[cycle(other)]
fn members_have_other(members: &Vec<(String, Tree)>) -> bool
    ensures { result ≡ members_have_other (members_view members.now.items) }
{
    for (_, member) in members {
        if has_other(member) {
            return true;
        }
    }
    false
}
