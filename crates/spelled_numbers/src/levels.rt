//! How deep a tree nests in which objects stand for numbers.
ghost use Rattle.std.specs.Prelude.{◌≡◌, ◌≤◌, ◌↔◌, IsTrue, true};
ghost use Rattle.flag_text.specs.Shape.{is_tidy};
ghost use Rattle.flag_text.specs.View.{view, items_view, members_view};
ghost use Rattle.spelled_numbers.specs.Levels.{is_other, sent_items_levels, sent_levels, sent_members_levels, stand_for_number, stands_for_number, without_spelling};

use flag_text::Tree;

/// The tree, or `Other` where it is an object that stands for a number.
pub fn without_spelling(tree: Tree) -> Tree
    requires { is_tidy (view tree) ≡ true }
    ensures exact { view result ≡ without_spelling (view tree) }
    ensures tidy { is_tidy (view result) ≡ true }
{
    if stands_for_number(&tree) {
        Tree::Other
    } else {
        tree
    }
}

/// Whether the tree is an object that stands for a number.
pub fn stands_for_number(tree: &Tree) -> bool
    ensures { result ≡ stands_for_number (view tree.now) }
{
    match tree {
        Tree::Object(members) => stand_for_number(members.as_slice()),
        _ => false,
    }
}

/// Whether the members are those of an object that stands for a number.
fn stand_for_number(members: &[(String, Tree)]) -> bool
    ensures { result ≡ stand_for_number (members_view members.now) }
{
    match members {
        [] => false,
        [(_, value)] => is_other(value),
        [_, _, ..] => false,
    }
}

/// Whether the tree is a number that is not whole.
fn is_other(tree: &Tree) -> bool
    ensures { result ≡ is_other (view tree.now) }
{
    matches!(tree, Tree::Other)
}

/// Whether lists and objects nest at most `most` deep, but for the objects that stand for numbers. It looks no deeper than that.
#[cycle(fits)]
pub(crate) fn fits(tree: &Tree, most: usize) -> bool
    ensures { IsTrue result ↔ (sent_levels (view tree.now) ≤ most) }
{
    match tree {
        Tree::List(items) => most > 0 && items_fit(items, most - 1),
        Tree::Object(members) => stand_for_number(members.as_slice())
            || (most > 0 && members_fit(members, most - 1)),
        _ => true,
    }
}

#[cycle(fits)]
fn items_fit(items: &Vec<Tree>, most: usize) -> bool
    ensures { IsTrue result ↔ (sent_items_levels (items_view items.now.items) ≤ most) }
{
    for item in items {
        if !fits(item, most) {
            return false;
        }
    }
    true
}

#[cycle(fits)]
fn members_fit(members: &Vec<(String, Tree)>, most: usize) -> bool
    ensures { IsTrue result ↔ (sent_members_levels (members_view members.now.items) ≤ most) }
{
    for (_, member) in members {
        if !fits(member, most) {
            return false;
        }
    }
    true
}
