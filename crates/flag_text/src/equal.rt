//! Whether two trees are equal.
ghost use Rattle.std.specs.Prelude.{◌≡◌, ◌↔◌, IsTrue, string_bytes};
ghost use Rattle.flag_text.specs.View.{view, items_view, members_view};

use crate::tree::Tree;

impl Tree {
    /// Whether both have one shape: the same kind of value, the same number or text, and equal items or
    /// members in the same order. `Other` equals `Other`.
    pub fn equals(&self, other: &Tree) -> bool
        ensures same { IsTrue result ↔ (view self.now ≡ view other.now) }
    {
        equal(self, other)
    }
}

#[cycle(equal)]
fn equal(a: &Tree, b: &Tree) -> bool
    ensures { IsTrue result ↔ (view a.now ≡ view b.now) }
{
    match a {
        Tree::Null => matches!(b, Tree::Null),
        Tree::Other => matches!(b, Tree::Other),
        Tree::Bool(x) => match b {
            Tree::Bool(y) => *x == *y,
            _ => false,
        },
        Tree::Whole(x) => match b {
            Tree::Whole(y) => *x == *y,
            _ => false,
        },
        Tree::Text(x) => match b {
            Tree::Text(y) => x.as_str() == y.as_str(),
            _ => false,
        },
        Tree::List(xs) => match b {
            Tree::List(ys) => items_equal(xs, ys),
            _ => false,
        },
        Tree::Object(xs) => match b {
            Tree::Object(ys) => members_equal(xs, ys),
            _ => false,
        },
    }
}

#[cycle(equal)]
fn items_equal(a: &Vec<Tree>, b: &Vec<Tree>) -> bool
    ensures { IsTrue result ↔ (items_view a.now.items ≡ items_view b.now.items) }
{
    if a.len() != b.len() {
        return false;
    }
    for i in 0..a.len() {
        if !equal(&a[i], &b[i]) {
            return false;
        }
    }
    true
}

#[cycle(equal)]
fn members_equal(a: &Vec<(String, Tree)>, b: &Vec<(String, Tree)>) -> bool
    ensures { IsTrue result ↔ (members_view a.now.items ≡ members_view b.now.items) }
{
    if a.len() != b.len() {
        return false;
    }
    for i in 0..a.len() {
        if !member_equal(&a[i], &b[i]) {
            return false;
        }
    }
    true
}

#[cycle(equal)]
fn member_equal(a: &(String, Tree), b: &(String, Tree)) -> bool
    ensures { IsTrue result ↔ ((string_bytes a.now.0 ≡ string_bytes b.now.0) × (view a.now.1 ≡ view b.now.1)) }
{
    a.0.as_str() == b.0.as_str() && equal(&a.1, &b.1)
}
