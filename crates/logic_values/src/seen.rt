//! What is seen of a value at its surface.
ghost use Rattle.std.specs.Prelude.{◌≡◌};
ghost use Rattle.flag_text.specs.View.{view};
ghost use Rattle.logic_values.specs.Views.{seen_view, value_view};

use crate::root::Root;
use crate::value::Value;
use flag_text::Tree;

/// A value by its kind, wherever it stands: its parts are lent.
#[derive(Clone, Copy)]
pub enum Seen<'s, 'a> {
    /// Null.
    Null,
    /// A boolean.
    Bool(bool),
    /// A whole number.
    Whole(i64),
    /// A number that is not whole.
    Other,
    /// A text.
    Text(&'s str),
    /// A list that the expression or the context holds.
    Trees(&'a [Tree]),
    /// A list that was made.
    Values(&'s [Value<'a>]),
    /// An object.
    Object(&'a [(String, Tree)]),
    /// The scope of the whole expression.
    Context(Root<'a>),
    /// The scope of the body of `reduce`.
    Fold(&'s Value<'a>, &'s Value<'a>),
}

/// What is seen of a tree.
pub fn seen_tree<'a>(tree: &'a Tree) -> Seen<'a, 'a>
    ensures { seen_view result ≡ view tree.now }
{
    match tree {
        Tree::Null => Seen::Null,
        Tree::Bool(b) => Seen::Bool(*b),
        Tree::Whole(n) => Seen::Whole(*n),
        Tree::Other => Seen::Other,
        Tree::Text(text) => Seen::Text(text.as_str()),
        Tree::List(items) => Seen::Trees(items.as_slice()),
        Tree::Object(members) => Seen::Object(members.as_slice()),
    }
}

impl<'a> Value<'a> {
    /// What is seen of the value.
    pub fn seen<'s>(&'s self) -> Seen<'s, 'a>
        ensures { seen_view result ≡ value_view self.now }
    {
        match self {
            Value::Lent(tree) => seen_tree(tree),
            Value::Given(part) => seen_tree(part.tree),
            Value::Name(name) => Seen::Text(name),
            Value::Null => Seen::Null,
            Value::Bool(b) => Seen::Bool(*b),
            Value::Whole(n) => Seen::Whole(*n),
            Value::Text(text) => Seen::Text(text.as_str()),
            Value::Items(items) => Seen::Values(items.as_slice()),
            Value::Context(root) => Seen::Context(*root),
            Value::Fold(so_far, current) => Seen::Fold(so_far, current),
        }
    }
}
