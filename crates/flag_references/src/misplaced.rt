//! Where in a tree as it stands the first operation is that is wrong in itself.
ghost use Rattle.std.specs.Prelude.{◌≡◌};
ghost use Rattle.flag_text.specs.View.{view, items_view, members_view};
ghost use Rattle.flag_references.specs.Misplaced.{has_misuse, any_has_misuse, object_has_misuse, first_misused, operation_place, object_place, misuse_place};

use crate::references::name_in;
use flag_text::Tree;
use logic_ast::Misuse;

/// Where in a tree an operation is that is wrong in itself.
#[derive(Clone, Copy, Debug, PartialEq, Eq)]
pub enum MisusePlace {
    /// It is the tree itself.
    Here(Misuse),
    /// It lies in the item at this place, counted from 0, or in the value of the one member.
    Inside(usize),
}

/// Where in a tree as it stands the first operation in preorder is that is wrong in itself. A reference is none, and what it
/// stands for is not looked at. Of one that lies inside, the same is asked of the part in which it lies.
pub fn misuse_place(tree: &Tree) -> Option<MisusePlace>
    ensures { result ≡ misuse_place (view tree.now) }
{
    match tree {
        Tree::List(items) => Some(MisusePlace::Inside(first_misused(items.as_slice())?)),
        Tree::Object(members) => object_place(members.as_slice()),
        _ => None,
    }
}

fn object_place(members: &[(String, Tree)]) -> Option<MisusePlace>
    ensures { result ≡ object_place (members_view members.now) }
{
    match members {
        [] => None,
        [(name, arguments)] => operation_place(name.as_str(), arguments),
        [_, _, ..] => None,
    }
}

fn operation_place(name: &str, arguments: &Tree) -> Option<MisusePlace>
    ensures { result ≡ operation_place name.now (view arguments.now) }
{
    if name_in(name, arguments).is_some() {
        return None;
    }
    if let Some(misuse) = Misuse::of(name, arguments) {
        return Some(MisusePlace::Here(misuse));
    }
    if has_misuse(arguments) {
        Some(MisusePlace::Inside(0))
    } else {
        None
    }
}

fn first_misused(items: &[Tree]) -> Option<usize>
    ensures { result ≡ first_misused 0 (items_view items.now) }
{
    for (place, item) in items.iter().enumerate() {
        if has_misuse(item) {
            return Some(place);
        }
    }
    None
}

#[cycle(misuse)]
fn has_misuse(tree: &Tree) -> bool
    ensures { result ≡ has_misuse (view tree.now) }
{
    match tree {
        Tree::List(items) => any_has_misuse(items.as_slice()),
        Tree::Object(members) => object_has_misuse(members.as_slice()),
        _ => false,
    }
}

#[cycle(misuse)]
fn any_has_misuse(items: &[Tree]) -> bool
    ensures { result ≡ any_has_misuse (items_view items.now) }
{
    for item in items {
        if has_misuse(item) {
            return true;
        }
    }
    false
}

#[cycle(misuse)]
fn object_has_misuse(members: &[(String, Tree)]) -> bool
    ensures { result ≡ object_has_misuse (members_view members.now) }
{
    match members {
        [] => false,
        [(name, arguments)] => {
            if name_in(name.as_str(), arguments).is_some() {
                return false;
            }
            Misuse::of(name.as_str(), arguments).is_some() || has_misuse(arguments)
        }
        [_, _, ..] => false,
    }
}
