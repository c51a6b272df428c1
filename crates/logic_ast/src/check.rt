//! What is wrong with a tree that is to be read as an expression.
ghost use Rattle.std.specs.Prelude.{◌≡◌};
ghost use Rattle.flag_text.specs.Shape.{object, member, no_members};
ghost use Rattle.flag_text.specs.View.{view, items_view, members_view};
ghost use Rattle.logic_ast.specs.FirstFault.{expression_fault, object_fault, expressions_fault};

use crate::fault::LogicFault;
use crate::misuse::Misuse;
use flag_text::Tree;

/// The first of `UnknownOperator` and `BadArguments` in preorder.
#[cycle(check)]
pub(crate) fn first_fault(tree: &Tree) -> Option<LogicFault>
    ensures { result ≡ expression_fault (view tree.now) }
{
    match tree {
        Tree::List(items) => expressions_fault(items.as_slice()),
        Tree::Object(members) => object_fault(members.as_slice()),
        _ => None,
    }
}

#[cycle(check)]
fn object_fault(members: &[(String, Tree)]) -> Option<LogicFault>
    ensures { result ≡ object_fault (members_view members.now) }
{
    match members {
        [] => None,
        [(name, arguments)] => operation_fault(name.as_str(), arguments),
        [_, _, ..] => None,
    }
}

#[cycle(check)]
fn operation_fault(name: &str, arguments: &Tree) -> Option<LogicFault>
    ensures { result ≡ expression_fault (object (member name.now (view arguments.now) no_members)) }
{
    match Misuse::of(name, arguments) {
        Some(misuse) => Some(misuse.fault()),
        None => first_fault(arguments),
    }
}

#[cycle(check)]
fn expressions_fault(items: &[Tree]) -> Option<LogicFault>
    ensures { result ≡ expressions_fault (items_view items.now) }
{
    for item in items {
        if let Some(fault) = first_fault(item) {
            return Some(fault);
        }
    }
    None
}
