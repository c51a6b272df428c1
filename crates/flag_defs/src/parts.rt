//! The parts of a document that are read, lent and owned.
ghost use Rattle.std.specs.Prelude.{◌≡◌, option_map, option_and_then};
ghost use Rattle.flag_text.specs.Readers.{as_object, member_of};
ghost use Rattle.flag_text.specs.Shape.{object};
ghost use Rattle.flag_text.specs.View.{view, members_view};
ghost use Rattle.flag_defs.specs.Document.{evaluators_in, flags_in};

use crate::members::{into_members, members_in, take_both};
use flag_text::Tree;
use std::alloc::Global;

/// The definitions of a document's flags, where it has an object of flags, and its evaluators.
#[derive(Drop)]
pub(crate) struct Parts {
    pub(crate) definitions: Option<Vec<(String, Tree)>>,
    pub(crate) evaluators: Vec<(String, Tree)>,
}

impl Parts {
    /// Those of this document, of which all else is dropped.
    pub(crate) fn of(alloc: Global, document: Tree) -> Parts
        ensures definitions { option_map (λ ms. members_view ms.items) result.definitions ≡ flags_in (view document) }
        ensures evaluators { members_view result.evaluators.items ≡ evaluators_in (view document) }
    {
        match document {
            Tree::Object(members) => parts_among(alloc, members),
            _ => Parts {
                definitions: None,
                evaluators: Vec::new(alloc),
            },
        }
    }
}

fn parts_among(alloc: Global, members: Vec<(String, Tree)>) -> Parts
    ensures definitions { option_map (λ ms. members_view ms.items) result.definitions ≡ flags_in (object (members_view members.items)) }
    ensures evaluators { members_view result.evaluators.items ≡ evaluators_in (object (members_view members.items)) }
{
    let (flags, evaluators) = take_both(members, "flags", "$evaluators");
    Parts {
        definitions: into_members(flags),
        evaluators: members_in(alloc, evaluators),
    }
}

/// The members of the object of this name.
pub(crate) fn members_of<'a>(document: &'a Tree, name: &str) -> Option<&'a [(String, Tree)]>
    ensures { option_map (λ ms. members_view ms.now) result ≡ option_and_then as_object (member_of name.now (view document.now)) }
{
    match document.member(name) {
        Some(tree) => tree.as_object(),
        None => None,
    }
}

pub(crate) fn evaluators_in(document: &Tree) -> &[(String, Tree)]
    ensures { members_view result.now ≡ evaluators_in (view document.now) }
{
    match members_of(document, "$evaluators") {
        Some(evaluators) => evaluators,
        None => &[],
    }
}
