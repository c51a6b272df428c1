//! Members of an object.
ghost use Rattle.std.specs.Prelude.{◌≡◌, false, IfOk, OnOk, map, option_and_then, option_map, string_bytes};
ghost use Rattle.std.specs.Str.{bytes_eq};
ghost use Rattle.flag_text.specs.Readers.{as_object, find_member};
ghost use Rattle.flag_text.specs.Shape.{Members, member};
ghost use Rattle.flag_text.specs.View.{view, members_view};
ghost use Rattle.flag_defs.specs.Document.{or_no_members};
ghost use Rattle.flag_defs.specs.Flag.{member_names};
ghost use Rattle.flag_defs.specs.Members.{followed_by};

use flag_text::Tree;
use std::alloc::{AllocError, Global};

/// Their names, in their order.
pub(crate) fn names_of(alloc: Global, members: &[(String, Tree)]) -> Result<Vec<String>, AllocError>
    ensures { IfOk result (λ v. map string_bytes v.items ≡ member_names (members_view members.now)) }
{
    let mut names = Vec::with_capacity(alloc, members.len())?;
    for (name, _) in members {
        names.push(name.clone()?)?;
    }
    Ok(names)
}

/// Equal members.
pub(crate) fn copy_members(
    alloc: Global,
    members: &[(String, Tree)],
) -> Result<Vec<(String, Tree)>, AllocError>
    ensures { IfOk result (λ v. members_view v.items ≡ members_view members.now) }
{
    let mut copies = Vec::with_capacity(alloc, members.len())?;
    for (name, member) in members {
        let name = name.clone()?;
        copies.push((name, member.copy(alloc)?))?;
    }
    Ok(copies)
}

/// Adds one more behind the others.
pub(crate) fn push_member(
    alloc: Global,
    members: &mut Vec<(String, Tree)>,
    name: &str,
    value: Tree,
) -> Result<(), AllocError>
    ensures { OnOk result ((rest : Members) → followed_by members.new.items rest ≡ followed_by members.old.items (member name.now (view value) rest)) }
{
    let name = String::from_str(alloc, name)?;
    members.push((name, value))?;
    Ok(())
}

/// The members of these two names, moved out of an object's members, of which all else is dropped.
pub(crate) fn take_both(
    members: Vec<(String, Tree)>,
    first: &str,
    second: &str,
) -> (Option<Tree>, Option<Tree>)
    requires { bytes_eq first.now second.now ≡ false }
    ensures first { option_map view result.0 ≡ find_member first.now (members_view members.items) }
    ensures second { option_map view result.1 ≡ find_member second.now (members_view members.items) }
{
    let mut members = members;
    let mut one = None;
    let mut other = None;
    // From the back, so that of equal names the first is kept, as `Tree::member` finds it.
    while let Some((name, member)) = members.pop() {
        if name.as_str() == first {
            one = Some(member);
        } else if name.as_str() == second {
            other = Some(member);
        } else {
            drop(member);
        }
    }
    (one, other)
}

/// The members of an object; none, where there is no object.
pub(crate) fn members_in(alloc: Global, tree: Option<Tree>) -> Vec<(String, Tree)>
    ensures { members_view result.items ≡ or_no_members (option_and_then as_object (option_map view tree)) }
{
    into_members(tree).unwrap_or(Vec::new(alloc))
}

/// The members of an object.
pub(crate) fn into_members(tree: Option<Tree>) -> Option<Vec<(String, Tree)>>
    ensures { option_map (λ ms. members_view ms.items) result ≡ option_and_then as_object (option_map view tree) }
{
    match tree {
        Some(Tree::Object(members)) => Some(members),
        _ => None,
    }
}
