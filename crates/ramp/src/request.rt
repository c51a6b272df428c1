//! The request of one step.
ghost use Rattle.std.specs.Prelude.{◌≡◌, true, IfOk, OnOk};
ghost use Rattle.flag_text.specs.Shape.{is_whole, members_are_whole};
ghost use Rattle.flag_text.specs.View.{view, members_view};
ghost use Rattle.ramp.specs.Steps.{request_with, with_totals};

use flag_text::Tree;
use std::alloc::{AllocError, Global};

/// The tree with these totals in the place of its steps.
pub(crate) fn request_with(alloc: Global, tree: &Tree, totals: &Tree) -> Result<Tree, AllocError>
    ensures value { IfOk result (λ t. view t ≡ request_with (view tree.now) (view totals.now)) }
{
    match tree {
        Tree::Object(members) => {
            Ok(Tree::Object(with_totals(alloc, members.as_slice(), totals)?))
        }
        _ => Ok(Tree::Null),
    }
}

fn with_totals(
    alloc: Global,
    members: &[(String, Tree)],
    totals: &Tree,
) -> Result<Vec<(String, Tree)>, AllocError>
    ensures { IfOk result (λ v. members_view v.items ≡ with_totals (view totals.now) (members_view members.now)) }
{
    let mut request = Vec::new(alloc);
    for (name, member) in members {
        if name.as_str() == "steps" {
            let name = String::from_str(alloc, "totals")?;
            request.push((name, totals.copy(alloc)?))?;
            return Ok(request);
        }
        let name = name.clone()?;
        request.push((name, member.copy(alloc)?))?;
    }
    Ok(request)
}
