//! From a flag to the tree that is printed.
ghost use Rattle.std.specs.Prelude.{◌≡◌, IfOk, OnOk, codes, if◌then◌else◌, option_map, string_bytes};
ghost use Rattle.flag_text.specs.Shape.{Members, object, no_members, member};
ghost use Rattle.flag_text.specs.View.{view as tree_view, members_view};
ghost use Rattle.logic_ast.specs.Expr.{view};
ghost use Rattle.flag_defs.specs.Definition.{good};
ghost use Rattle.flag_defs.specs.Document.{definition_written, definitions_written, with_default, with_targeting};
ghost use Rattle.flag_defs.specs.Flag.{entries_view, flag_view, rules_view};
ghost use Rattle.flag_defs.specs.Members.{followed_by};

use crate::flag::Flag;
use crate::members::{copy_members, push_member};
use crate::rules::Rules;
use flag_text::Tree;
use logic_ast::{Expr, write_expr};
use std::alloc::{AllocError, Global};

/// The definitions of flags under their keys.
pub(crate) fn write_entries(
    alloc: Global,
    flags: &[(String, Flag)],
) -> Result<Vec<(String, Tree)>, AllocError>
    ensures { IfOk result (λ v. members_view v.items ≡ definitions_written (entries_view flags.now)) }
{
    let mut members = Vec::with_capacity(alloc, flags.len())?;
    for (key, flag) in flags {
        let definition = write_flag(alloc, flag)?;
        members.push((key.clone()?, definition))?;
    }
    Ok(members)
}

/// The definition of a flag, its targeting without references: of a broken one the empty object. It fails only where memory
/// runs out.
fn write_flag(alloc: Global, flag: &Flag) -> Result<Tree, AllocError>
    ensures definition { IfOk result (λ t. tree_view t ≡ definition_written (flag_view flag.now)) }
{
    match &flag.rules {
        Some(rules) => Ok(Tree::Object(write_rules(alloc, rules)?)),
        None => Ok(Tree::Object(Vec::new(alloc))),
    }
}

fn write_rules(alloc: Global, rules: &Rules) -> Result<Vec<(String, Tree)>, AllocError>
    ensures { IfOk result (λ v. object (members_view v.items) ≡ definition_written (good (rules_view rules.now))) }
{
    let variants = Tree::Object(copy_members(alloc, rules.variants.as_slice())?);
    let state = Tree::Text(state_text(alloc, rules.enabled)?);
    let mut members = Vec::new(alloc);
    push_default(alloc, &mut members, &rules.default_variant)?;
    push_member(alloc, &mut members, "state", state)?;
    push_targeting(alloc, &mut members, &rules.targeting)?;
    push_member(alloc, &mut members, "variants", variants)?;
    Ok(members)
}

fn state_text(alloc: Global, enabled: bool) -> Result<String, AllocError>
    ensures { IfOk result (λ s. string_bytes s ≡ (if enabled then codes "ENABLED" else codes "DISABLED")) }
{
    String::from_str(alloc, if enabled { "ENABLED" } else { "DISABLED" })
}

fn push_default(
    alloc: Global,
    members: &mut Vec<(String, Tree)>,
    name: &Option<String>,
) -> Result<(), AllocError>
    ensures { OnOk result ((rest : Members) → followed_by members.new.items rest ≡ followed_by members.old.items (with_default (option_map string_bytes name.now) rest)) }
{
    match name {
        Some(name) => {
            let name = Tree::Text(name.clone()?);
            push_member(alloc, members, "defaultVariant", name)
        }
        None => Ok(()),
    }
}

fn push_targeting(
    alloc: Global,
    members: &mut Vec<(String, Tree)>,
    targeting: &Option<Expr>,
) -> Result<(), AllocError>
    ensures { OnOk result ((rest : Members) → followed_by members.new.items rest ≡ followed_by members.old.items (with_targeting (option_map view targeting.now) rest)) }
{
    match targeting {
        Some(expr) => {
            let expression = write_expr(alloc, expr)?;
            push_member(alloc, members, "targeting", expression)
        }
        None => Ok(()),
    }
}
