//! Copies of single flags, and of all under their keys.
ghost use Rattle.std.specs.Prelude.{◌≡◌, true, IfOk, IsOk, option_map, string_bytes};
ghost use Rattle.logic_ast.specs.Expr.{view};
ghost use Rattle.flag_defs.specs.Flag.{entries_view, flag_view, is_broken, rules_view};
ghost use Rattle.flag_defs.specs.Floats.{entries_floats, floats_of};

use crate::flag::Flag;
use crate::members::copy_members;
use crate::rules::Rules;
use logic_ast::Expr;
use std::alloc::{AllocError, Global};

impl Flag {
    /// An equal flag. That of a broken one takes no memory.
    pub fn copy(&self, alloc: Global) -> Result<Flag, AllocError>
        ensures value { IfOk result (λ f. flag_view f ≡ flag_view self.now) }
        ensures floats { IfOk result (λ f. floats_of f ≡ floats_of self.now) }
        ensures broken { is_broken (flag_view self.now) ≡ true → IsOk result }
    {
        match &self.rules {
            Some(rules) => Ok(Flag {
                rules: Some(copy_rules(alloc, rules)?),
            }),
            None => Ok(Flag { rules: None }),
        }
    }
}

fn copy_rules(alloc: Global, rules: &Rules) -> Result<Rules, AllocError>
    ensures value { IfOk result (λ r. rules_view r ≡ rules_view rules.now) }
    ensures floats { IfOk result (λ r. r.has_floats ≡ rules.now.has_floats) }
{
    let variants = copy_members(alloc, rules.variants.as_slice())?;
    let default_variant = copy_name(&rules.default_variant)?;
    let targeting = copy_targeting(alloc, &rules.targeting)?;
    Ok(Rules {
        enabled: rules.enabled,
        variants,
        default_variant,
        targeting,
        has_floats: rules.has_floats,
    })
}

pub(crate) fn copy_name(name: &Option<String>) -> Result<Option<String>, AllocError>
    ensures { IfOk result (λ n. option_map string_bytes n ≡ option_map string_bytes name.now) }
{
    match name {
        Some(name) => Ok(Some(name.clone()?)),
        None => Ok(None),
    }
}

fn copy_targeting(alloc: Global, targeting: &Option<Expr>) -> Result<Option<Expr>, AllocError>
    ensures { IfOk result (λ e. option_map view e ≡ option_map view targeting.now) }
{
    match targeting {
        Some(expr) => Ok(Some(expr.copy(alloc)?)),
        None => Ok(None),
    }
}

/// Equal flags under equal keys, in the same order. It fails only where memory runs out.
pub(crate) fn copy_entries(
    alloc: Global,
    flags: &[(String, Flag)],
) -> Result<Vec<(String, Flag)>, AllocError>
    ensures value { IfOk result (λ v. entries_view v.items ≡ entries_view flags.now) }
    ensures floats { IfOk result (λ v. entries_floats v.items ≡ entries_floats flags.now) }
{
    let mut copies = Vec::with_capacity(alloc, flags.len())?;
    for (key, flag) in flags {
        let key = key.clone()?;
        copies.push((key, flag.copy(alloc)?))?;
    }
    Ok(copies)
}
