//! A flag with another rule at a site of its targeting.
ghost use Rattle.std.specs.Prelude.{◌≡◌, true, Some, Err, IfOk, IsErrOf};
ghost use Rattle.flag_text.specs.Outcome.{GivesUnless};
ghost use Rattle.logic_ast.specs.Expr.{view};
ghost use Rattle.flag_defs.specs.Changes.{with_site};
ghost use Rattle.flag_defs.specs.Flag.{flag_view, rules_view};
ghost use Rattle.flag_defs.specs.Floats.{floats_of};
ghost use Rattle.flag_defs.specs.Rules.{is_targeting};

use crate::copy::copy_name;
use crate::flag::Flag;
use crate::members::copy_members;
use crate::rules::Rules;
use bucket_core::Rule;
use logic_ast::{Expr, LogicFault, replace_site};
use std::alloc::{AllocError, Global};

impl Flag {
    /// The flag with the entries of the rule as the buckets of site `n` of its targeting. All else stays.
    ///
    /// `NoSite` where there is no such site, as in a flag without targeting and in a broken one, then `Computed` where a
    /// bucket of the site is not literal. Neither takes memory.
    pub fn with_site(&self, alloc: Global, n: u32, rule: &Rule) -> Result<Flag, LogicFault>
        ensures exact { GivesUnless LogicFault.WantOfMemory flag_view result (with_site n rule.now (flag_view self.now)) }
        ensures floats { IfOk result (λ f. floats_of f ≡ floats_of self.now) }
        ensures no_site { with_site n rule.now (flag_view self.now) ≡ Err LogicFault.NoSite → IsErrOf result LogicFault.NoSite }
        ensures computed { with_site n rule.now (flag_view self.now) ≡ Err LogicFault.Computed → IsErrOf result LogicFault.Computed }
    {
        let Some(rules) = &self.rules else {
            return Err(LogicFault::NoSite);
        };
        let Some(targeting) = &rules.targeting else {
            return Err(LogicFault::NoSite);
        };
        let targeting = replace_site(alloc, targeting, n, rule)?;
        let rules = retargeted(alloc, rules, targeting)?;
        Ok(Flag { rules: Some(rules) })
    }
}

/// The same rules with another targeting.
fn retargeted(alloc: Global, rules: &Rules, targeting: Expr) -> Result<Rules, AllocError>
    requires { is_targeting (view targeting) ≡ true }
    ensures value { IfOk result (λ r. rules_view r ≡ record (rules_view rules.now) { targeting = Some (view targeting) }) }
    ensures floats { IfOk result (λ r. r.has_floats ≡ rules.now.has_floats) }
{
    let variants = copy_members(alloc, rules.variants.as_slice())?;
    let default_variant = copy_name(&rules.default_variant)?;
    Ok(Rules {
        enabled: rules.enabled,
        variants,
        default_variant,
        targeting: Some(targeting),
        has_floats: rules.has_floats,
    })
}
