//! From a definition to a flag.
ghost use Rattle.std.specs.Prelude.{◌≡◌, true, false, Option, Some, option_map, option_copied, string_bytes, IfOk};
ghost use Rattle.flag_text.specs.Shape.{object, is_tidy, members_are_tidy};
ghost use Rattle.flag_text.specs.View.{view as tree_view, members_view};
ghost use Rattle.flag_defs.specs.Definition.{Means, good};
ghost use Rattle.flag_defs.specs.Flag.{flag_view};
ghost use Rattle.flag_defs.specs.Floats.{floats_of};
ghost use Rattle.flag_defs.specs.Foreseen.{Foresees};
ghost use Rattle.flag_defs.specs.Rules.{are_rules, rules_of};
ghost use Rattle.flag_defs.specs.Weighing.{IsWeighed};

use crate::flag::Flag;
use crate::forecast::{Forecast, targeting_forecast};
use crate::members::{members_in, take_both};
use crate::outline::outline_of;
use crate::rules::Rules;
use crate::targeting::read_targeting;
use flag_references::Evaluators;
use flag_text::{Tree, member_by_halving};
use logic_ast::Expr;
use std::alloc::{AllocError, Global};

/// What is known of a definition before the references of its targeting are replaced: `Broken` where it breaks any rule.
/// Nothing is expanded.
pub(crate) fn definition_forecast(definition: &Tree, evaluators: &Evaluators<'_>) -> Forecast
    requires { is_tidy (tree_view definition.now) ≡ true }
    ensures { Foresees (members_view evaluators.now) (tree_view definition.now) result }
{
    match definition.as_object() {
        Some(members) => members_forecast(members, evaluators),
        None => Forecast::Broken,
    }
}

fn members_forecast(members: &[(String, Tree)], evaluators: &Evaluators<'_>) -> Forecast
    requires { members_are_tidy (members_view members.now) ≡ true }
    ensures { Foresees (members_view evaluators.now) (object (members_view members.now)) result }
{
    let Some(_outline) = outline_of(members) else {
        return Forecast::Broken;
    };
    targeting_forecast(member_by_halving(members, "targeting"), evaluators)
}

/// The flag of a definition of which this is foreseen, without floats. The condition is that it was weighed with all others of its document.
/// The definition is consumed: the variants and the targeting are moved out of it, and all else is dropped.
pub(crate) fn read_flag(
    alloc: Global,
    definition: Tree,
    forecast: Forecast,
    evaluators: &Evaluators<'_>,
) -> Result<Flag, AllocError>
    requires tidy { is_tidy (tree_view definition) ≡ true }
    requires foreseen { Foresees (members_view evaluators.now) (tree_view definition) forecast }
    requires weighed { IsWeighed (members_view evaluators.now) (tree_view definition) }
    ensures means { IfOk result (λ f. Means (members_view evaluators.now) (tree_view definition) (flag_view f)) }
    ensures floats { IfOk result (λ f. floats_of f ≡ false) }
{
    match definition {
        Tree::Object(members) => read_members(alloc, members, forecast, evaluators),
        _ => Ok(Flag { rules: None }),
    }
}

fn read_members(
    alloc: Global,
    members: Vec<(String, Tree)>,
    forecast: Forecast,
    evaluators: &Evaluators<'_>,
) -> Result<Flag, AllocError>
    requires tidy { members_are_tidy (members_view members.items) ≡ true }
    requires foreseen { Foresees (members_view evaluators.now) (object (members_view members.items)) forecast }
    requires weighed { IsWeighed (members_view evaluators.now) (object (members_view members.items)) }
    ensures means { IfOk result (λ f. Means (members_view evaluators.now) (object (members_view members.items)) (flag_view f)) }
    ensures floats { IfOk result (λ f. floats_of f ≡ false) }
{
    let Some(outline) = outline_of(members.as_slice()) else {
        return Ok(Flag { rules: None });
    };
    if let Forecast::Broken = forecast {
        return Ok(Flag { rules: None });
    }
    let default_variant = own_name(alloc, outline.default_variant)?;
    let enabled = outline.enabled;
    let (targeting, variants) = take_both(members, "targeting", "variants");
    let targeting = read_targeting(alloc, targeting, evaluators)?;
    let variants = members_in(alloc, variants);
    Ok(good_flag(enabled, variants, default_variant, targeting))
}

/// The flag that keeps all rules, with these.
fn good_flag(
    enabled: bool,
    variants: Vec<(String, Tree)>,
    default_variant: Option<String>,
    targeting: Option<Expr>,
) -> Flag
    requires { are_rules (rules_of enabled variants.items default_variant targeting) ≡ true }
    ensures value { flag_view result ≡ good (rules_of enabled variants.items default_variant targeting) }
    ensures floats { floats_of result ≡ false }
{
    let rules = Rules {
        enabled,
        variants,
        default_variant,
        targeting,
        has_floats: false,
    };
    Flag { rules: Some(rules) }
}

fn own_name(alloc: Global, name: Option<&str>) -> Result<Option<String>, AllocError>
    ensures { IfOk result (λ n. option_map string_bytes n ≡ option_copied name.entry) }
{
    match name {
        Some(name) => Ok(Some(String::from_str(alloc, name)?)),
        None => Ok(None),
    }
}
