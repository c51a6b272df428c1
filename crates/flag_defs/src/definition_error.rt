//! Why a flag is broken.
ghost use Rattle.std.specs.Prelude.{◌≡◌, true, Option, Some, option_map, IfOk};
ghost use Rattle.flag_text.specs.Shape.{is_tidy, members_are_tidy, names_rise, object};
ghost use Rattle.flag_text.specs.View.{view, members_view};
ghost use Rattle.logic_ast.specs.Expression.{Expression};
ghost use Rattle.flag_defs.specs.DefinitionError.{AllTell, TargetingBreaks, TargetingTells, Tells, end_rule, is_null_or_object, outline_error, variants_rule};
ghost use Rattle.flag_defs.specs.Definition.{HasTargeting};
ghost use Rattle.flag_defs.specs.Document.{evaluators_in, flags_in, or_no_members};

use crate::forecast::{Forecast, tree_forecast};
use crate::kind::are_of_one_kind;
use crate::outline::{are_few, default_variant, state, variants};
use crate::parts::{evaluators_in, members_of};
use flag_references::{Evaluators, Measure};
use flag_text::{Tree, member_by_halving};
use std::alloc::{AllocError, Global};

/// The first rule of flag documents that a definition breaks; the rules are in their order.
#[derive(Clone, Copy, Debug, PartialEq, Eq)]
pub enum DefinitionError {
    /// The definition is no object.
    Definition,
    /// `state` is neither `ENABLED` nor `DISABLED`.
    State,
    /// `variants` is no object of 1 to 64 members.
    Variants,
    /// The values of the variants are not all booleans, all texts, all whole numbers or all objects.
    Kinds,
    /// A number in a variant is not whole.
    VariantNumber,
    /// The variants nest deeper than 100 levels.
    VariantLevels,
    /// `defaultVariant` is neither null nor the name of a variant.
    DefaultVariant,
    /// `targeting`, or what it refers to, is neither null nor an object.
    Targeting,
    /// A `$ref` in the targeting names no evaluator, or leads back to itself.
    Reference,
    /// With its references replaced the targeting has more than 10,000 nodes or 100 levels.
    TargetingSize,
    /// With its references replaced the targeting has a number that is not whole, or a reference still.
    TargetingPart,
    /// An operator of the targeting is unknown, or has arguments that it does not take.
    Expression,
}

/// Of each flag of a document, in the order of the keys, the first rule that its definition breaks: `None` of a good one.
/// No targeting is expanded. A document without flags has none.
pub fn definition_errors(
    alloc: Global,
    document: &Tree,
) -> Result<Vec<Option<DefinitionError>>, AllocError>
    requires { is_tidy (view document.now) ≡ true }
    ensures { IfOk result (λ v. AllTell (evaluators_in (view document.now)) (or_no_members (flags_in (view document.now))) v.items) }
{
    match members_of(document, "flags") {
        Some(definitions) => {
            let evaluators = Evaluators::read(alloc, evaluators_in(document))?;
            each_error(alloc, definitions, &evaluators)
        }
        None => Ok(Vec::new(alloc)),
    }
}

fn each_error(
    alloc: Global,
    definitions: &[(String, Tree)],
    evaluators: &Evaluators<'_>,
) -> Result<Vec<Option<DefinitionError>>, AllocError>
    requires { members_are_tidy (members_view definitions.now) ≡ true }
    ensures { IfOk result (λ v. AllTell (members_view evaluators.now) (members_view definitions.now) v.items) }
{
    let mut errors = Vec::with_capacity(alloc, definitions.len())?;
    for (_, definition) in definitions {
        errors.push(first_error(definition, evaluators))?;
    }
    Ok(errors)
}

/// The first rule that a definition breaks.
fn first_error(definition: &Tree, evaluators: &Evaluators<'_>) -> Option<DefinitionError>
    requires { is_tidy (view definition.now) ≡ true }
    ensures { Tells (members_view evaluators.now) (view definition.now) result }
{
    match definition.as_object() {
        Some(members) => members_error(members, evaluators),
        None => Some(DefinitionError::Definition),
    }
}

fn members_error(members: &[(String, Tree)], evaluators: &Evaluators<'_>) -> Option<DefinitionError>
    requires { members_are_tidy (members_view members.now) ≡ true }
    ensures { Tells (members_view evaluators.now) (object (members_view members.now)) result }
{
    if let Some(definition_error) = outline_error(members) {
        return Some(definition_error);
    }
    match member_by_halving(members, "targeting") {
        Some(targeting) => targeting_error(targeting, evaluators),
        None => None,
    }
}

/// The first rule that a definition breaks beside its targeting.
fn outline_error(members: &[(String, Tree)]) -> Option<DefinitionError>
    requires { names_rise (members_view members.now) ≡ true }
    ensures { result ≡ outline_error (members_view members.now) }
{
    if state(members).is_none() {
        return Some(DefinitionError::State);
    }
    let Some(variants) = variants(members) else {
        return Some(variants_rule(member_by_halving(members, "variants")));
    };
    if default_variant(members, variants).is_none() {
        return Some(DefinitionError::DefaultVariant);
    }
    None
}

/// The first rule that does not hold of what is no variants.
fn variants_rule(tree: Option<&Tree>) -> DefinitionError
    ensures { result ≡ variants_rule (option_map (λ t. view t.now) tree.entry) }
{
    match tree {
        Some(tree) => tree_rule(tree),
        None => DefinitionError::Variants,
    }
}

fn tree_rule(tree: &Tree) -> DefinitionError
    ensures { result ≡ variants_rule (Some (view tree.now)) }
{
    let Some(variants) = tree.as_object() else {
        return DefinitionError::Variants;
    };
    if !are_few(variants) {
        DefinitionError::Variants
    } else if !are_of_one_kind(variants) {
        DefinitionError::Kinds
    } else if !tree.is_whole() {
        DefinitionError::VariantNumber
    } else {
        DefinitionError::VariantLevels
    }
}

/// The first rule that the targeting of a definition breaks.
fn targeting_error(tree: &Tree, evaluators: &Evaluators<'_>) -> Option<DefinitionError>
    requires { is_tidy (view tree.now) ≡ true }
    ensures { TargetingTells (members_view evaluators.now) (view tree.now) result }
{
    match tree_forecast(tree, evaluators) {
        Forecast::Broken => Some(targeting_rule(tree, evaluators)),
        Forecast::Without => None,
        Forecast::With(_) => None,
    }
}

/// The first rule that a targeting which breaks its flag does not meet.
fn targeting_rule(tree: &Tree, evaluators: &Evaluators<'_>) -> DefinitionError
    requires tidy { is_tidy (view tree.now) ≡ true }
    requires broken { (e : Option Expression) → ¬ HasTargeting (members_view evaluators.now) (view tree.now) e }
    ensures { TargetingBreaks (members_view evaluators.now) (view tree.now) result }
{
    if !is_null_or_object(tree) {
        return DefinitionError::Targeting;
    }
    match evaluators.measure_of(tree) {
        Some(measure) => end_rule(evaluators.end_of(tree), measure),
        None => DefinitionError::Reference,
    }
}

/// The same of a targeting that is no reference and has a form, by the measure of the form.
fn end_rule(end: &Tree, measure: Measure) -> DefinitionError
    ensures { result ≡ end_rule (view end.now) measure }
{
    if !is_null_or_object(end) {
        DefinitionError::Targeting
    } else if !measure.expression.is_within() {
        DefinitionError::TargetingSize
    } else if !measure.full.is_sound {
        DefinitionError::TargetingPart
    } else {
        DefinitionError::Expression
    }
}

fn is_null_or_object(tree: &Tree) -> bool
    ensures { result ≡ is_null_or_object (view tree.now) }
{
    matches!(tree, Tree::Null | Tree::Object(_))
}
