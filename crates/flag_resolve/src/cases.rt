//! The cases of a resolution, from the first to the last.
ghost use Rattle.std.specs.Prelude.{◌≡◌, ◌<◌, ◌^◌, true, false, map, option_map, option_and_then, option_copied, IfOk};
ghost use Rattle.flag_text.specs.Shape.{is_tidy, is_whole};
ghost use Rattle.flag_text.specs.View.{view};
ghost use Rattle.flag_defs.specs.Flag.{flag_view, is_broken};
ghost use Rattle.flag_defs.specs.Flags.{flags_view};
ghost use Rattle.logic_ast.specs.Expr.{view as expr_view};
ghost use Rattle.logic_eval.specs.Evaluation.{evaluation_of};
ghost use Rattle.logic_eval.specs.Views.{reach_view, situation};
ghost use Rattle.flag_resolve.specs.Lawful.{IsLawful};
ghost use Rattle.flag_resolve.specs.Resolution.{default_of, defined, evaluated, name_in, resolution_of, resolved_by, targeted, variant_named};
ghost use Rattle.flag_resolve.specs.Views.{asked_view, resolution_view, variant_view};

use crate::asked::{Asked, Variant};
use crate::code::Code;
use crate::reason::Reason;
use crate::resolution::Resolution;
use flag_defs::{Flag, Flags, Kind};
use flag_text::Tree;
use logic_ast::Expr;
use logic_eval::{Context, EvalFault, Reached, eval_scalar};
use std::alloc::{AllocError, Global};

/// What the flag of this key resolves to in the context at the moment, for a caller who wants a value of this kind.
///
/// The first case that applies answers:
///
/// | no. | case | value | reason | code |
/// |---|---|---|---|---|
/// | 1 | there are no flags yet | the default | ERROR | PROVIDER_NOT_READY |
/// | 2 | the context is no object | the default | ERROR | INVALID_CONTEXT |
/// | 3 | no flag has the key | the default | ERROR | FLAG_NOT_FOUND |
/// | 4 | the flag is broken | the default | ERROR | PARSE_ERROR |
/// | 5 | the flag is disabled | the default | DISABLED | |
/// | 6 | it has no targeting | the default variant's | STATIC | |
/// | 7 | the targeting can't be evaluated | the default | ERROR | PARSE_ERROR |
/// | 8 | it gives null | the default variant's | DEFAULT | |
/// | 9 | it gives no text and no boolean that names a variant | the default | ERROR | GENERAL |
/// | 10 | it gives the name of a variant | that variant's | TARGETING_MATCH | |
///
/// In 6 and 8 a flag without a default variant gives the caller's default, with the reason DEFAULT and no code. A
/// variant whose value is of another kind gives the caller's default, ERROR and TYPE_MISMATCH. The sites that the
/// evaluation reached are told from 8 on, and in the other cases none.
///
/// The conditions are whole numbers in the default, and a moment of at most 2^53-1. A number of the context that is not whole makes the
/// evaluation fault (7) that reads it, and no other. It fails only where memory runs out. It makes one search by the key and at most one evaluation, and copies the value and the
/// variant's name alone.
pub fn resolve(
    alloc: Global,
    flags: Option<&Flags>,
    key: &str,
    want: Kind,
    default: &Tree,
    context: &Tree,
    moment: u64,
) -> Result<Resolution, AllocError>
    requires default { is_whole (view default.now) ≡ true }
    requires context { is_tidy (view context.now) ≡ true }
    requires moment { moment < 2 ^ 53 }
    ensures exact { IfOk result (λ r. resolution_view r ≡
        resolved_by (option_map (λ f. flags_view f.now) flags.entry) want (view default.now) (view context.now) key.now moment) }
    ensures lawful { IfOk result (λ r. IsLawful (record { want = want; default = view default.now }) (resolution_view r)) }
{
    found(alloc, flags, key, &Asked { want, default }, context, moment)
}

#[tactic(auto, unfolding(crate::specs::Resolution::resolution_of))]
fn found(
    alloc: Global,
    flags: Option<&Flags>,
    key: &str,
    asked: &Asked,
    context: &Tree,
    moment: u64,
) -> Result<Resolution, AllocError>
    requires context { is_tidy (view context.now) ≡ true }
    requires moment { moment < 2 ^ 53 }
    ensures { IfOk result (λ r. resolution_view r ≡ resolution_of (option_map (λ f. flags_view f.now) flags.entry) (asked_view asked.now)
        (record { context = view context.now; flag = key.now; moment = moment })) }
{
    let Some(flags) = flags else {
        return asked.failed(alloc, Code::ProviderNotReady, Vec::new(alloc));
    };
    if context.as_object().is_none() {
        return asked.failed(alloc, Code::InvalidContext, Vec::new(alloc));
    }
    let context = Context::make(context, key, moment);
    match flags.get(key) {
        Some(flag) => defined(alloc, asked, flag, &context),
        None => asked.failed(alloc, Code::FlagNotFound, Vec::new(alloc)),
    }
}

fn defined(
    alloc: Global,
    asked: &Asked,
    flag: &Flag,
    context: &Context,
) -> Result<Resolution, AllocError>
    ensures { IfOk result (λ r. resolution_view r ≡ defined (asked_view asked.now) (flag_view flag.now) (situation context.now)) }
{
    if flag.is_broken() {
        return asked.failed(alloc, Code::ParseError, Vec::new(alloc));
    }
    if !flag.enabled() {
        return asked.defaulted(alloc, Reason::Disabled, Vec::new(alloc));
    }
    match flag.targeting() {
        Some(targeting) => evaluated(alloc, asked, flag, targeting, context),
        None => {
            let variant = default_variant(flag);
            asked.given_default(alloc, variant, Reason::Static, Vec::new(alloc))
        }
    }
}

fn evaluated(
    alloc: Global,
    asked: &Asked,
    flag: &Flag,
    targeting: &Expr,
    context: &Context,
) -> Result<Resolution, AllocError>
    requires { is_broken (flag_view flag.now) ≡ false }
    ensures { IfOk result (λ r. resolution_view r ≡ evaluated (asked_view asked.now) (flag_view flag.now) (evaluation_of (expr_view targeting.now) (situation context.now))) }
{
    match eval_scalar(alloc, targeting, context) {
        Ok((value, reached)) => targeted(alloc, asked, flag, &value, reached),
        Err(EvalFault::WantOfMemory) => Err(AllocError),
        Err(_) => asked.failed(alloc, Code::ParseError, Vec::new(alloc)),
    }
}

fn targeted(
    alloc: Global,
    asked: &Asked,
    flag: &Flag,
    value: &Tree,
    reached: Vec<Reached>,
) -> Result<Resolution, AllocError>
    requires { is_broken (flag_view flag.now) ≡ false }
    ensures { IfOk result (λ r. resolution_view r ≡ targeted (asked_view asked.now) (flag_view flag.now) (view value.now) (map reach_view reached.items)) }
{
    if let Tree::Null = value {
        return asked.given_default(alloc, default_variant(flag), Reason::Default, reached);
    }
    match chosen_variant(flag, value) {
        Some(variant) => asked.given(alloc, variant, Reason::TargetingMatch, reached),
        None => asked.failed(alloc, Code::General, reached),
    }
}

fn default_variant(flag: &Flag) -> Option<Variant<'_>>
    requires { is_broken (flag_view flag.now) ≡ false }
    ensures { option_map variant_view result ≡ default_of (flag_view flag.now) }
{
    variant_named(flag, flag.default_variant()?)
}

fn chosen_variant<'a>(flag: &'a Flag, value: &'a Tree) -> Option<Variant<'a>>
    requires { is_broken (flag_view flag.now) ≡ false }
    ensures { option_map variant_view result ≡ option_and_then (variant_named (flag_view flag.now)) (name_in (view value.now)) }
{
    variant_named(flag, name_in(value)?)
}

fn variant_named<'a>(flag: &'a Flag, name: &'a str) -> Option<Variant<'a>>
    requires { is_broken (flag_view flag.now) ≡ false }
    ensures { option_map variant_view result ≡ variant_named (flag_view flag.now) name.now }
{
    let value = flag.variant(name)?;
    Some(Variant { name, value })
}

/// The name that the result of a targeting is: a text, `true` or `false`.
fn name_in(value: &Tree) -> Option<&str>
    ensures { option_copied result ≡ name_in (view value.now) }
{
    match value {
        Tree::Text(name) => Some(name.as_str()),
        Tree::Bool(true) => Some("true"),
        Tree::Bool(false) => Some("false"),
        _ => None,
    }
}
