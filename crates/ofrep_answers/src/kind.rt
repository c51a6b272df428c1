//! The kind of value that a flag is evaluated for.
ghost use Rattle.std.specs.Prelude.{◌≡◌, false, IfOk, IfSome, option_map};
ghost use Rattle.flag_defs.specs.Flag.{flag_view, is_broken, variant_of, variants_in};
ghost use Rattle.flag_text.specs.View.{view};
ghost use Rattle.ofrep_answers.specs.Kind.{flag_kind, kind_in, kind_of, variants_kind};

use flag_defs::Flag;
use flag_resolve::Kind;
use flag_text::Tree;
use std::alloc::{AllocError, Global};

/// The kind of a flag's variants, which are all of one. Where there is no flag, or none that has variants, no kind matters.
pub(crate) fn flag_kind(alloc: Global, flag: Option<&Flag>) -> Result<Kind, AllocError>
    ensures { IfOk result (λ kind. kind ≡ flag_kind (option_map (λ f. flag_view f.now) flag.entry)) }
{
    match flag {
        Some(flag) => kind_of_flag(alloc, flag),
        None => Ok(Kind::Bool),
    }
}

#[tactic(auto, using(crate::proofs::Variants::kind_of_broken))]
fn kind_of_flag(alloc: Global, flag: &Flag) -> Result<Kind, AllocError>
    ensures { IfOk result (λ kind. kind ≡ variants_kind (variants_in (flag_view flag.now))) }
{
    if flag.is_broken() {
        return Ok(Kind::Bool);
    }
    match default_kind(flag) {
        Some(kind) => Ok(kind),
        None => first_kind(alloc, flag),
    }
}

/// The kind of the default variant, where the flag has one.
#[tactic(auto, using(crate::proofs::Variants::flag_found_kind))]
fn default_kind(flag: &Flag) -> Option<Kind>
    requires { is_broken (flag_view flag.now) ≡ false }
    ensures { IfSome result (λ kind. kind ≡ variants_kind (variants_in (flag_view flag.now))) }
{
    let value = flag.variant(flag.default_variant()?)?;
    Some(kind_of(value))
}

/// The kind of the first variant.
#[tactic(auto, using(crate::proofs::Variants::first_is, crate::proofs::Variants::first_none))]
fn first_kind(alloc: Global, flag: &Flag) -> Result<Kind, AllocError>
    requires { is_broken (flag_view flag.now) ≡ false }
    ensures { IfOk result (λ kind. kind ≡ variants_kind (variants_in (flag_view flag.now))) }
{
    let names = flag.names(alloc)?;
    match names.as_slice().first() {
        Some(name) => Ok(kind_named(flag, name.as_str())),
        None => Ok(Kind::Bool),
    }
}

/// The kind of the variant of a name, if there is one.
fn kind_named(flag: &Flag, name: &str) -> Kind
    requires { is_broken (flag_view flag.now) ≡ false }
    ensures { result ≡ kind_in (variant_of name.now (flag_view flag.now)) }
{
    match flag.variant(name) {
        Some(value) => kind_of(value),
        None => Kind::Bool,
    }
}

/// The kind of a value, an object where it is of none.
fn kind_of(value: &Tree) -> Kind
    ensures { result ≡ kind_of (view value.now) }
{
    Kind::of(value).unwrap_or(Kind::Object)
}
