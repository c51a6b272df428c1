//! Resolution where flags may have floats.
ghost use Rattle.std.specs.Prelude.{◌≡◌, ◌<◌, ◌^◌, true, Some, option_map, IfOk};
ghost use Rattle.flag_text.specs.Shape.{is_tidy, is_whole};
ghost use Rattle.flag_text.specs.View.{view};
ghost use Rattle.flag_defs.specs.Flags.{flags_view};
ghost use Rattle.flag_defs.specs.Floats.{floats_view};
ghost use Rattle.flag_resolve.specs.Floats.{floats_in, is_spelled, kind_asked, resolved_with_floats};
ghost use Rattle.flag_resolve.specs.Views.{resolution_view};

use crate::cases::resolve;
use crate::resolution::Resolution;
use flag_defs::{Flags, Kind};
use flag_text::Tree;
use std::alloc::{AllocError, Global};

/// What the flag of this key resolves to, as by [`resolve`], where flags may have floats (`Flag::has_floats`): the value of a variant
/// of such a flag is given as a text, which is its spelling, to who wants the kind that the flag is of, `Float` or `Object`.
/// Anyone else has the default and TYPE_MISMATCH. Who wants a float has that of a flag of whole numbers, too.
///
/// The conditions are those of [`resolve`]. It makes one more search by the key.
pub fn resolve_with_floats(
    alloc: Global,
    flags: Option<&Flags>,
    key: &str,
    want: Kind,
    default: &Tree,
    context: &Tree,
    moment: u64,
) -> Result<Resolution, AllocError>
    requires default { is_whole (view default.now) ≡ true }
    requires context { is_tidy (view context.now) ≡ true }
    requires moment { moment < 2 ^ 53 }
    ensures { IfOk result (λ r. resolution_view r ≡
        resolved_with_floats (option_map (λ f. (flags_view f.now, floats_view f.now)) flags.entry) want (view default.now) (view context.now) key.now moment) }
{
    let asked = kind_asked(floats_in(flags, key), want);
    resolve(alloc, flags, key, asked, default, context, moment)
}

/// The kind of the values of this key's flag where these stand as texts, which are their spelling.
pub fn floats_in(flags: Option<&Flags>, key: &str) -> Option<Kind>
    ensures { result ≡ floats_in (option_map (λ f. (flags_view f.now, floats_view f.now)) flags.entry) key.now }
{
    match flags {
        Some(flags) => flags.floats_at(key),
        None => None,
    }
}

/// The kind that such a flag is asked for in place of the wanted one.
fn kind_asked(floats: Option<Kind>, want: Kind) -> Kind
    ensures { result ≡ kind_asked floats want }
{
    match floats {
        None => want,
        Some(Kind::Float) => float_asked(want),
        Some(Kind::Object) => object_asked(want),
        Some(Kind::Bool | Kind::Text | Kind::Whole) => Kind::Whole,
    }
}

fn float_asked(want: Kind) -> Kind
    ensures { result ≡ kind_asked (Some Kind.Float) want }
{
    match want {
        Kind::Float => Kind::Text,
        Kind::Bool | Kind::Text | Kind::Whole | Kind::Object => Kind::Whole,
    }
}

fn object_asked(want: Kind) -> Kind
    ensures { result ≡ kind_asked (Some Kind.Object) want }
{
    match want {
        Kind::Object => Kind::Text,
        Kind::Bool | Kind::Text | Kind::Whole | Kind::Float => Kind::Whole,
    }
}

/// Whether the value of a resolution of the flag of this key stands as a text that is its spelling: it is that of a variant of a
/// flag with floats, and not the caller's default.
pub fn is_spelled(flags: Option<&Flags>, key: &str, resolution: &Resolution) -> bool
    ensures { result ≡ is_spelled (option_map (λ f. (flags_view f.now, floats_view f.now)) flags.entry) key.now (resolution_view resolution.now) }
{
    match &resolution.variant {
        Some(_) => floats_in(flags, key).is_some(),
        None => false,
    }
}
