//! The kinds of flags.
ghost use Rattle.std.specs.Prelude.{◌≡◌, ◌++◌, false, IfOk, OnOk, map, option_and_then, string_bytes};
ghost use Rattle.std.specs.List.{flat_map, zip};
ghost use Rattle.flag_defs.specs.Flag.{flag_view, is_broken, variant_names, variant_of, variants_in};
ghost use Rattle.flag_defs.specs.Flags.{flags_view};
ghost use Rattle.flag_defs.specs.Floats.{floats_of, floats_view};
ghost use Rattle.flag_defs.specs.Kind.{kind_of};
ghost use Rattle.control_flags.specs.Kinds.{first_kind, kind_in, kind_rows, kinds_text, rows_of};

use crate::joined::{joined, push_pair};
use flag_defs::{Flag, Flags, Kind};
use std::alloc::{AllocError, Global};

/// The kinds of flags that are not broken, as lists of a key and the kind's word, in the order of the keys.
pub(crate) fn kinds_text(alloc: Global, flags: &Flags) -> Result<String, AllocError>
    ensures { IfOk result (λ s. string_bytes s ≡ kinds_text (flags_view flags.now) (floats_view flags.now)) }
{
    let rows = kind_rows(alloc, flags)?;
    joined(alloc, rows.as_slice())
}

fn kind_rows(alloc: Global, flags: &Flags) -> Result<Vec<String>, AllocError>
    ensures { IfOk result (λ v. map string_bytes v.items ≡ flat_map kind_rows (zip (flags_view flags.now) (floats_view flags.now))) }
{
    let mut rows = Vec::new(alloc);
    for i in 0..flags.len() {
        let (key, flag) = flags.entry(i);
        let kind = kind_of(alloc, flag)?;
        push_kind(alloc, &mut rows, key, kind)?;
    }
    Ok(rows)
}

/// Adds the row of a flag, where it has a kind.
fn push_kind(
    alloc: Global,
    rows: &mut Vec<String>,
    key: &str,
    kind: Option<Kind>,
) -> Result<(), AllocError>
    ensures { OnOk result (map string_bytes rows.new.items ≡ map string_bytes rows.old.items ++ rows_of key.now kind) }
{
    match kind {
        Some(kind) => push_pair(alloc, rows, key, kind.as_str()),
        None => Ok(()),
    }
}

/// The kind of the values of a flag's variants. A broken one has none.
fn kind_of(alloc: Global, flag: &Flag) -> Result<Option<Kind>, AllocError>
    ensures { IfOk result (λ o. o ≡ kind_in (flag_view flag.now) (floats_of flag.now)) }
{
    match flag.floats_kind() {
        Some(kind) => Ok(Some(kind)),
        None => first_kind(alloc, flag),
    }
}

/// The kind of the value of a flag's first variant.
fn first_kind(alloc: Global, flag: &Flag) -> Result<Option<Kind>, AllocError>
    ensures { IfOk result (λ o. o ≡ first_kind (variants_in (flag_view flag.now))) }
{
    if flag.is_broken() {
        return Ok(None);
    }
    let names = flag.names(alloc)?;
    Ok(kind_of_first(flag, names.as_slice()))
}

/// The same by the names of its variants.
fn kind_of_first(flag: &Flag, names: &[String]) -> Option<Kind>
    requires good { is_broken (flag_view flag.now) ≡ false }
    requires names { map string_bytes names.now ≡ variant_names (flag_view flag.now) }
    ensures { result ≡ first_kind (variants_in (flag_view flag.now)) }
{
    match names.first() {
        Some(name) => kind_of_variant(flag, name.as_str()),
        None => None,
    }
}

/// The kind of the value of the variant of this name.
fn kind_of_variant(flag: &Flag, name: &str) -> Option<Kind>
    requires { is_broken (flag_view flag.now) ≡ false }
    ensures { result ≡ option_and_then kind_of (variant_of name.now (flag_view flag.now)) }
{
    match flag.variant(name) {
        Some(value) => Kind::of(value),
        None => None,
    }
}
