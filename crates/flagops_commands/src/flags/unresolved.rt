//! What a person is told of a key that resolves to the default for want of a flag, or of one of its kind.
ghost use Rattle.std.specs.Prelude.{◌≡◌, IfOk, IfSome, false, is_some, string_bytes};
ghost use Rattle.file_diagnostics.specs.Named.{Names};
ghost use Rattle.flag_defs.specs.Flag.{flag_view, is_broken};
ghost use Rattle.flagops_commands.specs.Resolve.{is_told};
ghost use Rattle.flagops_shell.specs.Diagnostic.{Says};

use file_diagnostics::{Lines, Opening};
use flag_defs::{Flag, Flags};
use flag_resolve::{Code, Kind};
use flagops_files::known_keys;
use flagops_shell::Remark;
use std::alloc::{AllocError, Global};

/// What a person is told of a resolution with this code, among the flags of the document at a path: that no flag has the key, or of
/// which kind the flag is.
#[tactic(auto, using(flagops_files::proofs::Told::says))]
pub(crate) fn remark_on(
    alloc: Global,
    path: &str,
    flags: &Flags,
    key: &str,
    kind: Kind,
    code: Option<Code>,
) -> Option<Remark>
    ensures told { is_some result ≡ is_told code }
    ensures names { IfSome result (Says (Names path.now)) }
{
    match code {
        Some(Code::FlagNotFound) => Some(Remark::of(of_unknown_key(alloc, path, flags, key))),
        Some(Code::TypeMismatch) => Some(Remark::of(of_other_kind(alloc, path, flags, key, kind))),
        _ => None,
    }
}

/// That no flag of the document at a path has the key, with the keys that may be meant.
fn of_unknown_key(alloc: Global, path: &str, flags: &Flags, key: &str) -> Result<String, AllocError>
    ensures { IfOk result (λ s. Names path.now (string_bytes s)) }
{
    let known = known_keys(alloc, flags, key)?;
    let mut lines = Lines::new(alloc);
    write!(
        lines,
        " has no flag {}, so it resolves to the default\n  {known}\n",
        lines.name(key),
    );
    lines.headed(Opening::Note, path)
}

/// Of which kind the flag of a key is that was asked for as another.
fn of_other_kind(
    alloc: Global,
    path: &str,
    flags: &Flags,
    key: &str,
    asked: Kind,
) -> Result<String, AllocError>
    ensures { IfOk result (λ s. Names path.now (string_bytes s)) }
{
    let kind = kind_of(alloc, flags, key)?;
    let mut lines = Lines::new(alloc);
    write!(
        lines,
        ": the flag {} is of the kind {}, not {}, so it resolves to the default\n",
        lines.name(key),
        kind.as_str(),
        asked.as_str(),
    );
    lines.headed(Opening::Note, path)
}

/// The kind of the flag of a key: that of its floats, where it has some, and else of its first variant. What has no variants counts as
/// an object.
fn kind_of(alloc: Global, flags: &Flags, key: &str) -> Result<Kind, AllocError> {
    if let Some(kind) = flags.floats_at(key) {
        return Ok(kind);
    }
    let Some(flag) = flags.get(key) else {
        return Ok(Kind::Object);
    };
    if flag.is_broken() {
        return Ok(Kind::Object);
    }
    kind_of_variants(alloc, flag)
}

fn kind_of_variants(alloc: Global, flag: &Flag) -> Result<Kind, AllocError>
    requires { is_broken (flag_view flag.now) ≡ false }
{
    let names = flag.names(alloc)?;
    match names.as_slice().first() {
        Some(name) => Ok(kind_of_variant(flag, name.as_str())),
        None => Ok(Kind::Object),
    }
}

fn kind_of_variant(flag: &Flag, name: &str) -> Kind
    requires { is_broken (flag_view flag.now) ≡ false }
{
    match flag.variant(name) {
        Some(value) => Kind::of(value).unwrap_or(Kind::Object),
        None => Kind::Object,
    }
}
