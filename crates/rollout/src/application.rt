//! A rule put in the place of a site's.
ghost use Rattle.std.specs.Prelude.{◌≡◌, [], ◌∷◌, ◌++◌, false, None, Some, Err, IfOk, IsErrOf, option_map};
ghost use Rattle.std.specs.Map.{lookup};
ghost use Rattle.std.specs.Str.{bytes_eq};
ghost use Rattle.flag_text.specs.Outcome.{GivesUnless};
ghost use Rattle.flag_defs.specs.Changes.{by_key, with_site};
ghost use Rattle.flag_defs.specs.Definition.{Definition};
ghost use Rattle.flag_defs.specs.Document.{limited};
ghost use Rattle.flag_defs.specs.Flag.{entries_view, flag_view, is_broken};
ghost use Rattle.flag_defs.specs.Flags.{flags_view};
ghost use Rattle.flag_defs.specs.Floats.{entries_floats, floats_of, floats_view, marks_by_key};
ghost use Rattle.rollout.specs.Applied.{applied};
ghost use Rattle.rollout.specs.Lawful.{names_are_variants};
ghost use Rattle.rollout.specs.Change.{IsChanged, OthersStay, ResolveAsBefore};

use crate::RolloutFault;
use bucket_core::Rule;
use flag_defs::{DefFault, Flag, Flags};
use logic_ast::LogicFault;
use std::alloc::{AllocError, Global};

/// The flags with the entries of the rule as the buckets of a site. The bucketing expression stays, and so do all other
/// flags. Which of them have floats stays too.
///
/// All other flags resolve as before. So does the flag itself wherever each input that its evaluation reaches at the site is
/// given the same name by the old entries and by the rule: then only the site's totals differ among what was reached.
///
/// It refuses, in this order, with `UnknownFlag`, `NoSite`, `Computed`, `UnknownVariant` (a name of the rule is none of the
/// flag's variants) and `TooLarge` (the document is too large when it is printed). The first three take no memory.
pub fn apply(
    alloc: Global,
    flags: &Flags,
    key: &str,
    site: u32,
    rule: &Rule,
) -> Result<Flags, RolloutFault>
    ensures exact { GivesUnless RolloutFault.WantOfMemory flags_view result (applied (flags_view flags.now) key.now site rule.now) }
    ensures unknown { lookup (bytes_eq key.now) (flags_view flags.now) ≡ None → IsErrOf result RolloutFault.UnknownFlag }
    ensures no_site { (flag : Definition) → lookup (bytes_eq key.now) (flags_view flags.now) ≡ Some flag → with_site site rule.now flag ≡ Err LogicFault.NoSite → IsErrOf result RolloutFault.NoSite }
    ensures computed { (flag : Definition) → lookup (bytes_eq key.now) (flags_view flags.now) ≡ Some flag → with_site site rule.now flag ≡ Err LogicFault.Computed → IsErrOf result RolloutFault.Computed }
    ensures changed { IfOk result (λ new. IsChanged (flags_view flags.now) key.now site rule.now (flags_view new)) }
    ensures others { IfOk result (λ new. OthersStay (flags_view flags.now) key.now (flags_view new)) }
    ensures resolutions { IfOk result (λ new. ResolveAsBefore (flags_view flags.now) key.now site rule.now (flags_view new)) }
    ensures floats { IfOk result (λ new. floats_view new ≡ floats_view flags.now) }
{
    let Some(flag) = flag_of(flags, key) else {
        return Err(RolloutFault::UnknownFlag);
    };
    let changed = flag.with_site(alloc, site, rule)?;
    if !names_are_variants(flag, rule) {
        return Err(RolloutFault::UnknownVariant);
    }
    // what is proved of the other flags and of resolutions rests on both
    prove!(flags.len() <= 10_000);
    prove!(rule.total() > 0);
    Ok(with_flag(alloc, flags, key, changed)?)
}

/// The flag of this key, of which it is known whether it has floats.
fn flag_of<'a>(flags: &'a Flags, key: &str) -> Option<&'a Flag>
    ensures value { option_map (λ f. flag_view f.now) result ≡ lookup (bytes_eq key.now) (flags_view flags.now) }
    ensures floats { option_map (λ f. floats_of f.now) result ≡ lookup (bytes_eq key.now) (floats_view flags.now) }
{
    for i in 0..flags.len() {
        let (other, flag) = flags.entry(i);
        if key == other {
            return Some(flag);
        }
    }
    None
}

/// Whether each name of the rule is a variant of the flag.
fn names_are_variants(flag: &Flag, rule: &Rule) -> bool
    requires { is_broken (flag_view flag.now) ≡ false }
    ensures { result ≡ names_are_variants (flag_view flag.now) rule.now }
{
    for (name, _) in rule.entries() {
        if flag.variant(name).is_none() {
            return false;
        }
    }
    true
}

/// The flags with this one in the place of the one of its key.
fn with_flag(alloc: Global, flags: &Flags, key: &str, flag: Flag) -> Result<Flags, DefFault>
    ensures exact { GivesUnless DefFault.WantOfMemory flags_view result (limited (by_key (flags_view flags.now ++ (key.now, flag_view flag) ∷ []))) }
    ensures floats { IfOk result (λ fs. floats_view fs ≡ marks_by_key (floats_view flags.now ++ (key.now, floats_of flag) ∷ [])) }
{
    let mut entries = copies(alloc, flags)?;
    entries.push((String::from_str(alloc, key)?, flag))?;
    Flags::make(alloc, entries)
}

/// Copies of the flags with their keys.
fn copies(alloc: Global, flags: &Flags) -> Result<Vec<(String, Flag)>, AllocError>
    ensures value { IfOk result (λ v. entries_view v.items ≡ flags_view flags.now) }
    ensures floats { IfOk result (λ v. entries_floats v.items ≡ floats_view flags.now) }
{
    let mut copies = Vec::new(alloc);
    for i in 0..flags.len() {
        let (key, flag) = flags.entry(i);
        let key = String::from_str(alloc, key)?;
        copies.push((key, flag.copy(alloc)?))?;
    }
    Ok(copies)
}
