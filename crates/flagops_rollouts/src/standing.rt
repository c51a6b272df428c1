//! Whether a rule stands at a site of a flag.
ghost use Rattle.std.specs.Prelude.{◌≡◌, IfOk, option_map};
ghost use Rattle.bucket_core.specs.Rule.{entries_view};
ghost use Rattle.flag_defs.specs.Flag.{flag_view};
ghost use Rattle.flag_defs.specs.Flags.{flags_view};
ghost use Rattle.flagops_rollouts.specs.Standing.{are_same, entries_in, has_rule};

use bucket_core::Rule;
use flag_defs::{Flag, Flags};
use logic_ast::{LogicFault, Site, site};
use std::alloc::{AllocError, Global};

/// Whether the buckets at a site of a flag are those of the rule, one by one: so it is where the rule was put there.
pub fn has_rule(
    alloc: Global,
    flags: &Flags,
    key: &str,
    number: u32,
    rule: &Rule,
) -> Result<bool, AllocError>
    ensures { IfOk result (λ b. b ≡ has_rule (flags_view flags.now) key.now number rule.now) }
{
    match entries_in(alloc, number, flags.get(key))? {
        Some(entries) => Ok(are_same(rule, entries.as_slice())),
        None => Ok(false),
    }
}

/// The literal buckets of a site of a flag, where it has the site.
pub(crate) fn entries_in(
    alloc: Global,
    number: u32,
    flag: Option<&Flag>,
) -> Result<Option<Vec<(String, u64)>>, AllocError>
    ensures { IfOk result (λ o. option_map (λ v. entries_view v.items) o ≡ entries_in number (option_map (λ f. flag_view f.now) flag.entry)) }
{
    let Some(flag) = flag else {
        return Ok(None);
    };
    let Some(targeting) = flag.targeting() else {
        return Ok(None);
    };
    match site(alloc, targeting, number) {
        Ok(Site { entries, .. }) => Ok(Some(entries)),
        Err(LogicFault::WantOfMemory) => Err(AllocError),
        Err(_) => Ok(None),
    }
}

fn are_same(rule: &Rule, entries: &[(String, u64)]) -> bool
    ensures { result ≡ are_same rule.now (entries_view entries.now) }
{
    let mut rest = entries;
    for (name, weight) in rule.entries() {
        match rest.split_first() {
            Some(((other, points), more)) => {
                if name != other.as_str() || weight != *points {
                    return false;
                }
                rest = more;
            }
            None => return false,
        }
    }
    rest.is_empty()
}
