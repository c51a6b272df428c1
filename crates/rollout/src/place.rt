//! The site of a request.
ghost use Rattle.std.specs.Prelude.{◌≡◌, false, IfOk};
ghost use Rattle.flag_text.specs.Outcome.{GivesUnless};
ghost use Rattle.bucket_core.specs.Rule.{entries_view};
ghost use Rattle.flag_defs.specs.Flag.{flag_view, is_broken};
ghost use Rattle.flag_defs.specs.Flags.{flags_view};
ghost use Rattle.rollout.specs.Lawful.{place_of, place_view, names_are_variants, limits_for};

use crate::fault::RolloutFault;
use book_core::Page;
use flag_defs::{Flag, Flags};
use logic_ast::{Site, site};
use price_core::{Request, Totals};
use std::alloc::Global;

/// A site of a flag: its entries, and the page of its inputs.
#[derive(Drop)]
pub(crate) struct Place<'a> {
    pub(crate) flag: &'a Flag,
    pub(crate) entries: Vec<(String, u64)>,
    pub(crate) page: Page,
}

/// The site of this number of the flag of this key.
pub(crate) fn place_of<'a>(
    alloc: Global,
    flags: &'a Flags,
    key: &str,
    number: u32,
) -> Result<Place<'a>, RolloutFault>
    ensures exact { GivesUnless RolloutFault.WantOfMemory place_view result (place_of (flags_view flags.now) key.now number) }
    ensures good { IfOk result (λ p. is_broken (flag_view p.flag.now) ≡ false) }
{
    let Some(flag) = flags.get(key) else {
        return Err(RolloutFault::UnknownFlag);
    };
    let Some(targeting) = flag.targeting() else {
        return Err(RolloutFault::NoSite);
    };
    let Site { entries, .. } = site(alloc, targeting, number)?;
    let page = Page::of(alloc, key, targeting, number)?;
    Ok(Place {
        flag,
        entries,
        page,
    })
}

/// The limits on the flag's variants, where the rule and the request name no others.
pub(crate) fn limits_for(
    alloc: Global,
    place: &Place<'_>,
    request: &Request,
) -> Result<Totals, RolloutFault>
    requires { is_broken (flag_view place.now.flag.now) ≡ false }
    ensures { GivesUnless RolloutFault.WantOfMemory (λ t. t) result (limits_for (place_view place.now) request.now) }
{
    if !names_are_variants(place.flag, place.entries.as_slice()) {
        return Err(RolloutFault::UnknownVariant);
    }
    let names = place.flag.names(alloc)?;
    Ok(request.totals(alloc, names.as_slice())?)
}

/// Whether each name of the entries is a variant of the flag.
fn names_are_variants(flag: &Flag, entries: &[(String, u64)]) -> bool
    requires { is_broken (flag_view flag.now) ≡ false }
    ensures { result ≡ names_are_variants (flag_view flag.now) (entries_view entries.now) }
{
    for (name, _) in entries {
        if flag.variant(name.as_str()).is_none() {
            return false;
        }
    }
    true
}
