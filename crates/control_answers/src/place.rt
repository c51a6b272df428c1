//! The site of a flag.
ghost use Rattle.std.specs.Map.{lookup};
ghost use Rattle.std.specs.Prelude.{◌≡◌, ◌<◌, ◌≤◌, false, length, None, IfOk, IsErrOf};
ghost use Rattle.std.specs.Str.{bytes_eq, is_utf8};
ghost use Rattle.flag_defs.specs.Flags.{flags_view};
ghost use Rattle.flag_text.specs.Outcome.{GivesUnless};
ghost use Rattle.price_core.specs.Request.{max_request};
ghost use Rattle.price_core.specs.declared.fault.PriceFault.TheVariants.{BadRequest};
ghost use Rattle.rollout.specs.Lawful.{place_of};
ghost use Rattle.control_answers.specs.Target.{place_view, points_of, site_of, target_in, target_of, target_view};

use crate::target::Target;
use book_core::Page;
use bucket_core::total_weight;
use flag_defs::Flags;
use logic_ast::{Site, site};
use note_tallies::MOST_POINTS;
use rollout::{RequestFile, RolloutFault};
use std::alloc::Global;

/// What is tallied for the file of a request.
pub(crate) fn target_of(
    alloc: Global,
    flags: &Flags,
    request: &RequestFile,
) -> Result<Target, RolloutFault>
    ensures exact { GivesUnless RolloutFault.WantOfMemory target_view result (target_of (flags_view flags.now) request.now) }
    ensures large { max_request < length request.now → IsErrOf result (RolloutFault.Request BadRequest) }
    ensures no_text { length request.now ≤ max_request → is_utf8 request.now ≡ false → IsErrOf result (RolloutFault.Request BadRequest) }
{
    let asked = request.asked()?;
    target_in(alloc, flags, asked.flag(), asked.site())
}

/// What is tallied for a site of the flag of this key.
pub(crate) fn target_in(
    alloc: Global,
    flags: &Flags,
    key: &str,
    number: u32,
) -> Result<Target, RolloutFault>
    ensures exact { GivesUnless RolloutFault.WantOfMemory target_view result (target_in (flags_view flags.now) key.now number) }
    ensures unknown { lookup (bytes_eq key.now) (flags_view flags.now) ≡ None → IsErrOf result RolloutFault.UnknownFlag }
{
    let Place { entries, page } = place_of(alloc, flags, key, number)?;
    let total = points_of(total_weight(entries.as_slice()))?;
    Ok(Target { page, total })
}

/// As many points as the weights of a rule sum to.
fn points_of(total: u128) -> Result<u32, RolloutFault>
    ensures value { result ≡ points_of total }
    ensures some { IfOk result (λ n. 0 < n) }
    ensures few { IfOk result (λ n. n ≤ 1000000) }
{
    if total == 0 {
        return Err(RolloutFault::NoWeight);
    }
    if total > u128::from(MOST_POINTS) {
        return Err(RolloutFault::TotalTooLarge);
    }
    Ok(total as u32)
}

/// A site of a flag: its entries, and the page of its inputs.
#[derive(Drop)]
struct Place {
    entries: Vec<(String, u64)>,
    page: Page,
}

/// The site of this number of the flag of this key.
fn place_of(alloc: Global, flags: &Flags, key: &str, number: u32) -> Result<Place, RolloutFault>
    ensures exact { GivesUnless RolloutFault.WantOfMemory place_view result (site_of (place_of (flags_view flags.now) key.now number)) }
    ensures unknown { lookup (bytes_eq key.now) (flags_view flags.now) ≡ None → IsErrOf result RolloutFault.UnknownFlag }
{
    let Some(flag) = flags.get(key) else {
        return Err(RolloutFault::UnknownFlag);
    };
    let Some(targeting) = flag.targeting() else {
        return Err(RolloutFault::NoSite);
    };
    let Site { entries, .. } = site(alloc, targeting, number)?;
    let page = Page::of(alloc, key, targeting, number)?;
    Ok(Place { entries, page })
}
