//! The site of a request.
ghost use Rattle.std.specs.Prelude.{◌≡◌, ◌<◌, ◌≤◌, IfOk};
ghost use Rattle.flag_defs.specs.Flags.{flags_view};
ghost use Rattle.flag_text.specs.Outcome.{GivesUnless};
ghost use Rattle.rollout.specs.Lawful.{place_of};
ghost use Rattle.library_rollouts.specs.Target.{place_view, points_of, site_of, target_in, target_of, target_view};

use crate::target::Target;
use book_core::Page;
use bucket_core::total_weight;
use flag_defs::Flags;
use logic_ast::{Site, site};
use note_tallies::MOST_POINTS;
use price_core::Request;
use rollout::RolloutFault;
use std::alloc::Global;

/// What is tallied for the bytes of a request.
pub(crate) fn target_of(
    alloc: Global,
    flags: &Flags,
    request: &[u8],
) -> Result<Target, RolloutFault>
    ensures { GivesUnless RolloutFault.WantOfMemory target_view result (target_of (flags_view flags.now) request.now) }
{
    let request = Request::read(alloc, request)?;
    target_in(alloc, flags, &request)
}

/// The same of a request that was read.
fn target_in(alloc: Global, flags: &Flags, request: &Request) -> Result<Target, RolloutFault>
    ensures { GivesUnless RolloutFault.WantOfMemory target_view result (target_in (flags_view flags.now) request.now) }
{
    let Place { entries, page } = place_of(alloc, flags, request.flag(), request.site())?;
    let total = points_of(total_weight(entries.as_slice()))?;
    Ok(Target { page, total })
}

/// As many points as the weights of a rule sum to.
fn points_of(total: u128) -> Result<u32, RolloutFault>
    ensures value { result ≡ points_of total }
    ensures some { IfOk result (λ n. 0 < n) }
    ensures few { IfOk result (λ n. n ≤ 1000000) }
{
    if total == 0 {
        return Err(RolloutFault::NoWeight);
    }
    if total > u128::from(MOST_POINTS) {
        return Err(RolloutFault::TotalTooLarge);
    }
    Ok(total as u32)
}

/// A site of a flag: its entries, and the page of its inputs.
#[derive(Drop)]
struct Place {
    entries: Vec<(String, u64)>,
    page: Page,
}

/// The site of this number of the flag of this key.
fn place_of(alloc: Global, flags: &Flags, key: &str, number: u32) -> Result<Place, RolloutFault>
    ensures { GivesUnless RolloutFault.WantOfMemory place_view result (site_of (place_of (flags_view flags.now) key.now number)) }
{
    let Some(flag) = flags.get(key) else {
        return Err(RolloutFault::UnknownFlag);
    };
    let Some(targeting) = flag.targeting() else {
        return Err(RolloutFault::NoSite);
    };
    let Site { entries, .. } = site(alloc, targeting, number)?;
    let page = Page::of(alloc, key, targeting, number)?;
    Ok(Place { entries, page })
}
