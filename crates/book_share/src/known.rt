//! The pages of the sites of flags, made once for all notes.
ghost use Rattle.std.specs.Prelude.{IfOk, OnOk};
ghost use Rattle.flag_defs.specs.Flags.{flags_view};
ghost use Rattle.book_share.specs.Known.{AreKnown, AreSitePages};

use crate::ask::Ask;
use book_core::Page;
use flag_defs::Flags;
use site_pages::{pages_of, targeting_of};
use std::alloc::{AllocError, Global};
use std::collections::BTreeMap;

/// The pages of the sites of each flag that is asked for, by the flags' keys. Cost: a look-up for each ask, and a walk over
/// the targeting of each flag.
pub(crate) fn known_pages(
    alloc: Global,
    flags: &Flags,
    asks: &[Ask<'_>],
) -> Result<BTreeMap<String, Vec<Page>>, AllocError>
    ensures { IfOk result (λ known. AreKnown (flags_view flags.now) known.entries) }
{
    let mut known = BTreeMap::new(alloc);
    for ask in asks {
        let key = ask.key;
        if !known.contains_key(key) {
            add_pages(alloc, flags, key, &mut known)?;
        }
    }
    Ok(known)
}

/// Adds the pages of the sites of a flag, where it has a targeting.
fn add_pages(
    alloc: Global,
    flags: &Flags,
    key: &str,
    known: &mut BTreeMap<String, Vec<Page>>,
) -> Result<(), AllocError>
    requires { AreKnown (flags_view flags.now) known.old.entries }
    ensures { OnOk result (AreKnown (flags_view flags.now) known.new.entries) }
{
    if let Some(targeting) = targeting_of(flags, key) {
        let pages = pages_of(alloc, key, targeting)?;
        known.insert(String::from_str(alloc, key)?, pages)?;
    }
    Ok(())
}

/// The pages of the sites of a flag, none where they are not known.
pub(crate) fn pages_at<'a>(
    known: &'a BTreeMap<String, Vec<Page>>,
    flags: &Flags,
    key: &str,
) -> &'a [Page]
    requires { AreKnown (flags_view flags.now) known.now.entries }
    ensures { AreSitePages (flags_view flags.now) key.now result.now }
{
    // The contract alone names the flags.
    let _ = flags;
    match known.get(key) {
        Some(pages) => pages.as_slice(),
        None => &[],
    }
}
