//! The names of entries apart from the entries that have them.
ghost use Rattle.std.specs.Prelude.{◌≡◌, ◌<◌, length, slice_get, IfOk, Some};
ghost use Rattle.std.specs.Bool.{OnTrue};
ghost use Rattle.bucket_core.specs.Rule.{AreNamed, all_named, names_view};
ghost use Rattle.rule_text.specs.Lent.{lent_view};
ghost use Rattle.rule_text.specs.Names.{IsPlaced};

use crate::lent::LentEntry;
use murmur_core::hash;
use std::alloc::{AllocError, Global};

/// How many names are remembered at most, each at the slot that its hash says. A name that met another at its slot is copied
/// again, as are some of those beyond so many.
const MOST_SLOTS: usize = 1 << 16;

/// The names of the entries, and the entries by their places. Cost: the hash of each name, 16 bytes for each entry, and a copy of
/// each name, mostly one however many entries have it.
pub(crate) fn numbered(
    alloc: Global,
    entries: Vec<LentEntry<'_>>,
) -> Result<(Vec<String>, Vec<(usize, u64)>), AllocError>
    ensures named { IfOk result (λ r. AreNamed (names_view r.0.items) r.1.items) }
    ensures same { IfOk result (λ r. all_named (names_view r.0.items) r.1.items ≡ lent_view entries.entry.items) }
{
    let mut names = Vec::new(alloc);
    let mut slots = vec![in alloc; 0usize; entries.len().clamp(1, MOST_SLOTS)]?;
    let mut places = Vec::with_capacity(alloc, entries.len())?;
    for (name, weight) in entries {
        let place = place_of(alloc, &mut names, slots.as_mut_slice(), name)?;
        places.push((place, weight))?;
    }
    Ok((names, places))
}

/// The place of a name, which becomes the last one where the name at its slot is another.
fn place_of(
    alloc: Global,
    names: &mut Vec<String>,
    slots: &mut [usize],
    name: &str,
) -> Result<usize, AllocError>
    requires { 0 < length slots.now }
    ensures placed { IfOk result (IsPlaced (names_view names.old.items) (names_view names.new.items) name.now) }
    ensures slots { length slots.new ≡ length slots.old }
{
    let slot = hash(name.as_bytes(), 0) as usize % slots.len();
    let place = slots[slot];
    if is_at(names.as_slice(), place, name) {
        return Ok(place);
    }
    let place = names.len();
    names.push(String::from_str(alloc, name)?)?;
    slots[slot] = place;
    Ok(place)
}

/// Whether the name stands at the place.
fn is_at(names: &[String], place: usize, name: &str) -> bool
    ensures { OnTrue result (slice_get (names_view names.now) place ≡ Some name.now) }
{
    match names.get(place) {
        Some(found) => found.as_str() == name,
        None => false,
    }
}
