//! The flags of a document, token by token: which of their keys, and of the members of their definitions, stand more than once,
//! and whether each of these members is read.
ghost use Rattle.std.specs.Prelude.{◌≡◌, ◌<◌, ◌||◌, ◌&&◌, ℕ, List, length, is_some, None, Some, Err, IfOk, OnOk};
ghost use Rattle.std.specs.BTreeMap.{get_by_text};
ghost use Rattle.std.specs.Str.{bytes_eq};
ghost use Rattle.json.specs.Json.{object, members, value};
ghost use Rattle.member_names.specs.Passed.{Passes};
ghost use Rattle.flag_doubts.specs.FoundFlags.{FindsIn};

use crate::definition::in_definition;
use crate::doubled::doubled_among;
use json::Reader;
use member_names::{Next, Stop, begin};
use std::alloc::{AllocError, Global};
use std::collections::BTreeMap;

/// What is found of flags.
#[derive(Drop)]
pub(crate) struct RepeatedFlags {
    /// The keys, each once and in the order of their bytes.
    pub(crate) keys: Vec<String>,
    /// For the key of each flag in whose definition a member does, the place of such a member.
    pub(crate) definitions: BTreeMap<String, String>,
    /// Whether each member of their definitions is read.
    pub(crate) all_read: bool,
}

/// Nothing.
pub(crate) fn none(alloc: Global) -> RepeatedFlags
    ensures { FindsIn None result }
{
    RepeatedFlags {
        keys: Vec::new(alloc),
        definitions: BTreeMap::new(alloc),
        all_read: true,
    }
}

/// Passes the next value, which is that of a member `flags`.
pub(crate) fn in_flags<'a>(
    alloc: Global,
    reader: &mut Reader<'a>,
    depth: usize,
    names: &mut Vec<&'a str>,
) -> Result<RepeatedFlags, Stop>
    ensures ok { IfOk result (λ r. Passes (value depth) reader.old reader.new (λ j. FindsIn (Some j) r)) }
    ensures shorter { OnOk result (length reader.new < length reader.old) }
    ensures names { OnOk result (names.new.items ≡ names.old.items) }
    ensures err { result ≡ Err Stop.Invalid → value depth reader.old ≡ None }
{
    match begin(alloc, reader, depth, names)? {
        Next::Object => in_definitions(alloc, reader, depth - 1, names),
        Next::Other(_) => Ok(none(alloc)),
    }
}

/// Passes the keys and definitions of flags, and their end.
fn in_definitions<'a>(
    alloc: Global,
    reader: &mut Reader<'a>,
    depth: usize,
    names: &mut Vec<&'a str>,
) -> Result<RepeatedFlags, Stop>
    ensures ok { IfOk result (λ r. Passes (members (value depth) (length reader.old)) reader.old reader.new (λ ms. FindsIn (Some (object ms)) r)) }
    ensures shorter { OnOk result (length reader.new < length reader.old) }
    ensures names { OnOk result (names.new.items ≡ names.old.items) }
    ensures err { result ≡ Err Stop.Invalid → members (value depth) (length reader.old) reader.old ≡ None }
{
    let outer = names.len();
    let mut definitions = BTreeMap::new(alloc);
    let mut all_read = true;
    'members: while let Some(key) = reader.next_key().or(Err(Stop::Invalid))? {
        names.push(key)?;
        let found = in_definition(alloc, reader, depth, names)?;
        all_read &= found.all_read;
        note(alloc, &mut definitions, key, found.place)?;
    }
    let keys = doubled_among(alloc, &names[outer..])?;
    names.truncate(outer);
    Ok(RepeatedFlags {
        keys,
        definitions,
        all_read,
    })
}

/// Keeps the place of a flag, where there is one.
fn note(
    alloc: Global,
    places: &mut BTreeMap<String, String>,
    key: &str,
    place: Option<String>,
) -> Result<(), AllocError>
    ensures { OnOk result ((k : List ℕ) → is_some (get_by_text places.new k) ≡ (is_some (get_by_text places.old k) || (bytes_eq key.now k && is_some place))) }
{
    if let Some(place) = place {
        places.insert(String::from_str(alloc, key)?, place)?;
    }
    Ok(())
}
