//! One definition of a document, token by token: what stands more than once in it, and whether each member of it is read.
ghost use Rattle.std.specs.Prelude.{◌≡◌, ◌<◌, length, map, None, Err, IfOk, OnOk};
ghost use Rattle.std.specs.List.{list_all};
ghost use Rattle.json.specs.Json.{object, members, value};
ghost use Rattle.member_names.specs.Unread.{reads};
ghost use Rattle.member_names.specs.Passed.{Passes};
ghost use Rattle.flag_doubts.specs.FoundFlags.{FindsDefinition};

use json::Reader;
use member_names::{Next, Reader as Taker, Stop, begin, twin_or, with_members};
use std::alloc::Global;

/// What is found of a definition.
#[derive(Drop)]
pub(crate) struct FoundDefinition {
    /// The place of a member that stands more than once in it, where there is one.
    pub(crate) place: Option<String>,
    /// Whether each member of it is read.
    pub(crate) all_read: bool,
}

/// Passes the next value, which is that of a flag.
pub(crate) fn in_definition<'a>(
    alloc: Global,
    reader: &mut Reader<'a>,
    depth: usize,
    names: &mut Vec<&'a str>,
) -> Result<FoundDefinition, Stop>
    ensures ok { IfOk result (λ r. Passes (value depth) reader.old reader.new (λ j. FindsDefinition j r)) }
    ensures shorter { OnOk result (length reader.new < length reader.old) }
    ensures names { OnOk result (names.new.items ≡ names.old.items) }
    ensures err { result ≡ Err Stop.Invalid → value depth reader.old ≡ None }
{
    match begin(alloc, reader, depth, names)? {
        Next::Object => in_rules(alloc, reader, depth - 1, names),
        Next::Other(place) => Ok(FoundDefinition {
            place,
            all_read: true,
        }),
    }
}

/// Passes the members of a definition, and its end.
fn in_rules<'a>(
    alloc: Global,
    reader: &mut Reader<'a>,
    depth: usize,
    names: &mut Vec<&'a str>,
) -> Result<FoundDefinition, Stop>
    ensures ok { IfOk result (λ r. Passes (members (value depth) (length reader.old)) reader.old reader.new (λ ms. FindsDefinition (object ms) r)) }
    ensures shorter { OnOk result (length reader.new < length reader.old) }
    ensures names { OnOk result (names.new.items ≡ names.old.items) }
    ensures err { result ≡ Err Stop.Invalid → members (value depth) (length reader.old) reader.old ≡ None }
{
    let outer = names.len();
    let inner = with_members(alloc, reader, depth, names)?;
    let own = &names[outer..];
    let all_read = takes_each(Taker::Definition, own);
    let place = twin_or(alloc, own, inner)?;
    names.truncate(outer);
    Ok(FoundDefinition { place, all_read })
}

/// Whether the reader takes each member of these names.
pub(crate) fn takes_each(taker: Taker, names: &[&str]) -> bool
    ensures { result ≡ list_all (reads taker) (map (λ n. n.now) names.now) }
{
    for name in names {
        if !taker.reads(name) {
            return false;
        }
    }
    true
}
