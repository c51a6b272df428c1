//! Sources by priority, and their merge. That two documents are too large together is tested on the command `serve`.
use flag_defs::{DefFault, print_flags};
use source_merge::{SourceFault, Sources};
use std::alloc::Global;

const BASE: &[u8] =
    b"{\"flags\":{\"color\":{\"state\":\"ENABLED\",\"variants\":{\"red\":\"r\",\"blue\":\"b\",\"green\":\"g\"},\"defaultVariant\":\"red\",\"targeting\":{\"fractional\":[{\"var\":\"key\"},[\"red\",5],[\"blue\",5]]}}}}";

const BASE_PRINTED: &[u8] =
    b"{\"flags\":{\"color\":{\"defaultVariant\":\"red\",\"state\":\"ENABLED\",\"targeting\":{\"fractional\":[{\"var\":[\"key\"]},[\"red\",5],[\"blue\",5]]},\"variants\":{\"blue\":\"b\",\"green\":\"g\",\"red\":\"r\"}}}}";

const TEAM: &[u8] = b"{\"flags\":{\"color\":{\"state\":\"DISABLED\",\"variants\":{\"x\":\"y\"}}}}";

const TEAM_PRINTED: &[u8] =
    b"{\"flags\":{\"color\":{\"state\":\"DISABLED\",\"variants\":{\"x\":\"y\"}}}}";

const BROKEN: &[u8] = b"{\"flags\":{\"color\":{},\"other\":{}}}";

const NOTHING: &[u8] = b"{\"flags\":{}}";

/// What is done with sources, in a table.
#[derive(Drop)]
enum Call {
    Add(&'static str),
    Set(&'static str, &'static [u8]),
    Clear(&'static str),
}

/// A call, its fault, and what the merge is printed as behind it.
type Row = (Call, Option<SourceFault>, &'static [u8]);

/// Does it, and tells its fault.
fn fault(alloc: Global, sources: &mut Sources, call: &Call) -> Option<SourceFault> {
    match call {
        Call::Add(name) => sources.add(alloc, name).err(),
        Call::Set(name, bytes) => sources.set(alloc, name, bytes).err(),
        Call::Clear(name) => sources.clear(name).err(),
    }
}

/// Whether the merge is printed so.
fn is_merged(alloc: Global, sources: &Sources, want: &[u8]) -> bool {
    match sources.merged(alloc) {
        Ok(flags) => match print_flags(alloc, &flags) {
            Ok(text) => text.as_slice() == want,
            Err(_) => false,
        },
        Err(_) => false,
    }
}

/// Whether each row is as it says, of calls on sources that are new.
fn are_told(alloc: Global, rows: &[Row]) -> bool {
    let mut sources = Sources::new(alloc);
    for (call, want, merged) in rows {
        if fault(alloc, &mut sources, call) != *want || !is_merged(alloc, &sources, merged) {
            return false;
        }
    }
    true
}

const HIDDEN: &[Row] = &[
    (Call::Add("base"), None, NOTHING),
    (Call::Add("team"), None, NOTHING),
    (Call::Set("base", BASE), None, BASE_PRINTED),
    (Call::Set("team", TEAM), None, TEAM_PRINTED),
    (
        Call::Set("team", b"{\"flags\":[]}"),
        Some(SourceFault::Refused(DefFault::NoFlags)),
        TEAM_PRINTED,
    ),
    (Call::Clear("team"), None, BASE_PRINTED),
    (Call::Add("base"), Some(SourceFault::Known), BASE_PRINTED),
    (
        Call::Clear("none"),
        Some(SourceFault::Unknown),
        BASE_PRINTED,
    ),
    (
        Call::Set("none", BASE),
        Some(SourceFault::Unknown),
        BASE_PRINTED,
    ),
];

#[test]
fn the_latest_source_hides_the_others(rt: HostRuntime) {
    assert!(rt; are_told(rt.alloc(), HIDDEN));
}

const ORDERED: &[Row] = &[
    (Call::Add("base"), None, NOTHING),
    (Call::Add("team"), None, NOTHING),
    (Call::Set("team", TEAM), None, TEAM_PRINTED),
    (Call::Clear("base"), None, TEAM_PRINTED),
    (Call::Set("base", BASE), None, TEAM_PRINTED),
    (Call::Set("team", BROKEN), None, BROKEN),
];

#[test]
fn sources_keep_their_order(rt: HostRuntime) {
    assert!(rt; are_told(rt.alloc(), ORDERED));
}

const SIXTEEN: &[Row] = &[
    (Call::Add("0"), None, NOTHING),
    (Call::Add("1"), None, NOTHING),
    (Call::Add("2"), None, NOTHING),
    (Call::Add("3"), None, NOTHING),
    (Call::Add("4"), None, NOTHING),
    (Call::Add("5"), None, NOTHING),
    (Call::Add("6"), None, NOTHING),
    (Call::Add("7"), None, NOTHING),
    (Call::Add("8"), None, NOTHING),
    (Call::Add("9"), None, NOTHING),
    (Call::Add("10"), None, NOTHING),
    (Call::Add("11"), None, NOTHING),
    (Call::Add("12"), None, NOTHING),
    (Call::Add("13"), None, NOTHING),
    (Call::Add("14"), None, NOTHING),
    (Call::Add("15"), None, NOTHING),
    (Call::Add("15"), Some(SourceFault::Known), NOTHING),
    (Call::Add("16"), Some(SourceFault::TooMany), NOTHING),
];

#[test]
fn at_most_16_sources(rt: HostRuntime) {
    assert!(rt; are_told(rt.alloc(), SIXTEEN));
}
