//! A service and its events.
use book_core::{Noted, Page};
use flag_defs::print_flags;
use snap_core::{Answer, Event, Refusal, SubId, World, run_events};
use std::alloc::{AllocError, Global};

/// What a service is asked, in a table.
#[derive(Drop)]
enum Asked {
    Set(&'static [u8]),
    Clear(&'static str),
    Publish,
    Join,
    Take(u64),
    Leave(u64),
    Note(u32),
    Seal,
}

/// What is asked, and the answer in two words.
type Row = (Asked, &'static str, u64);

/// An answer in two words: which it is, and its number.
fn told(answer: &Answer) -> (&'static str, u64) {
    match answer {
        Answer::Done => ("done", 0),
        Answer::Published(number) => ("published", *number),
        Answer::Joined(sub) => ("joined", sub.0),
        Answer::Taken(Some(snapshot)) => ("taken", snapshot.number),
        Answer::Taken(None) => ("nothing", 0),
        Answer::Noted(Noted::New) => ("new", 0),
        Answer::Noted(Noted::Again) => ("again", 0),
        Answer::Sealed(inputs) => (if *inputs == 1 { "one input" } else { "sealed" }, 0),
        Answer::Refused(Refusal::Source(fault)) => ("source", fault.number() as u64),
        Answer::Refused(Refusal::Hub(fault)) => ("hub", fault.number() as u64),
        Answer::Refused(Refusal::Book(fault)) => ("book", fault.number() as u64),
        Answer::Refused(Refusal::AlreadySealed) => ("already sealed", 0),
    }
}

/// The note of the input `a` by a seat.
fn note(alloc: Global, seat: u32) -> Result<Event, AllocError> {
    let input = String::from_str(alloc, "a")?;
    let page = Page {
        flag: String::new(alloc),
        site: 0,
        by: None,
    };
    Ok(Event::Note { seat, page, input })
}

/// A document for the source `base`.
fn set(alloc: Global, bytes: &[u8]) -> Result<Event, AllocError> {
    let source = String::from_str(alloc, "base")?;
    let bytes = bytes.to_vec(alloc)?;
    Ok(Event::SetSource { source, bytes })
}

fn event(alloc: Global, asked: &Asked) -> Result<Event, AllocError> {
    match asked {
        Asked::Set(bytes) => set(alloc, bytes),
        Asked::Clear(source) => match String::from_str(alloc, source) {
            Ok(source) => Ok(Event::ClearSource { source }),
            Err(want) => Err(want),
        },
        Asked::Publish => Ok(Event::Publish),
        Asked::Join => Ok(Event::Join),
        Asked::Take(sub) => Ok(Event::Take { sub: SubId(*sub) }),
        Asked::Leave(sub) => Ok(Event::Leave { sub: SubId(*sub) }),
        Asked::Note(seat) => note(alloc, *seat),
        Asked::Seal => Ok(Event::Seal),
    }
}

/// Whether a service answers so.
fn answers(alloc: Global, world: &mut World, asked: &Asked, want: (&str, u64)) -> bool {
    match event(alloc, asked) {
        Ok(event) => match run_events(alloc, world, &[event]) {
            Ok(answers) => answers.len() == 1 && told(&answers[0]) == want,
            Err(_) => false,
        },
        Err(AllocError) => false,
    }
}

/// Whether a service answers each event as its row says.
fn are_answered(alloc: Global, world: &mut World, rows: &[Row]) -> bool {
    for (asked, word, number) in rows {
        if !answers(alloc, world, asked, (word, *number)) {
            return false;
        }
    }
    true
}

const DAY: &[Row] = &[
    (Asked::Publish, "published", 1),
    (Asked::Join, "joined", 0),
    (Asked::Take(0), "taken", 1),
    (Asked::Take(0), "nothing", 0),
    (Asked::Publish, "published", 2),
    (Asked::Publish, "published", 3),
    (Asked::Take(0), "taken", 3),
    (Asked::Take(9), "hub", 3),
    (Asked::Note(0), "new", 0),
    (Asked::Note(1), "again", 0),
    (Asked::Note(2), "book", 4),
    (Asked::Seal, "one input", 0),
    (Asked::Note(0), "already sealed", 0),
    (Asked::Leave(0), "done", 0),
    (Asked::Take(0), "hub", 3),
    (Asked::Join, "joined", 1),
    (Asked::Seal, "already sealed", 0),
];

#[test]
fn a_day_of_a_service(rt: HostRuntime) {
    assert!(rt;
        match World::new(rt.alloc(), &[], 2) {
            Ok(mut world) => are_answered(rt.alloc(), &mut world, DAY),
            Err(_) => false,
        }
    );
}

const ONE_FLAG: &[u8] = b"{\"flags\":{\"a\":{}}}";

const SOURCES: &[Row] = &[
    (Asked::Set(ONE_FLAG), "done", 0),
    (Asked::Set(b"{"), "source", 4),
    (Asked::Clear("none"), "source", 3),
    (Asked::Publish, "published", 1),
    (Asked::Join, "joined", 0),
];

/// Whether the first subscriber takes flags that are printed so.
fn takes(alloc: Global, world: &mut World, want: &[u8]) -> bool {
    match run_events(alloc, world, &[Event::Take { sub: SubId(0) }]) {
        Ok(answers) => match answers.as_slice() {
            [Answer::Taken(Some(snapshot))] => {
                print_flags(alloc, &snapshot.flags).is_ok_and(|text| text.as_slice() == want)
            }
            _ => false,
        },
        Err(_) => false,
    }
}

/// Names between blanks.
fn names(alloc: Global, text: &str) -> Result<Vec<String>, AllocError> {
    let mut names = Vec::new(alloc);
    for name in text.split_ascii_whitespace() {
        names.push(String::from_str(alloc, name)?)?;
    }
    Ok(names)
}

/// A service with sources of these names, or the name of the refusal.
fn opened(alloc: Global, sources: &str, seats: u32) -> Result<World, &'static str> {
    match names(alloc, sources) {
        Ok(names) => match World::new(alloc, names.as_slice(), seats) {
            Ok(world) => Ok(world),
            Err(fault) => Err(fault.name()),
        },
        Err(AllocError) => Err("no names"),
    }
}

#[test]
fn sources_are_published(rt: HostRuntime) {
    let alloc = rt.alloc();
    assert!(rt;
        match opened(alloc, "base", 1) {
            Ok(mut world) => {
                are_answered(alloc, &mut world, SOURCES) && takes(alloc, &mut world, ONE_FLAG)
            }
            Err(_) => false,
        }
    );
}

/// Whether 256 subscribers join, and no other.
fn are_joined(alloc: Global, world: &mut World) -> bool {
    for sub in 0..256 {
        if !answers(alloc, world, &Asked::Join, ("joined", sub)) {
            return false;
        }
    }
    answers(alloc, world, &Asked::Join, ("hub", 2))
}

#[test]
fn at_most_256_subscribers(rt: HostRuntime) {
    assert!(rt;
        match World::new(rt.alloc(), &[], 1) {
            Ok(mut world) => are_joined(rt.alloc(), &mut world),
            Err(_) => false,
        }
    );
}

/// The names of the sources, a number of seats, and the refusal.
const SERVICES: &[(&str, u32, &str)] = &[
    ("", 0, "NoSeats"),
    ("", 1, "none"),
    ("", 64, "none"),
    ("", 65, "TooManySeats"),
    ("0 1 2 3 4 5 6 7 8 9 10 11 12 13 14 15 16", 0, "TooMany"),
    ("0 1 2 3 4 5 6 7 8 9 10 11 12 13 14 15 16 3", 0, "Known"),
];

#[test]
fn services_that_do_not_open(rt: HostRuntime) {
    for (sources, seats, want) in SERVICES {
        assert!(rt;
            opened(rt.alloc(), sources, *seats).err().unwrap_or("none") == *want,
            "{want} of {seats} seats"
        );
    }
}
