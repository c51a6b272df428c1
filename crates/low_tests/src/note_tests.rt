//! Note lines, and what is tallied of them.
use crate::rows::each;
use book_core::Page;
use note_lines::{hashed_line, note_line, read_hashed_note, read_note};
use note_tallies::{LineTally, PageTally, join, join_all};
use std::alloc::{AllocError, Global};
use std::sync::Arc;
use std::test::Fail;

/// A line without its line feed, with it.
fn ended(alloc: Global, line: &str) -> Result<Vec<u8>, AllocError> {
    let mut line = String::from_str(alloc, line)?.into_bytes();
    line.push(b'\n')?;
    Ok(line)
}

/// The input of the note whose line this is, where it is printed so again.
fn input_of(alloc: Global, line: &str) -> Option<Arc<String>> {
    let line = ended(alloc, line).ok()?;
    let note = read_note(alloc, line.as_slice()).ok()??;
    let again = note_line(alloc, &note.page, note.input.as_str()).ok()?;
    if again.as_slice() == line.as_slice() {
        Some(note.input)
    } else {
        None
    }
}

/// Whether this is the line of a note of this input, or of no note.
fn notes(alloc: Global, line: &str, want: &str) -> bool {
    match input_of(alloc, line) {
        Some(input) => input.as_str() == want,
        None => want == "none",
    }
}

const LINES: &str = r#"["color",0,null,"test"] -> test
["color",4294967295,"{\"var\":[\"email\"]}","x"] -> x
["a\"b",1,null,"/é"] -> /é
["color",4294967296,null,"test"] -> none
["color",0, null,"test"] -> none
["color",0,null,"\u0074est"] -> none
["color",0,null,"test",1] -> none
["color",0,null] -> none
{"flag":"color"} -> none"#;

#[test]
fn lines_of_notes(rt: HostRuntime) -> Result<(), Fail> {
    each(rt.alloc(), LINES, notes)
}

/// The hash of the note without input whose line this is, where it is printed so again.
fn hash_of(alloc: Global, line: &str) -> Option<u32> {
    let line = ended(alloc, line).ok()?;
    let note = read_hashed_note(alloc, line.as_slice()).ok()??;
    let again = hashed_line(alloc, &note.page, note.hash).ok()?;
    if again.as_slice() == line.as_slice() {
        Some(note.hash)
    } else {
        None
    }
}

/// Whether this is the line of this hash, or of none.
fn has_hash(alloc: Global, line: &str, want: &str) -> bool {
    match (hash_of(alloc, line), want.parse::<u32>()) {
        (Some(hash), Ok(number)) => hash == number,
        (None, Err(_)) => want == "none",
        _ => false,
    }
}

const HASHED: &str = r#"["color",0,null,3127628307] -> 3127628307
["color",4294967295,"{\"var\":[\"email\"]}",0] -> 0
["color",0,null,4294967295] -> 4294967295
["color",0,null,4294967296] -> none
["color",0,null,-1] -> none
["color",0,null,00] -> none
["color",0,null, 1] -> none
["color",0,null,1.0] -> none
["color",0,null,"test"] -> none
["color",0,null,1,1] -> none
["color",0,null] -> none"#;

#[test]
fn lines_of_hashes(rt: HostRuntime) -> Result<(), Fail> {
    each(rt.alloc(), HASHED, has_hash)
}

/// The tally of lines without their line feeds, on the page of a flag without a name, at ten points.
fn tallied(alloc: Global, lines: &str) -> Option<PageTally> {
    let page = Page {
        flag: String::new(alloc),
        site: 0,
        by: None,
    };
    let mut tally = LineTally::new(alloc, page, 10).ok()?;
    for line in lines.lines() {
        let line = ended(alloc, line).ok()?;
        tally.take(alloc, line.as_slice()).ok()?;
    }
    Some(tally.finish())
}

/// Inputs on the points 4, 6, 4 and 0, after one of another page.
const FRONT: &str = r#"["",0,"x","!"]
["",0,null,"!"]
["",0,null,"!C"]
["",0,null,"!Ce"]
["",0,null,""]"#;

/// An input on the point 9.
const MIDDLE: &str = r#"["",0,null,"=a"]"#;

/// Inputs on the points 7, 1 and 7, before one of another page.
const BACK: &str = r#"["",0,null,"Hello, world!"]
["",0,null,"The quick brown fox jumps over the lazy dog"]
["",0,null,"test"]
["",1,null,"test"]"#;

/// Hashes on the points 0, 7 and 9, with one of another page.
const HASHES: &str = r#"["",0,null,0]
["",0,null,3127628307]
["",0,null,4294967295]
["",1,null,1]"#;

/// An input, and then a hash.
const BOTH: &str = r#"["",0,null,"test"]
["",1,null,1]"#;

/// The counts of lines in two parts, joined; none where a line or the join is refused.
fn counts(alloc: Global, one: &str, other: &str) -> Option<Vec<u32>> {
    let (one, other) = (tallied(alloc, one)?, tallied(alloc, other)?);
    Some(join(one, other).ok()?.counts)
}

#[test]
fn parts_are_joined(rt: HostRuntime) -> Result<(), Fail> {
    let alloc = rt.alloc();
    let Some(counts) = counts(alloc, FRONT, BACK) else {
        return Err("the parts are joined")?;
    };
    assert!(rt; counts.as_slice() == [1, 1, 0, 0, 2, 0, 1, 2, 0, 0].as_slice());
    Ok(())
}

/// The counts of lines in parts, joined at once; none where a line or the join is refused.
fn counts_of_all(alloc: Global, first: &str, others: &[&str]) -> Option<Vec<u32>> {
    let mut tallies = Vec::new(alloc);
    for lines in others {
        tallies.push(tallied(alloc, lines)?).ok()?;
    }
    Some(join_all(tallied(alloc, first)?, tallies).ok()?.counts)
}

/// Whether the parts, joined at once, have these counts.
fn all_count(alloc: Global, first: &str, others: &[&str], want: &[u32]) -> bool {
    match counts_of_all(alloc, first, others) {
        Some(counts) => counts.as_slice() == want,
        None => want.is_empty(),
    }
}

/// The first part, the others, and their counts; none where they don't follow one another.
const PARTS: &[(&str, &[&str], &[u32])] = &[
    (FRONT, &[], &[1, 0, 0, 0, 2, 0, 1, 0, 0, 0]),
    (
        "",
        &["", FRONT, "", MIDDLE, BACK],
        &[1, 1, 0, 0, 2, 0, 1, 2, 0, 1],
    ),
    (FRONT, &[BACK, MIDDLE], &[]),
    (MIDDLE, &[MIDDLE], &[]),
    ("", &[HASHES, ""], &[1, 0, 0, 0, 0, 0, 0, 1, 0, 1]),
    (MIDDLE, &[HASHES], &[]),
    (BOTH, &[], &[]),
];

#[test]
fn any_number_of_parts_is_joined(rt: HostRuntime) -> Result<(), Fail> {
    let alloc = rt.alloc();
    let mut all = true;
    for (first, others, want) in PARTS {
        all &= all_count(alloc, first, others, want);
    }
    assert!(rt; all);
    Ok(())
}
