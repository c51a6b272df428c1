//! The lines of a book file, one after another.
use crate::rows::each;
use book_core::Page;
use page_tally::{Line, first_line, next_page};
use std::alloc::{AllocError, Global};
use std::test::Fail;

/// Whether this is the line of this input, or of none.
fn has_input(line: &Line<'_>, want: &str) -> bool {
    match line.input() {
        Some(input) => input == want.as_bytes(),
        None => want == "none",
    }
}

/// Whether the line that stands first has this input, or none, and the other line is left.
fn adds(alloc: Global, line: &str, want: &str) -> bool {
    match lines(alloc, line) {
        Ok(bytes) => match first_line(alloc, bytes.as_slice()) {
            Ok(Some((line, rest))) => has_input(&line, want) && rest == b"\"other\"\n".as_slice(),
            _ => false,
        },
        Err(_) => false,
    }
}

/// A line and another.
fn lines(alloc: Global, line: &str) -> Result<Vec<u8>, AllocError> {
    let lines = format!(in alloc; "{line}\n\"other\"\n")?;
    Ok(lines.into_bytes())
}

const LINES: &str = r#""test" -> test
"a\"b" -> a"b
"t\u0065st" -> test
{"flag":"color","site":0} -> none
{"book":1} -> none
12 -> none"#;

#[test]
fn lines_of_inputs(rt: HostRuntime) -> Result<(), Fail> {
    each(rt.alloc(), LINES, adds)
}

/// Two pages, the second one without inputs.
const FILE: &[u8] = b"{\"book\":1}
{\"by\":null,\"flag\":\"color\",\"site\":0}
\"test\"
{\"by\":null,\"flag\":\"shape\",\"site\":2}
";

/// The first two pages, where there is no third.
fn pages(alloc: Global) -> Option<(Page, Page)> {
    let (one, rest) = next_page(alloc, FILE).ok()??;
    let (two, rest) = next_page(alloc, rest).ok()??;
    match next_page(alloc, rest) {
        Ok(None) => Some((one, two)),
        _ => None,
    }
}

/// Whether these are the pages of the file.
fn are_read(alloc: Global) -> bool {
    match pages(alloc) {
        Some((one, two)) => {
            one.flag.as_str() == "color"
                && one.site == 0
                && two.flag.as_str() == "shape"
                && two.site == 2
        }
        None => false,
    }
}

#[test]
fn pages_of_a_file(rt: HostRuntime) {
    assert!(rt; are_read(rt.alloc()));
}
