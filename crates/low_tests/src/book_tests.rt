//! A book that is read and printed, its laws, and the faults of its calls.
use book_core::{Book, BookFault, Page, a_book_is_its_calls, print_book, read_book};
use page_tally::read_tally;
use std::alloc::{AllocError, Global};
use std::test::Fail;
use std::thread::Threads;

const FILE: &[u8] = b"{\"book\":1}
{\"by\":\"{\\\"var\\\":[\\\"key\\\"]}\",\"flag\":\"color\",\"site\":0}
\"\"
\"!\"
\"!C\"
\"!Ce\"
\"Hello, world!\"
\"The quick brown fox jumps over the lazy dog\"
\"test\"
";

/// The page of the file.
fn color(alloc: Global) -> Result<Page, AllocError> {
    let flag = String::from_str(alloc, "color")?;
    let by = String::from_str(alloc, "{\"var\":[\"key\"]}")?;
    Ok(Page {
        flag,
        site: 0,
        by: Some(by),
    })
}

/// Whether a book is printed so.
fn is_printed(alloc: Global, book: &Book, want: &[u8]) -> bool {
    match print_book(alloc, book) {
        Ok(text) => text.as_slice() == want,
        Err(_) => false,
    }
}

/// Whether the file is read as a book that is printed as the file, and has its inputs on this page alone.
fn is_read(alloc: Global, page: &Page) -> bool {
    match read_book(alloc, FILE) {
        Ok(book) => {
            is_printed(alloc, &book, FILE)
                && book.inputs() == 7
                && book.has(page, "!C")
                && !book.has(page, "!CE")
        }
        Err(_) => false,
    }
}

#[test]
fn a_book_reads_as_it_was_printed(rt: HostRuntime) -> Result<(), Fail> {
    let page = color(rt.alloc())?;
    assert!(rt; is_read(rt.alloc(), &page));
    a_book_is_its_calls();
    Ok(())
}

/// How many of the inputs of the file fall on each of ten points.
const COUNTS: &[u32] = &[1, 1, 0, 0, 2, 0, 1, 2, 0, 0];

/// Whether the inputs of the page are counted so in the file.
fn is_counted<R: Threads>(rt: &R, alloc: Global, page: &Page) -> bool {
    match read_tally(rt, alloc, FILE, page, 10) {
        Ok(counts) => counts.as_slice() == COUNTS,
        Err(_) => false,
    }
}

#[test]
fn a_page_is_counted_by_its_points(rt: HostRuntime) -> Result<(), Fail> {
    let page = color(rt.alloc())?;
    assert!(rt; is_counted(&rt, rt.alloc(), &page));
    Ok(())
}

/// A fault of a call, its number and its name.
const FAULTS: &[(BookFault, u32, &str)] = &[
    (BookFault::PageFull, 1, "PageFull"),
    (BookFault::InputTooLong, 2, "InputTooLong"),
    (BookFault::LastCall, 3, "LastCall"),
    (BookFault::Stranger, 4, "Stranger"),
];

#[test]
fn numbers_and_names_of_faults(rt: HostRuntime) {
    for (fault, number, name) in FAULTS {
        assert!(rt;
            fault.number() == *number && fault.name() == *name,
            "{name}"
        );
    }
}
