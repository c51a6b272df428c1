//! Seats of a shared book: what they are told, and how the book ends.
ghost use Rattle.std.specs.Prelude.{◌≡◌};

use book_core::{BookFault, Noted, Page};
use book_lock::{Blanks, BookName, SealFault, SealRefused, Seat, SharedBook, seal};
use std::alloc::Global;
use std::marker::Brand;
use std::process::Abort;
use std::sync::Wait;
use std::test::Fail;
use std::thread::Threads;

/// The name of the refusal of blanks for so many seats, `none` where there are any.
fn refusal(alloc: Global, seats: usize) -> &'static str {
    match Blanks::new(alloc, seats) {
        Ok(_) => "none",
        Err(fault) => fault.name(),
    }
}

/// Numbers of seats, and the refusal.
const SEATS: &[(usize, &str)] = &[
    (0, "NoSeats"),
    (1, "none"),
    (64, "none"),
    (65, "TooManySeats"),
];

#[test]
fn numbers_of_seats(rt: HostRuntime) {
    for (seats, want) in SEATS {
        assert!(rt; refusal(rt.alloc(), *seats) == *want, "{seats} seats");
    }
}

/// Whether the book with these seats and one more is sealed, and has so many inputs.
fn seals<L: BookName>(
    book: SharedBook<L>,
    seats: Vec<Seat<L>>,
    seat: Seat<L>,
    inputs: u128,
) -> bool {
    let mut seats = seats;
    if seats.push(seat).is_err() {
        return false;
    }
    match seal(book, seats) {
        Ok(sealed) => sealed.inputs() == inputs,
        Err(_) => false,
    }
}

#[test]
fn two_seats(rt: HostRuntime) -> Result<(), Fail> {
    let alloc = rt.alloc();
    let blanks = Blanks::new(alloc, 2)?;
    assert!(rt; told_to_two::<Brand, _>(&rt, alloc, blanks));
    Ok(())
}

/// Whether two seats are told what they should be, and the book is sealed once both are back.
fn told_to_two<L: BookName + Send + Sync, R: Threads + Wait + Abort + Sync>(
    rt: &R,
    alloc: Global,
    blanks: Blanks,
) -> bool
    requires { (blanks.table ≡ L.table) × (blanks.seats ≡ L.seats) }
{
    let Ok((book, mut seats)) = SharedBook::<L>::new(alloc, blanks) else {
        return false;
    };
    let Some(mut second) = seats.pop() else {
        return false;
    };
    let Some(mut first) = seats.pop() else {
        return false;
    };
    are_told(rt, alloc, &book, &mut first, &mut second)
        && lacks_the_second(book, seats, first, second)
}

/// Whether an input is new from the one seat, and known from the other, and stands alone on its page.
fn are_told<L: BookName, R: Wait>(
    rt: &R,
    alloc: Global,
    book: &SharedBook<L>,
    first: &mut Seat<L>,
    second: &mut Seat<L>,
) -> bool {
    let page = page(alloc);
    book.note(rt, alloc, first, &page, "a") == Ok(Noted::New)
        && book.note(rt, alloc, second, &page, "a") == Ok(Noted::Again)
        && is_frozen(rt, alloc, book, second, &page)
        && first.calls() == 1
        && first.news() == 1
        && second.calls() == 1
        && second.news() == 0
}

fn page(alloc: Global) -> Page {
    Page {
        flag: String::new(alloc),
        site: 0,
        by: None,
    }
}

/// Whether the page that the seat freezes has the input `a` alone.
fn is_frozen<L: BookName, R: Wait>(
    rt: &R,
    alloc: Global,
    book: &SharedBook<L>,
    seat: &mut Seat<L>,
    page: &Page,
) -> bool {
    match book.freeze(rt, alloc, seat, page) {
        Ok(frozen) => frozen.inputs().len() == 1 && frozen.inputs()[0].as_str() == "a",
        Err(_) => false,
    }
}

/// Whether the book is not sealed with the first seat alone, and is sealed with both.
fn lacks_the_second<L: BookName>(
    book: SharedBook<L>,
    seats: Vec<Seat<L>>,
    first: Seat<L>,
    second: Seat<L>,
) -> bool {
    let mut seats = seats;
    if seats.push(first).is_err() {
        return false;
    }
    match seal(book, seats) {
        Ok(_) => false,
        Err(refused) => {
            let SealRefused { fault, book, seats } = refused;
            let is_missing = fault == SealFault::SeatMissing
                && fault.number() == 1
                && seats.len() == 1;
            is_missing && seals(book, seats, second, 1)
        }
    }
}

#[test]
fn limits(rt: HostRuntime) -> Result<(), Fail> {
    let alloc = rt.alloc();
    let blanks = Blanks::new(alloc, 1)?;
    assert!(rt; full_page::<Brand, _>(&rt, alloc, blanks));
    Ok(())
}

/// Whether the book of one seat takes a full page, and is sealed with it.
fn full_page<L: BookName + Send + Sync, R: Wait + Abort>(
    rt: &R,
    alloc: Global,
    blanks: Blanks,
) -> bool
    requires { (blanks.table ≡ L.table) × (blanks.seats ≡ L.seats) }
{
    let Ok((book, mut seats)) = SharedBook::<L>::new(alloc, blanks) else {
        return false;
    };
    let Some(mut seat) = seats.pop() else {
        return false;
    };
    is_filled(rt, alloc, &book, &mut seat) && seals(book, seats, seat, 1_000_000)
}

/// Whether a page takes the longest input and 999,999 more, no longer one and no other one.
fn is_filled<L: BookName, R: Wait>(
    rt: &R,
    alloc: Global,
    book: &SharedBook<L>,
    seat: &mut Seat<L>,
) -> bool {
    let page = page(alloc);
    noted(rt, alloc, book, seat, &page, 1024) == Ok(Noted::New)
        && noted(rt, alloc, book, seat, &page, 1025) == Err(BookFault::InputTooLong)
        && are_new(rt, alloc, book, seat, &page)
        && book.note(rt, alloc, seat, &page, "1000000") == Err(BookFault::PageFull)
        && book.note(rt, alloc, seat, &page, "999999") == Ok(Noted::Again)
        && seat.calls() == 1_000_001
        && seat.news() == 1_000_000
}

/// What the note of an input of so many bytes is answered.
fn noted<L: BookName, R: Wait>(
    rt: &R,
    alloc: Global,
    book: &SharedBook<L>,
    seat: &mut Seat<L>,
    page: &Page,
    bytes: usize,
) -> Result<Noted, BookFault> {
    let input = "a".repeat(alloc, bytes)?;
    book.note(rt, alloc, seat, page, input.as_str())
}

/// Whether each number from 1 to 999,999 is new to the page.
fn are_new<L: BookName, R: Wait>(
    rt: &R,
    alloc: Global,
    book: &SharedBook<L>,
    seat: &mut Seat<L>,
    page: &Page,
) -> bool {
    for i in 1..1_000_000 {
        let Ok(input) = format!(in alloc; "{i}") else {
            return false;
        };
        if book.note(rt, alloc, seat, page, input.as_str()) != Ok(Noted::New) {
            return false;
        }
    }
    true
}
