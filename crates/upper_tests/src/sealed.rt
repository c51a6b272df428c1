//! Plans on what the seats of a shared book were told under threads; and by the commands `drive` and `plan` on the same asks and
//! requests: the same book, rule and cost.
ghost use Rattle.std.specs.Prelude.{◌≡◌, ◌<◌, ◌^◌, length};

use crate::memory::{MemoryFiles, MemoryOutlet};
use crate::posed::{Problem, instance, posed_on};
use crate::seats::{THREADS, told};
use book_core::{Book, print_book};
use book_lock::{Blanks, BookName, SealFault, SealRefused, Seat, SharedBook};
use book_share::{Ask, Driven, OpenGate, drive};
use flag_defs::{Flags, read_flags};
use flagops_commands::Listed;
use flagops_drive::{asks_of, read_asks};
use flagops_shell::{Console, FileSet, run};
use json::Scratch;
use min_cost_flow::Effort;
use product_laws::{PlanRefused, plan_sealed};
use rollout::{RolloutFault, plan, print_planned_line};
use site_pages::{page_at, targeting_of};
use std::alloc::Global;
use std::marker::Brand;
use std::sync::Wait;
use std::sync::ledger::{Blank, Ledger};
use std::test::Fail;
use std::thread::Threads;
use transport_plan::{Solved, solve};

const FLAGS: &[u8] =
    br#"{"flags":{"color":{"state":"ENABLED","variants":{"red":"r","blue":"b","green":"g"},
"defaultVariant":"red","targeting":{"fractional":[{"var":"key"},["red",5],["blue",5]]}}}}"#;

/// Ten asks of seven inputs. The hashes that MurmurHash3 has of them lie on the points 0, 1, 4, 4, 6, 7 and 7 of 10.
const ASKS: &[u8] =
    br#"[{"key":"color","want":"text","default":"d","context":{"key":""},"moment":0},
{"key":"color","want":"text","default":"d","context":{"key":"The quick brown fox jumps over the lazy dog"},"moment":0},
{"key":"color","want":"text","default":"d","context":{"key":"!"},"moment":0},
{"key":"color","want":"text","default":"d","context":{"key":"!Ce"},"moment":0},
{"key":"color","want":"text","default":"d","context":{"key":"!C"},"moment":0},
{"key":"color","want":"text","default":"d","context":{"key":"test"},"moment":0},
{"key":"color","want":"text","default":"d","context":{"key":"Hello, world!"},"moment":0},
{"key":"color","want":"text","default":"d","context":{"key":"test"},"moment":0},
{"key":"color","want":"text","default":"d","context":{"key":"!"},"moment":0},
{"key":"color","want":"text","default":"d","context":{"key":""},"moment":0}]"#;

/// The book of the seven inputs.
const BOOK: &[u8] = b"{\"book\":1}
{\"by\":\"{\\\"var\\\":[\\\"key\\\"]}\",\"flag\":\"color\",\"site\":0}
\"\"
\"!\"
\"!C\"
\"!Ce\"
\"Hello, world!\"
\"The quick brown fox jumps over the lazy dog\"
\"test\"
";

/// A request on red 5, blue 5: its cost where a rule fits, and how the plan file ends, which is the only answer. The points 2 and
/// 3 alone are red and have no input; of the red ones the point 4 has the most, two; and with no way from red to blue five points
/// are red or green, of which three are asked.
const PLANS: &[(&[u8], Option<u64>, &str)] = &[
    (
        br#"{"plan":1,"flag":"color","totals":{"red":3,"blue":7},"price":1}"#,
        Some(0),
        r#""cost":0,"plan":1,"rule":[["red",2],["blue",2],["red",1],["blue",5]]}
"#,
    ),
    (
        br#"{"plan":1,"flag":"color","totals":{"red":1,"blue":9},"price":1}"#,
        Some(2),
        r#""cost":2,"plan":1,"rule":[["blue",4],["red",1],["blue",5]]}
"#,
    ),
    (
        br#"{"plan":1,"flag":"color","totals":{"red":3,"blue":7},"price":1,"forbid":[["red","blue"]]}"#,
        None,
        r#"{"none":["red"],"plan":1}
"#,
    ),
];

/// A request of a flag that the document does not have.
const OF_NO_FLAG: &[u8] = br#"{"plan":1,"flag":"colour","totals":{"red":3,"blue":7},"price":1}"#;

/// Whether the book is that of the seven inputs.
fn is_book(alloc: Global, book: &Book) -> bool {
    match print_book(alloc, book) {
        Ok(text) => text.as_slice() == BOOK,
        Err(_) => false,
    }
}

// ---- by seats

/// What the least rule costs by the solver, nothing where none fits.
fn solved_cost<L: Ledger>(alloc: Global, posed: &Problem, blank: Blank) -> Option<Option<u64>>
    requires name { blank.name ≡ L.name }
    requires parts { blank.parts ≡ L.parts }
    requires two { blank.parts ≡ 2 }
{
    let instance = instance(alloc, posed).ok()?;
    let mut effort = Effort::<L>::none(blank);
    match solve(alloc, &instance, &mut effort).ok()? {
        Solved::Plan(_, certificate) => Some(Some(certificate.cost)),
        Solved::None(_) => Some(None),
    }
}

/// The same of the inputs that a seat freezes.
fn frozen_cost<L: BookName, R: Wait>(
    rt: &R,
    alloc: Global,
    flags: &Flags,
    book: &SharedBook<L>,
    seats: &mut Vec<Seat<L>>,
    request: &[u8],
) -> Option<Option<u64>> {
    let page = page_at(alloc, "color", targeting_of(flags, "color"), 0).ok()?;
    let mut seat = seats.pop()?;
    let frozen = book.freeze(rt, alloc, &mut seat, &page).ok()?;
    seats.push(seat).ok()?;
    let posed = posed_on(alloc, request, frozen)?;
    solved_cost::<Brand>(alloc, &posed, Blank::new(2))
}

/// The plan file of what the seats were told; they plan nothing while one of them is missing.
fn sealed_file<L: BookName, R: Threads + Sync>(
    rt: &R,
    alloc: Global,
    flags: &Flags,
    request: &[u8],
    book: SharedBook<L>,
    seats: Vec<Seat<L>>,
) -> Option<Vec<u8>> {
    let mut seats = seats;
    let last = seats.pop()?;
    let Err(PlanRefused::Seal(refused)) = plan_sealed(rt, alloc, flags, request, book, seats) else {
        return None;
    };
    let SealRefused { fault, book, seats } = refused;
    if fault != SealFault::SeatMissing {
        return None;
    }
    let mut seats = seats;
    seats.push(last).ok()?;
    match plan_sealed(rt, alloc, flags, request, book, seats) {
        Ok(planned) => print_planned_line(alloc, &planned).ok(),
        Err(_) => None,
    }
}

/// The plan file of eight threads, where the solver has that cost on what one of their seats freezes.
fn file_by_seats<L: BookName + Send + Sync, R: Threads + Wait + Sync>(
    rt: &R,
    alloc: Global,
    blanks: Blanks,
    flags: &Flags,
    asks: &[Ask<'_>],
    request: &[u8],
    cost: Option<u64>,
) -> Option<Vec<u8>>
    requires { (blanks.table ≡ L.table) × (blanks.seats ≡ L.seats) }
{
    let (book, mut seats) = told::<L, R>(rt, alloc, blanks, flags, asks)?;
    if frozen_cost(rt, alloc, flags, &book, &mut seats, request)? != cost {
        return None;
    }
    sealed_file(rt, alloc, flags, request, book, seats)
}

/// The book that eight threads sealed, which a refused request hands back.
fn book_by_seats<L: BookName + Send + Sync, R: Threads + Wait + Sync>(
    rt: &R,
    alloc: Global,
    blanks: Blanks,
    flags: &Flags,
    asks: &[Ask<'_>],
) -> Option<Book>
    requires { (blanks.table ≡ L.table) × (blanks.seats ≡ L.seats) }
{
    let (book, seats) = told::<L, R>(rt, alloc, blanks, flags, asks)?;
    match plan_sealed(rt, alloc, flags, OF_NO_FLAG, book, seats) {
        Err(PlanRefused::Plan(RolloutFault::UnknownFlag, book)) => Some(book),
        _ => None,
    }
}

// ---- by the functions beneath the commands

/// The plan file of a book.
fn file_on<R: Threads + Sync>(
    rt: &R,
    alloc: Global,
    flags: &Flags,
    request: &[u8],
    book: &Book,
) -> Option<Vec<u8>> {
    match plan(rt, alloc, flags, request, book) {
        Ok(planned) => print_planned_line(alloc, &planned).ok(),
        Err(_) => None,
    }
}

// ---- by the commands

/// What a command prints over files in memory.
fn printed<R: AllocGlobal + Threads + Wait + Sync>(
    rt: &R,
    files: &mut MemoryFiles,
    words: &[&str],
) -> Option<Vec<u8>> {
    let out = MemoryOutlet::new(rt.alloc(), usize::MAX);
    let err = MemoryOutlet::new(rt.alloc(), usize::MAX);
    let mut console = Console::new(out, err);
    let _status = run::<_, _, _, Listed<'_>, _, _>(rt, words, files, &mut console);
    Vec::from_slice(rt.alloc(), console.out.bytes.as_slice()).ok()
}

/// The plan file of `plan` on the book of `drive`, where that is the one of the seven inputs.
fn file_by_commands<R: AllocGlobal + Threads + Wait + Sync>(
    rt: &R,
    request: &[u8],
) -> Option<Vec<u8>> {
    let alloc = rt.alloc();
    let mut files = MemoryFiles::new(alloc, true);
    files.write(alloc, "flags", FLAGS).ok()?;
    files.write(alloc, "asks", ASKS).ok()?;
    files.write(alloc, "request", request).ok()?;
    let _resolutions = printed(rt, &mut files, &["drive", "flags", "asks", "8", "book"])?;
    let book = files.read(alloc, "book", 10_000).ok()?;
    if book.as_slice() != BOOK {
        return None;
    }
    printed(rt, &mut files, &["plan", "flags", "request", "book"])
}

// ---- all of them

/// The plan file of the seats, where the functions and the commands come to the same, and all to the same book.
fn file_of_all<R: AllocGlobal + Threads + Wait + Sync>(
    rt: &R,
    flags: &Flags,
    asks: &[Ask<'_>],
    request: &[u8],
    cost: Option<u64>,
) -> Option<Vec<u8>>
    requires { length asks.now < 2 ^ 32 }
{
    let alloc = rt.alloc();
    let blanks = Blanks::new(alloc, THREADS).ok()?;
    let file = file_by_seats::<Brand, R>(rt, alloc, blanks, flags, asks, request, cost)?;
    let blanks = Blanks::new(alloc, THREADS).ok()?;
    let sealed = book_by_seats::<Brand, R>(rt, alloc, blanks, flags, asks)?;
    let Driven { book: driven, .. } = drive(rt, alloc, flags, asks, THREADS, &OpenGate).ok()?;
    let books = is_book(alloc, &sealed) && is_book(alloc, &driven);
    let on_sealed = file_on(rt, alloc, flags, request, &sealed)?;
    let on_driven = file_on(rt, alloc, flags, request, &driven)?;
    let by_commands = file_by_commands(rt, request)?;
    let same = file.as_slice() == on_sealed.as_slice()
        && file.as_slice() == on_driven.as_slice()
        && file.as_slice() == by_commands.as_slice();
    if books && same { Some(file) } else { None }
}

/// Whether all plan files of a request are the same, and end so.
fn end_so<R: AllocGlobal + Threads + Wait + Sync>(
    rt: &R,
    request: &[u8],
    cost: Option<u64>,
    end: &str,
) -> bool {
    let alloc = rt.alloc();
    let Ok(flags) = read_flags(alloc, FLAGS) else {
        return false;
    };
    let mut scratch = Scratch::new(alloc);
    let Ok(file) = read_asks(alloc, ASKS, 10_000, &mut scratch) else {
        return false;
    };
    let Ok(asks) = asks_of(alloc, &file) else {
        return false;
    };
    match file_of_all(rt, &flags, asks.as_slice(), request, cost) {
        Some(file) => file.as_slice().ends_with(end.as_bytes()),
        None => false,
    }
}

#[test]
fn seats_plan_as_the_commands(rt: HostRuntime) {
    for (request, cost, end) in PLANS {
        assert!(rt; end_so(&rt, request, *cost, end), "{end}");
    }
}
