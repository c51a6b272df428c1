//! Asks that workers answer through one book: workers who wait for one another, a gate that never lets an ask start, and a
//! page that is full. What the command `drive` prints is tested on the built program.
ghost use Rattle.std.specs.Prelude.{◌≡◌, ◌<◌, ◌^◌, true, length};
ghost use Rattle.flag_text.specs.Shape.{is_whole};
ghost use Rattle.flagops_drive.specs.File.{file_view};

use book_core::{Book, print_book};
use book_share::{Ask, Attempt, Driven, Gate, OpenGate, drive};
use flag_defs::{Flags, read_flags};
use flag_resolve::{Code, Reason, Resolution};
use flagops_drive::{AsksFile, asks_of, read_asks};
use json::Scratch;
use std::alloc::{AllocError, Global};
use std::sync::Wait;
use std::sync::atomic::{AtomicBool, Ordering};
use std::test::Fail;
use std::thread::Threads;
use std::time::{Clock, Duration};

const FLAGS: &[u8] =
    br#"{"flags":{"color":{"state":"ENABLED","variants":{"red":"r","blue":"b","green":"g"},
"defaultVariant":"red","targeting":{"fractional":[{"var":"key"},["red",5],["blue",5]]}},
"lists":{"state":"ENABLED","variants":{"x":1,"y":2},"defaultVariant":"x",
"targeting":{"map":[{"var":"l"},{"fractional":[{"var":""},["x",5],["y",5]]}]}}}}"#;

const FOUR: &str = r#"{"key":"color","want":"text","default":"d","context":{"key":""},"moment":0},
{"key":"color","want":"text","default":"d","context":{"key":"The quick brown fox jumps over the lazy dog"},"moment":0},
{"key":"color","want":"text","default":"d","context":{"key":"!"},"moment":0},
{"key":"color","want":"text","default":"d","context":{"key":"!Ce"},"moment":0}"#;

const THREE: &str =
    r#"{"key":"color","want":"text","default":"d","context":{"key":"!C"},"moment":0},
{"key":"color","want":"text","default":"d","context":{"key":"test"},"moment":0},
{"key":"color","want":"text","default":"d","context":{"key":"Hello, world!"},"moment":0}"#;

const BOOK: &[u8] = b"{\"book\":1}
{\"by\":\"{\\\"var\\\":[\\\"key\\\"]}\",\"flag\":\"color\",\"site\":0}
\"\"
\"!\"
\"!C\"
\"!Ce\"
\"Hello, world!\"
\"The quick brown fox jumps over the lazy dog\"
\"test\"
";

/// Texts of asks, how they are read, and the key of the first ask.
const FORMS: &[(&str, &str, &str)] = &[
    ("[]", "asks", ""),
    (
        r#" [ { "key" : "a" , "want" : "bool" , "default" : null , "context" : { "key" : [ 1 ] } , "moment" : 7 } ] "#,
        "asks",
        "a",
    ),
    (
        r#"[{"key":"\u0061\"b","want":"whole","default":{"x":-1},"context":{},"moment":9007199254740991}]"#,
        "asks",
        "a\"b",
    ),
    (
        r#"[{"want":"text","key":"a","default":"d","context":{},"moment":0}]"#,
        "a tree",
        "a",
    ),
    (
        r#"[{"key":"a","want":"text","default":"d","context":{},"moment":0,"m":1}]"#,
        "a tree",
        "a",
    ),
    (
        r#"[{"key":"a","key":"b","want":"text","default":"d","context":{},"moment":0}]"#,
        "a tree",
        "b",
    ),
    (
        r#"[{"key":"a","want":"text","default":"d","context":[],"moment":0}]"#,
        "a tree",
        "BadAsks",
    ),
    (
        r#"[{"key":"a","want":"text","default":"d","context":{},"moment":9007199254740992}]"#,
        "NotWhole",
        "",
    ),
    (
        r#"[{"key":"a","want":"text","default":"d","context":{},"moment":0}] ,"#,
        "NotJson",
        "",
    ),
];

/// Whether asks are read so, and this is the key of the first, or the refusal.
fn is_read(alloc: Global, text: &str, form: &str, key: &str) -> bool {
    let mut scratch = Scratch::new(alloc);
    match read_asks(alloc, text.as_bytes(), 1000, &mut scratch) {
        Ok(file) => {
            let read = match &file {
                AsksFile::Plain(_) => "asks",
                AsksFile::Tree(_) => "a tree",
            };
            read == form && is_first(alloc, &file, key)
        }
        Err(fault) => fault.name() == form,
    }
}

/// Whether this is the key of the first ask, or the refusal.
fn is_first(alloc: Global, file: &AsksFile<'_>, key: &str) -> bool
    requires { is_whole (file_view file.now) ≡ true }
{
    match asks_of(alloc, file) {
        Ok(asks) => match asks.first() {
            Some(ask) => ask.key == key,
            None => key.is_empty(),
        },
        Err(refusal) => refusal.name() == key,
    }
}

#[test]
fn asks_in_the_common_form_are_no_tree(rt: HostRuntime) -> Result<(), Fail> {
    for (text, form, key) in FORMS {
        assert!(rt; is_read(rt.alloc(), text, form, key), "{text}");
    }
    Ok(())
}

/// Whether each answer has this reason and this code, and reached so many sites.
fn are(answers: &[Resolution], reason: Reason, code: Option<Code>, reached: usize) -> bool {
    for answer in answers {
        if answer.reason != reason || answer.code != code || answer.reached.len() != reached {
            return false;
        }
    }
    true
}

/// Whether the book is that of the seven keys.
fn is_printed(alloc: Global, book: &Book) -> bool {
    match print_book(alloc, book) {
        Ok(text) => text.as_slice() == BOOK,
        Err(_) => false,
    }
}

/// Whether the book has so many inputs, and so many notes were accepted, were new and were refused by a full page; none was
/// too long.
fn has_counts(driven: &Driven, inputs: u128, calls: u128, news: u128, full: u128) -> bool {
    driven.book.inputs() == inputs
        && driven.calls == calls
        && driven.news == news
        && driven.full == full
        && driven.long == 0
}

/// What was driven: seven keys, each three times, or 101 asks of 10000 inputs each, of which those of the last one found the
/// page full.
fn told(alloc: Global, driven: &Driven) -> &'static str {
    let answers = driven.answers.as_slice();
    if answers.len() == 21
        && are(answers, Reason::TargetingMatch, None, 1)
        && has_counts(driven, 7, 21, 7, 0)
        && is_printed(alloc, &driven.book)
    {
        "seven keys"
    } else if answers.len() == 101
        && are(answers, Reason::Error, Some(Code::General), 10_000)
        && has_counts(driven, 1_000_000, 1_000_000, 1_000_000, 10_000)
    {
        "a full page"
    } else {
        "another outcome"
    }
}

/// What comes of asks that so many workers answer under a gate, or the name of the refusal.
fn outcome<G: Gate, R: Threads + Wait + Sync>(
    rt: &R,
    alloc: Global,
    flags: &Flags,
    asks: &[Ask<'_>],
    workers: usize,
    gate: &G,
) -> &'static str
    requires { length asks.now < 2 ^ 32 }
{
    match drive(rt, alloc, flags, asks, workers, gate) {
        Ok(driven) => told(alloc, &driven),
        Err(fault) => fault.name(),
    }
}

/// Whether this comes of the asks of a text.
fn is_outcome<G: Gate, R: Threads + Wait + Sync>(
    rt: &R,
    alloc: Global,
    text: &str,
    workers: usize,
    gate: &G,
    want: &str,
) -> bool {
    let mut scratch = Scratch::new(alloc);
    let Ok(file) = read_asks(alloc, text.as_bytes(), 67_108_864, &mut scratch) else {
        return false;
    };
    match asks_of(alloc, &file) {
        Ok(asks) => is_outcome_of(rt, alloc, asks.as_slice(), workers, gate, want),
        Err(_) => false,
    }
}

/// The same of the asks.
fn is_outcome_of<G: Gate, R: Threads + Wait + Sync>(
    rt: &R,
    alloc: Global,
    asks: &[Ask<'_>],
    workers: usize,
    gate: &G,
    want: &str,
) -> bool
    requires { length asks.now < 2 ^ 32 }
{
    match read_flags(alloc, FLAGS) {
        Ok(flags) => outcome(rt, alloc, &flags, asks, workers, gate) == want,
        Err(_) => false,
    }
}

/// Lets an ask start once its neighbour was answered, the one after or the one before; those behind the first `links` asks
/// wait for none.
#[derive(Drop)]
struct Chain<'a, R: Clock + Sync> {
    rt: &'a R,
    answered: [AtomicBool; 8],
    late: AtomicBool,
    links: usize,
    forward: bool,
}

/// Whether the neighbour was answered that is to be answered before this ask; `None` where there is none to wait for.
fn before(answered: &[AtomicBool], links: usize, forward: bool, ask: usize) -> Option<&AtomicBool> {
    if ask >= links {
        None
    } else if !forward {
        answered.get(ask.checked_sub(1)?)
    } else if ask + 1 < links {
        answered.get(ask + 1)
    } else {
        None
    }
}

impl<R: Clock + Sync> Gate for Chain<'_, R> {
    fn may_start<A: Attempt>(&self, ask: usize) -> bool {
        let Some(before) = before(&self.answered, self.links, self.forward, ask) else {
            return true;
        };
        for _ in 0..1000 {
            if self.late.load(Ordering::SeqCst) {
                return false;
            }
            if before.load(Ordering::SeqCst) {
                return true;
            }
            self.rt.sleep(Duration::from_millis(10));
        }
        self.late.store(true, Ordering::SeqCst);
        false
    }

    fn answered(&self, ask: usize) {
        if let Some(answered) = self.answered.get(ask) {
            answered.store(true, Ordering::SeqCst);
        }
    }
}

/// Whether this comes of asks of which the first, as many as `links`, wait for one another.
fn is_linked<R: Threads + Wait + Clock + Sync>(
    rt: &R,
    alloc: Global,
    text: &str,
    links: usize,
    forward: bool,
    workers: usize,
    want: &str,
) -> bool {
    let gate = Chain {
        rt,
        answered: [
            AtomicBool::new(false),
            AtomicBool::new(false),
            AtomicBool::new(false),
            AtomicBool::new(false),
            AtomicBool::new(false),
            AtomicBool::new(false),
            AtomicBool::new(false),
            AtomicBool::new(false),
        ],
        late: AtomicBool::new(false),
        links,
        forward,
    };
    is_outcome(rt, alloc, text, workers, &gate, want)
}

/// How many asks wait for one another, whether each for the one after it, by how many workers they are answered, and what
/// comes of it.
const LINKED: &[(usize, bool, usize, &str)] = &[
    (2, true, 2, "seven keys"),
    (2, false, 2, "seven keys"),
    (8, true, 8, "seven keys"),
    (8, false, 8, "seven keys"),
    (2, true, 1, "Stalled"),
];

#[test]
fn workers_wait_for_one_another(rt: HostRuntime) -> Result<(), Fail> {
    let text = format!(in rt.alloc(); "[{FOUR},{THREE},{FOUR},{THREE},{FOUR},{THREE}]")?;
    for (links, forward, workers, want) in LINKED {
        assert!(rt;
            is_linked(
                &rt,
                rt.alloc(),
                text.as_str(),
                *links,
                *forward,
                *workers,
                want
            ),
            "{links} asks by {workers} workers"
        );
    }
    Ok(())
}

/// A gate that never lets one ask start.
#[derive(Drop)]
struct Barrier {
    closed: usize,
}

impl Gate for Barrier {
    fn may_start<A: Attempt>(&self, ask: usize) -> bool {
        ask != self.closed
    }

    fn answered(&self, _ask: usize) {}
}

#[test]
fn a_closed_gate_stalls(rt: HostRuntime) -> Result<(), Fail> {
    let text = format!(in rt.alloc(); "[{FOUR}]")?;
    assert!(rt;
        is_outcome(
            &rt,
            rt.alloc(),
            text.as_str(),
            2,
            &Barrier { closed: 3 },
            "Stalled"
        )
    );
    Ok(())
}

const FIRST: &str = r#"[{"key":"lists","want":"whole","default":0,"moment":0,"context":{"l":["#;

const NEXT: &str = r#"]}},{"key":"lists","want":"whole","default":0,"moment":0,"context":{"l":["#;

/// What stands before the input of a number: every 10000 begin an ask.
fn front(number: u32) -> &'static str {
    if number == 0 {
        FIRST
    } else if number % 10_000 == 0 {
        NEXT
    } else {
        ","
    }
}

/// 101 asks of 10000 inputs each, all of them different.
fn many(alloc: Global) -> Result<String, AllocError> {
    let mut text = String::new(alloc);
    for number in 0..1_010_000 {
        let front = front(number);
        let input = format!(in alloc; "{front}\"{number}\"")?;
        text.push_str(input.as_str())?;
    }
    text.push_str("]}}]")?;
    Ok(text)
}

#[test]
fn full_pages_are_counted(rt: HostRuntime) -> Result<(), Fail> {
    let text = many(rt.alloc())?;
    for workers in [1, 8] {
        assert!(rt;
            is_outcome(
                &rt,
                rt.alloc(),
                text.as_str(),
                workers,
                &OpenGate,
                "a full page"
            ),
            "{workers} workers"
        );
    }
    Ok(())
}
