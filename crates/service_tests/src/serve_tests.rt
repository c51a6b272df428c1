//! Streams that are written: their frames, a limit, and writers that fail midway.
ghost use Rattle.std.specs.Prelude.{◌≡◌};

use super::memory::MemoryOutlet;
use super::snapshot_tests::{publishes, share_among};
use snap_share::{History, Publisher, ReadSeat, ShareName};
use std::alloc::Global;
use std::marker::Brand;
use std::process::Abort;
use std::sync::Wait;
use sync_server::{NextNumber, StreamEnd, serve_stream};

/// The frames of no flags with the numbers 1 and 3.
const FRAMES: &[u8] =
    b"\x00\x00\x00\x14\x00\x00\x00\x00\x00\x00\x00\x01{\"flags\":{}}\x00\x00\x00\x14\x00\x00\x00\x00\x00\x00\x00\x03{\"flags\":{}}";

/// Gives 1, 2, 3 and then None; 2 and 3 are published between 2 and 3.
#[derive(Drop)]
struct Script<'p, J: ShareName, R: Wait> {
    publisher: &'p mut Publisher<J>,
    rt: &'p R,
    alloc: Global,
    calls: u64,
    closed: bool,
}

impl<J: ShareName, R: Wait> NextNumber for Script<'_, J, R> {
    ghost is_closed = { λ script. script.closed };

    ghost asked = { λ old after new. Unit {0} };

    fn next(&mut self, after: u64) -> Option<u64> {
        self.calls = self.calls.saturating_add(1);
        if self.calls == 3 {
            let _second = publishes(self.rt, self.alloc, self.publisher, 2);
            let _third = publishes(self.rt, self.alloc, self.publisher, 3);
        }
        let number = if self.calls <= 3 { self.calls } else { 0 };
        if number > after {
            Some(number)
        } else {
            self.closed = true;
            None
        }
    }
}

/// A limit of turns, how many bytes a write takes at most and how many all of them do; the end, how many frames are whole,
/// and how many bytes are written.
type Row = (u64, usize, usize, StreamEnd, u64, usize);

const ROWS: &[Row] = &[
    (1000, 48, 48, StreamEnd::Closed, 2, 48),
    (1000, 1, 48, StreamEnd::Closed, 2, 48),
    (1, 48, 48, StreamEnd::Limit, 1, 24),
    (0, 48, 48, StreamEnd::Limit, 0, 0),
    (1000, 48, 10, StreamEnd::WriteFault, 0, 10),
];

#[test]
fn frames_that_are_written(rt: HostRuntime) {
    for row in ROWS {
        assert!(rt; is_written(&rt, rt.alloc(), row), "{} bytes", row.5);
    }
}

/// Whether of a stream that is cut at any byte the frames before it are whole.
fn is_cut_anywhere<R: Wait + Abort>(rt: &R, alloc: Global) -> bool {
    for room in 0..48 {
        let row = (
            1000,
            7,
            room,
            StreamEnd::WriteFault,
            (room / 24) as u64,
            room,
        );
        if !is_written(rt, alloc, &row) {
            return false;
        }
    }
    true
}

#[test]
fn streams_that_are_cut(rt: HostRuntime) {
    assert!(rt; is_cut_anywhere(&rt, rt.alloc()));
}

/// Whether a stream is written as its row says.
fn is_written<R: Wait + Abort>(rt: &R, alloc: Global, row: &Row) -> bool {
    writes::<Brand, R>(rt, alloc, History::new(), row)
}

fn writes<J: ShareName, R: Wait + Abort>(rt: &R, alloc: Global, history: History, row: &Row) -> bool
    requires { history.seen.book ≡ J.book }
{
    match share_among::<J, R>(rt, alloc, history, 1) {
        Ok((publisher, seats)) => {
            let mut publisher = publisher;
            let mut seats = seats;
            let is_served = serves(rt, alloc, &mut publisher, &mut seats, row);
            publisher.close(rt);
            is_served
        }
        Err(_) => false,
    }
}

/// Whether what is written for the last seat is as a row says.
fn serves<J: ShareName, R: Wait>(
    rt: &R,
    alloc: Global,
    publisher: &mut Publisher<J>,
    seats: &mut Vec<ReadSeat<J>>,
    row: &Row,
) -> bool {
    let (limit, most, room, end, count, bytes) = *row;
    let Some(mut seat) = seats.pop() else {
        return false;
    };
    let mut out = MemoryOutlet::new(alloc, most, room);
    let mut script = Script {
        publisher,
        rt,
        alloc,
        calls: 0,
        closed: false,
    };
    let ended = serve_stream(&mut seat, &mut script, &mut out, limit);
    ended == (end, count) && out.bytes.len() == bytes && FRAMES.starts_with(out.bytes.as_slice())
}
