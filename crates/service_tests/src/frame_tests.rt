//! Frames in pieces. What a frame is written as is tested on the command `serve`.
use std::alloc::Global;
use sync_frames::Feed;

/// A piece, how many snapshots it gives, the number of the fault, and whether all so far is whole frames.
type Piece = (&'static [u8], usize, u32, bool);

/// How many snapshots a piece gives, and the number of the fault.
fn told(alloc: Global, feed: &mut Feed, piece: &[u8]) -> (usize, u32) {
    match feed.feed(alloc, piece) {
        Ok(snapshots) => (snapshots.len(), 0),
        Err(fault) => (0, fault.number()),
    }
}

/// Whether a new feed takes pieces as they say.
fn are_fed(alloc: Global, pieces: &[Piece]) -> bool {
    let mut feed = Feed::new(alloc);
    for (piece, count, fault, done) in pieces {
        if told(alloc, &mut feed, piece) != (*count, *fault) || feed.done() != *done {
            return false;
        }
    }
    true
}

// The frame of no flags with number 1, byte by byte.
const BYTES: &[Piece] = &[
    (b"", 0, 0, true),
    (b"\x00", 0, 0, false),
    (b"\x00", 0, 0, false),
    (b"\x00", 0, 0, false),
    (b"\x14", 0, 0, false),
    (b"\x00", 0, 0, false),
    (b"\x00", 0, 0, false),
    (b"\x00", 0, 0, false),
    (b"\x00", 0, 0, false),
    (b"\x00", 0, 0, false),
    (b"\x00", 0, 0, false),
    (b"\x00", 0, 0, false),
    (b"\x01", 0, 0, false),
    (b"{", 0, 0, false),
    (b"\"", 0, 0, false),
    (b"f", 0, 0, false),
    (b"l", 0, 0, false),
    (b"a", 0, 0, false),
    (b"g", 0, 0, false),
    (b"s", 0, 0, false),
    (b"\"", 0, 0, false),
    (b":", 0, 0, false),
    (b"{", 0, 0, false),
    (b"}", 0, 0, false),
    (b"}", 1, 0, true),
];

#[test]
fn a_snapshot_comes_with_the_last_byte(rt: HostRuntime) {
    assert!(rt; are_fed(rt.alloc(), BYTES));
}

// Lengths, a number and a document that are refused; a snapshot before a fault is answered first.
const FAULTS: &[&[Piece]] = &[
    &[(b"\x00\x40\x00\x09", 0, 1, false), (b"", 0, 4, false)],
    &[(b"\x00\x00\x00\x07", 0, 1, false), (b"", 0, 4, false)],
    &[
        (
            b"\x00\x00\x00\x09\x00\x00\x00\x00\x00\x00\x00\x00",
            0,
            2,
            false,
        ),
        (b"", 0, 4, false),
    ],
    &[
        (
            b"\x00\x00\x00\x09\x00\x00\x00\x00\x00\x00\x00\x01{",
            0,
            3,
            false,
        ),
        (b"", 0, 4, false),
    ],
    &[
        (
            b"\x00\x00\x00\x14\x00\x00\x00\x00\x00\x00\x00\x01{\"flags\":{}}\x00\x00\x00\x14\x00\x00\x00\x00\x00\x00\x00\x01{\"flags\":{}}",
            1,
            0,
            false,
        ),
        (b"", 0, 2, false),
        (b"", 0, 4, false),
    ],
];

#[test]
fn each_fault_and_then_failed(rt: HostRuntime) {
    for pieces in FAULTS {
        assert!(rt; are_fed(rt.alloc(), pieces));
    }
}
