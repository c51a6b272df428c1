//! Streams that are read in pieces: how many snapshots come, and how the reading ends.
use super::memory::MemoryInlet;
use std::alloc::Global;
use sync_frames::FrameFault;
use sync_server::{ReadEnd, read_stream};

/// The frame of no flags with number 1.
const FRAME: &[u8] = b"\x00\x00\x00\x14\x00\x00\x00\x00\x00\x00\x00\x01{\"flags\":{}}";

/// The same frame twice.
const TWICE: &[u8] =
    b"\x00\x00\x00\x14\x00\x00\x00\x00\x00\x00\x00\x01{\"flags\":{}}\x00\x00\x00\x14\x00\x00\x00\x00\x00\x00\x00\x01{\"flags\":{}}";

/// The frames of no flags with the numbers 1, 2 and 3.
const THREE: &[u8] =
    b"\x00\x00\x00\x14\x00\x00\x00\x00\x00\x00\x00\x01{\"flags\":{}}\x00\x00\x00\x14\x00\x00\x00\x00\x00\x00\x00\x02{\"flags\":{}}\x00\x00\x00\x14\x00\x00\x00\x00\x00\x00\x00\x03{\"flags\":{}}";

/// No read fails.
const ALL: u64 = u64::MAX;

/// Whether so many snapshots come of at most so many turns over bytes, of which a read takes at most `most`, the first
/// `reads` reads do not fail, and the reading ends so.
fn is_read(
    alloc: Global,
    bytes: &[u8],
    most: usize,
    reads: u64,
    turns: u64,
    count: usize,
    want: ReadEnd,
) -> bool {
    let mut inlet = MemoryInlet::new(bytes, most, reads);
    let (snapshots, end) = read_stream(alloc, &mut inlet, turns);
    snapshots.len() == count && end == want
}

/// The bytes, the most of a read, the reads until one fails, the turns, the snapshots and the end.
const READS: &[(&[u8], usize, u64, u64, usize, ReadEnd)] = &[
    // a frame, and none
    (FRAME, 1, ALL, 100, 1, ReadEnd::Ended),
    (FRAME, 5, ALL, 100, 1, ReadEnd::Ended),
    (FRAME, 24, ALL, 100, 1, ReadEnd::Ended),
    (b"", 1, ALL, 100, 0, ReadEnd::Ended),
    (b"", 5, ALL, 100, 0, ReadEnd::Ended),
    (b"", 24, ALL, 100, 0, ReadEnd::Ended),
    // a fault ends the reading before another read
    (TWICE, 48, ALL, 1, 1, ReadEnd::Frame(FrameFault::NotRising)),
    // a read that fails
    (THREE, 10, 0, 100, 0, ReadEnd::ReadFault),
    (THREE, 10, 1, 100, 0, ReadEnd::ReadFault),
    (THREE, 10, 2, 100, 0, ReadEnd::ReadFault),
    (THREE, 10, 3, 100, 1, ReadEnd::ReadFault),
    (THREE, 10, 4, 100, 1, ReadEnd::ReadFault),
    (THREE, 10, 5, 100, 2, ReadEnd::ReadFault),
    (THREE, 10, 6, 100, 2, ReadEnd::ReadFault),
    (THREE, 10, 7, 100, 2, ReadEnd::ReadFault),
    (THREE, 10, 8, 100, 3, ReadEnd::ReadFault),
    (THREE, 10, 9, 100, 3, ReadEnd::Ended),
    // as many turns as are allowed
    (THREE, 24, ALL, 0, 0, ReadEnd::Limit),
    (THREE, 24, ALL, 2, 2, ReadEnd::Limit),
    (THREE, 24, ALL, 3, 3, ReadEnd::Limit),
    (THREE, 24, ALL, 4, 3, ReadEnd::Ended),
];

#[test]
fn streams(rt: HostRuntime) {
    for (bytes, most, reads, turns, count, want) in READS {
        assert!(rt;
            is_read(rt.alloc(), bytes, *most, *reads, *turns, *count, *want),
            "{count} of {turns} turns of {most} bytes"
        );
    }
}

/// Whether each proper front of a frame ends inside it.
fn end_inside(alloc: Global, most: usize) -> bool {
    for length in 1..24 {
        if !is_read(
            alloc,
            &FRAME[..length],
            most,
            ALL,
            100,
            0,
            ReadEnd::EndedInside,
        ) {
            return false;
        }
    }
    true
}

#[test]
fn fronts_of_a_frame(rt: HostRuntime) {
    for most in [1, 5, 24] {
        assert!(rt; end_inside(rt.alloc(), most), "by {most} bytes");
    }
}
