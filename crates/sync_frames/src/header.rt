//! What the bytes behind the last whole frame begin with. They stand in two slices, which are joined nowhere.
ghost use Rattle.std.specs.Prelude.{◌≡◌, ℕ, ◌+◌, ◌<◌, ◌≤◌, ◌++◌, length, slice_index};
ghost use Rattle.sync_frames.specs.Frames.{ShowsLength, ShowsNotRising, length_in, number_in};
ghost use Rattle.sync_frames.specs.Header.{Finds};

use crate::fault::FrameFault;
use limits::TEXT_BYTES;

/// The most that the length of a frame may say: its number and a document.
const MAX_LENGTH: u32 = 8 + TEXT_BYTES as u32;

/// What bytes begin with.
pub(crate) enum Begun {
    /// Less than a frame.
    Part,
    /// A header that no frame has here.
    Fault(FrameFault),
    /// A frame of so many bytes, its length among them.
    Frame(Header),
}

/// The header of a whole frame.
#[derive(Clone, Copy)]
pub(crate) struct Header {
    pub(crate) number: u64,
    pub(crate) end: usize,
}

/// What the bytes of both slices, joined, begin with behind the number `last`.
pub(crate) fn begins(last: u64, head: &[u8], tail: &[u8]) -> Begun
    ensures finds { Finds last (head.now ++ tail.now) result }
    ensures length { ShowsLength (head.now ++ tail.now) → result ≡ Begun.Fault FrameFault.Length }
    ensures stays { ShowsNotRising last (head.now ++ tail.now) → result ≡ Begun.Fault FrameFault.NotRising }
{
    let there = head.len() + tail.len();
    if there < 4 {
        return Begun::Part;
    }
    let length = length_of(head, tail);
    if length < 8 || length > MAX_LENGTH {
        return Begun::Fault(FrameFault::Length);
    }
    if there < 12 {
        return Begun::Part;
    }
    let number = number_of(head, tail);
    if number <= last {
        return Begun::Fault(FrameFault::NotRising);
    }
    let end = length as usize + 4;
    if there < end {
        return Begun::Part;
    }
    Begun::Frame(Header { number, end })
}

/// How many bytes follow.
fn length_of(head: &[u8], tail: &[u8]) -> u32
    requires { 4 ≤ length head.now + length tail.now }
    ensures { result ≡ length_in (head.now ++ tail.now) }
{
    let b0 = byte_at(head, tail, 0);
    let b1 = byte_at(head, tail, 1);
    let b2 = byte_at(head, tail, 2);
    let b3 = byte_at(head, tail, 3);
    u32::from_be_bytes([b0, b1, b2, b3])
}

/// The number of the snapshot.
fn number_of(head: &[u8], tail: &[u8]) -> u64
    requires { 12 ≤ length head.now + length tail.now }
    ensures { result ≡ number_in (head.now ++ tail.now) }
{
    let b0 = byte_at(head, tail, 4);
    let b1 = byte_at(head, tail, 5);
    let b2 = byte_at(head, tail, 6);
    let b3 = byte_at(head, tail, 7);
    let b4 = byte_at(head, tail, 8);
    let b5 = byte_at(head, tail, 9);
    let b6 = byte_at(head, tail, 10);
    let b7 = byte_at(head, tail, 11);
    u64::from_be_bytes([b0, b1, b2, b3, b4, b5, b6, b7])
}

/// A byte of both slices, joined.
fn byte_at(head: &[u8], tail: &[u8], i: usize) -> u8
    requires { i < length head.now + length tail.now }
    ensures { result ≡ slice_index (head.now ++ tail.now) i }
{
    if i < head.len() {
        head[i]
    } else {
        tail[i - head.len()]
    }
}
