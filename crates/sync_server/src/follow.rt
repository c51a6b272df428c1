//! Following a stream of snapshots.
ghost use Rattle.std.specs.Prelude.{◌≡◌, ℕ, ◌<◌, List, ◌++◌, false, not, length, is_none};
ghost use Rattle.sync_frames.specs.Snapshots.{Numbered};
ghost use Rattle.sync_frames.specs.Feed.{HasBeenFed, has_failed, snapshots_view};
ghost use Rattle.sync_server.specs.End.{is_limit_read};
ghost use Rattle.sync_server.specs.Follows.{AtEnd, Follows, LeadsOn, Steps, is_full, is_limit};
ghost use Rattle.sync_server.specs.Handed.{Handed, NoneLeftIf};
ghost use Rattle.sync_server.specs.Reads.{ReadWithin};

use crate::end::{ReadEnd, end_by};
use crate::sink::Sink;
use byte_streams::Inlet;
use snap_core::Snapshot;
use std::alloc::Global;
use sync_frames::Feed;

/// The most that one read takes.
const READ_AT_MOST: usize = 65_536;

/// Where a step leads.
enum Step {
    GoesOn,
    Ends(ReadEnd),
    Full,
}

/// Hands the snapshots of a stream to the sink, each with the read that has the last byte of its frame, one read a turn,
/// until the input ends, a frame fault shows, a read fails, memory runs out, or `limit` turns were taken; None where the
/// sink did not take a snapshot. A fault that the bytes show ends the reading before another read. The conditions are an
/// inlet that is not broken and a sink that is not full.
pub fn follow_stream<I: Inlet, S: Sink>(
    alloc: Global,
    inlet: &mut I,
    sink: &mut S,
    limit: u64,
) -> Option<ReadEnd>
    requires whole { I.is_broken inlet.old ≡ false }
    requires takes { S.is_full sink.old ≡ false }
    ensures follows { Follows S.took S.refused (I.bytes inlet.old) (I.bytes inlet.new) (I.is_broken inlet.new) sink.old sink.new result }
    ensures full { S.is_full sink.new ≡ is_none result }
    ensures reads { ReadWithin I.was_read limit inlet.old inlet.new result }
{
    let mut feed = Feed::new(alloc);
    let Ok(mut buffer) = vec![in alloc; 0u8; READ_AT_MOST] else {
        return Some(ReadEnd::WantOfMemory);
    };
    for _turn in 0..limit {
        match take_turn(alloc, inlet, sink, &mut feed, &mut buffer) {
            Step::GoesOn => {}
            Step::Ends(end) => return Some(end),
            Step::Full => return None,
        }
    }
    Some(ReadEnd::Limit)
}

/// One read and what it gives.
fn take_turn<I: Inlet, S: Sink>(
    alloc: Global,
    inlet: &mut I,
    sink: &mut S,
    feed: &mut Feed,
    buffer: &mut [u8],
) -> Step
    requires whole { I.is_broken inlet.old ≡ false }
    requires works { has_failed feed.old ≡ false }
    requires room { 0 < length buffer.old }
    requires takes { S.is_full sink.old ≡ false }
    ensures steps { Steps S.took S.refused (I.bytes inlet.old) (I.bytes inlet.new) (I.is_broken inlet.new) feed.old feed.new sink.old sink.new result }
    ensures full { S.is_full sink.new ≡ is_full result }
    ensures read { I.was_read inlet.old inlet.new }
    ensures other { is_limit result ≡ false }
    ensures room { length buffer.new ≡ length buffer.old }
{
    match inlet.read(buffer) {
        Ok(0) => Step::Ends(end_of_input(feed)),
        Ok(n) => take_piece(alloc, sink, feed, &buffer[..n]),
        Err(_) => Step::Ends(ReadEnd::ReadFault),
    }
}

/// Takes a piece of the stream.
fn take_piece<S: Sink>(alloc: Global, sink: &mut S, feed: &mut Feed, piece: &[u8]) -> Step
    requires works { has_failed feed.old ≡ false }
    requires takes { S.is_full sink.old ≡ false }
    ensures full { S.is_full sink.new ≡ is_full result }
    ensures other { is_limit result ≡ false }
    ensures leads { (more : List Numbered)
        × Handed S.took S.refused sink.old more (is_full result) sink.new
        × LeadsOn feed.old feed.new piece.now more result }
{
    match feed.feed(alloc, piece) {
        Ok(snapshots) => {
            if !hand_on(sink, snapshots) {
                return Step::Full;
            }
            match feed.feed(alloc, &[]) {
                Ok(_none) => Step::GoesOn,
                Err(fault) => Step::Ends(end_by(fault)),
            }
        }
        Err(fault) => Step::Ends(end_by(fault)),
    }
}

/// Hands snapshots on, and says whether all were taken.
fn hand_on<S: Sink>(sink: &mut S, snapshots: Vec<Snapshot>) -> bool
    requires { S.is_full sink.old ≡ false }
    ensures full { S.is_full sink.new ≡ not result }
    ensures handed { (taken : List Numbered) × (left : List Numbered) × (snapshots_view snapshots.items ≡ taken ++ left)
        × Handed S.took S.refused sink.old taken (not result) sink.new × NoneLeftIf result left }
{
    for snapshot in snapshots {
        if !sink.take(snapshot) {
            return false;
        }
    }
    true
}

/// How the reading ends at the end of the input.
fn end_of_input(feed: &Feed) -> ReadEnd
    ensures at_end { (stream : List ℕ) → HasBeenFed feed.now stream → AtEnd stream result }
    ensures other { is_limit_read result ≡ false }
{
    if feed.done() {
        ReadEnd::Ended
    } else {
        ReadEnd::EndedInside
    }
}
