//! Reading whole frames.
ghost use Rattle.std.specs.Prelude.{◌≡◌, ◌≢◌, ℕ, ◌++◌, ◌+◌, ◌-◌, ◌<◌, ◌≤◌, IfOk, drop, length, slice_index};
ghost use Rattle.sync_frames.specs.Snapshots.{snapshot_view};
ghost use Rattle.sync_frames.specs.Frames.{HoldsFrame, document_in, length_in};
ghost use Rattle.sync_frames.specs.Received.{IsNext, IsRead, IsReceived, IsWholeRead};

use crate::fault::FrameFault;
use crate::header::{Begun, begins};
use crate::stage::Stage;
use flag_defs::{DefFault, read_flags_with_floats};
use snap_core::Snapshot;
use std::alloc::{AllocError, Global};

/// The next snapshot of a stream, or why there is none.
#[derive(Drop)]
pub(crate) enum Next<'a> {
    /// A snapshot, and the bytes behind its frame.
    Whole(Snapshot, &'a [u8]),
    /// No more: nothing is wrong so far, or a fault shows.
    Stop(Option<FrameFault>),
}

/// What was read, and where a feed goes on.
#[derive(Drop)]
pub(crate) struct Received {
    pub(crate) snapshots: Vec<Snapshot>,
    pub(crate) last: u64,
    pub(crate) kept: Vec<u8>,
    pub(crate) stage: Stage,
}

/// The snapshot whose frame the bytes begin with, behind the number `last`.
fn next_snapshot(alloc: Global, last: u64, bytes: &[u8]) -> Result<Next<'_>, AllocError>
    ensures { IfOk result (λ n. IsNext last bytes.now n) }
{
    match begins(last, bytes, &[]) {
        Begun::Part => Ok(Next::Stop(None)),
        Begun::Fault(fault) => Ok(Next::Stop(Some(fault))),
        Begun::Frame(header) => {
            let (frame, after) = bytes.split_at(header.end);
            match read_document(alloc, header.number, &frame[12..])? {
                Some(snapshot) => Ok(Next::Whole(snapshot, after)),
                None => Ok(Next::Stop(Some(FrameFault::Document))),
            }
        }
    }
}

/// The snapshot of a number and a document; none where the document is refused.
fn read_document(
    alloc: Global,
    number: u64,
    document: &[u8],
) -> Result<Option<Snapshot>, AllocError>
    ensures { IfOk result (λ o. IsRead number document.now o) }
{
    match read_flags_with_floats(alloc, document) {
        Ok(flags) => Ok(Some(Snapshot { number, flags })),
        Err(DefFault::WantOfMemory) => Err(AllocError),
        Err(DefFault::NotJson) => Ok(None),
        Err(DefFault::NoFlags) => Ok(None),
        Err(DefFault::TooLarge) => Ok(None),
    }
}

/// Reads on behind the frame of the first snapshot, as far as whole frames go.
fn read_frames(alloc: Global, first: Snapshot, bytes: &[u8]) -> Result<Received, AllocError>
    ensures { IfOk result (λ r. IsReceived (snapshot_view first) bytes.now r) }
{
    let mut last = first.number;
    let mut snapshots = Vec::new(alloc);
    snapshots.push(first)?;
    let mut rest = bytes;
    'frames: loop {
        match next_snapshot(alloc, last, rest)? {
            Next::Whole(snapshot, after) => {
                last = snapshot.number;
                snapshots.push(snapshot)?;
                rest = after;
            }
            Next::Stop(None) => {
                return Ok(Received {
                    snapshots,
                    last,
                    kept: Vec::from_slice(alloc, rest)?,
                    stage: Stage::Reading,
                });
            }
            Next::Stop(Some(fault)) => {
                return Ok(Received {
                    snapshots,
                    last,
                    kept: Vec::new(alloc),
                    stage: Stage::Faulty(fault),
                });
            }
        }
    }
}

/// Reads a whole frame of this number, and on behind it. None where its document is refused.
pub(crate) fn read_whole(
    alloc: Global,
    number: u64,
    frame: &[u8],
    after: &[u8],
) -> Result<Option<Received>, AllocError>
    requires { 12 ≤ length frame.now }
    ensures whole { IfOk result (λ o. IsWholeRead number (drop 12 frame.now) after.now o) }
    ensures bytes { (i : ℕ) → slice_index frame.now i < 256 }
{
    match read_document(alloc, number, &frame[12..])? {
        Some(first) => Ok(Some(read_frames(alloc, first, after)?)),
        None => Ok(None),
    }
}
