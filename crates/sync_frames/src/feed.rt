//! A stream in pieces.
ghost use Rattle.std.specs.Prelude.{◌≡◌, ℕ, ◌+◌, ◌++◌, ◌<◌, ◌≤◌, List, [], ◌∷◌, length, true, false, ◌↔◌, None, Some, IfOk, IfErr, OnOk, IsErrOf};
ghost use Rattle.sync_frames.specs.Frames.{IsDone, ShowsNothing, length_in};
ghost use Rattle.sync_frames.specs.Stage.{is_stage};

use crate::fault::FrameFault;
use crate::header::{Begun, Header, begins};
use crate::received::{Received, read_whole};
use crate::stage::Stage;
use snap_core::Snapshot;
use std::alloc::Global;

/// A stream of frames that comes in pieces, cut anywhere. Of the stream it keeps the last number and the bytes behind the
/// last whole frame.
#[derive(Drop)]
pub struct Feed {
    pub(crate) last: u64,
    pub(crate) kept: Vec<u8>,
    pub(crate) stage: Stage,
    pub ghost shown: { is_stage stage ≡ true },
    pub ghost part: { 4 ≤ length kept.items → length kept.items < 4 + length_in kept.items },
}

impl Feed {
    ghost use Rattle.sync_frames.specs.Feed.{FaultWith, Gives, HasBeenFed, Refuses, has_failed, snapshots_view, waiting};
    ghost use Rattle.sync_frames.specs.Header.{IsHeader};

    /// A feed of which nothing was read yet.
    pub fn new(alloc: Global) -> Feed
        ensures fed { HasBeenFed result [] }
        ensures fresh { waiting result ≡ None }
    {
        Feed {
            last: 0,
            kept: Vec::new(alloc),
            stage: Stage::Reading,
        }
    }

    /// Takes the next piece of the stream, and answers the snapshots whose frames it makes whole, in their order. Where it
    /// makes none whole, the fault that the stream shows is answered: Length with the first 4 bytes of a frame, for less
    /// than 8 or more than 4,194,312; NotRising with 12, for a number that is not above the last one; Document with the
    /// whole frame. A fault behind snapshots is answered by the next call, also of an empty piece. From then on each call
    /// answers Failed.
    ///
    /// Where memory runs out the feed is as it was before the piece. Cost: linear in the bytes, however they are cut; each
    /// document is parsed once, when it is whole, and memory is taken for the bytes that came.
    pub fn feed(&mut self, alloc: Global, piece: &[u8]) -> Result<Vec<Snapshot>, FrameFault>
        ensures gives { IfOk result (λ v. Gives self.old self.new piece.now (snapshots_view v.items)) }
        ensures quiet { IfOk result (λ v. v.items ≡ [] → (stream : List ℕ) → HasBeenFed self.old stream → ShowsNothing (stream ++ piece.now)) }
        ensures works { OnOk result (has_failed self.new ≡ false) }
        ensures refuses { IfErr result (λ fault. Refuses self.old self.new piece.now fault) }
        // these need no memory
        ensures waiting { (fault : FrameFault) → waiting self.old ≡ Some fault → IsErrOf result fault }
        ensures length { FaultWith self.old piece.now FrameFault.Length → IsErrOf result FrameFault.Length }
        ensures stays { FaultWith self.old piece.now FrameFault.NotRising → IsErrOf result FrameFault.NotRising }
    {
        match self.stage {
            Stage::Reading => self.read_on(alloc, piece),
            Stage::Faulty(fault) => Err(self.fail(fault)),
            Stage::Failed => Err(FrameFault::Failed),
        }
    }

    /// Whether the stream so far is whole frames and nothing else.
    pub fn done(&self) -> bool
        ensures { (stream : List ℕ) → HasBeenFed self.now stream → (result ≡ true ↔ IsDone stream) }
    {
        match self.stage {
            Stage::Reading => self.kept.is_empty(),
            Stage::Faulty(_) => false,
            Stage::Failed => false,
        }
    }

    /// Takes a piece where no fault was shown before.
    fn read_on(&mut self, alloc: Global, piece: &[u8]) -> Result<Vec<Snapshot>, FrameFault>
        requires { self.old.stage ≡ Stage.Reading }
        ensures gives { IfOk result (λ v. Gives self.old self.new piece.now (snapshots_view v.items)) }
        ensures quiet { IfOk result (λ v. v.items ≡ [] → (stream : List ℕ) → HasBeenFed self.old stream → ShowsNothing (stream ++ piece.now)) }
        ensures works { OnOk result (has_failed self.new ≡ false) }
        ensures refuses { IfErr result (λ fault. Refuses self.old self.new piece.now fault) }
        ensures length { FaultWith self.old piece.now FrameFault.Length → IsErrOf result FrameFault.Length }
        ensures stays { FaultWith self.old piece.now FrameFault.NotRising → IsErrOf result FrameFault.NotRising }
    {
        match begins(self.last, self.kept.as_slice(), piece) {
            Begun::Part => {
                self.kept.extend_from_slice(piece)?;
                Ok(Vec::new(alloc))
            }
            Begun::Fault(fault) => Err(self.fail(fault)),
            Begun::Frame(header) => self.complete(alloc, piece, header),
        }
    }

    /// Takes a piece that makes the frame whole that was begun.
    fn complete(
        &mut self,
        alloc: Global,
        piece: &[u8],
        header: Header,
    ) -> Result<Vec<Snapshot>, FrameFault>
        requires reading { self.old.stage ≡ Stage.Reading }
        requires header { IsHeader self.old.last (self.old.kept.items ++ piece.now) header }
        ensures gives { IfOk result (λ v. Gives self.old self.new piece.now (snapshots_view v.items)) }
        ensures some { IfOk result (λ v. v.items ≡ [] → ⊥) }
        ensures works { OnOk result (has_failed self.new ≡ false) }
        ensures refuses { IfErr result (λ fault. Refuses self.old self.new piece.now fault) }
    {
        let before = self.kept.len();
        let (missing, after) = piece.split_at(header.end - before);
        self.kept.extend_from_slice(missing)?;
        match read_whole(alloc, header.number, self.kept.as_slice(), after) {
            Ok(Some(received)) => {
                let Received {
                    snapshots,
                    last,
                    kept,
                    stage,
                } = received;
                self.last = last;
                self.kept = kept;
                self.stage = stage;
                Ok(snapshots)
            }
            Ok(None) => {
                self.kept.truncate(before);
                Err(self.fail(FrameFault::Document))
            }
            Err(want) => {
                self.kept.truncate(before);
                Err(FrameFault::from(want))
            }
        }
    }

    /// From now on it has failed, with this fault.
    fn fail(&mut self, fault: FrameFault) -> FrameFault
        ensures fault { result ≡ fault }
        ensures failed { self.new.stage ≡ Stage.Failed }
    {
        self.stage = Stage::Failed;
        fault
    }
}
