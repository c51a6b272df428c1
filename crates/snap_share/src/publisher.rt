//! The one that publishes, and what it tells.
ghost use Rattle.std.specs.Prelude.{◌≡◌, ◌≢◌, ◌+◌, ◌-◌, ◌<◌, ◌^◌, ◌++◌, ◌∷◌, ◌↔◌, [], true, drop, fold, length, Err, IfErr, IfOk, OnErr, OnOk};
ghost use Rattle.snap_share.specs.Fault.{is_of_publish};
ghost use Rattle.snap_share.specs.Shown.{TakesNumber};

use crate::cell::{Handover, Places, StampWriter};
use crate::fault::ShareFault;
use crate::front::HistoryPrefix;
use crate::history::{Head, ShareName};
use crate::stamp::Stamp;
use core::mem::replace_with;
use crossbeam_utils::rule::Unruled;
use flag_defs::Flags;
use left_right::Absorb;
use snap_core::Snapshot;
use std::alloc::{AllocError, Global};
use std::marker::Model;
use std::rc::Rc;
use std::sync::{Arc, Wait};
use sync_frames::FramedSnapshot;

/// Publishes flags. Contracts see it as the history up to the stamp that readers are shown. It is not dropped, but closed.
pub struct Publisher<J: ShareName>
where
    Stamp<J>: Absorb<Handover<J>, State = u64>,
{
    pub(crate) writer: StampWriter<J>,
    pub(crate) head: Head<J>,
    ghost by_number: { TakesNumber (λ operation. operation.number) ⟦<Stamp<J> as Absorb<Handover<J>>>⟧.state ⟦<Stamp<J> as Absorb<Handover<J>>>⟧.applied },
}

impl<J: ShareName> Model for Publisher<J>
where
    Stamp<J>: Absorb<Handover<J>, State = u64>,
{
    ghost use Rattle.std.specs.Prelude.{List};
    ghost use Rattle.flag_defs.specs.declared.flags.Flags.{Flags};
    ghost use Rattle.flag_defs.specs.contracts.flags.Flags as entry;
    ghost use Rattle.std.specs.Coded.{codes};

    ghost Value = { List Flags };

    ghost coded = { Prim.hlevel (codes, entry.the_row.coded) };

    ghost view = { λ publisher. publisher.writer.desk.shown.value };

    ghost invariant = { λ publisher. Unit {0} };
}

impl<J: ShareName> Publisher<J>
where
    Stamp<J>: Absorb<Handover<J>, State = u64>,
{
    pub(crate) fn of(writer: StampWriter<J>, head: Head<J>) -> Publisher<J>
        requires { TakesNumber (λ operation. operation.number) ⟦<Stamp<J> as Absorb<Handover<J>>>⟧.state ⟦<Stamp<J> as Absorb<Handover<J>>>⟧.applied }
        ensures { result ≡ writer.desk.shown.value }
    {
        Publisher { writer, head }
    }

    /// What was published so far.
    fn front(&self) -> &HistoryPrefix<J>
        ensures { result.now ≡ self.now }
    {
        self.writer.published().front()
    }

    /// Publishes flags behind all others, and answers their number. It is refused with LastNumber where no number is left,
    /// and then nothing was published; else with WantOfMemory, or with Closed where another has added to the history, which
    /// no publisher does, or the copies did not take the flags. Their frame is made here, for all who read them. It waits for readers that still copy what was published before the last.
    pub fn publish<R: Wait>(
        &mut self,
        rt: &R,
        alloc: Global,
        flags: Flags,
    ) -> Result<u64, ShareFault>
        ensures adds { IfOk result (λ n. (self.new ≡ self.old ++ flags ∷ []) × (n ≡ length self.new)) }
        ensures stays { OnErr result (self.new ≡ self.old) }
        ensures last { (result ≡ Err ShareFault.LastNumber) ↔ (length self.old ≡ 2 ^ 64 - 1) }
        ensures faults { IfErr result (λ fault. is_of_publish fault ≡ true) }
    {
        if self.front().len() == u64::MAX {
            return Err(ShareFault::LastNumber);
        }
        self.publish_next(rt, alloc, flags)
    }

    #[tactic(auto, using(crate::proofs::Numbers::snapshot_of_snoc))]
    /// Publishes flags where a number is left. All that can run out of memory is done before the history grows.
    fn publish_next<R: Wait>(
        &mut self,
        rt: &R,
        alloc: Global,
        flags: Flags,
    ) -> Result<u64, ShareFault>
        requires { length self.old + 1 < 2 ^ 64 }
        ensures adds { IfOk result (λ n. (self.new ≡ self.old ++ flags ∷ []) × (n ≡ length self.new)) }
        ensures stays { OnErr result (self.new ≡ self.old) }
        ensures other { IfErr result (λ fault. fault ≢ ShareFault.LastNumber) }
        ensures faults { IfErr result (λ fault. is_of_publish fault ≡ true) }
    {
        let number = self.front().len() + 1;
        let framed = FramedSnapshot::make(alloc, Snapshot { number, flags })?;
        let first = Arc::new(alloc, framed)?;
        let second = Arc::try_clone(&first)?;
        let places = Rc::new(alloc, Places::empty())?;
        let mut front = self.front().again();
        let operation = Handover {
            number,
            places: places.clone()?,
        };
        hand_over(&mut self.writer, operation)?;
        if !front.add(&self.head, first.flags()) {
            return Err(ShareFault::Closed);
        }
        places.first.set(Some(Stamp::of(first, front.again())));
        places.second.set(Some(Stamp::of(second, front.again())));
        show(rt, &mut self.writer)?;
        front.agree(self.front());
        Ok(front.len())
    }

    /// Tells what was published, for a seat to learn. It takes no memory.
    pub fn tell(&mut self) -> Told<J>
        ensures told { result ≡ self.old }
        ensures stays { self.new ≡ self.old }
    {
        Told {
            front: self.front().again(),
        }
    }

    /// Gives the publisher up. From then on no seat reads, which no clause can say: a seat learns of it when it is read next. It
    /// waits for readers that still copy.
    pub fn close<R: Wait>(self, rt: &R) {
        let Publisher {
            writer,
            head: _head,
        } = self;
        writer.take(rt);
    }
}

/// Hands an operation over, which readers do not see yet. It is refused with WantOfMemory alone.
fn hand_over<J: ShareName>(
    writer: &mut StampWriter<J>,
    operation: Handover<J>,
) -> Result<(), ShareFault>
where
    Stamp<J>: Absorb<Handover<J>, State = u64>,
    ensures stays { writer.new.desk ≡ writer.old.desk }
    ensures last { OnOk result (drop writer.new.behind writer.new.log.items ≡ drop writer.old.behind writer.old.log.items ++ operation ∷ []) }
    ensures want { IfErr result (λ fault. fault ≡ ShareFault.WantOfMemory) }
{
    match writer.append(operation) {
        Ok(()) => Ok(()),
        Err(_operation) => Err(ShareFault::WantOfMemory),
    }
}

/// Shows readers what was handed over. Where it could not be absorbed it is refused with Closed, and they are shown what they
/// were.
fn show<J: ShareName, R: Wait>(rt: &R, writer: &mut StampWriter<J>) -> Result<(), ShareFault>
where
    Stamp<J>: Absorb<Handover<J>, State = u64>,
    requires { TakesNumber (λ operation. operation.number) ⟦<Stamp<J> as Absorb<Handover<J>>>⟧.state ⟦<Stamp<J> as Absorb<Handover<J>>>⟧.applied }
    ensures shown { OnOk result (length writer.new.desk.shown.value ≡ fold (λ before operation. operation.number) (length writer.old.desk.shown.value) (drop writer.old.behind writer.old.log.items)) }
    ensures stays { OnErr result (writer.new.desk.shown.value ≡ writer.old.desk.shown.value) }
    ensures closed { IfErr result (λ fault. fault ≡ ShareFault.Closed) }
{
    let shown = replace_with(writer, rt, |writer: StampWriter<J>, rt: &R| {
        writer.publish_as::<Unruled, R>(rt)
    });
    match shown {
        Ok(()) => Ok(()),
        Err(AllocError) => Err(ShareFault::Closed),
    }
}

/// What was published, as a publisher told it. Contracts see it as the flags.
#[derive(Drop)]
pub struct Told<J: ShareName> {
    pub(crate) front: HistoryPrefix<J>,
}

impl<J: ShareName> Model for Told<J> {
    ghost use Rattle.std.specs.Prelude.{List};
    ghost use Rattle.flag_defs.specs.declared.flags.Flags.{Flags};
    ghost use Rattle.flag_defs.specs.contracts.flags.Flags as entry;
    ghost use Rattle.std.specs.Coded.{codes};

    ghost Value = { List Flags };

    ghost coded = { Prim.hlevel (codes, entry.the_row.coded) };

    ghost view = { λ told. told.front };

    ghost invariant = { λ told. Unit {0} };
}

impl<J: ShareName> Told<J> {
    /// How many flags were published.
    pub fn number(&self) -> u64
        ensures { result ≡ length self.now }
    {
        self.front.len()
    }

    /// The same, once more. It takes no memory.
    pub fn again(&self) -> Told<J>
        ensures { result ≡ self.now }
    {
        Told {
            front: self.front.again(),
        }
    }
}
