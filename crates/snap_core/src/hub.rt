ghost use Rattle.std.specs.Prelude.{◌≡◌, false, None, Ok, IfOk, OnOk, OnErr, IsOk, IsErrOf, option_map};
ghost use Rattle.flag_text.specs.Outcome.{GivesUnless};
ghost use Rattle.flag_defs.specs.Flags.{flags_view};
ghost use Rattle.source_merge.specs.Outcome.{outcome};
ghost use Rattle.snap_core.specs.Hub.{hub_joined, hub_left, hub_published, hub_taken, may_join, members_after, newer_than, number_in, opening_hub, taken_by, with_taken};

use crate::fault::HubFault;
use crate::snapshot::Snapshot;
use flag_defs::Flags;
use std::alloc::{AllocError, Global};
use std::collections::BTreeMap;

/// The most subscribers at a time.
const MOST_MEMBERS: usize = 256;

/// How many ids there are.
const IDS: u128 = 1 << 64;

/// The id of a subscriber. Ids are given from 0 on, each once.
#[derive(Clone, Copy, Debug, PartialEq, Eq)]
pub struct SubId(pub u64);

/// The current snapshot and its subscribers, each with the number that it took last. Only the current snapshot is kept.
#[derive(Drop)]
pub struct Hub {
    pub(crate) current: Option<Snapshot>,
    pub(crate) members: BTreeMap<u64, u64>,
    pub(crate) next: u128,
}

impl Hub {
    ghost use Rattle.snap_core.specs.HubView.{hub_view, snapshot_view};

    /// No snapshot, so the number is 0, and no subscribers. It takes no memory yet.
    pub fn new(alloc: Global) -> Hub
        ensures { hub_view result ≡ opening_hub }
    {
        Hub {
            current: None,
            members: BTreeMap::new(alloc),
            next: 0,
        }
    }

    /// Puts flags in the place of the current snapshot, under the next number, which it answers. `LastNumber` where the
    /// number is 2^64-1; the hub stays then. It takes no memory.
    pub fn publish(&mut self, flags: Flags) -> Result<u64, HubFault>
        ensures exact { outcome (hub_view self.new) result ≡ hub_published (hub_view self.old) (flags_view flags) }
        ensures number { IfOk result (λ n. n ≡ number_in (hub_view self.new).current) }
        ensures refused { OnErr result (hub_view self.new ≡ hub_view self.old) }
    {
        let number = self.number();
        if number == u64::MAX {
            return Err(HubFault::LastNumber);
        }
        let number = number + 1;
        self.current = Some(Snapshot { number, flags });
        Ok(number)
    }

    /// One more subscriber, which has taken nothing yet, under the next id. `TooManySubs` at 256 subscribers, or where each
    /// id has been given; that takes no memory. A refusal leaves the hub as it was.
    pub fn join(&mut self) -> Result<SubId, HubFault>
        ensures exact { GivesUnless HubFault.WantOfMemory (λ _. hub_view self.new) result (hub_joined (hub_view self.old)) }
        ensures id { IfOk result (λ sub. sub.0 ≡ (hub_view self.old).next) }
        ensures refused { OnErr result (hub_view self.new ≡ hub_view self.old) }
        ensures too_many { may_join (hub_view self.old).next (hub_view self.old).members ≡ false → IsErrOf result HubFault.TooManySubs }
    {
        if self.members.len() >= MOST_MEMBERS {
            return Err(HubFault::TooManySubs);
        }
        if self.next >= IDS {
            return Err(HubFault::TooManySubs);
        }
        let id = self.next as u64;
        self.members.insert(id, 0)?;
        self.next += 1;
        Ok(SubId(id))
    }

    /// A copy of the current snapshot, where its number is above the one that the subscriber took last; nothing is copied
    /// otherwise. `NoSub` where the id is no subscriber's. Only the copy takes memory. A refusal leaves the hub as it was.
    pub fn take(&mut self, alloc: Global, sub: SubId) -> Result<Option<Snapshot>, HubFault>
        ensures exact { GivesUnless HubFault.WantOfMemory (option_map snapshot_view) result (hub_taken (hub_view self.old) sub.0) }
        ensures after { IfOk result (λ s. hub_view self.new ≡ record (hub_view self.old) { members = members_after sub.0 (option_map snapshot_view s) (hub_view self.old).members }) }
        ensures refused { OnErr result (hub_view self.new ≡ hub_view self.old) }
        ensures no_sub { taken_by sub.0 (hub_view self.old).members ≡ None → IsErrOf result HubFault.NoSub }
        ensures nothing_new { hub_taken (hub_view self.old) sub.0 ≡ Ok None → IsOk result }
    {
        let Some(last) = self.members.get(&sub.0).copied() else {
            return Err(HubFault::NoSub);
        };
        let Some(snapshot) = self.newer(alloc, last)? else {
            return Ok(None);
        };
        mark(&mut self.members, sub.0, snapshot.number);
        Ok(Some(snapshot))
    }

    /// Without a subscriber, whose id is never given again. `NoSub` where the id is no subscriber's. It takes no memory.
    pub fn leave(&mut self, sub: SubId) -> Result<(), HubFault>
        ensures exact { outcome (hub_view self.new) result ≡ hub_left (hub_view self.old) sub.0 }
        ensures refused { OnErr result (hub_view self.new ≡ hub_view self.old) }
    {
        match self.members.remove(&sub.0) {
            Some(_) => Ok(()),
            None => Err(HubFault::NoSub),
        }
    }

    /// The number of the current snapshot, 0 where there is none.
    fn number(&self) -> u64
        ensures { result ≡ number_in (hub_view self.now).current }
    {
        match &self.current {
            Some(snapshot) => snapshot.number,
            None => 0,
        }
    }

    /// A copy of the current snapshot, where its number is above this one.
    fn newer(&self, alloc: Global, last: u64) -> Result<Option<Snapshot>, AllocError>
        ensures value { IfOk result (λ s. option_map snapshot_view s ≡ newer_than last (hub_view self.now).current) }
        ensures nothing { newer_than last (hub_view self.now).current ≡ None → IsOk result }
    {
        match &self.current {
            Some(snapshot) if last < snapshot.number => Ok(Some(snapshot.copy(alloc)?)),
            _ => Ok(None),
        }
    }
}

/// Notes that a subscriber has taken this number.
fn mark(members: &mut BTreeMap<u64, u64>, id: u64, number: u64)
    ensures { members.new.entries ≡ with_taken id number members.old.entries }
{
    if let Some(last) = members.get_mut(&id) {
        *last = number;
    }
}
