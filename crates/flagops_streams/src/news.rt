//! What the publisher and the threads of the subscribers have to say to each other.
ghost use Rattle.std.specs.Prelude.{◌≡◌, ◌+◌, ◌-◌, ◌^◌, ◌&&◌, false, not, true, is_some, is_none, length, min, nat_le, nat_lt, option_map, replicate, slice_get, slice_set, if◌then◌else◌, None, Some, IfOk, IfSome, MatchOption};
ghost use Rattle.std.specs.List.{position};

use crate::disconnected::Disconnected;
use snap_share::{ShareName, Told};
use std::alloc::{AllocError, Global};

/// What was published, and how the streams of the subscribers ended. The lock of the board has it.
#[derive(Drop)]
pub(crate) struct News<J: ShareName> {
    /// What was published so far.
    published: Told<J>,
    /// Nothing more is published.
    is_over: bool,
    /// How many subscribers have a thread.
    present: usize,
    /// For each subscriber, by its place, how its stream ended, until that is taken.
    disconnected: Vec<Option<Disconnected>>,
}

impl<J: ShareName> News<J> {
    /// Nobody has a thread yet, of so many subscribers.
    pub(crate) fn new(
        alloc: Global,
        published: Told<J>,
        subscribers: usize,
    ) -> Result<News<J>, AllocError>
        ensures published { IfOk result (λ news. news.published ≡ published) }
        ensures open { IfOk result (λ news. news.is_over ≡ false) }
        ensures none { IfOk result (λ news. news.present ≡ 0) }
        ensures slots { IfOk result (λ news. news.disconnected.items ≡ replicate subscribers None) }
    {
        let disconnected = vec![in alloc; None::<Disconnected>; subscribers]?;
        Ok(News {
            published,
            is_over: false,
            present: 0,
            disconnected,
        })
    }

    /// Something was published.
    pub(crate) fn publish(&mut self, published: Told<J>)
        ensures { self.new ≡ record self.old { published = published } }
    {
        self.published = published;
    }

    /// Nothing more is published.
    pub(crate) fn close(&mut self)
        ensures { self.new ≡ record self.old { is_over = true } }
    {
        self.is_over = true;
    }

    /// A subscriber gets a thread.
    pub(crate) fn enter(&mut self)
        ensures { self.new ≡ record self.old { present = min (self.old.present + 1) (2 ^ 64 - 1) } }
    {
        self.present = self.present.saturating_add(1);
    }

    /// The thread of a subscriber, by its place, ends, and so did its stream, if it had one.
    pub(crate) fn leave(&mut self, place: usize, disconnected: Option<Disconnected>)
        ensures slot { self.new.disconnected.items ≡ slice_set self.old.disconnected.items place disconnected }
        ensures present { self.new.present ≡ self.old.present - 1 }
        ensures published { self.new.published ≡ self.old.published }
        ensures over { self.new.is_over ≡ self.old.is_over }
    {
        self.present = self.present.saturating_sub(1);
        if let Some(slot) = self.disconnected.get_mut(place) {
            *slot = disconnected;
        }
    }

    /// Whether no stream has ended that was not taken, while there are threads.
    pub(crate) fn awaits_end(&self) -> bool
        ensures { result ≡ (nat_lt 0 self.now.present && is_none (position is_some self.now.disconnected.items)) }
    {
        self.present > 0 && self.first_end().is_none()
    }

    /// The first subscriber, by its place, of those whose streams ended, and how. It is taken.
    pub(crate) fn take_end(&mut self) -> Option<(usize, Disconnected)>
        ensures first { option_map (λ taken. taken.0) result ≡ position is_some self.old.disconnected.items }
        ensures taken { IfSome result (λ taken. slice_get self.old.disconnected.items taken.0 ≡ Some (Some taken.1)) }
        ensures emptied { MatchOption result (self.new.disconnected.items ≡ self.old.disconnected.items) (λ taken. self.new.disconnected.items ≡ slice_set self.old.disconnected.items taken.0 None) }
        ensures present { self.new.present ≡ self.old.present }
        ensures published { self.new.published ≡ self.old.published }
        ensures over { self.new.is_over ≡ self.old.is_over }
    {
        let place = self.first_end()?;
        let slot = self.disconnected.get_mut(place)?;
        let taken = slot.take()?;
        Some((place, taken))
    }

    /// The place of the first subscriber whose stream ended.
    fn first_end(&self) -> Option<usize>
        ensures { result ≡ position is_some self.now.disconnected.items }
    {
        self.disconnected.iter().position(|slot| slot.is_some())
    }

    /// Whether there is no number above this one yet, and there may be.
    pub(crate) fn awaits_above(&self, after: u64) -> bool
        ensures { result ≡ (not self.now.is_over && nat_le (length self.now.published) after) }
    {
        !self.is_over && self.published.number() <= after
    }

    /// What was published, where its number is above this one.
    pub(crate) fn above(&self, after: u64) -> Option<Told<J>>
        ensures { result ≡ (if nat_lt after (length self.now.published) then Some self.now.published else None) }
    {
        if self.published.number() > after {
            Some(self.published.again())
        } else {
            None
        }
    }
}
