//! A thread's pass to a shared book.
ghost use Rattle.std.specs.Prelude.{◌≡◌, ◌≤◌, [], ◌∷◌, length, false, Ok};
ghost use Rattle.book_core.specs.Calls.{is_new};
ghost use Rattle.book_lock.specs.Seen.{one_if, view_of};
ghost use Rattle.book_lock.specs.Counts.{news_of, own};

use crate::lock::Place;
use crate::name::BookName;
use book_core::Noted;
use std::marker::{Model, PhantomData};

/// A thread's pass to a shared book. Contracts see its number and the list of accepted calls that it has seen; those of
/// its number are its own. It keeps two counts, whatever number of calls it makes.
#[derive(Drop)]
pub struct Seat<L: BookName> {
    pub(crate) number: u64,
    pub(crate) calls: u64,
    pub(crate) news: u64,
    pub(crate) place: Place,
    pub(crate) of: PhantomData<L>,
}

impl<L: BookName> Model for Seat<L> {
    ghost use Rattle.std.specs.Prelude.{◌≡◌, ◌<◌, ◌≤◌, [], length};
    ghost use Rattle.book_lock.specs.declared.call.Sight.{Sight};
    ghost use Rattle.book_lock.specs.Counts.{news_of, own};
    ghost use Rattle.book_lock.specs.Rule.{idle};
    ghost use Rattle.book_lock.specs.Seen.{IsLegal, seen_in, sight};

    ghost Value = { Sight };

    ghost view = { λ s. sight s.number (seen_in s.place.me.0.seats) };

    ghost invariant = { λ s. (s.place.table_id ≡ L.table) × (s.place.me ≡ (idle s.number (seen_in s.place.me.0.seats), [])) × (s.number < 64) × (s.calls ≡ length (own (sight s.number (seen_in s.place.me.0.seats)))) × (s.news ≡ news_of (own (sight s.number (seen_in s.place.me.0.seats)))) × (s.news ≤ s.calls) };
}

impl<L: BookName> Seat<L> {
    /// How many of its calls were accepted.
    pub fn calls(&self) -> u64
        ensures { result ≡ length (own self.now) }
    {
        self.calls
    }

    /// How many of its calls were New.
    pub fn news(&self) -> u64
        ensures { result ≡ news_of (own self.now) }
    {
        self.news
    }
}

impl<L: BookName> Seat<L> {
    /// What the seat steps with.
    pub(crate) fn into_place(self) -> Place
        ensures table { result.table_id ≡ L.table }
        ensures one { result.me ≡ (view_of false (self ∷ []), []) }
    {
        let Seat {
            number: _,
            calls: _,
            news: _,
            place,
            of: _,
        } = self;
        place
    }
}

/// How many new inputs a reply tells of.
pub(crate) fn news_in(noted: Noted) -> u64
    ensures value { result ≡ one_if (is_new (Ok noted)) }
    ensures few { result ≤ 1 }
{
    match noted {
        Noted::New => 1,
        Noted::Again => 0,
    }
}
