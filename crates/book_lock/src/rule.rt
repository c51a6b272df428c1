//! The rule of the lock, and its steps.
ghost use Rattle.book_core.specs.Calls.{Call as Called};

use crate::call::View;
use atomic_table::{Join, Play, Split, TableRule};
use book_core::Book;
use std::marker::{Brand, PhantomData};

/// The rule of a book with so many seats.
pub struct Orders;

impl TableRule<Option<Book>, View, u64> for Orders {
    ghost use Rattle.std.specs.Prelude.{false};
    ghost use Rattle.book_lock.specs.Rule.{Orderly};
    ghost use Rattle.book_lock.specs.Seen.{unseen, view_of};

    ghost holds = { λ n. Orderly n };

    ghost first = { λ n. view_of false (unseen n) };
}

/// The word is taken, or found with another.
pub(crate) struct Take;

impl Play<Option<Book>, View> for Take {
    ghost use Rattle.book_lock.specs.Rule.{Takes};

    ghost then = { λ st m r n. Takes m r n };
}

/// The word is given back, and the book is as it was.
pub(crate) struct Give;

impl Play<Option<Book>, View> for Give {
    ghost use Rattle.book_lock.specs.Rule.{Gives};

    ghost then = { λ st m r n. Gives m n };
}

/// A call that was accepted. Who makes it picks it.
pub trait Accepted {
    ghost call: { Called };
}

impl Accepted for Brand {
    ghost use Rattle.book_lock.specs.Rule.{no_call};

    ghost call = { no_call };
}

/// The word is given back with one call more.
pub(crate) struct Record<C: Accepted> {
    of: PhantomData<C>,
}

impl<C: Accepted> Play<Option<Book>, View> for Record<C> {
    ghost use Rattle.book_lock.specs.Rule.{Records};

    ghost then = { λ st m r n. Records C.call m n };
}

/// A view gives up its first seat; a view takes over the seats of another.
pub(crate) struct Cut;

impl Split<View> for Cut {
    ghost use Rattle.std.specs.Prelude.{false};
    ghost use Rattle.book_lock.specs.Seen.{first_of, rest_of, view_of};

    ghost left = { λ v. view_of v.holds (rest_of v.seats) };

    ghost right = { λ v. view_of false (first_of v.seats) };
}

impl Join<View> for Cut {
    ghost use Rattle.std.specs.Prelude.{◌++◌};
    ghost use Rattle.book_lock.specs.Seen.{view_of};
    ghost use Rattle.book_lock.specs.Rule.{spent};

    ghost both = { λ v w. view_of v.holds (w.seats ++ v.seats) };

    ghost spent = { spent };
}
