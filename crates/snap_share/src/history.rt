//! The history of published flags.
ghost use Rattle.std.specs.Prelude.{◌≡◌, []};
ghost use Rattle.snap_share.specs.History.{head_of};

use crate::front::HistoryPrefix;
use flag_defs::Flags;
use logbook::{Gain, Plain, Play, Rule, Seen, Start, Word};
use std::marker::{Brand, PhantomData};

/// The rule of the history.
pub struct Law;

impl Rule<Flags, u64> for Law {
    ghost use Rattle.std.specs.Prelude.{[]};
    ghost use base.Fml.{ftrue};
    ghost use Rattle.snap_share.specs.History.{IsKept};

    ghost holds = { λ cells history. IsKept cells history };

    ghost first = { [] };

    ghost hinted = { λ n history. Unit {0} };

    ghost shows = { λ history. [] };

    ghost keeps = { λ names history. ftrue };

    ghost moves = { λ ask before after answer. Unit {0} };
}

/// Callers trade nothing.
pub struct Nothing;

impl Gain<Flags, u64> for Nothing {
    ghost use base.Fml.{ftrue};

    ghost after = { λ names about answer. ftrue };
}

/// The step that adds flags.
pub struct Add;

impl Play<Flags, u64> for Add {
    ghost use Rattle.snap_share.specs.History.{Adds};

    ghost then = { Adds };
}

impl Plain<Flags, Flags, u64> for Add {
    ghost use Rattle.std.specs.Prelude.{None};

    ghost ask = { λ flags. flags };

    ghost state = { λ flags. None };
}

/// Names what is shared: a publisher, its seats and what they are told carry the name in their types, so those of another
/// `share` are of other types. A function that shares is generic over the name, and is called with `Brand` for it.
pub trait ShareName {
    ghost use Rattle.logbook.specs.Pages.{Book};

    ghost book: { Book };
}

impl ShareName for Brand {
    ghost book = { record { number = 0; log_name = 0; cells_name = 0 } };
}

/// An empty history, before its name is picked.
#[derive(Drop)]
pub struct History {
    head: Word<Flags, u64, Law>,
    pub seen: Seen<Flags, u64, Law>,
    ghost empty: { seen.log ≡ [] },
    ghost head_is: { head ≡ head_of seen.book },
}

impl History {
    /// It takes no memory.
    pub fn new() -> History
        ensures { result.seen.log ≡ [] }
    {
        let (seen, mut first, _second) = Seen::open(Start::alone(), 0, 0);
        History {
            head: Word::tracked(0, &mut first),
            seen,
        }
    }

    /// The history's word under a name, and the prefix that has seen nothing.
    pub(crate) fn named<J: ShareName>(self) -> (Head<J>, HistoryPrefix<J>)
        requires { self.seen.book ≡ J.book }
        ensures { result.1 ≡ [] }
    {
        let History { head, seen } = self;
        let head = Head {
            word: head,
            of: PhantomData,
        };
        (head, HistoryPrefix::of(seen))
    }
}

/// The word that is the history's length.
#[derive(Drop)]
pub(crate) struct Head<J: ShareName> {
    pub(crate) word: Word<Flags, u64, Law>,
    of: PhantomData<J>,
    pub(crate) ghost head_is: { word ≡ head_of J.book },
}
