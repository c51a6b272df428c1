//! The numbers of a subscriber's stream.
ghost use Rattle.std.specs.Prelude.{◌≡◌, false};

use crate::board::Board;
use snap_share::{ShareName, Told};
use std::cell::Cell;
use std::sync::Wait;
use sync_server::NextNumber;

/// The numbers of what is published, from the board. With each it puts what was published into a cell, for the seat to learn.
#[derive(Drop)]
pub(crate) struct Numbers<'a, J: ShareName, R: Wait> {
    rt: &'a R,
    board: &'a Board<J>,
    told: &'a Cell<Option<Told<J>>>,
    /// The number above which the last one was asked for, 0 at first.
    pub(crate) after: u64,
    /// There will be no number above it.
    pub(crate) closed: bool,
}

impl<'a, J: ShareName, R: Wait> Numbers<'a, J, R> {
    pub(crate) fn new(
        rt: &'a R,
        board: &'a Board<J>,
        told: &'a Cell<Option<Told<J>>>,
    ) -> Numbers<'a, J, R>
        ensures open { result.closed ≡ false }
        ensures first { result.after ≡ 0 }
    {
        Numbers {
            rt,
            board,
            told,
            after: 0,
            closed: false,
        }
    }
}

impl<J: ShareName, R: Wait> NextNumber for Numbers<'_, J, R> {
    ghost use Rattle.std.specs.Prelude.{◌≡◌};

    ghost is_closed = { λ n. n.closed };

    // Others change the board meanwhile, so that no clause can tell more of what asking made of it.
    ghost asked = { λ old after new. new.after ≡ after };

    /// The latest number where it is above `after`. Else it waits for one, and gives None once nothing more is published.
    fn next(&mut self, after: u64) -> Option<u64> {
        self.after = after;
        match self.board.next_above(self.rt, after) {
            Some(published) => {
                let number = published.number();
                self.told.set(Some(published));
                Some(number)
            }
            None => {
                self.closed = true;
                None
            }
        }
    }
}
