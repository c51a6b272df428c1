//! Stretches of plain inputs, looked through by all processors.
ghost use Rattle.std.specs.Prelude.{◌≡◌, ◌<◌, ℕ, List, length, true};
ghost use Rattle.page_tally.specs.Parts.{IsEndOf};
ghost use Rattle.page_tally.specs.Stretch.{IsStretchOf};

use crate::parts::behind_first;
use crate::plain::short_line;
use crate::run::{ALONE, parts_wanted};
use std::thread::{Threads, join};

/// Plain inputs that were looked at: whether one of them does not begin with a key, and the bytes behind them.
#[derive(Drop)]
pub(crate) struct Stretch<'a> {
    pub(crate) lacks: bool,
    pub(crate) rest: &'a [u8],
}

impl<'a> Stretch<'a> {
    /// Takes the next line where it is plain, unless an input that does not begin with the key was taken. Gives whether it
    /// did.
    fn take_next(&mut self, key: &[u8]) -> bool
        ensures stretch { (bytes : List ℕ) → IsStretchOf bytes key.now self.old → IsStretchOf bytes key.now self.new }
        ensures shorter { result ≡ true → length self.new.rest.now < length self.old.rest.now }
    {
        if self.lacks {
            return false;
        }
        let Some((input, rest)) = short_line(self.rest) else {
            return false;
        };
        self.lacks = !input.starts_with(key);
        self.rest = rest;
        true
    }

    /// This stretch and the one that was read from the bytes behind, where they follow on one another; else this one alone.
    fn joined(self, next: Stretch<'a>, behind: &[u8]) -> Stretch<'a>
        ensures { (bytes key : List ℕ) → IsStretchOf bytes key self.entry → IsEndOf bytes behind.now → IsStretchOf behind.now key next.entry → IsStretchOf bytes key result }
    {
        if !self.lacks && self.rest.len() == behind.len() {
            next
        } else {
            self
        }
    }
}

/// The plain inputs that stand first, up to one that does not begin with a key. Behind the first bytes they are looked
/// through in parts, each time twice as many bytes as before, so that about as many are read in vain at most as were looked at.
#[tactic(auto, using(crate::proofs::Lacking::no_stretch, crate::proofs::Lacking::stretch_then))]
pub(crate) fn plain_stretch<'a, R: Threads>(rt: &R, bytes: &'a [u8], key: &[u8]) -> Stretch<'a>
    ensures { IsStretchOf bytes.now key.now result }
{
    let mut stretch = Stretch {
        lacks: false,
        rest: bytes,
    };
    let mut size = ALONE;
    let mut parts = 1;
    while !stretch.lacks && !stretch.rest.is_empty() {
        let stop = stretch.rest.len().saturating_sub(size);
        stretch = in_parts(rt, stretch.rest, stop, key, parts);
        if stretch.rest.len() > stop {
            break;
        }
        size = size.saturating_mul(2);
        parts = parts_wanted(rt);
    }
    stretch
}

/// The same in so many parts at the same time, up to the line behind which no more than so many bytes are left.
fn in_parts<'a, R: Threads>(
    rt: &R,
    bytes: &'a [u8],
    stop: usize,
    key: &[u8],
    parts: usize,
) -> Stretch<'a>
    ensures { IsStretchOf bytes.now key.now result }
{
    if parts < 2 {
        return alone(bytes, stop, key);
    }
    let behind = behind_first(bytes, stop, parts, 1);
    let parts = parts - 1;
    let (front, next) = join(
        rt,
        || -> Stretch<'_>
            ensures { IsStretchOf bytes.entry.now key.entry.now result }
        { alone(bytes, behind.len(), key) },
        || -> Stretch<'_>
            ensures { IsStretchOf behind.entry.now key.entry.now result }
        { in_parts(rt, behind, stop, key, parts) },
    );
    front.joined(next, behind)
}

/// The same in one part.
#[tactic(auto, using(crate::proofs::Lacking::no_stretch))]
fn alone<'a>(bytes: &'a [u8], stop: usize, key: &[u8]) -> Stretch<'a>
    ensures { IsStretchOf bytes.now key.now result }
{
    let mut stretch = Stretch {
        lacks: false,
        rest: bytes,
    };
    while stretch.rest.len() > stop {
        if !stretch.take_next(key) {
            break;
        }
    }
    stretch
}
