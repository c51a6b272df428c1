//! What a standard input began with, for diagnostics.
ghost use Rattle.std.specs.Prelude.{◌≡◌, ◌≤◌, ◌++◌, ℕ, List, [], take};
ghost use Rattle.file_diagnostics.specs.Ends.{ends_of};
ghost use Rattle.flagops_filters.specs.Opening.{most_kept};

use byte_streams::Inlet;
use file_diagnostics::Ends;
use std::io;

/// How many of the first bytes are kept.
const KEPT: usize = 4096;

/// Where bytes were read from, and what these began with. It is for people.
pub trait Opening {
    // The first bytes that were read.
    ghost first: { Self → List ℕ };

    /// What is seen at the two ends of the first bytes that were read: that there were none, or a byte order mark.
    fn opening(&self) -> Ends
        ensures { result ≡ ends_of (first self.now) };

    /// The first bytes that were read, at most 4,096.
    fn first_bytes(&self) -> &[u8]
        ensures { result.now ≡ first self.now };
}

/// An inlet that keeps the first bytes that were read.
#[derive(Drop)]
pub struct OpenedInlet<I> {
    inlet: I,
    front: Front,
}

impl<I: Inlet> OpenedInlet<I> {
    /// Over an inlet of which nothing was read yet.
    pub fn new(inlet: I) -> OpenedInlet<I>
        ensures bytes { ⟦<OpenedInlet<I> as Inlet>⟧.bytes result ≡ I.bytes inlet }
        ensures broken { ⟦<OpenedInlet<I> as Inlet>⟧.is_broken result ≡ I.is_broken inlet }
        ensures first { ⟦<OpenedInlet<I> as Opening>⟧.first result ≡ [] }
    {
        OpenedInlet {
            inlet,
            front: Front::new(),
        }
    }
}

impl<I: Inlet> Inlet for OpenedInlet<I> {
    ghost use Rattle.std.specs.Prelude.{◌≡◌, ◌++◌, ℕ, List, take};
    ghost use Rattle.std.specs.Io.KnownBytes.{Consumes};
    ghost use Rattle.flagops_filters.specs.Opening.{most_kept};

    ghost bytes = { λ o. I.bytes o.inlet };

    ghost is_broken = { λ o. I.is_broken o.inlet };

    // What was read is kept behind the first bytes before it, as far as there is room.
    ghost was_read = { λ old new. I.was_read old.inlet new.inlet
        × ((more : List ℕ) × (take new.front.count new.front.bytes ≡ take most_kept (take old.front.count old.front.bytes ++ more)) × Consumes (I.bytes old.inlet) (I.bytes new.inlet) more) };

    fn read(&mut self, buf: &mut [u8]) -> io::Result<usize> {
        let outcome = self.inlet.read(buf);
        if let Ok(count) = &outcome {
            self.front.keep(&buf[..*count]);
        }
        outcome
    }
}

impl<I> Opening for OpenedInlet<I> {
    ghost use Rattle.std.specs.Prelude.{take};

    ghost first = { λ o. take o.front.count o.front.bytes };

    fn opening(&self) -> Ends {
        Ends::of(self.front.kept())
    }

    fn first_bytes(&self) -> &[u8] {
        self.front.kept()
    }
}

/// The first bytes that were read, and how many there were.
#[derive(Drop)]
struct Front {
    bytes: [u8; KEPT],
    count: usize,
    ghost fits: { count ≤ 4096 },
}

impl Front {
    /// Nothing was read yet.
    fn new() -> Front
        ensures { take result.count result.bytes ≡ [] }
    {
        Front {
            bytes: [0; KEPT],
            count: 0,
        }
    }

    /// Keeps the first of more bytes, as far as there is room.
    fn keep(&mut self, more: &[u8])
        ensures { take self.new.count self.new.bytes ≡ take most_kept (take self.old.count self.old.bytes ++ more.now) }
    {
        let count = (KEPT - self.count).min(more.len());
        let end = self.count + count;
        self.bytes[self.count..end].copy_from_slice(&more[..count]);
        self.count = end;
    }

    /// The bytes that were kept.
    fn kept(&self) -> &[u8]
        ensures { result.now ≡ take self.now.count self.now.bytes }
    {
        &self.bytes[..self.count]
    }
}
