//! What keeps a desk from answering.
ghost use Rattle.std.specs.Prelude.{◌≡◌, ◌+◌};
ghost use Rattle.control_desk.specs.Obstacles.{Grows, Met, met_by};

use http_server::Log;

/// What has kept a desk from answering so far: a pair for each time that it was met, which only proofs read.
#[derive(Drop)]
pub(crate) struct Obstacles {
    /// Another had the turn.
    taken: Log<u8, u8>,
    /// Another waited for the turn already.
    awaited: Log<u8, u8>,
    /// What is known of the documents of a snapshot was not set yet.
    unset: Log<u8, u8>,
    /// A later snapshot was published.
    outdated: Log<u8, u8>,
    /// A log that had been listed was gone.
    gone: Log<u8, u8>,
}

impl Obstacles {
    /// Nothing was met yet.
    pub(crate) fn none() -> Obstacles {
        Obstacles {
            taken: Log::new(),
            awaited: Log::new(),
            unset: Log::new(),
            outdated: Log::new(),
            gone: Log::new(),
        }
    }

    /// Another had the turn.
    pub(crate) fn meet_taken(&mut self)
        ensures once { (met_by self.new).taken ≡ (met_by self.old).taken + 1 }
        ensures grows { Grows (met_by self.old) (met_by self.new) }
    {
        self.taken = self.taken.and(&0, &0);
    }

    /// Another waited for the turn already.
    pub(crate) fn meet_awaited(&mut self)
        ensures once { (met_by self.new).awaited ≡ (met_by self.old).awaited + 1 }
        ensures grows { Grows (met_by self.old) (met_by self.new) }
    {
        self.awaited = self.awaited.and(&0, &0);
    }

    /// What is known of the documents of a snapshot was not set yet.
    pub(crate) fn meet_unset(&mut self)
        ensures once { (met_by self.new).unset ≡ (met_by self.old).unset + 1 }
        ensures grows { Grows (met_by self.old) (met_by self.new) }
    {
        self.unset = self.unset.and(&0, &0);
    }

    /// A later snapshot was published.
    pub(crate) fn meet_outdated(&mut self)
        ensures once { (met_by self.new).outdated ≡ (met_by self.old).outdated + 1 }
        ensures grows { Grows (met_by self.old) (met_by self.new) }
    {
        self.outdated = self.outdated.and(&0, &0);
    }

    /// A log that had been listed was gone.
    pub(crate) fn meet_gone(&mut self)
        ensures once { (met_by self.new).gone ≡ (met_by self.old).gone + 1 }
        ensures grows { Grows (met_by self.old) (met_by self.new) }
    {
        self.gone = self.gone.and(&0, &0);
    }
}
