//! What became of the connections of a worker.
ghost use Rattle.std.specs.Prelude.{◌≡◌};

use crate::patience::Patience;
use http_server::Config;
use std::io;

/// What became of the connections of a worker: the limits that they had, for how long they were kept, and whether the system failed.
/// Nothing but connections that were answered makes one.
#[derive(Drop)]
pub struct Served {
    pub(crate) config: Config,
    pub(crate) patience: Patience,
    pub(crate) outcome: io::Result<()>,
}

impl Served {
    /// Whether the system failed.
    pub fn into_outcome(self) -> io::Result<()>
        ensures { result ≡ self.outcome }
    {
        let Served {
            config: _,
            patience: _,
            outcome,
        } = self;
        outcome
    }
}
