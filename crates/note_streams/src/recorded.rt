//! What is recorded of some lines.
ghost use Rattle.std.specs.Prelude.{◌≡◌};
ghost use Rattle.note_streams.specs.Record.{nothing};
ghost use Rattle.note_streams.specs.View.{recorded_view};

use crate::outcomes::Outcomes;
use std::alloc::Global;

/// What is recorded of some lines, up to the first that is no context.
#[derive(Debug, Drop)]
pub struct Recorded {
    /// The note lines.
    pub text: Vec<u8>,
    /// The number of lines, with the one that is no context.
    pub lines: u64,
    /// Whether the last of them is no context.
    pub refused: bool,
    /// What came of the contexts.
    pub outcomes: Outcomes,
}

impl Recorded {
    /// Nothing recorded: no line was taken yet.
    pub fn nothing(alloc: Global) -> Recorded
        ensures { recorded_view result ≡ nothing }
    {
        Recorded {
            text: Vec::new(alloc),
            lines: 0,
            refused: false,
            outcomes: Outcomes::none(),
        }
    }
}
