//! Lines that are not remembered.
ghost use Rattle.note_log.specs.Memory.{AreLeft};
ghost use Rattle.note_log.specs.Shown.{shown_in};

use crate::files::Files;
use http_server::Log;

/// Some of several lines; each of the others stands in what a file that is open was handed.
#[derive(Drop)]
pub struct Unknown {
    pub lines: Vec<Vec<u8>>,
    /// The files when the memory was asked, where it was, which only proofs read.
    pub shown: Log<Files, u8>,
}

impl Unknown {
    /// All of the lines.
    #[tactic(auto, using(crate::proofs::Left::all_left))]
    pub(crate) fn all(lines: Vec<Vec<u8>>) -> Unknown
        ensures { ∥ AreLeft lines.items result.lines.items (shown_in result.shown.items) ∥₁ }
    {
        Unknown {
            lines,
            shown: Log::new(),
        }
    }
}
