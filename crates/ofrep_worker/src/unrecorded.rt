//! Answers whose notes can't be recorded.
ghost use Rattle.std.specs.Prelude.{◌≡◌, ◌||◌};
ghost use Rattle.ofrep_worker.specs.Answers.{is_answered};

/// What becomes of an answer whose notes can't be recorded.
#[derive(Clone, Copy, Debug, PartialEq, Eq)]
pub enum WithoutRecord {
    /// It is given all the same.
    Answer,
    /// It is not given: the caller is told that the log can't be written.
    Refuse,
}

impl WithoutRecord {
    /// Whether an answer is given, where its notes were recorded or not.
    pub(crate) fn gives(self, recorded: bool) -> bool
        ensures { result ≡ (recorded || is_answered self) }
    {
        match self {
            WithoutRecord::Answer => true,
            WithoutRecord::Refuse => recorded,
        }
    }
}
