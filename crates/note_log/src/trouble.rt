//! Why a log can't be written.

/// Why a log can't be written.
#[derive(Clone, Copy, Debug, PartialEq, Eq)]
pub enum Trouble {
    /// Its file is lost, and its path is not opened anew yet.
    Lost,
    /// A write has failed, and what it was given waits still.
    Unwritten,
}
