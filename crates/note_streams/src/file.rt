//! A log file.

/// A log file that was read.
#[derive(Clone, Copy, Debug)]
pub struct LogFile<'a> {
    /// The name by which a refusal tells it.
    pub name: &'a str,
    /// Its bytes.
    pub bytes: &'a [u8],
}
