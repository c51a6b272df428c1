//! The command `book` with its words.

/// What `book` is asked for: the book of what several files note.
#[derive(Drop)]
pub struct Uniting<'a> {
    /// The file that is written.
    pub out: &'a str,
    /// The files that are read.
    pub files: Vec<&'a str>,
    /// Whether a line that is that of no note is passed over.
    pub torn: bool,
    /// Whether what the file that is written has may be lost.
    pub replace: bool,
}
