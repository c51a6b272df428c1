//! The command `compare` with its words.

/// What `compare` is asked for: what the edit from one document to another does to recorded users.
#[derive(Drop)]
pub struct Comparing<'a> {
    /// The document before the edit.
    pub old: &'a str,
    /// The document after it.
    pub new: &'a str,
    /// The book, or the tally.
    pub book: &'a str,
    /// The flag whose pages are compared, where it is not all.
    pub flag: Option<&'a str>,
    /// The file that the picture is written to, where one is asked for.
    pub picture: Option<&'a str>,
    /// Whether a page that has no rules to compare, or a flag without a page, is no success.
    pub strict: bool,
    /// Whether the answer is printed as JSON.
    pub json: bool,
    /// Whether the documents may have floats.
    pub floats: bool,
}
