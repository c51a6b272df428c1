//! The command `check` with its words.

/// What `check` is asked for: which flags of documents are good.
#[derive(Drop)]
pub struct Checking<'a> {
    /// The documents.
    pub documents: Vec<&'a str>,
    /// Whether a flag that is broken or doubted is no success.
    pub strict: bool,
    /// Whether the answer is printed as JSON.
    pub json: bool,
    /// Whether the documents may have floats.
    pub floats: bool,
}
