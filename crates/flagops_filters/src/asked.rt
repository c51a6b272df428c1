//! The filters with their words.
use flagops_words::{Factor, Moment};

/// What `record` is asked for: the note lines of what a flag's evaluation reaches in each context of the standard input, by so
/// many workers.
#[derive(Clone, Copy, Debug)]
pub struct Recording<'a> {
    pub document: &'a str,
    pub key: &'a str,
    pub moment: Option<Moment>,
    pub workers: usize,
    /// Whether the document may have floats.
    pub floats: bool,
}

/// What `tally` is asked for: the tally of the note lines of the standard input, at a site of a flag.
#[derive(Clone, Copy, Debug)]
pub struct Tallying<'a> {
    pub document: &'a str,
    pub key: &'a str,
    pub site: u32,
    pub refine: Option<Factor>,
    /// Whether the document may have floats.
    pub floats: bool,
}

/// What `join` is asked for: the tally of the lines of one and of others, which follow it.
#[derive(Debug, Drop)]
pub struct Joining<'a> {
    pub first: &'a str,
    pub others: Vec<&'a str>,
}
