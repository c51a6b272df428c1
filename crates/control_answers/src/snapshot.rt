//! A snapshot.

use flag_defs::Flags;

/// What a service answers from: the flags of a document.
#[derive(Clone, Copy)]
pub struct Snapshot<'a> {
    /// Its number, from 1.
    pub number: u64,
    /// The text of the document.
    pub document: &'a str,
    /// The flags that the document means.
    pub flags: &'a Flags,
}
