//! Two documents, the one in the place of the other.

use flag_defs::Flags;

/// Which of the two documents.
#[derive(Clone, Copy, Debug, PartialEq, Eq)]
pub enum Side {
    /// The document before the edit.
    Old,
    /// The document after it.
    New,
}

/// An edit: the flags of a document before and after it.
#[derive(Clone, Copy)]
pub struct Edit<'a> {
    pub old: &'a Flags,
    pub new: &'a Flags,
}
