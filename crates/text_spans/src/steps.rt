//! The steps of a path.

/// A step from a value to a part of it.
#[derive(Clone, Copy, Debug, Drop, PartialEq, Eq)]
pub enum Step<'a> {
    /// To the member of this name; of several the last.
    Name(&'a str),
    /// To the item at this index, from 0.
    Index(usize),
}
