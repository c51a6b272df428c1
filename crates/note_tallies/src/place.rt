//! Where a line is counted.

/// Where a line is counted.
#[derive(Clone, Copy)]
pub(crate) enum Place {
    /// It is of the page, and at this point.
    Own(u32),
    /// It is of another page.
    Other,
}
