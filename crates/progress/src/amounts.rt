//! Numbers as people read them.
use std::alloc::{AllocError, Global};

/// A number with a comma before each three digits, as far as millions.
fn grouped(alloc: Global, number: u64) -> Result<String, AllocError> {
    let ones = number % 1_000;
    let thousands = number / 1_000 % 1_000;
    let millions = number / 1_000_000;
    if millions > 0 {
        format!(in alloc; "{millions},{thousands:03},{ones:03}")
    } else if thousands > 0 {
        format!(in alloc; "{thousands},{ones:03}")
    } else {
        format!(in alloc; "{ones}")
    }
}

/// So many of so many, where that is known.
pub(crate) fn share(alloc: Global, done: u64, whole: u64) -> Result<String, AllocError> {
    let part = grouped(alloc, done)?;
    if whole == 0 {
        return Ok(part);
    }
    let whole = grouped(alloc, whole.max(done))?;
    format!(in alloc; "{part} of {whole}")
}

/// So many bytes of so many, where that is known, in a unit that suits the larger of both.
pub(crate) fn bytes(alloc: Global, done: u64, whole: u64) -> Result<String, AllocError> {
    let (unit, name) = match whole.max(done) {
        0..10_000 => (1, "bytes"),
        10_000..10_000_000 => (1_000, "kB"),
        _ => (1_000_000, "MB"),
    };
    let amount = share(alloc, done / unit, whole / unit)?;
    format!(in alloc; "{amount} {name}")
}
