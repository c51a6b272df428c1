//! Parts of a page, read at the same time.
ghost use Rattle.std.specs.Prelude.{◌<◌, IfOk, IfSome};
ghost use Rattle.bucket_core.specs.Rule.{IsRuleTotal};
ghost use Rattle.page_tally.specs.Parts.{IsEndOf, IsPartOf};

use crate::part::{Part, read_part};
use book_core::feed_at;
use std::alloc::{AllocError, Global};
use std::thread::{Threads, join};

/// Reads the plain lines that stand first, as `read_part` does, in so many parts at the same time: the last in a thread of its
/// own, the others likewise, and the first one here, to which the others are then joined one after another.
pub(crate) fn read_parts<'a, R: Threads>(
    rt: &R,
    alloc: Global,
    bytes: &'a [u8],
    stop: usize,
    total: Option<u32>,
    parts: usize,
) -> Result<Option<Part<'a>>, AllocError>
    requires { IfSome total IsRuleTotal }
    ensures { IfOk result (λ r. IfSome r (IsPartOf bytes.now total)) }
{
    if parts < 2 {
        return read_part(alloc, bytes, stop, total);
    }
    let others = parts - 1;
    let behind = behind_first(bytes, stop, parts, others);
    let (next, front) = join(
        rt,
        || -> Result<Option<Part<'_>>, AllocError>
            requires { IfSome total IsRuleTotal }
            ensures { IfOk result (λ r. IfSome r (IsPartOf behind.entry.now total)) }
        { read_part(alloc, behind, stop, total) },
        || -> Result<Option<Part<'_>>, AllocError>
            requires { IfSome total IsRuleTotal }
            ensures { IfOk result (λ r. IfSome r (IsPartOf bytes.entry.now total)) }
        { read_parts(rt, alloc, bytes, behind.len(), total, others) },
    );
    match front? {
        None => Ok(None),
        Some(front) => Ok(Some(front.joined(next?, behind)?)),
    }
}

/// The bytes from the first line on that begins behind the first ones of so many parts of those before the stop.
pub(crate) fn behind_first<'a>(bytes: &'a [u8], stop: usize, parts: usize, first: usize) -> &'a [u8]
    requires { 0 < parts }
    ensures { IsEndOf bytes.now result.now }
{
    let part = bytes.len().saturating_sub(stop) / parts;
    let size = part.saturating_mul(first).min(bytes.len());
    match feed_at(&bytes[size..]) {
        None => &bytes[bytes.len()..],
        Some(at) => &bytes[size + at + 1..],
    }
}
