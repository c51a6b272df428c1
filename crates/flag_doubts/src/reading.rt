//! The flags of a document, with what is found by the names in it.
ghost use Rattle.std.specs.Prelude.{◌≡◌, ◌<◌, ◌≤◌, false, length, IfOk, IsErrOf};
ghost use Rattle.std.specs.Str.{is_utf8};
ghost use Rattle.flag_defs.specs.Document.{max_bytes};
ghost use Rattle.flag_defs.specs.Flags.{HoldsUnless};
ghost use Rattle.flag_defs.specs.Floats.{MeansAs};
ghost use Rattle.member_names.specs.Repeated.{json_of};
ghost use Rattle.flag_doubts.specs.ReadBoth.{flags_of};
ghost use Rattle.flag_doubts.specs.Repeated.{Finds};

use crate::repeated::{Repeated, repeated_in};
use flag_defs::{DefFault, Flags, read_flags_as};
use limits::TEXT_BYTES;
use simdutf8::basic;
use std::alloc::{AllocError, Global};
use std::thread::{Threads, available_parallelism, join};

/// Documents of fewer bytes are walked sooner than a thread is made.
const ALONE: usize = 1 << 16;

/// A document that was read.
#[derive(Drop)]
pub struct ReadDocument {
    /// Its flags.
    pub flags: Flags,
    /// What stands more than once in it, and whether each member of it is read.
    pub names: Repeated,
}

/// The flags of a document, which may have floats or may not, and what stands more than once in it, each found by a processor of its own where there are two and
/// the document is large enough.
///
/// Its refusals are those of `read_flags_as`, whatever became of the names; want of memory for these comes last. The bytes are
/// walked for them in a thread of its own, and not at all where they are too many or no UTF-8.
pub fn read_with_names<R: Threads>(
    rt: &R,
    alloc: Global,
    bytes: &[u8],
    floats: bool,
) -> Result<ReadDocument, DefFault>
    ensures means { HoldsUnless (MeansAs floats bytes.now) (flags_of result) }
    ensures large { max_bytes < length bytes.now → IsErrOf result DefFault.TooLarge }
    ensures no_text { length bytes.now ≤ max_bytes → is_utf8 bytes.now ≡ false → IsErrOf result DefFault.NotJson }
    ensures names { IfOk result (λ d. Finds (json_of bytes.now) d.names) }
{
    if has_walk(bytes) && has_another(rt) {
        at_once(rt, alloc, bytes, floats)
    } else {
        in_turn(alloc, bytes, floats)
    }
}

/// Whether there is a walk that is worth a thread: the bytes are many, but not too many, and a text.
fn has_walk(bytes: &[u8]) -> bool {
    bytes.len() >= ALONE && bytes.len() <= TEXT_BYTES && basic::from_utf8(bytes).is_ok()
}

/// Whether there is another processor.
fn has_another(rt: &impl Threads) -> bool {
    match available_parallelism(rt) {
        Ok(processors) => processors.get() > 1,
        Err(_) => false,
    }
}

/// The flags here, and the names in a thread of their own, or behind the flags where none can be made.
fn at_once<R: Threads>(
    rt: &R,
    alloc: Global,
    bytes: &[u8],
    floats: bool,
) -> Result<ReadDocument, DefFault>
    ensures means { HoldsUnless (MeansAs floats bytes.now) (flags_of result) }
    ensures large { max_bytes < length bytes.now → IsErrOf result DefFault.TooLarge }
    ensures no_text { length bytes.now ≤ max_bytes → is_utf8 bytes.now ≡ false → IsErrOf result DefFault.NotJson }
    ensures names { IfOk result (λ d. Finds (json_of bytes.now) d.names) }
{
    let (names, flags) = join(
        rt,
        || -> Result<Repeated, AllocError>
            ensures { IfOk result (Finds (json_of bytes.entry.now)) }
        { repeated_in(alloc, bytes) },
        || -> Result<Flags, DefFault>
            ensures means { HoldsUnless (MeansAs floats bytes.entry.now) result }
            ensures large { max_bytes < length bytes.entry.now → IsErrOf result DefFault.TooLarge }
            ensures no_text { length bytes.entry.now ≤ max_bytes → is_utf8 bytes.entry.now ≡ false → IsErrOf result DefFault.NotJson }
        { read_flags_as(alloc, bytes, floats) },
    );
    let flags = flags?;
    let names = names?;
    Ok(ReadDocument { flags, names })
}

/// The flags, and then the names.
fn in_turn(alloc: Global, bytes: &[u8], floats: bool) -> Result<ReadDocument, DefFault>
    ensures means { HoldsUnless (MeansAs floats bytes.now) (flags_of result) }
    ensures large { max_bytes < length bytes.now → IsErrOf result DefFault.TooLarge }
    ensures no_text { length bytes.now ≤ max_bytes → is_utf8 bytes.now ≡ false → IsErrOf result DefFault.NotJson }
    ensures names { IfOk result (λ d. Finds (json_of bytes.now) d.names) }
{
    let flags = read_flags_as(alloc, bytes, floats)?;
    let names = repeated_in(alloc, bytes)?;
    Ok(ReadDocument { flags, names })
}
