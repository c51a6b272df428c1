//! The table of the lines that are remembered.
ghost use Rattle.std.specs.Prelude.{◌≡◌, [], IfOk};
ghost use Rattle.std.specs.NonZero.{non_zero_usize_get};
ghost use Rattle.note_log.specs.Files.{History};
ghost use Rattle.note_log.specs.Memory.{AllStand, AllStandAt};

use lru::LruCache;
use std::alloc::{AllocError, Global};
use std::hash::RandomState;
use std::num::NonZeroUsize;

/// A table of so many lines. Their memory is taken as they come.
pub(crate) fn table_of(
    alloc: Global,
    keys: RandomState,
    most: NonZeroUsize,
) -> Result<LruCache<Vec<u8>, u64, RandomState>, AllocError>
    ensures empty { IfOk result (λ table. table.entries ≡ []) }
    ensures cap { IfOk result (λ table. table.cap ≡ non_zero_usize_get most) }
{
    let mut table = LruCache::unbounded_with_hasher(alloc, keys)?;
    table.resize(most);
    Ok(table)
}

/// Puts lines of the file of a number into a table, which forgets the least recently used where there are too many. Where memory runs
/// out a line is left out.
pub(crate) fn put_lines(
    table: &mut LruCache<Vec<u8>, u64, RandomState>,
    number: u64,
    lines: Vec<Vec<u8>>,
)
    ensures stand { (history : History) → AllStand history table.old.entries → AllStandAt history number lines.items → AllStand history table.new.entries }
    ensures most { table.new.cap ≡ table.old.cap }
{
    let mut lines = lines;
    while let Some(line) = lines.pop() {
        let _ = table.put(line, number);
    }
}
