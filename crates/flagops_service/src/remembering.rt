//! What the logs of the workers remember.
ghost use Rattle.std.specs.Prelude.{◌≡◌, IfOk, option_map};
ghost use Rattle.std.specs.NonZero.{non_zero_usize_get};
ghost use Rattle.flagops_service.specs.Words.{some_of};

use note_log::NoteMemory;
use std::alloc::{AllocError, Global};
use std::hash::RandomState;
use std::num::NonZeroUsize;

/// A memory of so many notes for all workers; none where it is none.
pub(crate) fn memory_of(
    alloc: Global,
    keys: RandomState,
    notes: u64,
) -> Result<Option<NoteMemory>, AllocError>
    ensures { IfOk result (λ memory. option_map (λ m. m.table.cap) memory ≡ some_of notes) }
{
    match most_of(notes) {
        Some(most) => Ok(Some(NoteMemory::new(alloc, keys, most)?)),
        None => Ok(None),
    }
}

/// The number of notes that are remembered, where it is not 0.
fn most_of(notes: u64) -> Option<NonZeroUsize>
    ensures { option_map non_zero_usize_get result ≡ some_of notes }
{
    NonZeroUsize::new(notes as usize)
}
