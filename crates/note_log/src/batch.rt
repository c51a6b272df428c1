//! The lines of notes that are not remembered.
ghost use Rattle.std.specs.Prelude.{◌≡◌, IfOk, OnOk};
ghost use Rattle.std.specs.List.{flat_map};
ghost use Rattle.note_log.specs.Batch.{Adds, ArePrinted, IsBatch, items_of};
ghost use Rattle.note_log.specs.Recalled.{joined};

use crate::{Files, SharedMemory};
use bytes::BytesMut;
use http_server::Log;
use limits::INPUT_BYTES;
use note_lines::{Note, NoteForm, line_as};
use std::alloc::{AllocError, Global};

/// The lines of notes, and the same one after the other.
#[derive(Drop)]
pub(crate) struct Batch {
    pub(crate) lines: Vec<Vec<u8>>,
    pub(crate) bytes: BytesMut,
    /// The files that were open when the memory was asked, which only proofs read.
    pub(crate) shown: Log<Files, u8>,
}

/// The lines of these notes in a form that a memory does not know of a file that is open. A note whose input is too long has none.
#[tactic(auto, using(crate::proofs::Batches::batch_left))]
pub(crate) fn batch_of(
    alloc: Global,
    form: NoteForm,
    notes: &[Note],
    memory: &SharedMemory,
) -> Result<Batch, AllocError>
    ensures { IfOk result (λ batch. ∥ IsBatch form notes.now batch ∥₁) }
{
    let lines = lines_of(alloc, form, notes)?;
    let unknown = memory.unknown(alloc, lines)?;
    let bytes = joined(alloc, unknown.lines.as_slice())?;
    Ok(Batch {
        lines: unknown.lines,
        bytes,
        shown: unknown.shown,
    })
}

/// The lines of these notes.
fn lines_of(alloc: Global, form: NoteForm, notes: &[Note]) -> Result<Vec<Vec<u8>>, AllocError>
    ensures { IfOk result (λ lines. ArePrinted form notes.now lines.items) }
{
    let mut lines = Vec::new(alloc);
    for note in notes {
        add_line(alloc, form, note, &mut lines)?;
    }
    Ok(lines)
}

/// Adds the line of a note, where it has one.
fn add_line(
    alloc: Global,
    form: NoteForm,
    note: &Note,
    lines: &mut Vec<Vec<u8>>,
) -> Result<(), AllocError>
    ensures { OnOk result (Adds form note.now lines.old.items lines.new.items) }
{
    if note.input.len() > INPUT_BYTES {
        return Ok(());
    }
    let line = line_as(alloc, form, &note.page, note.input.as_str())?;
    // It may be remembered for long, and was printed into more room than it needs.
    lines.push(Vec::from_slice(alloc, line.as_slice())?)?;
    Ok(())
}

/// The lines, one after the other.
fn joined(alloc: Global, lines: &[Vec<u8>]) -> Result<BytesMut, AllocError>
    ensures { IfOk result (λ bytes. bytes.items ≡ joined (items_of lines.now)) }
{
    let mut bytes = BytesMut::new(alloc);
    for line in lines {
        bytes.extend_from_slice(line.as_slice())?;
    }
    Ok(bytes)
}
