//! Notes before answers.
ghost use Rattle.std.specs.Prelude.{◌≡◌, IfOk, OnErr};
ghost use Rattle.flag_defs.specs.Flags.{flags_view};
ghost use Rattle.note_log.specs.Log.{logged};
ghost use Rattle.ofrep_answers.specs.Answer.{answer_view};
ghost use Rattle.ofrep_worker.specs.Answers.{HandsOver, RecordedFirst, RecordedIn, kept_in, kept_of, trouble_in};
ghost use Rattle.ofrep_worker.specs.Notes.{notes_of};

use crate::notes::notes_of;
use flag_defs::Flags;
use log_file::LogFile;
use note_lines::Note;
use note_log::{NoteLog, Trouble};
use ofrep_answers::Answer;
use std::alloc::{AllocError, Global};

/// Records the notes of an answer, and says whether all of them stand in the log, or in another of the process. Where no log is kept
/// there is nothing to do.
pub(crate) fn record_answer<F: LogFile>(
    alloc: Global,
    log: &mut Option<NoteLog<'_, F>>,
    flags: &Flags,
    answer: &Answer,
) -> Result<bool, AllocError>
    ensures records { IfOk result (λ all. RecordedIn all (notes_of (flags_view flags.now) (answer_view answer.now)) (kept_in log.old) (kept_in log.new)) }
    ensures err { OnErr result (log.new ≡ log.old) }
{
    match log {
        Some(log) => {
            let notes = notes_of(alloc, flags, answer)?;
            record_first(alloc, log, notes.as_slice())
        }
        None => Ok(true),
    }
}

/// Records notes, and says whether all of them stand in the log. Where there are none the log is left alone.
fn record_first<F: LogFile>(
    alloc: Global,
    log: &mut NoteLog<'_, F>,
    notes: &[Note],
) -> Result<bool, AllocError>
    ensures records { IfOk result (λ all. RecordedFirst all notes.now (kept_of log.old) (kept_of log.new)) }
    ensures err { OnErr result (log.new ≡ log.old) }
{
    if notes.is_empty() {
        return Ok(true);
    }
    log.record(alloc, notes)
}

/// Hands over what waits of earlier notes, as far as the file takes it.
#[tactic(auto, using(crate::proofs::Recorded::handed_over))]
pub(crate) fn record_waiting<F: LogFile>(alloc: Global, log: &mut NoteLog<'_, F>)
    ensures handed { ∥ HandsOver (logged log.old) (logged log.new) ∥₁ }
    ensures looks { F.looks log.new.journal.journal.file ≡ F.looks log.old.journal.journal.file }
{
    let _ = log.record(alloc, &[]);
}

/// Why the log can't be written, where one is kept and it can't.
pub(crate) fn trouble_in<F: LogFile>(log: &Option<NoteLog<'_, F>>) -> Option<Trouble>
    ensures { result ≡ trouble_in (kept_in log.now) }
{
    match log {
        Some(log) => log.trouble(),
        None => None,
    }
}
