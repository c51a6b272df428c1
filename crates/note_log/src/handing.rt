//! Bytes handed to a log.
ghost use Rattle.std.specs.Prelude.{◌≡◌, ◌++◌, ◌<◌, ◌≤◌, ◌==◌, ℕ, None, false, true, length, take};
ghost use Rattle.std.specs.Io.KnownBytes.{append_known};
ghost use Rattle.log_file.specs.Handed.{handed_in};
ghost use Rattle.note_log.specs.Sound.{IsCounted};
ghost use Rattle.note_log.specs.Handing.{Moves};

use crate::NumberedJournal;
use bytes::{Buf, BytesMut};
use log_file::{LogFile, lines_in};

/// Hands over the bytes that wait, as far as the log takes them, and says whether it took all. It takes all unless it is lost or a
/// write fails. The lines of which it took the end are counted.
pub(crate) fn hand_over<F: LogFile>(
    journal: &mut NumberedJournal<F>,
    waiting: &mut BytesMut,
    written: &mut u64,
) -> bool
    ensures moves { Moves (F.bytes journal.old.journal.file) (F.bytes journal.new.journal.file) (handed_in journal.old.journal.handed.writes.items) (handed_in journal.new.journal.handed.writes.items) waiting.old.items waiting.new.items }
    ensures written { (before : ℕ) → IsCounted before (handed_in journal.old.journal.handed.writes.items) written.old → IsCounted before (handed_in journal.new.journal.handed.writes.items) written.new }
    ensures all { result ≡ (length waiting.new.items == 0) }
    ensures lost { journal.new.journal.lost ≡ journal.old.journal.lost }
    ensures looks { F.looks journal.new.journal.file ≡ F.looks journal.old.journal.file }
    ensures taken { journal.old.journal.lost ≡ None → result ≡ true → F.faults journal.new.journal.file ≡ F.faults journal.old.journal.file }
    ensures refused { journal.old.journal.lost ≡ None → result ≡ false → F.faults journal.old.journal.file < F.faults journal.new.journal.file }
{
    while !waiting.is_empty() {
        let count = hand_front(journal, waiting);
        if count == 0 {
            return false;
        }
        *written = written.saturating_add(lines_in(&waiting.as_slice()[..count]));
        waiting.advance(count);
    }
    true
}

/// Hands over a front of bytes, and says of how many: none where the log is lost or the write fails.
#[tactic(auto, using(crate::proofs::Moved::known_nil, crate::proofs::Faults::fault_none, crate::proofs::Faults::fault_some))]
fn hand_front<F: LogFile>(journal: &mut NumberedJournal<F>, bytes: &BytesMut) -> usize
    requires { 0 < length bytes.now.items }
    ensures bytes { F.bytes journal.new.journal.file ≡ append_known (F.bytes journal.old.journal.file) (take result bytes.now.items) }
    ensures handed { handed_in journal.new.journal.handed.writes.items ≡ handed_in journal.old.journal.handed.writes.items ++ take result bytes.now.items }
    ensures most { result ≤ length bytes.now.items }
    ensures lost { journal.new.journal.lost ≡ journal.old.journal.lost }
    ensures looks { F.looks journal.new.journal.file ≡ F.looks journal.old.journal.file }
    ensures taken { journal.old.journal.lost ≡ None → 0 < result → F.faults journal.new.journal.file ≡ F.faults journal.old.journal.file }
    ensures refused { journal.old.journal.lost ≡ None → result ≡ 0 → F.faults journal.old.journal.file < F.faults journal.new.journal.file }
{
    match journal.append(bytes) {
        Ok(count) => count,
        Err(_) => 0,
    }
}
