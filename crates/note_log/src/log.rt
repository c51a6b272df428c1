//! The log.
ghost use Rattle.std.specs.Prelude.{◌≡◌, ◌<◌, ◌⊎◌, ◌++◌, ◌-◌, ◌^◌, [], true, false, OnErr, IfOk, IfSome, is_some, min, sum_by};
ghost use Rattle.log_file.specs.Line.{EndsLine, lines_in};
ghost use Rattle.log_file.specs.Handed.{handed_in};
ghost use Rattle.note_log.specs.Sound.{IsCounted, earlier_in};

use crate::batch::{Batch, batch_of};
use crate::handing::hand_over;
use crate::trouble::Trouble;
use crate::{Files, NumberedJournal, SharedMemory};
use bytes::BytesMut;
use http_server::Log;
use log_file::{Handed, LogFile, LogPaths, Look};
use note_lines::{Note, NoteForm};
use std::alloc::{AllocError, Global};
use std::sync::Wait;

/// A log of notes at the end of a file. The bytes that stand in the file before are whole lines.
#[derive(Drop)]
pub struct NoteLog<'a, F: LogFile> {
    /// What the lines have of the inputs.
    form: NoteForm,
    journal: NumberedJournal<F>,
    /// What each file that was lost was handed, which only proofs read.
    earlier: Log<Handed, u8>,
    /// The bytes of lines that the file has not taken.
    waiting: BytesMut,
    /// The memory of all logs of the process.
    memory: &'a SharedMemory,
    /// The files that were open when the memory was asked, each time that it was relied on, which only proofs read.
    relied: Log<Log<Files, u8>, u8>,
    written: u64,
    ghost whole: { ∥ EndsLine (handed_in journal.journal.handed.writes.items ++ waiting.items) ∥₁ },
    ghost counted: { IsCounted (sum_by lines_in (earlier_in earlier.items)) (handed_in journal.journal.handed.writes.items) written },
}

impl<'a, F: LogFile> NoteLog<'a, F> {
    ghost use Rattle.note_log.specs.Log.{logged};

    /// A log that nothing was recorded in yet, of lines in this form. It shares what is remembered with all logs of this memory.
    #[tactic(auto, using(crate::proofs::Anew::begins_whole))]
    pub fn new(
        alloc: Global,
        form: NoteForm,
        journal: NumberedJournal<F>,
        memory: &'a SharedMemory,
    ) -> NoteLog<'a, F>
        ensures fresh { logged result ≡ record { form = form; earlier = []; handed = []; waiting = []; relied = [] } }
        ensures file { result.journal.journal.file ≡ journal.journal.file }
        ensures lost { result.journal.journal.lost ≡ journal.journal.lost }
        ensures number { result.journal.number ≡ journal.number }
        ensures memory { result.memory.now ≡ memory.now }
    {
        let mut journal = journal;
        journal.begin();
        NoteLog {
            form,
            journal,
            earlier: Log::new(),
            waiting: BytesMut::new(alloc),
            memory,
            relied: Log::new(),
            written: 0,
        }
    }
}

impl<F: LogFile> NoteLog<'_, F> {
    ghost use Rattle.log_file.specs.Journal.{Looked, lost_after};
    ghost use Rattle.note_log.specs.Batch.{IsBatch};
    ghost use Rattle.note_log.specs.Numbers.{RenewedAfter};
    ghost use Rattle.note_log.specs.Log.{Records, lines_of, logged, logged_after, trouble_of};

    /// Records notes, and says whether the line of each, in the form of the log, stands in the file that is open now, or in one that
    /// another log of the process has open. One whose input has more than 1,024 bytes has no line. What waits of earlier lines is
    /// handed over first, and where not all of it is taken nothing is added. It answers false only where the file is lost or a write
    /// has failed, and what was recorded before stays.
    pub fn record(&mut self, alloc: Global, notes: &[Note]) -> Result<bool, AllocError>
        ensures records { IfOk result (λ all. ∥ Records notes.now (logged self.old) (logged self.new) (F.bytes self.old.journal.journal.file) (F.bytes self.new.journal.journal.file) all ∥₁) }
        ensures stands { IfOk result (λ all. all ≡ true → F.stands self.new.journal.journal.file ≡ true) }
        ensures refused { IfOk result (λ all. all ≡ false → (is_some self.old.journal.journal.lost ≡ true) ⊎ (F.faults self.old.journal.journal.file < F.faults self.new.journal.journal.file)) }
        ensures lost { self.new.journal.journal.lost ≡ self.old.journal.journal.lost }
        ensures looks { F.looks self.new.journal.journal.file ≡ F.looks self.old.journal.journal.file }
        ensures err { OnErr result (self.new ≡ self.old) }
    {
        let batch = batch_of(alloc, self.form, notes, self.memory)?;
        Ok(self.take(notes, batch))
    }

    /// Hands over what waits, and then the lines of a batch.
    fn take(&mut self, notes: &[Note], batch: Batch) -> bool
        requires { ∥ IsBatch self.old.form notes.now batch ∥₁ }
        ensures records { ∥ Records notes.now (logged self.old) (logged self.new) (F.bytes self.old.journal.journal.file) (F.bytes self.new.journal.journal.file) result ∥₁ }
        ensures stands { result ≡ true → F.stands self.new.journal.journal.file ≡ true }
        ensures refused { result ≡ false → (is_some self.old.journal.journal.lost ≡ true) ⊎ (F.faults self.old.journal.journal.file < F.faults self.new.journal.journal.file) }
        ensures lost { self.new.journal.journal.lost ≡ self.old.journal.journal.lost }
        ensures looks { F.looks self.new.journal.journal.file ≡ F.looks self.old.journal.journal.file }
    {
        // The contract alone names the notes.
        let _ = notes;
        if self.journal.is_lost() {
            return false;
        }
        if !hand_over(&mut self.journal, &mut self.waiting, &mut self.written) {
            return false;
        }
        let Batch {
            lines,
            bytes,
            shown,
        } = batch;
        self.waiting = bytes;
        if !hand_over(&mut self.journal, &mut self.waiting, &mut self.written) {
            return false;
        }
        self.relied = self.relied.and(&shown, &0);
        self.journal.remember(self.memory, lines);
        true
    }

    /// Looks whether the file stands at its path, and is as long as it was left. Where it is not, the path is opened anew, what waited is
    /// forgotten, and no line of the file that was lost counts as remembered.
    #[tactic(auto, using(crate::proofs::Anew::one_lost, crate::proofs::Anew::begins_whole, crate::proofs::Counted::counted_anew))]
    pub fn look<P: LogPaths + Wait>(&mut self, alloc: Global, paths: &P) -> Look
        ensures looked { Looked result (F.bytes self.old.journal.journal.file) (F.bytes self.new.journal.journal.file) (F.stands self.new.journal.journal.file) }
        ensures logged { logged self.new ≡ logged_after result (logged self.old) }
        ensures renewed { RenewedAfter result self.old.journal.number self.new.journal.number }
        ensures lost { self.new.journal.journal.lost ≡ lost_after result }
        ensures looks { F.looks self.old.journal.journal.file < F.looks self.new.journal.journal.file }
    {
        let earlier = self.earlier.and(self.journal.handed(), &0);
        let look = self.journal.look(alloc, paths, self.memory);
        match look {
            Look::Stands => {}
            Look::Reopened(_) | Look::Lost(_, _) => {
                self.earlier = earlier;
                self.waiting.clear();
            }
        }
        look
    }

    /// How many lines its files have taken whole.
    #[tactic(auto, using(crate::proofs::Counted::counted_all))]
    pub fn written(&self) -> u64
        ensures { result ≡ min (lines_of (logged self.now)) (2 ^ 64 - 1) }
    {
        self.written
    }

    /// Why it can't be written, where it can't: its file is lost, or a write has failed and what it was given waits.
    pub fn trouble(&self) -> Option<Trouble>
        ensures { result ≡ trouble_of (is_some self.now.journal.journal.lost) self.now.waiting.items }
    {
        if self.journal.is_lost() {
            return Some(Trouble::Lost);
        }
        if self.waiting.is_empty() {
            None
        } else {
            Some(Trouble::Unwritten)
        }
    }
}
