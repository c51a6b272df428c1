//! A journal, and the number of its file.
ghost use Rattle.std.specs.Prelude.{◌≡◌, ◌+◌, ◌<◌, [], IfOk, None, false, is_some, true};
ghost use Rattle.std.specs.Io.{WritesAtMost};
ghost use Rattle.flag_text.specs.Outlet.{is_fault};
ghost use Rattle.log_file.specs.File.{GrowsByTaken, count_of};
ghost use Rattle.log_file.specs.Handed.{HandsTaken, handed_in};
ghost use Rattle.log_file.specs.Journal.{Looked, left_after, lost_after};
ghost use Rattle.log_file.specs.Line.{lines_in};
ghost use Rattle.note_log.specs.Memory.{StandAll};
ghost use Rattle.note_log.specs.Numbers.{IsRenewed, RenewedAfter};

use crate::files::FileNumber;
use crate::shared::SharedMemory;
use bytes::BytesMut;
use log_file::{Handed, Journal, LogFile, LogPaths, Look};
use std::alloc::Global;
use std::io;
use std::sync::Wait;

/// A journal, and the number that its file has in the memory of a process, where it has one. What the memory has of that number stands
/// in the file that the journal has open.
#[derive(Drop)]
pub struct NumberedJournal<F: LogFile> {
    journal: Journal<F>,
    number: Option<FileNumber>,
}

impl<F: LogFile> NumberedJournal<F> {
    /// A journal of whose file nothing is remembered.
    pub fn new(journal: Journal<F>) -> NumberedJournal<F>
        ensures journal { result.journal ≡ journal }
        ensures number { result.number ≡ None }
    {
        NumberedJournal {
            journal,
            number: None,
        }
    }

    /// Begins anew with what the file that is open was handed: it has none of it from before.
    pub fn begin(&mut self)
        ensures handed { handed_in self.new.journal.handed.writes.items ≡ [] }
        ensures file { self.new.journal.file ≡ self.old.journal.file }
        ensures lost { self.new.journal.lost ≡ self.old.journal.lost }
        ensures number { self.new.number ≡ self.old.number }
    {
        self.journal.begin();
    }

    /// Has a memory remember the last lines that the journal has read of its file, and give that a number.
    pub fn recall<R: Wait>(&mut self, rt: &R, alloc: Global, memory: &SharedMemory)
        ensures renewed { IsRenewed self.old.number self.new.number }
        ensures taken { self.new.journal.last.items ≡ [] }
        ensures file { self.new.journal.file ≡ self.old.journal.file }
        ensures lost { self.new.journal.lost ≡ self.old.journal.lost }
        ensures handed { self.new.journal.handed ≡ self.old.journal.handed }
    {
        let (lines, handed) = self.journal.take_last(alloc);
        self.number = memory.recall(rt, alloc, self.number, lines.as_slice(), &handed);
    }

    /// How many last lines of the file are read, and not recalled yet.
    pub fn lines_read(&self) -> u64
        ensures { result ≡ lines_in self.now.journal.last.items }
    {
        self.journal.lines_read()
    }

    /// Whether the file is lost, and its path not opened anew yet.
    pub fn is_lost(&self) -> bool
        ensures lost { result ≡ is_some self.now.journal.lost }
        ensures none { result ≡ false → self.now.journal.lost ≡ None }
        ensures stands { result ≡ false → F.stands self.now.journal.file ≡ true }
    {
        self.journal.is_lost()
    }

    /// What the file that is open was handed.
    pub fn handed(&self) -> &Handed
        ensures { result.now ≡ self.now.journal.handed }
    {
        self.journal.handed()
    }

    /// Adds a front of `buf` to the end of the file, and says of how many bytes. A file that is lost is added nothing.
    pub fn append(&mut self, buf: &BytesMut) -> io::Result<usize>
        ensures bound { WritesAtMost result buf.now.items }
        ensures bytes { GrowsByTaken (F.bytes self.old.journal.file) (F.bytes self.new.journal.file) result buf.now.items }
        ensures handed { HandsTaken self.old.journal.handed.writes.items self.new.journal.handed.writes.items result buf.now.items }
        ensures stands { IfOk result (λ _. F.stands self.new.journal.file ≡ true) }
        ensures lost { self.new.journal.lost ≡ self.old.journal.lost }
        ensures path { F.path self.new.journal.file ≡ F.path self.old.journal.file }
        ensures looks { F.looks self.new.journal.file ≡ F.looks self.old.journal.file }
        ensures faults { self.old.journal.lost ≡ None → F.faults self.new.journal.file ≡ F.faults self.old.journal.file + count_of (is_fault buf.now.items result) }
        ensures number { self.new.number ≡ self.old.number }
    {
        self.journal.append(buf)
    }

    /// Has a memory remember lines that the file was handed, where that has a number.
    pub fn remember(&self, memory: &SharedMemory, lines: Vec<Vec<u8>>)
        requires { ∥ StandAll (handed_in self.now.journal.handed.writes.items) lines.items ∥₁ }
    {
        if let Some(number) = self.number {
            memory.remember(number, self.journal.handed(), lines);
        }
    }

    /// Looks whether the file stands at its path, and is as long as it was left. Where it is not, the path is opened anew, and the memory
    /// gives the file that is then open another number: no line of the file that was lost counts as remembered.
    pub fn look<P: LogPaths + Wait>(
        &mut self,
        alloc: Global,
        paths: &P,
        memory: &SharedMemory,
    ) -> Look
        ensures looked { Looked result (F.bytes self.old.journal.file) (F.bytes self.new.journal.file) (F.stands self.new.journal.file) }
        ensures renewed { RenewedAfter result self.old.number self.new.number }
        ensures lost { self.new.journal.lost ≡ lost_after result }
        ensures handed { handed_in self.new.journal.handed.writes.items ≡ left_after result (handed_in self.old.journal.handed.writes.items) }
        ensures path { F.path self.new.journal.file ≡ F.path self.old.journal.file }
        ensures looks { F.looks self.old.journal.file < F.looks self.new.journal.file }
        ensures faults { F.faults self.new.journal.file ≡ F.faults self.old.journal.file }
    {
        let look = self.journal.look(alloc, paths);
        match look {
            Look::Stands => {}
            Look::Reopened(_) | Look::Lost(_, _) => {
                self.number = memory.begin_anew(paths, alloc, self.number);
            }
        }
        look
    }
}
