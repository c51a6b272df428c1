//! The lines that are remembered.
ghost use Rattle.std.specs.Prelude.{◌≡◌, ◌+◌, ◌≤◌, ◌<◌, [], IfOk, IfSome, OnOk, false, length, true};
ghost use Rattle.std.specs.NonZero.{non_zero_usize_get};
ghost use Rattle.log_file.specs.Line.{EndsLine, lines_in};
ghost use Rattle.note_log.specs.Files.{StandsIn, is_among};
ghost use Rattle.note_log.specs.Memory.{AllStand, AreLeft, StandAll, is_known};
ghost use Rattle.note_log.specs.Numbers.{IsRenewed};
ghost use Rattle.note_log.specs.Recalled.{Recalls};
ghost use Rattle.note_log.specs.Shown.{open_in, shown_in};
ghost use Rattle.log_file.specs.Handed.{handed_in};

use crate::files::{FileNumber, Files};
use crate::recalled::recall_lines;
use crate::table::{put_lines, table_of};
use crate::unknown::Unknown;
use http_server::Log;
use log_file::Handed;
use lru::LruCache;
use std::alloc::{AllocError, Global};
use std::hash::RandomState;
use std::num::NonZeroUsize;

/// The lines that the logs of a process remember, each with the number of the file that it was handed to. Those of a file that is
/// not open any more count as not remembered.
#[derive(Drop)]
pub struct NoteMemory {
    table: LruCache<Vec<u8>, u64, RandomState>,
    files: Files,
    ghost sound: { ∥ AllStand files.history.items table.entries ∥₁ },
}

impl NoteMemory {
    /// A memory of so many lines, of which it forgets the least recently used first. `keys` are for a table of lines, whose texts
    /// others choose. Memory for lines is taken as they come.
    #[tactic(auto, using(crate::proofs::Standing::none_stand))]
    pub fn new(
        alloc: Global,
        keys: RandomState,
        most: NonZeroUsize,
    ) -> Result<NoteMemory, AllocError>
        ensures most { IfOk result (λ memory. memory.table.cap ≡ non_zero_usize_get most) }
        ensures none { IfOk result (λ memory. memory.table.entries ≡ []) }
    {
        let table = table_of(alloc, keys, most)?;
        Ok(NoteMemory {
            table,
            files: Files::none(alloc),
        })
    }

    /// Opens a file in place of another, where there is one: no line of that counts as remembered from then on. None where no more
    /// can be opened.
    pub(crate) fn begin(&mut self, alloc: Global, old: Option<FileNumber>) -> Option<FileNumber>
        ensures closed { IfSome old (λ file. is_among file.number self.new.files.numbers.items ≡ false) }
        ensures renewed { IsRenewed old result }
        ensures table { self.new.table ≡ self.old.table }
        ensures history { self.new.files.history ≡ self.old.files.history }
    {
        match old {
            Some(file) => self.files.replace(alloc, file),
            None => self.files.add(),
        }
    }

    /// Whether a line is remembered of a file that is open. One that is becomes the most recently used.
    pub(crate) fn knows(&mut self, line: &[u8]) -> bool
        ensures known { result ≡ is_known self.old.files.numbers.items self.old.table.entries line.now }
        ensures stands { result ≡ true → ∥ StandsIn line.now (open_in self.old.files) ∥₁ }
        ensures files { self.new.files ≡ self.old.files }
        ensures most { self.new.table.cap ≡ self.old.table.cap }
    {
        let is_known = self.has(line);
        if is_known {
            let _ = self.table.promote(line);
        }
        is_known
    }

    /// Whether a line is remembered of a file that is open.
    fn has(&self, line: &[u8]) -> bool
        ensures known { result ≡ is_known self.now.files.numbers.items self.now.table.entries line.now }
    {
        match self.table.peek(line) {
            Some(number) => self.files.is_open(*number),
            None => false,
        }
    }

    /// The lines that are not remembered of a file that is open. Those that are become the most recently used.
    #[tactic(auto, using(crate::proofs::Left::none_left))]
    pub(crate) fn unknown(
        &mut self,
        alloc: Global,
        lines: Vec<Vec<u8>>,
    ) -> Result<Unknown, AllocError>
        ensures left { IfOk result (λ unknown. ∥ AreLeft lines.items unknown.lines.items (shown_in unknown.shown.items) ∥₁) }
        ensures files { self.new.files ≡ self.old.files }
        ensures most { self.new.table.cap ≡ self.old.table.cap }
    {
        let mut left = Vec::with_capacity(alloc, lines.len())?;
        for line in lines {
            if !self.knows(line.as_slice()) {
                left.push(line)?;
            }
        }
        Ok(Unknown {
            lines: left,
            shown: Log::new().and(&self.files, &0),
        })
    }

    /// Remembers lines, which stand in what a file was handed, where that is open. The least recently used are forgotten where there
    /// are too many. Where memory runs out a line is not remembered.
    pub(crate) fn remember(&mut self, file: FileNumber, handed: &Handed, lines: Vec<Vec<u8>>)
        requires { ∥ StandAll (handed_in handed.now.writes.items) lines.items ∥₁ }
        ensures numbers { self.new.files.numbers ≡ self.old.files.numbers }
        ensures most { self.new.table.cap ≡ self.old.table.cap }
    {
        if self.files.keep(file, handed) {
            put_lines(&mut self.table, file.number(), lines);
        }
    }

    /// Remembers lines that a file has, where that is open: the last one as the most recently used.
    pub(crate) fn recall(
        &mut self,
        alloc: Global,
        file: FileNumber,
        handed: &Handed,
        lines: &[u8],
    ) -> Result<(), AllocError>
        requires handed { handed_in handed.now.writes.items ≡ lines.now }
        requires ends { ∥ EndsLine lines.now ∥₁ }
        ensures numbers { self.new.files.numbers ≡ self.old.files.numbers }
        ensures most { self.new.table.cap ≡ self.old.table.cap }
        ensures recalls { OnOk result (is_among file.number self.old.files.numbers.items ≡ true → length self.old.table.entries + lines_in lines.now ≤ self.old.table.cap → ∥ Recalls lines.now file.number self.new.table.entries ∥₁) }
    {
        if self.files.keep(file, handed) {
            recall_lines(alloc, &mut self.table, file.number(), lines)?;
        }
        Ok(())
    }
}
