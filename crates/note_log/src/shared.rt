//! The memory of all logs of a process.
ghost use Rattle.std.specs.Prelude.{◌≡◌, IfOk, is_some};
ghost use Rattle.log_file.specs.Handed.{handed_in};
ghost use Rattle.log_file.specs.Line.{EndsLine};
ghost use Rattle.note_log.specs.Memory.{AreLeft, StandAll};
ghost use Rattle.note_log.specs.Numbers.{IsRenewed};
ghost use Rattle.note_log.specs.Shown.{shown_in};

use crate::files::FileNumber;
use crate::memory::NoteMemory;
use crate::unknown::Unknown;
use log_file::Handed;
use std::alloc::{AllocError, Global};
use std::sync::{Mutex, MutexGuard, Wait};
use std::thread::yield_now;

/// How often a log that records asks for the memory while another has it. It is had for no longer than the lines of one answer are
/// looked up or put there, so it comes within a few.
const TRIES: u32 = 10_000;

/// The memory of all logs of a process, under a lock, or none.
#[derive(Drop)]
pub struct SharedMemory {
    memory: Option<Mutex<NoteMemory>>,
}

impl SharedMemory {
    /// What all logs remember their lines in. Where it is none they remember nothing.
    pub fn new(memory: Option<NoteMemory>) -> SharedMemory
        ensures { is_some result.memory ≡ is_some memory }
    {
        match memory {
            Some(memory) => SharedMemory {
                memory: Some(Mutex::new(memory)),
            },
            None => SharedMemory { memory: None },
        }
    }

    /// Opens a file, in place of another where there is one, and remembers lines that stand in it. None where nothing of it is
    /// remembered.
    pub(crate) fn recall<R: Wait>(
        &self,
        rt: &R,
        alloc: Global,
        old: Option<FileNumber>,
        lines: &[u8],
        handed: &Handed,
    ) -> Option<FileNumber>
        requires handed { handed_in handed.now.writes.items ≡ lines.now }
        requires ends { ∥ EndsLine lines.now ∥₁ }
        ensures { IsRenewed old result }
    {
        let Some(memory) = &self.memory else {
            return None;
        };
        let mut held = memory.lock(rt);
        let file = held.begin(alloc, old)?;
        let _ = held.recall(alloc, file, handed, lines);
        Some(file)
    }

    /// Opens a file in place of one that was lost, of which no line counts as remembered from then on.
    pub(crate) fn begin_anew<R: Wait>(
        &self,
        rt: &R,
        alloc: Global,
        lost: Option<FileNumber>,
    ) -> Option<FileNumber>
        ensures { IsRenewed lost result }
    {
        let Some(memory) = &self.memory else {
            return None;
        };
        memory.lock(rt).begin(alloc, lost)
    }

    /// The lines that are not remembered of a file that is open. Those that are become the most recently used. Where the memory can't
    /// be had all of them count as not remembered.
    pub fn unknown(&self, alloc: Global, lines: Vec<Vec<u8>>) -> Result<Unknown, AllocError>
        ensures { IfOk result (λ unknown. ∥ AreLeft lines.items unknown.lines.items (shown_in unknown.shown.items) ∥₁) }
    {
        if lines.is_empty() {
            return Ok(Unknown::all(lines));
        }
        let Some(memory) = self.taken() else {
            return Ok(Unknown::all(lines));
        };
        let mut memory = memory;
        memory.unknown(alloc, lines)
    }

    /// Remembers lines that stand in what the file of a log was handed. Where the memory can't be had they are not remembered.
    pub fn remember(&self, file: FileNumber, handed: &Handed, lines: Vec<Vec<u8>>)
        requires { ∥ StandAll (handed_in handed.now.writes.items) lines.items ∥₁ }
    {
        if lines.is_empty() {
            return;
        }
        if let Some(memory) = self.taken() {
            let mut memory = memory;
            memory.remember(file, handed, lines);
        }
    }

    /// The memory, where there is one, and it can be had within so many tries.
    fn taken(&self) -> Option<MutexGuard<'_, NoteMemory>> {
        let Some(memory) = &self.memory else {
            return None;
        };
        for _try in 0..TRIES {
            if let Some(held) = memory.try_lock() {
                return Some(held);
            }
            yield_now();
        }
        None
    }
}
