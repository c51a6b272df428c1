//! The files of the system.
ghost use Rattle.std.specs.Prelude.{◌≡◌, ◌≤◌, ◌+◌, ◌||◌, None, Ok, false, length, IfOk};
ghost use Rattle.flagops_shell.specs.Files.{is_unreadable};

use crate::replacing::{plain_file, replace};
use byte_streams::cut_line;
use flagops_shell::{
    FIRST_PIECE, FileSet, LoadFault, NOTES_PIECE, StoreFault, may_begin_record, may_note,
};
use note_lines::{begins_astray, begins_book};
use progress::{Counted, Meter, Progress};
use std::alloc::{AllocError, Global};
use std::fs::OpenFile;
use std::io::{ErrorKind, Print, Read, Take};
use std::rt::Files;
use std::{fs, io};

/// How many lines of a piece are judged before the next one is read.
const JUDGED: usize = 1000;

/// The files that a runtime reaches. What they hold is not known. `-` is the standard input where it is read, and the standard
/// output where it is written.
#[derive(Drop)]
pub struct SystemFiles<'a, R> {
    rt: &'a R,
    progress: Option<&'a Progress>,
    failed: bool,
    trouble: Option<io::Error>,
}

impl<'a, R: Files + Print> SystemFiles<'a, R> {
    /// The files of the runtime, of which no call has failed yet.
    pub fn new(rt: &'a R) -> SystemFiles<'a, R>
        ensures { ⟦<SystemFiles<'a, R> as FileSet>⟧.has_failed result ≡ false }
    {
        SystemFiles {
            rt,
            progress: None,
            failed: false,
            trouble: None,
        }
    }

    /// The same, for someone who watches the progress of what is read and answered.
    pub fn watched(rt: &'a R, progress: &'a Progress) -> SystemFiles<'a, R>
        ensures { ⟦<SystemFiles<'a, R> as FileSet>⟧.has_failed result ≡ false }
    {
        SystemFiles {
            rt,
            progress: Some(progress),
            failed: false,
            trouble: None,
        }
    }

    /// The file at the path is read from here on. What counts its bytes, where someone watches.
    fn begin(&self, alloc: Global, path: &str) -> Option<&'a Meter> {
        let progress = self.progress?;
        progress.begin_file(alloc, path, 0);
        Some(progress.file())
    }

    /// What was read, or why it was not.
    fn loaded(&mut self, outcome: io::Result<Vec<u8>>) -> Result<Vec<u8>, LoadFault>
        ensures read { IfOk result (λ v. outcome ≡ Ok v) }
        ensures failed { self.new.failed ≡ (self.old.failed || is_unreadable result) }
    {
        if let Some(progress) = self.progress {
            progress.end_file();
        }
        match outcome {
            Ok(bytes) => Ok(bytes),
            Err(e) if e.kind() == ErrorKind::OutOfMemory => Err(LoadFault::WantOfMemory),
            Err(e) => {
                self.failed = true;
                self.trouble = Some(e);
                Err(LoadFault::Unreadable)
            }
        }
    }
}

impl<'a, R: Files + Print> FileSet for SystemFiles<'a, R> {
    ghost holding = { λ _. None };

    ghost has_failed = { λ s. s.failed };

    fn read(&mut self, alloc: Global, path: &str, max: u64) -> Result<Vec<u8>, LoadFault> {
        let meter = self.begin(alloc, path);
        self.loaded(read_front(self.rt, alloc, path, max, meter))
    }

    fn read_book(&mut self, alloc: Global, path: &str, max: u64) -> Result<Vec<u8>, LoadFault> {
        let meter = self.begin(alloc, path);
        self.loaded(read_book_front(self.rt, alloc, path, max, meter))
    }

    fn read_notes(
        &mut self,
        alloc: Global,
        path: &str,
        passing: bool,
        max: u64,
    ) -> Result<Vec<u8>, LoadFault> {
        let meter = self.begin(alloc, path);
        self.loaded(read_notes_front(self.rt, alloc, path, passing, max, meter))
    }

    fn front(&self, alloc: Global, path: &str) -> Result<Option<Vec<u8>>, AllocError> {
        match front_of_plain(self.rt, alloc, written_to(path)) {
            Ok(front) => Ok(front),
            Err(e) if e.kind() == ErrorKind::OutOfMemory => Err(AllocError),
            Err(_) => Ok(None),
        }
    }

    fn trouble(&self) -> Option<io::Error> {
        self.trouble
    }

    fn meter(&self) -> Option<&Meter> {
        match self.progress {
            Some(progress) => Some(progress.asks()),
            None => None,
        }
    }

    fn write(&mut self, alloc: Global, path: &str, bytes: &[u8]) -> Result<(), StoreFault> {
        match written(self.rt, alloc, path, bytes) {
            Ok(()) => Ok(()),
            Err(e) if e.kind() == ErrorKind::OutOfMemory => Err(StoreFault::WantOfMemory),
            Err(e) => {
                self.failed = true;
                self.trouble = Some(e);
                Err(StoreFault::Unwritable)
            }
        }
    }
}

/// Where the file at a path that is written lies: `-` is the standard output.
fn written_to(path: &str) -> &str {
    if path == "-" { "/dev/stdout" } else { path }
}

/// Writes `bytes` to the file at `path`. For `-`, uses the open standard output: a file that is opened again has a position of
/// its own, so what the command prints later would overwrite `bytes`.
fn written<R: Files + Print>(rt: &R, alloc: Global, path: &str, bytes: &[u8]) -> io::Result<()> {
    if path == "-" {
        rt.write_all(bytes)
    } else {
        replace(rt, alloc, path, bytes)
    }
}

/// The file at the path, whose bytes the meter counts, and how many they are, as far as the system knows it. `-` is the
/// standard input.
fn opened<'a, R: Files>(
    rt: &R,
    path: &str,
    meter: Option<&'a Meter>,
) -> io::Result<(Counted<'a, R::File>, u64)> {
    let path = if path == "-" { "/dev/stdin" } else { path };
    let file = fs::open(rt, path)?;
    let len = file.metadata()?.len();
    if let Some(meter) = meter {
        meter.begin(len);
    }
    Ok((Counted::new(file, meter), len))
}

/// The bytes of the file at the path, cut after `max + 1`.
fn read_front<R: Files>(
    rt: &R,
    alloc: Global,
    path: &str,
    max: u64,
    meter: Option<&Meter>,
) -> io::Result<Vec<u8>>
    ensures { IfOk result (λ v. length v.items ≤ max + 1) }
{
    let (file, len) = opened(rt, path, meter)?;
    let limit = max.saturating_add(1);
    let mut bytes = Vec::with_capacity(alloc, len.min(limit) as usize)?;
    file.take(limit).read_to_end(&mut bytes)?;
    // No clause of `read_to_end` says that `take` bounds what it appends.
    bytes.truncate(limit as usize);
    Ok(bytes)
}

/// The bytes of the book file at the path, cut after `max + 1`, or the first piece of a file that does not begin as a book or a tally.
fn read_book_front<R: Files>(
    rt: &R,
    alloc: Global,
    path: &str,
    max: u64,
    meter: Option<&Meter>,
) -> io::Result<Vec<u8>> {
    let (file, len) = opened(rt, path, meter)?;
    let limit = max.saturating_add(1);
    let len = len.min(limit);
    let mut bytes = Vec::with_capacity(alloc, FIRST_PIECE as usize)?;
    let mut file = file.take(FIRST_PIECE);
    file.read_to_end(&mut bytes)?;
    if may_begin_record(bytes.as_slice()) {
        bytes.reserve(len.saturating_sub(FIRST_PIECE) as usize)?;
        file.set_limit(limit.saturating_sub(FIRST_PIECE));
        file.read_to_end(&mut bytes)?;
        bytes.truncate(limit as usize);
    }
    Ok(bytes)
}

/// The bytes of the file of a book or of note lines at the path, cut after `max + 1`, or the first piece of one that begins as
/// neither.
fn read_notes_front<R: Files>(
    rt: &R,
    alloc: Global,
    path: &str,
    passing: bool,
    max: u64,
    meter: Option<&Meter>,
) -> io::Result<Vec<u8>> {
    let (file, len) = opened(rt, path, meter)?;
    let piece = NOTES_PIECE as u64;
    let limit = max.saturating_add(1);
    let len = len.min(limit);
    let mut bytes = Vec::with_capacity(alloc, len.min(piece) as usize)?;
    let mut file = file.take(piece);
    file.read_to_end(&mut bytes)?;
    if may_note(bytes.as_slice(), passing) {
        bytes.reserve(len.saturating_sub(piece) as usize)?;
        let is_judged = !passing && !begins_book(bytes.as_slice());
        read_on(alloc, &mut file, &mut bytes, is_judged, limit)?;
        bytes.truncate(limit as usize);
    }
    Ok(bytes)
}

/// Reads on, a piece at a time. Where lines are judged it ends behind a piece in whose beginning is the line of no note, since
/// the file is refused for that line, or for one before it, whatever comes behind.
fn read_on<R: Read>(
    alloc: Global,
    file: &mut Take<R>,
    bytes: &mut Vec<u8>,
    is_judged: bool,
    limit: u64,
) -> io::Result<()> {
    let mut from = 0;
    for _ in 0..=limit / NOTES_PIECE as u64 {
        let len = bytes.len();
        let is_over = len.saturating_sub(from) < NOTES_PIECE || len as u64 >= limit;
        if is_over
            || is_judged && begins_astray(alloc, lines_from(bytes.as_slice(), from), JUDGED)?
        {
            return Ok(());
        }
        from = len;
        file.set_limit(limit.saturating_sub(len as u64).min(NOTES_PIECE as u64));
        file.read_to_end(bytes)?;
    }
    Ok(())
}

/// The bytes from the first line on that begins behind so many, or from the first byte on.
fn lines_from(bytes: &[u8], from: usize) -> &[u8] {
    if from == 0 || from > bytes.len() {
        return bytes;
    }
    let (_, rest) = bytes.split_at(from);
    match cut_line(rest) {
        Some((_, lines)) => lines,
        None => &[],
    }
}

/// The first piece of the plain file at the path, where there is one.
fn front_of_plain<R: Files>(rt: &R, alloc: Global, path: &str) -> io::Result<Option<Vec<u8>>> {
    match plain_file(rt, alloc, path)? {
        Some(target) => {
            let file = fs::open(rt, target.as_str())?;
            let mut bytes = Vec::new(alloc);
            file.take(FIRST_PIECE).read_to_end(&mut bytes)?;
            Ok(Some(bytes))
        }
        None => Ok(None),
    }
}
