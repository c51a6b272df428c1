//! The files of the logs of a process.
ghost use Rattle.std.specs.Prelude.{◌≡◌, ◌++◌, ◌∷◌, [], IfOk, IfSome, ◌<◌, false, filter, is_none, nat_eq, not, true};
ghost use Rattle.std.specs.Bool.{MatchBool};
ghost use Rattle.note_log.specs.Files.{AreBelow, AreOthers, IsFresh, is_among};

use http_server::Log;
use log_file::Handed;
use std::alloc::{AllocError, Global};

/// The number of a log's file among those that the logs of a process have opened. No two have the same.
#[derive(Clone, Copy, Debug, PartialEq, Eq)]
pub struct FileNumber {
    number: u64,
}

/// The files that the logs of a process have open, and what each was handed.
#[derive(Drop)]
pub struct Files {
    /// The numbers of those that are open, and the next one.
    numbers: Vec<u64>,
    next: u64,
    /// What stood in each when lines of it were remembered, and its number, which only proofs read.
    history: Log<Handed, u64>,
    ghost below: { ∥ AreBelow next numbers.items history.items ∥₁ },
}

impl FileNumber {
    pub(crate) fn number(self) -> u64
        ensures { result ≡ self.number }
    {
        self.number
    }
}

impl Files {
    /// No file was opened yet.
    pub(crate) fn none(alloc: Global) -> Files
        ensures numbers { result.numbers.items ≡ [] }
        ensures history { result.history.items ≡ [] }
    {
        Files {
            numbers: Vec::new(alloc),
            next: 0,
            history: Log::new(),
        }
    }

    /// Opens a file, of which nothing was kept yet. None where memory runs out, or where all 2^64 - 1 numbers were given.
    pub(crate) fn add(&mut self) -> Option<FileNumber>
        ensures number { IfSome result (λ file. file.number ≡ self.old.next) }
        ensures numbers { IfSome result (λ file. self.new.numbers.items ≡ self.old.numbers.items ++ file.number ∷ []) }
        ensures fresh { IfSome result (λ file. ∥ IsFresh file.number self.old.numbers.items self.old.history.items ∥₁) }
        ensures unopened { is_none result ≡ true → self.new.numbers.items ≡ self.old.numbers.items }
        ensures history { self.new.history ≡ self.old.history }
    {
        let number = self.next;
        let next = number.checked_add(1)?;
        if self.numbers.push(number).is_err() {
            return None;
        }
        self.next = next;
        Some(FileNumber { number })
    }

    /// Closes a file, and opens another in its place, of which nothing was kept yet. None where no more can be opened. Where memory runs
    /// out all files are closed.
    #[tactic(auto, using(crate::proofs::Numbers::others_gone))]
    pub(crate) fn replace(&mut self, alloc: Global, old: FileNumber) -> Option<FileNumber>
        ensures closed { is_among old.number self.new.numbers.items ≡ false }
        ensures renewed { IfSome result (λ new. old.number < new.number) }
        ensures history { self.new.history ≡ self.old.history }
    {
        self.close(alloc, old);
        if old.number >= self.next {
            return None;
        }
        self.add()
    }

    /// Closes a file, or all where memory runs out.
    fn close(&mut self, alloc: Global, old: FileNumber)
        ensures left { AreOthers old.number self.old.numbers.items self.new.numbers.items }
        ensures next { self.new.next ≡ self.old.next }
        ensures history { self.new.history ≡ self.old.history }
    {
        self.numbers = others_or_none(alloc, self.numbers.as_slice(), old.number);
    }

    /// Whether the file of a number is open.
    pub(crate) fn is_open(&self, number: u64) -> bool
        ensures { result ≡ is_among number self.now.numbers.items }
    {
        self.numbers.contains(&number)
    }

    /// Keeps what stands in a file, where it is open, and says whether it is.
    pub(crate) fn keep(&mut self, file: FileNumber, handed: &Handed) -> bool
        ensures is_open { result ≡ is_among file.number self.old.numbers.items }
        ensures history { MatchBool result (self.new.history.items ≡ self.old.history.items ++ (handed.now, file.number) ∷ []) (self.new.history ≡ self.old.history) }
        ensures numbers { self.new.numbers ≡ self.old.numbers }
    {
        if !self.is_open(file.number) {
            return false;
        }
        self.history = self.history.and(handed, &file.number);
        true
    }
}

/// The numbers but one, or none where memory runs out.
fn others_or_none(alloc: Global, numbers: &[u64], number: u64) -> Vec<u64>
    ensures { AreOthers number numbers.now result.items }
{
    match others(alloc, numbers, number) {
        Ok(others) => others,
        Err(AllocError) => Vec::new(alloc),
    }
}

/// The numbers but one.
fn others(alloc: Global, numbers: &[u64], number: u64) -> Result<Vec<u64>, AllocError>
    ensures { IfOk result (λ others. others.items ≡ filter (λ n. not (nat_eq n number)) numbers.now) }
{
    let mut others = Vec::new(alloc);
    for other in numbers {
        if *other != number {
            others.push(*other)?;
        }
    }
    Ok(others)
}
