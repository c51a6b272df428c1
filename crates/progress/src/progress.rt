//! How far a command is, and the line that tells it.
use crate::amounts::{bytes, share};
use crate::meter::Meter;
use std::alloc::{AllocError, Global};
use std::sync::Mutex;
use std::sync::atomic::{AtomicBool, Ordering};

/// The most characters that a line shows of the path of a file.
const LONGEST_PATH: usize = 32;

/// How far a command is with the file that it reads, with the asks that it answers, and with the standard input.
#[derive(Drop)]
pub struct Progress {
    is_reading: AtomicBool,
    file: Meter,
    /// The name of the file that is read, where it is known.
    name: Mutex<Option<String>>,
    asks: Meter,
    input: Meter,
}

impl Progress {
    /// Nothing has begun.
    pub fn new() -> Progress {
        Progress {
            is_reading: AtomicBool::new(false),
            file: Meter::new(),
            name: Mutex::new(None),
            asks: Meter::new(),
            input: Meter::new(),
        }
    }

    /// The bytes of the file that is read.
    pub fn file(&self) -> &Meter {
        &self.file
    }

    /// The asks that are answered.
    pub fn asks(&self) -> &Meter {
        &self.asks
    }

    /// The bytes of the standard input.
    pub fn input(&self) -> &Meter {
        &self.input
    }

    /// The file at a path is read, of so many bytes, 0 where that is not known. Where memory is short, or a line is being made
    /// just now, it goes without its name.
    pub fn begin_file(&self, alloc: Global, path: &str, whole: u64) {
        let name = name_of(alloc, path).ok();
        if let Some(mut place) = self.name.try_lock() {
            *place = name;
        }
        self.file.begin(whole);
        self.is_reading.store(true, Ordering::Relaxed);
    }

    /// The file was read, or cannot be.
    pub fn end_file(&self) {
        self.is_reading.store(false, Ordering::Relaxed);
    }

    /// What the command is at, in a line: which file it reads, or how many asks it has answered, or else its work by this name,
    /// with the bytes of the standard input where it has read some.
    pub fn line(&self, alloc: Global, work: &str) -> Result<String, AllocError> {
        if self.is_reading.load(Ordering::Relaxed) {
            return self.reading(alloc);
        }
        let (done, whole) = (self.asks.done(), self.asks.whole());
        if done < whole {
            let share = share(alloc, done, whole)?;
            return format!(in alloc; "answering asks: {share}");
        }
        match self.input.done() {
            0 => String::from_str(alloc, work),
            done => {
                let amount = bytes(alloc, done, 0)?;
                format!(in alloc; "{work}: {amount}")
            }
        }
    }

    /// How much of which file is read.
    fn reading(&self, alloc: Global) -> Result<String, AllocError> {
        let amount = bytes(alloc, self.file.done(), self.file.whole())?;
        if let Some(place) = self.name.try_lock() {
            if let Some(name) = &*place {
                return format!(in alloc; "reading {name}: {amount}");
            }
        }
        format!(in alloc; "reading: {amount}")
    }
}

/// A file as a line names it, by the end of its path; `-` is the standard input.
fn name_of(alloc: Global, path: &str) -> Result<String, AllocError> {
    if path == "-" {
        return String::from_str(alloc, "the standard input");
    }
    let mut name = String::from_str(alloc, "\"")?;
    let skipped = path.chars().count().saturating_sub(LONGEST_PATH);
    if skipped > 0 {
        name.push_str("..")?;
    }
    for char in path.chars().skip(skipped) {
        name.push(if char.is_control() { '?' } else { char })?;
    }
    name.push('"')?;
    Ok(name)
}
