//! Files of the system.
ghost use Rattle.std.specs.Prelude.{◌≡◌, None, length};

use crate::files::DeskFiles;
use flagops_files::SystemFiles;
use flagops_shell::{FileSet, StoreFault};
use http_server::Log;
use std::alloc::{AllocError, Global};
use std::fs::{self, File, OpenFile, OpenOptions};
use std::io::{self, Error, ErrorKind, Print, Read, Write};
use std::os::unix::fs::{FileExt, OpenOptionsExt};
use std::rt::Files;
use std::str;

/// The most bytes of a file that is read: a terabyte.
const MOST_BYTES: u64 = 1 << 40;

/// Who may read and write a file that is made: its owner.
const FILE_MODE: u32 = 0o600;

/// The bytes of a piece in which names are read.
const NAMES_PIECE: usize = 65_536;

/// What a desk needs of a file system. Threads may rest on it, as they may not on `Files`, of which some methods are generic.
pub trait DeskPaths {
    /// The names of the files in a folder, in the order of their bytes. A name that is no UTF-8 is left out.
    fn names_at(&self, alloc: Global, folder: &str) -> io::Result<Vec<String>>;

    /// All bytes of the plain file at a path; none where nothing is there.
    fn bytes_at(&self, alloc: Global, path: &str) -> io::Result<Option<Vec<u8>>>;

    /// Adds a line to the end of the file at a path, behind a line feed where that has none, and hands it to the disk.
    fn append_at(&self, alloc: Global, path: &str, line: &[u8]) -> io::Result<()>;

    /// Replaces the file at a path, whole or not at all, as the commands do.
    fn replace_at(&self, alloc: Global, path: &str, bytes: &[u8]) -> io::Result<()>;
}

impl<R: Files<File = File> + Print> DeskPaths for R {
    fn names_at(&self, alloc: Global, folder: &str) -> io::Result<Vec<String>> {
        let path = format!(in alloc; "{folder}/")?;
        let bytes = all_names(alloc, self.open_dir(path.as_str())?)?;
        Ok(sorted_names(alloc, bytes.as_slice())?)
    }

    fn bytes_at(&self, alloc: Global, path: &str) -> io::Result<Option<Vec<u8>>> {
        match fs::metadata(self, path) {
            Ok(found) if !found.is_file() => Err(Error::from(ErrorKind::InvalidInput)),
            Ok(_) => or_none(all_bytes(self, alloc, path)),
            Err(error) => or_none(Err(error)),
        }
    }

    fn append_at(&self, alloc: Global, path: &str, line: &[u8]) -> io::Result<()> {
        let mut options = OpenOptions::new();
        options.read(true).append(true).create(true).mode(FILE_MODE);
        let mut file = options.open(self, path)?;
        let mut whole = Vec::with_capacity(alloc, line.len().saturating_add(1))?;
        if !ends_whole(&file)? {
            whole.push(b'\n')?;
        }
        whole.extend_from_slice(line)?;
        file.write_all(whole.as_slice())?;
        file.sync_all()
    }

    fn replace_at(&self, alloc: Global, path: &str, bytes: &[u8]) -> io::Result<()> {
        let mut files = SystemFiles::new(self);
        match files.write(alloc, path, bytes) {
            Ok(()) => Ok(()),
            Err(StoreFault::WantOfMemory) => Err(Error::from(ErrorKind::OutOfMemory)),
            Err(StoreFault::Unwritable) => {
                Err(files.trouble().unwrap_or(Error::from(ErrorKind::Other)))
            }
        }
    }
}

/// The names that a folder gives, each ended by a NUL.
fn all_names<D: Read + Drop>(alloc: Global, dir: D) -> io::Result<Vec<u8>> {
    let mut dir = dir;
    let mut piece = vec![in alloc; 0u8; NAMES_PIECE]?;
    let mut bytes = Vec::new(alloc);
    for _piece in 0..u64::MAX {
        let read = dir.read(piece.as_mut_slice())?;
        if read == 0 {
            return Ok(bytes);
        }
        bytes.extend_from_slice(&piece.as_slice()[..read])?;
    }
    Ok(bytes)
}

/// These names, in the order of their bytes.
fn sorted_names(alloc: Global, bytes: &[u8]) -> Result<Vec<String>, AllocError> {
    let mut names = Vec::new(alloc);
    for name in bytes.split(|b| *b == 0) {
        if let Ok(name) = str::from_utf8(name) {
            if !matches!(name, "" | "." | "..") {
                names.push(String::from_str(alloc, name)?)?;
            }
        }
    }
    names.sort()?;
    Ok(names)
}

/// All bytes of the file at a path.
fn all_bytes<R: Files<File = File>>(rt: &R, alloc: Global, path: &str) -> io::Result<Vec<u8>> {
    let mut file = fs::open(rt, path)?;
    let len = file.metadata()?.len();
    if len > MOST_BYTES {
        return Err(Error::from(ErrorKind::FileTooLarge));
    }
    let mut bytes = Vec::with_capacity(alloc, len as usize)?;
    file.read_to_end(&mut bytes)?;
    Ok(bytes)
}

/// The bytes, or none where nothing is at the path.
fn or_none(outcome: io::Result<Vec<u8>>) -> io::Result<Option<Vec<u8>>> {
    match outcome {
        Ok(bytes) => Ok(Some(bytes)),
        Err(error) if error.kind() == ErrorKind::NotFound => Ok(None),
        Err(error) => Err(error),
    }
}

/// Whether a file is empty, or ends with a line feed.
fn ends_whole(file: &File) -> io::Result<bool> {
    let len = file.metadata()?.len();
    if len == 0 {
        return Ok(true);
    }
    let mut last = [0u8];
    file.read_exact_at(&mut last, len - 1)?;
    Ok(last[0] == b'\n')
}

/// The files of the system. What they hold is not known.
#[derive(Drop)]
pub struct SystemDeskFiles<'a, P> {
    paths: &'a P,
    /// A pair for each time that the system failed, which only proofs read.
    faults: Log<u8, u8>,
}

impl<'a, P: DeskPaths> SystemDeskFiles<'a, P> {
    /// The files at the paths of a system, which has not failed yet.
    pub fn new(paths: &'a P) -> SystemDeskFiles<'a, P>
        ensures paths { result.paths ≡ paths.entry }
        ensures faults { length result.faults.items ≡ 0 }
    {
        SystemDeskFiles {
            paths,
            faults: Log::new(),
        }
    }
}

impl<P: DeskPaths> DeskFiles for SystemDeskFiles<'_, P> {
    ghost naming = { λ _. None };

    ghost holding = { λ _. None };

    ghost faults = { λ files. length files.faults.items };

    fn names_in(&mut self, alloc: Global, folder: &str) -> io::Result<Vec<String>> {
        let names = self.paths.names_at(alloc, folder);
        if names.is_err() {
            self.faults = self.faults.and(&0, &0);
        }
        names
    }

    fn read_whole(&mut self, alloc: Global, path: &str) -> io::Result<Option<Vec<u8>>> {
        let bytes = self.paths.bytes_at(alloc, path);
        if bytes.is_err() {
            self.faults = self.faults.and(&0, &0);
        }
        bytes
    }

    fn append(&mut self, alloc: Global, path: &str, line: &[u8]) -> io::Result<()> {
        let outcome = self.paths.append_at(alloc, path, line);
        if outcome.is_err() {
            self.faults = self.faults.and(&0, &0);
        }
        outcome
    }

    fn replace(&mut self, alloc: Global, path: &str, bytes: &[u8]) -> io::Result<()> {
        let outcome = self.paths.replace_at(alloc, path, bytes);
        if outcome.is_err() {
            self.faults = self.faults.and(&0, &0);
        }
        outcome
    }
}
