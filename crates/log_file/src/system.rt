//! A log's file of the system.
ghost use Rattle.std.specs.Prelude.{◌≡◌, None, true, IfOk, length, string_bytes};
ghost use Rattle.std.specs.Fs.{metadata_len};

use crate::fault::{LogFault, fault_of};
use crate::file::LogFile;
use crate::loss::{FileMark, Loss, loss_of, loss_with_links};
use crate::paths::{FILE_MODE, FOLDER_MODE, LogPaths};
use byte_streams::PersistentOutput;
use http_server::Log;
use std::fs::{File, Metadata, TryLockError};
use std::io::{self, ErrorKind, Write};
use std::os::unix::fs::{FileExt, MetadataExt};

/// A log's file of the system, which no other process has open as one: it is locked as long as it is open.
#[derive(Drop)]
pub struct SystemLog {
    path: String,
    file: File,
    mark: FileMark,
    stands: bool,
    /// A pair for each look and each fault, which only proofs read.
    looks: Log<u8, u8>,
    faults: Log<u8, u8>,
}

impl SystemLog {
    /// Opens the log at a path, whose folder is there. A file that is missing is made, for its owner alone.
    pub fn open<P: LogPaths>(paths: &P, path: String) -> Result<SystemLog, LogFault>
        ensures path { IfOk result (λ log. ⟦<SystemLog as LogFile>⟧.path log ≡ string_bytes path) }
        ensures stands { IfOk result (λ log. ⟦<SystemLog as LogFile>⟧.stands log ≡ true) }
    {
        let file = open_file(paths, path.as_str())?;
        lock(&file)?;
        let mark = mark_of_file(&file)?;
        Ok(SystemLog {
            path,
            file,
            mark,
            stands: true,
            looks: Log::new(),
            faults: Log::new(),
        })
    }
}

/// Makes the folder of logs where it is missing, for its owner alone.
pub fn make_folder<P: LogPaths>(paths: &P, folder: &str) -> Result<(), LogFault> {
    match paths.make_folder(folder, FOLDER_MODE) {
        Ok(()) => Ok(()),
        Err(error) => Err(fault_of(&error)),
    }
}

impl LogFile for SystemLog {
    ghost bytes = { λ _. None };

    ghost path = { λ log. string_bytes log.path };

    ghost stands = { λ log. log.stands };

    ghost looks = { λ log. length log.looks.items };

    ghost faults = { λ log. length log.faults.items };

    fn len(&self) -> io::Result<u64> {
        Ok(self.file.metadata()?.len())
    }

    fn read_exact_at(&self, buf: &mut [u8], place: u64) -> io::Result<()> {
        self.file.read_exact_at(buf, place)
    }

    fn append(&mut self, buf: &[u8]) -> io::Result<usize> {
        let outcome = PersistentOutput::new(&self.file).write(buf);
        let is_fault = match outcome {
            Ok(0) => !buf.is_empty(),
            Ok(_) => false,
            Err(_) => true,
        };
        if is_fault {
            self.faults = self.faults.and(&0, &0);
        }
        outcome
    }

    fn cut(&mut self, len: u64) -> io::Result<()> {
        self.file.set_len(len)
    }

    fn look<P: LogPaths>(&mut self, paths: &P, len: u64) -> Option<Loss> {
        self.looks = self.looks.and(&0, &0);
        let loss = match paths.metadata_at(self.path.as_str()) {
            Ok(metadata) => loss_of(self.mark, mark_of(&metadata), len),
            Err(error) => Some(loss_by(error.kind())),
        };
        self.stands = loss.is_none();
        match loss {
            Some(loss) => Some(loss_with_links(loss, links_of(&self.file))),
            None => None,
        }
    }

    fn reopen<P: LogPaths>(&mut self, paths: &P) -> Result<(), LogFault> {
        self.looks = self.looks.and(&0, &0);
        self.stands = false;
        let file = open_anew(paths, self.path.as_str())?;
        // The path may still name the same file, whose lock is then to be taken by the other handle.
        let _ = self.file.unlock();
        lock(&file)?;
        self.mark = mark_of_file(&file)?;
        self.file = file;
        self.stands = true;
        Ok(())
    }
}

/// Opens a file as [`open_file`] does. Its folder is made too where it is missing.
fn open_anew<P: LogPaths>(paths: &P, path: &str) -> Result<File, LogFault> {
    if let Some((folder, _)) = path.rsplit_once('/') {
        make_folder(paths, folder)?;
    }
    open_file(paths, path)
}

/// Opens a file to read it and to add to its end. It is made where it is missing, for its owner alone.
fn open_file<P: LogPaths>(paths: &P, path: &str) -> Result<File, LogFault> {
    match paths.open_log(path, FILE_MODE) {
        Ok(file) => Ok(file),
        Err(error) => Err(fault_of(&error)),
    }
}

/// Locks a file, which no other process may have locked.
fn lock(file: &File) -> Result<(), LogFault> {
    match file.try_lock() {
        Ok(()) => Ok(()),
        Err(TryLockError::WouldBlock) => Err(LogFault::InUse),
        Err(TryLockError::Error(error)) => Err(fault_of(&error)),
    }
}

fn mark_of_file(file: &File) -> Result<FileMark, LogFault> {
    match file.metadata() {
        Ok(metadata) => Ok(mark_of(&metadata)),
        Err(error) => Err(fault_of(&error)),
    }
}

/// How many names a file has, where the system says it.
fn links_of(file: &File) -> Option<u64> {
    match file.metadata() {
        Ok(metadata) => Some(metadata.nlink()),
        Err(_) => None,
    }
}

fn mark_of(metadata: &Metadata) -> FileMark
    ensures { result.len ≡ metadata_len metadata.now }
{
    FileMark {
        device: metadata.dev(),
        inode: metadata.ino(),
        len: metadata.len(),
    }
}

/// How a file is lost where the system says this of its path.
fn loss_by(kind: ErrorKind) -> Loss {
    match kind {
        ErrorKind::NotFound => Loss::Missing,
        _ => Loss::Unseen,
    }
}
