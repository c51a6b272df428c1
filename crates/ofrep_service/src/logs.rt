//! The logs of the workers.
ghost use Rattle.std.specs.Prelude.{◌≡◌, ◌++◌, IfErr, IfOk, None, codes, decimal, map, option_map, string_bytes};
ghost use Rattle.log_file.specs.declared.fault.LogFault.TheVariants.{WantOfMemory};
ghost use Rattle.ofrep_service.specs.Logs.{path_at, path_in, path_of, paths_of};

use log_file::{LogFault, LogPaths, SystemLog, make_folder};
use note_log::NumberedJournal;
use std::alloc::{AllocError, Global};
use std::io;

/// Who may read and write the folder of the logs: its owner.
const FOLDER_MODE: u32 = 0o700;

/// Who may read and write a log: its owner.
const FILE_MODE: u32 = 0o600;

/// The log of a worker: its notes are kept at the end of a file of the system.
pub type Journal = NumberedJournal<SystemLog>;

/// Opens the logs of so many workers in a folder, which is made where it is missing: one for each worker, or none where no folder is
/// named. So many of their last lines are read: all of them where they have no more, and else of each its share at least. No other
/// process may have one of them open.
pub fn open_logs<P: LogPaths>(
    paths: &P,
    alloc: Global,
    folder: Option<&str>,
    workers: usize,
    lines: u64,
) -> Result<Vec<Option<Journal>>, LogFault>
    ensures logs { IfOk result (λ logs. map path_in logs.items ≡ paths_of (option_map (λ f. f.now) folder.entry) workers) }
    ensures fault { IfErr result (λ fault. folder.entry ≡ None → fault ≡ WantOfMemory) }
{
    if let Some(folder) = folder {
        make_folder(paths, folder)?;
    }
    let share = lines / (workers as u64).max(1);
    let mut left = lines;
    let mut logs = Vec::new(alloc);
    for worker in 0..workers {
        let log = open_log(paths, alloc, folder, worker + 1, left.max(share))?;
        left = left.saturating_sub(lines_read(&log));
        logs.push(log)?;
    }
    Ok(logs)
}

/// How many last lines of a log are read, where one is kept.
fn lines_read(log: &Option<Journal>) -> u64 {
    match log {
        Some(journal) => journal.lines_read(),
        None => 0,
    }
}

/// Opens the log of a worker, by its number from 1, where a folder is named.
fn open_log<P: LogPaths>(
    paths: &P,
    alloc: Global,
    folder: Option<&str>,
    worker: usize,
    lines: u64,
) -> Result<Option<Journal>, LogFault>
    ensures log { IfOk result (λ log. path_in log ≡ path_at (option_map (λ f. f.now) folder.entry) worker) }
    ensures fault { IfErr result (λ fault. folder.entry ≡ None → fault ≡ WantOfMemory) }
{
    match folder {
        Some(folder) => Ok(Some(open_in(paths, alloc, folder, worker, lines)?)),
        None => Ok(None),
    }
}

/// Opens the log of a worker, by its number from 1, in a folder that is there.
fn open_in<P: LogPaths>(
    paths: &P,
    alloc: Global,
    folder: &str,
    worker: usize,
    lines: u64,
) -> Result<Journal, LogFault>
    ensures { IfOk result (λ log. string_bytes log.journal.file.path ≡ path_of folder.now worker) }
{
    let path = log_path(alloc, folder, worker)?;
    let file = SystemLog::open(paths, path)?;
    Ok(Journal::new(log_file::Journal::open(alloc, file, lines)?))
}

/// The path of the log of a worker.
fn log_path(alloc: Global, folder: &str, worker: usize) -> Result<String, AllocError>
    ensures { IfOk result (λ path. string_bytes path ≡ path_of folder.now worker) }
{
    format!(in alloc; "{folder}/worker-{worker}.log")
}

/// The system's word on why the logs of so many workers in a folder can't be opened: it is asked again, for the folder and for the
/// file of each worker.
pub fn log_trouble<P: LogPaths>(
    paths: &P,
    alloc: Global,
    folder: &str,
    workers: usize,
) -> Option<io::Error> {
    if let Err(trouble) = paths.make_folder(folder, FOLDER_MODE) {
        return Some(trouble);
    }
    for place in 0..workers {
        let path = log_path(alloc, folder, place + 1).ok()?;
        if let Err(trouble) = paths.open_log(path.as_str(), FILE_MODE) {
            return Some(trouble);
        }
    }
    None
}

/// How many bytes the logs of so many workers in a folder have together, by what the system says of their paths. One of which it says
/// nothing has none.
pub fn log_bytes<P: LogPaths>(
    paths: &P,
    alloc: Global,
    folder: &str,
    workers: usize,
) -> Result<u64, AllocError> {
    let mut bytes: u64 = 0;
    for place in 0..workers {
        let path = log_path(alloc, folder, place + 1)?;
        if let Ok(found) = paths.metadata_at(path.as_str()) {
            bytes = bytes.saturating_add(found.len());
        }
    }
    Ok(bytes)
}
