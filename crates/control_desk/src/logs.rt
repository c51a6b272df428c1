//! The logs of a folder.
ghost use Rattle.std.specs.Prelude.{◌≡◌, ◌≤◌, IfErr, IfOk, IfSome, Some, filter, map, string_bytes};
ghost use Rattle.note_streams.specs.LogLines.{files_view};
ghost use Rattle.control_desk.specs.Files.{path_in};
ghost use Rattle.control_desk.specs.Logs.{AreAt, AreListed, AreLogs, IsUnread, IsUnreadOf, bytes_of, passed_by};
ghost use Rattle.control_desk.specs.Names.{is_chosen};
ghost use Rattle.control_desk.specs.Obstacles.{Grows, met_by};

use crate::files::DeskFiles;
use crate::names::is_chosen;
use crate::obstacles::Obstacles;
use note_streams::LogFile;
use std::alloc::{AllocError, AllocFailed, Global};

/// How often a folder is listed where a file of it is gone by the time that it is read: it was renamed.
const TRIES: usize = 10;

/// A log that was read.
#[derive(Drop)]
pub(crate) struct HeldLog {
    name: String,
    bytes: Vec<u8>,
}

/// The logs of a folder.
#[derive(Drop)]
pub(crate) struct Logs {
    pub(crate) files: Vec<HeldLog>,
    /// The names of those that are compressed, which are not read.
    pub(crate) passed_over: Vec<String>,
}

/// Why logs are not read.
#[derive(Clone, Copy, Debug, PartialEq, Eq)]
pub(crate) enum Unread {
    WantOfMemory,
    /// The system failed, or logs were gone again and again by the time that they were read.
    Failed,
}

impl From<AllocError> for Unread {
    ghost use Rattle.control_desk.specs.declared.logs.Unread.TheVariants.{WantOfMemory};

    ghost from_gives = { λ _ e. e ≡ WantOfMemory };

    fn from(_fault: AllocError) -> Unread {
        Unread::WantOfMemory
    }
}

impl<T: Drop> From<AllocFailed<T>> for Unread {
    ghost use Rattle.control_desk.specs.declared.logs.Unread.TheVariants.{WantOfMemory};

    ghost from_gives = { λ _ e. e ≡ WantOfMemory };

    fn from(_fault: AllocFailed<T>) -> Unread {
        Unread::WantOfMemory
    }
}

/// All logs of a folder, in the order of their names, but those that are compressed.
pub(crate) fn read_logs<F: DeskFiles>(
    files: &mut F,
    met: &mut Obstacles,
    alloc: Global,
    folder: &str,
) -> Result<Logs, Unread>
    ensures logs { IfOk result (λ logs. AreLogs (F.naming files.old) (F.holding files.old) folder.now (bytes_of logs) (passed_by logs)) }
    ensures unread { IfErr result (IsUnread (F.faults files.old) (F.faults files.new) (met_by met.old) (met_by met.new)) }
    ensures grows { Grows (met_by met.old) (met_by met.new) }
    ensures counted { F.faults files.old ≤ F.faults files.new }
    ensures holding { F.holding files.new ≡ F.holding files.old }
{
    for _try in 0..TRIES {
        let Ok(names) = files.names_in(alloc, folder) else {
            return Err(Unread::Failed);
        };
        if let Some(logs) = read_listed(files, alloc, folder, names.as_slice())? {
            return Ok(logs);
        }
        met.meet_gone();
    }
    Err(Unread::Failed)
}

/// The logs among files of these names; none where one is gone.
fn read_listed<F: DeskFiles>(
    files: &mut F,
    alloc: Global,
    folder: &str,
    names: &[String],
) -> Result<Option<Logs>, Unread>
    ensures logs { IfOk result (λ o. IfSome o (λ logs. AreListed (F.holding files.old) folder.now (map string_bytes names.now) (bytes_of logs) (passed_by logs))) }
    ensures unread { IfErr result (IsUnreadOf (F.faults files.old) (F.faults files.new)) }
    ensures counted { F.faults files.old ≤ F.faults files.new }
    ensures naming { F.naming files.new ≡ F.naming files.old }
    ensures holding { F.holding files.new ≡ F.holding files.old }
{
    let chosen = named(alloc, names, false)?;
    let Some(read) = read_each(files, alloc, folder, chosen.as_slice())? else {
        return Ok(None);
    };
    let passed_over = named(alloc, names, true)?;
    Ok(Some(Logs {
        files: read,
        passed_over: copied(alloc, passed_over.as_slice())?,
    }))
}

/// Those names that are of logs which are compressed, or of logs which are not.
fn named<'a>(
    alloc: Global,
    names: &'a [String],
    compressed: bool,
) -> Result<Vec<&'a str>, AllocError>
    ensures { IfOk result (λ v. map (λ name. name.now) v.items ≡ filter (is_chosen compressed) (map string_bytes names.now)) }
{
    let mut chosen = Vec::new(alloc);
    for name in names {
        if is_chosen(compressed, name.as_bytes()) {
            chosen.push(name.as_str())?;
        }
    }
    Ok(chosen)
}

/// The files of these names; none where one is gone.
fn read_each<F: DeskFiles>(
    files: &mut F,
    alloc: Global,
    folder: &str,
    names: &[&str],
) -> Result<Option<Vec<HeldLog>>, Unread>
    ensures logs { IfOk result (λ o. IfSome o (λ v. AreAt (F.holding files.old) folder.now (map (λ name. name.now) names.now) (map (λ log. log.bytes.items) v.items))) }
    ensures unread { IfErr result (IsUnreadOf (F.faults files.old) (F.faults files.new)) }
    ensures counted { F.faults files.old ≤ F.faults files.new }
    ensures naming { F.naming files.new ≡ F.naming files.old }
    ensures holding { F.holding files.new ≡ F.holding files.old }
{
    let mut read = Vec::with_capacity(alloc, names.len())?;
    for name in names {
        match read_log(files, alloc, folder, name)? {
            Some(log) => read.push(log)?,
            None => return Ok(None),
        }
    }
    Ok(Some(read))
}

/// The file of a name; none where it is gone.
fn read_log<F: DeskFiles>(
    files: &mut F,
    alloc: Global,
    folder: &str,
    name: &str,
) -> Result<Option<HeldLog>, Unread>
    ensures log { IfOk result (λ o. IfSome o (λ log. IfSome (F.holding files.old) (λ at. Some log.bytes.items ≡ at (path_in folder.now name.now)))) }
    ensures unread { IfErr result (IsUnreadOf (F.faults files.old) (F.faults files.new)) }
    ensures counted { F.faults files.old ≤ F.faults files.new }
    ensures naming { F.naming files.new ≡ F.naming files.old }
    ensures holding { F.holding files.new ≡ F.holding files.old }
{
    let path = path_in(alloc, folder, name)?;
    let Ok(read) = files.read_whole(alloc, path.as_str()) else {
        return Err(Unread::Failed);
    };
    let Some(bytes) = read else {
        return Ok(None);
    };
    let name = String::from_str(alloc, name)?;
    Ok(Some(HeldLog { name, bytes }))
}

/// The path of a file in a folder.
pub(crate) fn path_in(alloc: Global, folder: &str, name: &str) -> Result<String, AllocError>
    ensures { IfOk result (λ path. string_bytes path ≡ path_in folder.now name.now) }
{
    format!(in alloc; "{folder}/{name}")
}

/// The logs as they are handed over to be tallied.
#[tactic(auto, using(crate::proofs::Items::one_more))]
pub(crate) fn handed<'a>(alloc: Global, logs: &'a [HeldLog]) -> Result<Vec<LogFile<'a>>, AllocError>
    ensures { IfOk result (λ v. files_view v.items ≡ map (λ log. log.bytes.items) logs.now) }
{
    let mut files = Vec::with_capacity(alloc, logs.len())?;
    for log in logs {
        files.push(LogFile {
            name: log.name.as_str(),
            bytes: log.bytes.as_slice(),
        })?;
    }
    Ok(files)
}

/// Copies of names.
#[tactic(auto, using(crate::proofs::Items::one_more))]
fn copied(alloc: Global, names: &[&str]) -> Result<Vec<String>, AllocError>
    ensures { IfOk result (λ v. map string_bytes v.items ≡ map (λ name. name.now) names.now) }
{
    let mut copies = Vec::with_capacity(alloc, names.len())?;
    for name in names {
        copies.push(String::from_str(alloc, name)?)?;
    }
    Ok(copies)
}
