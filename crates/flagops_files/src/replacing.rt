//! A file of the system, replaced whole.
use std::alloc::Global;
use std::fs;
use std::fs::{OpenFile, OpenOptions, Permissions};
use std::io::{self, Error, ErrorKind, Write};
use std::path::PathBuf;
use std::rt::Files;

/// The most links that are followed from a path to its file, as many as Linux follows.
const MAX_LINKS: u8 = 40;

/// Writes `bytes` to the file at `path`, or fails and leaves it as it was.
///
/// A new file is written beside the old one, is given its mode, is handed to the disk, and is renamed over it: so
/// whatever happens, also to this process, at the path stands the old content or the new, whole. A link stays a link,
/// the file it leads to is replaced. What is no plain file, as a pipe or `/dev/stdout`, is written as it is.
pub(crate) fn replace<R: Files>(rt: &R, alloc: Global, path: &str, bytes: &[u8]) -> io::Result<()> {
    match plain_file(rt, alloc, path)? {
        Some(target) => replace_file(rt, alloc, &target, bytes),
        None => fs::write(rt, path, bytes),
    }
}

/// Where the plain file is, or would be, that a path leads to; `None` where it leads to something else.
pub(crate) fn plain_file<R: Files>(
    rt: &R,
    alloc: Global,
    path: &str,
) -> io::Result<Option<PathBuf>> {
    let mut target = PathBuf::from_str(alloc, path)?;
    for _ in 0..MAX_LINKS {
        if is_open_file(target.as_str()) {
            return Ok(None);
        }
        match fs::symlink_metadata(rt, target.as_str()) {
            Ok(found) if found.is_symlink() => {
                let next = rt.read_link(alloc, target.as_str())?;
                target.pop();
                target.push(next.as_str())?;
            }
            Ok(found) if found.is_file() => return Ok(Some(target)),
            Ok(_) => return Ok(None),
            Err(e) if e.kind() == ErrorKind::NotFound => return Ok(Some(target)),
            Err(e) => return Err(e),
        }
    }
    Err(Error::from(ErrorKind::FilesystemLoop))
}

/// Whether the path names a file that a process has open, which its other writers would lose by a replacement.
fn is_open_file(path: &str) -> bool {
    path.starts_with("/proc/") || path.starts_with("/dev/fd/")
}

/// Replaces the plain file; where that fails, no other file is left.
fn replace_file<R: Files>(rt: &R, alloc: Global, target: &PathBuf, bytes: &[u8]) -> io::Result<()> {
    let mode = writable_mode(rt, target.as_str())?;
    let (beside, file) = create_beside(rt, alloc, target)?;
    let replaced = match fill(file, mode, bytes) {
        Ok(()) => fs::rename(rt, beside.as_str(), target.as_str()),
        Err(e) => Err(e),
    };
    if replaced.is_err() {
        let _ = fs::remove_file(rt, beside.as_str());
    }
    replaced
}

/// The mode of a file, which may be written; `None` where there is none.
fn writable_mode<R: Files>(rt: &R, path: &str) -> io::Result<Option<Permissions>> {
    match OpenOptions::new().write(true).open(rt, path) {
        Ok(file) => Ok(Some(file.metadata()?.permissions())),
        Err(e) if e.kind() == ErrorKind::NotFound => Ok(None),
        Err(e) => Err(e),
    }
}

/// A new file in the folder of another, under the first name `.flagops-N` that is free.
fn create_beside<R: Files>(
    rt: &R,
    alloc: Global,
    target: &PathBuf,
) -> io::Result<(PathBuf, R::File)> {
    for number in 0..u32::MAX {
        let name = format!(in alloc; ".flagops-{number}")?;
        let beside = target.with_file_name(alloc, name.as_str())?;
        match fs::File::create_new(rt, beside.as_str()) {
            Ok(file) => return Ok((beside, file)),
            Err(e) if e.kind() == ErrorKind::AlreadyExists => {}
            Err(e) => return Err(e),
        }
    }
    Err(Error::from(ErrorKind::AlreadyExists))
}

/// Gives a new file its mode, before it holds anything, and its bytes, and hands it to the disk.
fn fill<F: Write + OpenFile + Drop>(
    mut file: F,
    mode: Option<Permissions>,
    bytes: &[u8],
) -> io::Result<()> {
    if let Some(mode) = mode {
        file.set_permissions(mode)?;
    }
    file.write_all(bytes)?;
    file.sync_all()
}
