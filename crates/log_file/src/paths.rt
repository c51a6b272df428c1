//! Where logs' files are.
ghost use Rattle.std.specs.Prelude.{◌≡◌};
ghost use Rattle.log_file.specs.Modes.{owner_file, owner_folder};

use std::fs::{self, DirBuilder, File, Metadata, OpenOptions};
use std::io;
use std::os::unix::fs::{DirBuilderExt, OpenOptionsExt};
use std::rt::Files;

/// Who may read and write a folder of logs that is made: its owner.
pub(crate) const FOLDER_MODE: u32 = 0o700;

/// Who may read and write a log that is made: its owner.
pub(crate) const FILE_MODE: u32 = 0o600;

/// What logs need of a file system. Threads may rest on it, as they may not on `Files`, of which some methods are generic.
pub trait LogPaths {
    /// Makes a folder, and those that it is in, where they are missing, with these permissions: their owner's alone.
    fn make_folder(&self, folder: &str, mode: u32) -> io::Result<()>
        requires { mode ≡ owner_folder };

    /// Opens the file at a path to read it and to add to its end. A file that is missing is made with these permissions: its
    /// owner's alone.
    fn open_log(&self, path: &str, mode: u32) -> io::Result<File>
        requires { mode ≡ owner_file };

    /// What is at a path.
    fn metadata_at(&self, path: &str) -> io::Result<Metadata>;
}

impl<R: Files<File = File>> LogPaths for R {
    fn make_folder(&self, folder: &str, mode: u32) -> io::Result<()> {
        let mut builder = DirBuilder::new();
        builder.recursive(true).mode(mode).create(self, folder)
    }

    fn open_log(&self, path: &str, mode: u32) -> io::Result<File> {
        let mut options = OpenOptions::new();
        options.read(true).append(true).create(true).mode(mode);
        options.open(self, path)
    }

    fn metadata_at(&self, path: &str) -> io::Result<Metadata> {
        fs::metadata(self, path)
    }
}
