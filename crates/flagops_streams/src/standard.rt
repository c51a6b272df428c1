//! The standard descriptors of the process.
use std::fs::{File, Files};
use std::os::fd::{AsRawFd, IntoRawFd};

/// The last of the standard descriptors: 0 is the input, 1 the output, 2 the error outlet.
const LAST_STANDARD: i32 = 2;

/// How often a file is opened: once for each descriptor that may be closed, and once more.
const TRIES: u32 = 4;

/// Opens each of the descriptors 0 to 2 that is closed, on `/dev/null` for reading: else the next file or connection that is
/// opened would be one of them, and would be written what is for a person. What is written to one of them fails, as to a
/// closed one. They stay closed where it can't be opened. It is to be called before anything else is opened. No clause says so:
/// which descriptor a file gets is not told by what opens it.
pub fn open_standard<R: Files<File = File>>(files: &R) {
    for _try in 0..TRIES {
        let Ok(file) = File::open(files, "/dev/null") else {
            return;
        };
        if file.as_raw_fd() > LAST_STANDARD {
            return;
        }
        // It stays open as long as the process.
        let _descriptor = file.into_raw_fd();
    }
}
