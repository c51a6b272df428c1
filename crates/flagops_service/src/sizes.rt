//! How many bytes the logs have, and how much memory the process.
ghost use Rattle.std.specs.Prelude.{◌≡◌};

use crate::asked::Answering;
use crate::resident::resident_in;
use flagops_shell::FileSet;
use log_file::LogPaths;
use ofrep_service::{Board, log_bytes};
use std::alloc::Global;
use std::str;

/// Where the system says what a process is.
const STATUS: &str = "/proc/self/status";

/// The most bytes of that text.
const MOST_STATUS: u64 = 65_536;

/// Shows how many bytes the logs have together, and how much memory is resident. What the system does not say stays as it was shown.
pub(crate) fn show_sizes<R: LogPaths, F: FileSet>(
    rt: &R,
    alloc: Global,
    answering: &Answering<'_>,
    board: &Board,
    files: &mut F,
)
    ensures { F.holding files.new ≡ F.holding files.old }
{
    if let Some(folder) = answering.log {
        if let Ok(bytes) = log_bytes(rt, alloc, folder, answering.workers as usize) {
            board.show_log_bytes(bytes);
        }
    }
    if let Some(bytes) = resident(alloc, files) {
        board.show_memory(bytes);
    }
}

/// How many bytes of the process's memory are resident, where the system says so.
fn resident<F: FileSet>(alloc: Global, files: &mut F) -> Option<u64>
    ensures { F.holding files.new ≡ F.holding files.old }
{
    let Ok(bytes) = files.read(alloc, STATUS, MOST_STATUS) else {
        return None;
    };
    match str::from_utf8(bytes.as_slice()) {
        Ok(text) => resident_in(text),
        Err(_) => None,
    }
}
