//! The files that a desk reads and writes.
ghost use Rattle.std.specs.Prelude.{◌≡◌, ◌<◌, ◌≤◌, ℕ, List, Option, IfOk, IfSome, OnErr, OnOk, map, option_map, string_bytes};
ghost use Rattle.flagops_shell.specs.Files.{Holding, KeepsOthers, Stores};
ghost use Rattle.control_desk.specs.Files.{Appends, Naming};

use std::alloc::Global;
use std::io;

/// The files that a desk reads and writes: the logs of a folder, what tells of the plans that were applied, and the document.
///
/// Others may change them meanwhile: what is said of them holds as long as they do not.
pub trait DeskFiles {
    // The names of the files in each folder, in the order of their bytes, where they are known.
    ghost naming: { Self → Option Naming };

    // The bytes of the file at each path, where they are known.
    ghost holding: { Self → Option Holding };

    // How often the system failed so far.
    ghost faults: { Self → ℕ };

    /// The names of the files in a folder, in the order of their bytes.
    fn names_in(&mut self, alloc: Global, folder: &str) -> io::Result<Vec<String>>
        ensures named { IfOk result (λ v. IfSome (naming self.old) (λ named. map string_bytes v.items ≡ named folder.now)) }
        ensures failed { OnErr result (faults self.old < faults self.new) }
        ensures counted { faults self.old ≤ faults self.new }
        ensures naming { naming self.new ≡ naming self.old }
        ensures holding { holding self.new ≡ holding self.old };

    /// All bytes of the file at a path; none where there is no file.
    fn read_whole(&mut self, alloc: Global, path: &str) -> io::Result<Option<Vec<u8>>>
        ensures read { IfOk result (λ o. IfSome (holding self.old) (λ at. option_map (λ v. v.items) o ≡ at path.now)) }
        ensures failed { OnErr result (faults self.old < faults self.new) }
        ensures counted { faults self.old ≤ faults self.new }
        ensures naming { naming self.new ≡ naming self.old }
        ensures holding { holding self.new ≡ holding self.old };

    /// Adds a line to the end of the file at a path, which is made where it is missing, and hands it to the disk.
    fn append(&mut self, alloc: Global, path: &str, line: &[u8]) -> io::Result<()>
        ensures added { OnOk result (Appends (holding self.old) (holding self.new) path.now line.now) }
        ensures others { KeepsOthers (holding self.old) (holding self.new) path.now }
        ensures failed { OnErr result (faults self.old < faults self.new) }
        ensures counted { faults self.old ≤ faults self.new };

    /// Replaces the file at a path, whole or not at all.
    fn replace(&mut self, alloc: Global, path: &str, bytes: &[u8]) -> io::Result<()>
        ensures stored { OnOk result (Stores (holding self.old) (holding self.new) path.now bytes.now) }
        ensures kept { OnErr result (holding self.new ≡ holding self.old) }
        ensures others { KeepsOthers (holding self.old) (holding self.new) path.now }
        ensures failed { OnErr result (faults self.old < faults self.new) }
        ensures counted { faults self.old ≤ faults self.new };
}
