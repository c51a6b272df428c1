//! The file of a log.
ghost use Rattle.std.specs.Prelude.{◌≡◌, ◌+◌, ℕ, Bool, true, false, List, Option, IfOk, IfSome, MatchOption, OnErr, OnOk, length};
ghost use Rattle.std.specs.Io.{WritesAtMost};
ghost use Rattle.flag_text.specs.Outlet.{is_fault};
ghost use Rattle.log_file.specs.File.{GrowsByTaken, IsLength, Shows, count_of, cut_known};

use crate::fault::LogFault;
use crate::loss::Loss;
use crate::paths::LogPaths;
use std::io;

/// The file at a path, open to read it, to add to its end, and to cut its end off.
///
/// Others may move, unlink, replace or cut it meanwhile: what is said of its bytes holds as long as they do not, and
/// [`LogFile::look`] finds that they did.
pub trait LogFile {
    // The bytes of the file that is open, where they are known.
    ghost bytes: { Self → Option (List ℕ) };

    // Its path, as bytes.
    ghost path: { Self → List ℕ };

    // It stood at its path when that was last looked for.
    ghost stands: { Self → Bool };

    // How often its path was looked for.
    ghost looks: { Self → ℕ };

    // How many of its appends have failed, or took no byte of some.
    ghost faults: { Self → ℕ };

    /// How many bytes it has.
    fn len(&self) -> io::Result<u64>
        ensures length { IfOk result (λ n. IfSome (bytes self.now) (λ bs. n ≡ length bs)) };

    /// Fills a buffer with its bytes from a place on.
    fn read_exact_at(&self, buf: &mut [u8], place: u64) -> io::Result<()>
        ensures shown { OnOk result (Shows (bytes self.now) place buf.new) };

    /// Adds a front of `buf` to its end, and says of how many bytes. An error has added nothing.
    fn append(&mut self, buf: &[u8]) -> io::Result<usize>
        ensures bound { WritesAtMost result buf.now }
        ensures bytes { GrowsByTaken (bytes self.old) (bytes self.new) result buf.now }
        ensures stands { stands self.new ≡ stands self.old }
        ensures looks { looks self.new ≡ looks self.old }
        ensures path { path self.new ≡ path self.old }
        ensures faults { faults self.new ≡ faults self.old + count_of (is_fault buf.now result) };

    /// Cuts it to its first bytes, so many of them.
    fn cut(&mut self, len: u64) -> io::Result<()>
        ensures cut { OnOk result (bytes self.new ≡ cut_known len (bytes self.old)) }
        ensures uncut { OnErr result (bytes self.new ≡ bytes self.old) }
        ensures stands { stands self.new ≡ stands self.old }
        ensures looks { looks self.new ≡ looks self.old }
        ensures path { path self.new ≡ path self.old }
        ensures faults { faults self.new ≡ faults self.old };

    /// Looks whether its path still names it, and whether it is as long as it was left, and says how it is lost where it is not.
    fn look<P: LogPaths>(&mut self, paths: &P, len: u64) -> Option<Loss>
        requires { IsLength len (bytes self.old) }
        ensures found { MatchOption result ((stands self.new ≡ true) × (bytes self.new ≡ bytes self.old)) (λ _. stands self.new ≡ false) }
        ensures looks { looks self.new ≡ looks self.old + 1 }
        ensures path { path self.new ≡ path self.old }
        ensures faults { faults self.new ≡ faults self.old };

    /// Opens the path anew: the file that is there, or a new one. No other process may have it open as a log.
    fn reopen<P: LogPaths>(&mut self, paths: &P) -> Result<(), LogFault>
        ensures stands { OnOk result (stands self.new ≡ true) }
        ensures looks { looks self.new ≡ looks self.old + 1 }
        ensures path { path self.new ≡ path self.old }
        ensures faults { faults self.new ≡ faults self.old };
}
