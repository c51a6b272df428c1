//! The keys of clients, from their file.
ghost use Rattle.std.specs.Prelude.{◌≡◌, IfErr, IfOk, IfSome, Ok, is_some, true};
ghost use Rattle.ofrep_guards.specs.Key.{keys_of, keys_view};
ghost use Rattle.flagops_service.specs.Unready.{AreNoKeys, HasKeys, HoldsKeys, LacksKeys, MayBeUnready};
ghost use Rattle.flagops_service.specs.Words.{Answering as Asked, answering_view};

use crate::asked::Answering;
use crate::preparing::Unready;
use crate::rereading::is_device;
use crate::stop::{NoKeys, Stop};
use crate::telling::{of_device, say_keys_changed, say_keys_kept, say_keys_refused};
use file_diagnostics::of_unreadable;
use flag_text::Outlet;
use flagops_shell::{FileSet, LoadFault};
use log_file::LogPaths;
use ofrep_guards::{KeyFault, Keys, MOST_KEY_BYTES};
use ofrep_service::Board;
use std::alloc::{AllocError, Global};
use std::sync::Wait;

/// The keys of the file that is named for them, where one is.
pub(crate) fn read_keys<F: FileSet>(
    alloc: Global,
    files: &mut F,
    answering: &Answering<'_>,
) -> Result<Option<Keys>, Unready>
    ensures keys { IfOk result (HasKeys (F.holding files.old) (answering_view answering.now).keys) }
    ensures none { IfErr result (λ why. IfSome (answering_view answering.now).keys (λ path. LacksKeys (F.holding files.old) path why)) }
    ensures unready { IfErr result (MayBeUnready (answering_view answering.now)) }
    ensures kept { F.holding files.new ≡ F.holding files.old }
{
    match answering.keys {
        Some(path) => Ok(Some(keys_at(alloc, files, path)?)),
        None => Ok(None),
    }
}

/// The keys of the file at a path.
fn keys_at<F: FileSet>(alloc: Global, files: &mut F, path: &str) -> Result<Keys, Unready>
    ensures keys { IfOk result (HoldsKeys (F.holding files.old) path.now) }
    ensures none { IfErr result (LacksKeys (F.holding files.old) path.now) }
    ensures unready { (a : Asked) → is_some a.keys ≡ true → IfErr result (MayBeUnready a) }
    ensures kept { F.holding files.new ≡ F.holding files.old }
{
    match files.read(alloc, path, MOST_KEY_BYTES as u64) {
        Ok(bytes) => keys_in(alloc, bytes.as_slice()),
        Err(LoadFault::Unreadable) => Err(Unready::Stopped(Stop::NoKeys(NoKeys::Unreadable))),
        Err(LoadFault::WantOfMemory) => Err(Unready::WantOfMemory),
    }
}

/// The keys of the bytes of a file.
fn keys_in(alloc: Global, bytes: &[u8]) -> Result<Keys, Unready>
    ensures keys { IfOk result (λ keys. keys_of bytes.now ≡ Ok (keys_view keys)) }
    ensures none { IfErr result (AreNoKeys bytes.now) }
    ensures unready { (a : Asked) → is_some a.keys ≡ true → IfErr result (MayBeUnready a) }
{
    match Keys::read(alloc, bytes) {
        Ok(keys) => Ok(keys),
        Err(KeyFault::WantOfMemory) => Err(Unready::WantOfMemory),
        Err(fault) => Err(Unready::Stopped(Stop::NoKeys(NoKeys::Unusable(fault)))),
    }
}

/// The file of keys, where one is named, while it is read again.
#[derive(Drop)]
pub(crate) struct WatchedKeys<'a> {
    alloc: Global,
    path: Option<&'a str>,
    /// What was read of it last, where something was.
    last: Option<Vec<u8>>,
    is_missing: bool,
}

impl<'a> WatchedKeys<'a> {
    /// The file at this path, which was not read again yet.
    pub(crate) fn new(alloc: Global, path: Option<&'a str>) -> WatchedKeys<'a> {
        WatchedKeys {
            alloc,
            path,
            last: None,
            is_missing: false,
        }
    }

    /// Reads the file again. Where its bytes are others and are keys, a request has to show one of these from now on; where they are
    /// none the last ones stay, which is told once for each change.
    pub(crate) fn renew<R: LogPaths + Wait, F: FileSet, E: Outlet>(
        &mut self,
        rt: &R,
        board: &Board,
        files: &mut F,
        err: &mut E,
    )
        ensures kept { F.holding files.new ≡ F.holding files.old }
    {
        let Some(path) = self.path else {
            return;
        };
        if is_device(rt, path) {
            self.miss(of_device(self.alloc, path), err);
            return;
        }
        match files.read(self.alloc, path, MOST_KEY_BYTES as u64) {
            Ok(bytes) => self.take(rt, board, path, bytes, err),
            Err(LoadFault::Unreadable) => {
                let why = of_unreadable(self.alloc, path, files.trouble());
                self.miss(why, err);
            }
            Err(LoadFault::WantOfMemory) => {}
        }
    }

    /// The file can't be read, which is told once.
    fn miss<E: Outlet>(&mut self, why: Result<String, AllocError>, err: &mut E) {
        if !self.is_missing {
            self.is_missing = true;
            say_keys_kept(err, why);
        }
    }

    /// Takes what was read of the file, where it is not what was read last. Where memory runs out it is taken the next time.
    fn take<R: Wait, E: Outlet>(
        &mut self,
        rt: &R,
        board: &Board,
        path: &str,
        bytes: Vec<u8>,
        err: &mut E,
    ) {
        self.is_missing = false;
        if self.is_last(bytes.as_slice()) {
            return;
        }
        match Keys::read(self.alloc, bytes.as_slice()) {
            Ok(keys) => {
                let _ = board.replace_keys(rt, keys);
                if self.last.is_some() {
                    say_keys_changed(self.alloc, err, path);
                }
            }
            Err(KeyFault::WantOfMemory) => return,
            Err(fault) => say_keys_refused(self.alloc, err, path, fault),
        }
        self.last = Some(bytes);
    }

    /// Whether this is what was read last.
    fn is_last(&self, bytes: &[u8]) -> bool {
        match &self.last {
            Some(last) => last.as_slice() == bytes,
            None => false,
        }
    }
}
