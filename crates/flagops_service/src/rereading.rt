//! Documents that are read again.
ghost use Rattle.std.specs.Prelude.{◌≡◌, ◌<◌, ◌+◌, ℕ, IfSome, Some, is_some, length, map, slice_get, true, Vec};
ghost use Rattle.std.specs.Bool.{OnTrue};
ghost use Rattle.std.specs.declared.alloc.Global.{Global};
ghost use Rattle.source_merge.specs.View.{sources_view};
ghost use Rattle.flagops_service.specs.Rereading.{ReadsFrom, ReadsOne, SetsFit, Takes, kept_of};

use crate::taking::{Taken, Unfit, set_fit};
use crate::telling::{of_device, say_accepted, say_kept, say_unfit};
use crate::watched::Watched;
use file_diagnostics::of_unreadable;
use flag_text::Outlet;
use flagops_shell::{FileSet, LoadFault};
use limits::TEXT_BYTES;
use log_file::LogPaths;
use ofrep_service::Board;
use std::alloc::AllocError;

impl Watched<'_> {
    /// Reads each document again, and says whether another is accepted of one of them.
    pub(crate) fn read_again<R: LogPaths, F: FileSet, E: Outlet>(
        &mut self,
        rt: &R,
        files: &mut F,
        err: &mut E,
    ) -> bool
        ensures reads { ReadsFrom (F.holding files.old) self.old.broken (map (λ path. path.now) self.old.paths.now) 0 (kept_of self.old) (kept_of self.new) }
        ensures kept { F.holding files.new ≡ F.holding files.old }
        ensures mode { self.new.broken ≡ self.old.broken }
        ensures paths { self.new.paths ≡ self.old.paths }
    {
        let paths = self.paths;
        let mut changed = false;
        for place in 0..paths.len() {
            let taken = self.read_one(rt, place, paths[place], files, err);
            changed |= taken == Taken::Accepted;
        }
        changed
    }

    /// Reads the document at a place again, from its path.
    fn read_one<R: LogPaths, F: FileSet, E: Outlet>(
        &mut self,
        rt: &R,
        place: usize,
        path: &str,
        files: &mut F,
        err: &mut E,
    ) -> Taken
        requires { place < length self.old.paths.now }
        ensures reads { ReadsOne (F.holding files.old) self.old.broken path.now place (kept_of self.old) (kept_of self.new) result }
        ensures kept { F.holding files.new ≡ F.holding files.old }
        ensures mode { self.new.broken ≡ self.old.broken }
        ensures paths { self.new.paths ≡ self.old.paths }
    {
        if is_device(rt, path) {
            self.miss(place, of_device(self.alloc, path), err);
            return Taken::Unread;
        }
        match files.read(self.alloc, path, TEXT_BYTES as u64) {
            Ok(text) => self.take(place, path, text, err),
            Err(LoadFault::Unreadable) => {
                let why = of_unreadable(self.alloc, path, files.trouble());
                self.miss(place, why, err);
                Taken::Unread
            }
            Err(LoadFault::WantOfMemory) => Taken::Unread,
        }
    }

    /// A document can't be read, which is told once.
    fn miss<E: Outlet>(&mut self, place: usize, why: Result<String, AllocError>, err: &mut E)
        ensures kept { kept_of self.new ≡ kept_of self.old }
        ensures mode { self.new.broken ≡ self.old.broken }
        ensures paths { self.new.paths ≡ self.old.paths }
    {
        let bit = bit_of(place);
        if self.missing & bit == 0 {
            self.missing |= bit;
            say_kept(err, why);
        }
    }

    /// Sets a document where its bytes are others than were read last, unless that harms a flag that is good now. Why it is refused
    /// is told once for each text.
    fn take<E: Outlet>(&mut self, place: usize, path: &str, text: Vec<u8>, err: &mut E) -> Taken
        requires { place < length self.old.paths.now }
        ensures takes { Takes self.old.broken place text (kept_of self.old) (kept_of self.new) result }
        ensures mode { self.new.broken ≡ self.old.broken }
        ensures paths { self.new.paths ≡ self.old.paths }
    {
        self.missing &= !bit_of(place);
        if self.accepted[place].as_slice() == text.as_slice() {
            self.refused[place] = None;
            return Taken::Unchanged;
        }
        if is_text(&self.refused[place], text.as_slice()) {
            return Taken::Unchanged;
        }
        match self.set(place, text.as_slice()) {
            Ok(()) => {
                say_accepted(self.alloc, err, path, text.as_slice());
                self.accepted[place] = text;
                self.refused[place] = None;
                Taken::Accepted
            }
            Err(Unfit::WantOfMemory) => Taken::Unread,
            Err(why) => {
                say_unfit(self.alloc, err, path, text.as_slice(), why);
                self.refused[place] = Some(text);
                Taken::Refused
            }
        }
    }

    /// Sets the document at a place, unless that harms a flag that is good now.
    fn set(&mut self, place: usize, text: &[u8]) -> Result<(), Unfit>
        requires { place < length self.old.paths.now }
        ensures sets { (last : Vec ℕ Global) × (slice_get self.old.accepted.items place ≡ Some last) × SetsFit self.old.broken (place + 1) last.items text.now (sources_view self.old.sources) (sources_view self.new.sources) result }
        ensures accepted { self.new.accepted ≡ self.old.accepted }
        ensures refused { self.new.refused ≡ self.old.refused }
        ensures mode { self.new.broken ≡ self.old.broken }
        ensures paths { self.new.paths ≡ self.old.paths }
    {
        let accepted = self.accepted[place].as_slice();
        let number = place as u64 + 1;
        set_fit(
            self.alloc,
            self.broken,
            &mut self.sources,
            number,
            accepted,
            text,
        )
    }

    /// Shows which documents are refused.
    pub(crate) fn show(&self, board: &Board) {
        for place in 0..self.refused.len() {
            board.refuse_document(place, self.refused[place].is_some());
        }
    }
}

/// Whether this is the text that was refused last.
fn is_text(refused: &Option<Vec<u8>>, text: &[u8]) -> bool
    ensures { OnTrue result (IfSome refused.now (λ last. last.items ≡ text.now) × (is_some refused.now ≡ true)) }
{
    match refused {
        Some(last) => last.as_slice() == text,
        None => false,
    }
}

/// The bit of a document, of which there are at most sixteen.
fn bit_of(place: usize) -> u32 {
    1u32 << (place % 32)
}

/// Whether a pipe, a terminal or the like is at the path, from which a read might wait for ever.
pub(crate) fn is_device<R: LogPaths>(rt: &R, path: &str) -> bool {
    match rt.metadata_at(path) {
        Ok(found) => !found.is_file() && !found.is_dir(),
        Err(_) => false,
    }
}
