//! The files that the program reads and writes, as it sees them.
ghost use Rattle.std.specs.Prelude.{◌≡◌, ◌≤◌, ◌+◌, ℕ, List, Option, Bool, ◌||◌, length, IfOk, IfSome, OnErr, OnOk, option_map};
ghost use Rattle.flag_text.specs.Outcome.{GivesUnless};
ghost use Rattle.flagops_shell.specs.Files.{Holding, first_piece, load_book_of, load_notes_of, load_of, is_unreadable, is_unwritable, Stores, KeepsOthers, load_number, load_name, store_number, store_name};

use progress::Meter;
use std::alloc::{AllocError, Global};
use std::io;
use thiserror::Error;

/// The bytes of the piece by which a file is judged.
pub const FIRST_PIECE: u64 = 4096;

/// The bytes of the piece by which a file is judged whether it notes anything: more than the longest note line of a document has.
pub const NOTES_PIECE: usize = 16_777_216;

/// Why a file was not read.
#[derive(Clone, Copy, Debug, PartialEq, Eq, Error)]
pub enum LoadFault {
    /// Memory ran out.
    #[error("out of memory")]
    WantOfMemory,
    /// There is no file at the path, or the system does not give its bytes.
    #[error("the file cannot be read")]
    Unreadable,
}

impl LoadFault {
    /// The number that a refusal is written with.
    pub fn number(&self) -> u32
        ensures { result ≡ load_number self.now }
    {
        match self {
            LoadFault::WantOfMemory => 0,
            LoadFault::Unreadable => 1,
        }
    }

    /// The name that a refusal is written with: the variant's.
    pub fn name(&self) -> &'static str
        ensures { result.now ≡ load_name self.now }
    {
        match self {
            LoadFault::WantOfMemory => "WantOfMemory",
            LoadFault::Unreadable => "Unreadable",
        }
    }
}

/// Why a file was not written.
#[derive(Clone, Copy, Debug, PartialEq, Eq, Error)]
pub enum StoreFault {
    /// Memory ran out.
    #[error("out of memory")]
    WantOfMemory,
    /// The system does not take the bytes.
    #[error("the file cannot be written")]
    Unwritable,
}

impl StoreFault {
    /// The number that a refusal is written with.
    pub fn number(&self) -> u32
        ensures { result ≡ store_number self.now }
    {
        match self {
            StoreFault::WantOfMemory => 0,
            StoreFault::Unwritable => 1,
        }
    }

    /// The name that a refusal is written with: the variant's.
    pub fn name(&self) -> &'static str
        ensures { result.now ≡ store_name self.now }
    {
        match self {
            StoreFault::WantOfMemory => "WantOfMemory",
            StoreFault::Unwritable => "Unwritable",
        }
    }
}

/// Files by path.
pub trait FileSet {
    // The bytes of the file at each path, `None` where it cannot be read, if all this is known.
    ghost holding: { Self → Option Holding };

    // One of its reads has answered `Unreadable`, or one of its writes `Unwritable`.
    ghost has_failed: { Self → Bool };

    /// The bytes of the file at the path, cut after `max + 1`: so the caller sees that a file is
    /// larger than `max` and takes no more memory for it.
    fn read(&mut self, alloc: Global, path: &str, max: u64) -> Result<Vec<u8>, LoadFault>
        ensures exact { IfSome (holding self.old) (λ at.
            GivesUnless LoadFault.WantOfMemory (λ v. v.items) result (load_of at path.now max)) }
        ensures most { IfOk result (λ v. length v.items ≤ max + 1) }
        ensures failed { has_failed self.new ≡ (has_failed self.old || is_unreadable result) }
        ensures kept { holding self.new ≡ holding self.old };

    /// The bytes of the book file at the path, cut after `max + 1`. A file that does not begin as a book or a tally is judged by its
    /// first 4,096 bytes: no more of it is read.
    fn read_book(&mut self, alloc: Global, path: &str, max: u64) -> Result<Vec<u8>, LoadFault>
        ensures exact { IfSome (holding self.old) (λ at.
            GivesUnless LoadFault.WantOfMemory (λ v. v.items) result (load_book_of at path.now max)) }
        ensures failed { has_failed self.new ≡ (has_failed self.old || is_unreadable result) }
        ensures kept { holding self.new ≡ holding self.old };

    /// The bytes of the file at the path, a book or note lines, cut after `max + 1`. A file that begins as neither is judged by its
    /// first 16,777,216 bytes: no more of it is read. Where lines that are none are passed over (`passing`), that is one without
    /// a line's end there. Files that do not tell their bytes may end behind the line of no note that is not passed over, for which
    /// the caller refuses them.
    fn read_notes(
        &mut self,
        alloc: Global,
        path: &str,
        passing: bool,
        max: u64,
    ) -> Result<Vec<u8>, LoadFault>
        ensures exact { IfSome (holding self.old) (λ at.
            GivesUnless LoadFault.WantOfMemory (λ v. v.items) result (load_notes_of at passing path.now max)) }
        ensures failed { has_failed self.new ≡ (has_failed self.old || is_unreadable result) }
        ensures kept { holding self.new ≡ holding self.old };

    /// The first 4,096 bytes of the plain file at the path, as far as there is one that can be read: no failure of this call
    /// counts as one. A pipe, a terminal and their like are not looked at.
    fn front(&self, alloc: Global, path: &str) -> Result<Option<Vec<u8>>, AllocError>
        ensures { IfSome (holding self.now) (λ at. IfOk result (λ front. option_map (λ v. v.items) front ≡ option_map first_piece (at path.now))) };

    /// Why the last call that answered `Unreadable` or `Unwritable` did, in the system's words, where they are known. It is
    /// for people.
    fn trouble(&self) -> Option<io::Error> {
        None
    }

    /// What asks that are answered over these files move on, where someone watches. It is for people.
    fn meter(&self) -> Option<&Meter> {
        None
    }

    /// Writes `bytes` to the file at `path`. After an `Err` the files are as they were.
    fn write(&mut self, alloc: Global, path: &str, bytes: &[u8]) -> Result<(), StoreFault>
        ensures stored { OnOk result (Stores (holding self.old) (holding self.new) path.now bytes.now) }
        ensures others { KeepsOthers (holding self.old) (holding self.new) path.now }
        ensures refused { OnErr result (holding self.new ≡ holding self.old) }
        ensures failed { has_failed self.new ≡ (has_failed self.old || is_unwritable result) };
}
