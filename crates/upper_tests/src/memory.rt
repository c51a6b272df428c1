//! Files and an outlet in memory.
ghost use Rattle.std.specs.Prelude.{◌≡◌, ◌+◌, ◌∷◌, Ok, Some, false, option_map, string_bytes, take, IfOk, OnErr};
ghost use Rattle.flagops_shell.specs.Files.{first_piece, front_of_book, front_of_notes, notes_piece};
ghost use Rattle.upper_tests.specs.Memory.{held_in};

use flag_text::Outlet;
use flagops_shell::{FileSet, LoadFault, StoreFault, may_begin_record, may_note};
use std::alloc::{AllocError, Global};
use std::io;

/// Files in memory; a path that is not listed cannot be read.
#[derive(Drop)]
pub struct MemoryFiles {
    files: Vec<(String, Vec<u8>)>,
    is_writable: bool,
    failed: bool,
}

impl MemoryFiles {
    pub fn new(alloc: Global, is_writable: bool) -> MemoryFiles
        ensures { ⟦<MemoryFiles as FileSet>⟧.has_failed result ≡ false }
    {
        MemoryFiles {
            files: Vec::new(alloc),
            is_writable,
            failed: false,
        }
    }
}

impl FileSet for MemoryFiles {
    ghost holding = { λ s. Some (held_in s.files.items) };

    ghost has_failed = { λ s. s.failed };

    fn read(&mut self, alloc: Global, path: &str, max: u64) -> Result<Vec<u8>, LoadFault> {
        match find(self.files.as_slice(), path) {
            Some(bytes) => match Vec::from_slice(alloc, front(bytes, max)) {
                Ok(front) => Ok(front),
                Err(AllocError) => Err(LoadFault::WantOfMemory),
            },
            None => {
                self.failed = true;
                Err(LoadFault::Unreadable)
            }
        }
    }

    fn read_book(&mut self, alloc: Global, path: &str, max: u64) -> Result<Vec<u8>, LoadFault> {
        match find(self.files.as_slice(), path) {
            Some(bytes) => match Vec::from_slice(alloc, front_of_book(bytes, max)) {
                Ok(front) => Ok(front),
                Err(AllocError) => Err(LoadFault::WantOfMemory),
            },
            None => {
                self.failed = true;
                Err(LoadFault::Unreadable)
            }
        }
    }

    fn read_notes(
        &mut self,
        alloc: Global,
        path: &str,
        passing: bool,
        max: u64,
    ) -> Result<Vec<u8>, LoadFault> {
        match find(self.files.as_slice(), path) {
            Some(bytes) => match Vec::from_slice(alloc, front_of_notes(bytes, passing, max)) {
                Ok(front) => Ok(front),
                Err(AllocError) => Err(LoadFault::WantOfMemory),
            },
            None => {
                self.failed = true;
                Err(LoadFault::Unreadable)
            }
        }
    }

    fn front(&self, alloc: Global, path: &str) -> Result<Option<Vec<u8>>, AllocError> {
        match find(self.files.as_slice(), path) {
            Some(bytes) => Ok(Some(Vec::from_slice(alloc, first_piece(bytes))?)),
            None => Ok(None),
        }
    }

    fn write(&mut self, alloc: Global, path: &str, bytes: &[u8]) -> Result<(), StoreFault> {
        if !self.is_writable {
            self.failed = true;
            return Err(StoreFault::Unwritable);
        }
        match put(alloc, &mut self.files, path, bytes) {
            Ok(()) => Ok(()),
            Err(AllocError) => Err(StoreFault::WantOfMemory),
        }
    }
}

fn find<'a>(files: &'a [(String, Vec<u8>)], path: &str) -> Option<&'a [u8]>
    ensures { option_map (λ b. b.now) result ≡ held_in files.now path.now }
{
    for (name, bytes) in files {
        if name.as_str() == path {
            return Some(bytes.as_slice());
        }
    }
    None
}

fn front(bytes: &[u8], max: u64) -> &[u8]
    ensures { result.now ≡ take (max + 1) bytes.now }
{
    if max < bytes.len() as u64 {
        &bytes[..max as usize + 1]
    } else {
        bytes
    }
}

fn front_of_book(bytes: &[u8], max: u64) -> &[u8]
    ensures { Ok result.now ≡ front_of_book max (Some bytes.now) }
{
    let piece = first_piece(bytes);
    if may_begin_record(piece) {
        front(bytes, max)
    } else {
        piece
    }
}

fn front_of_notes(bytes: &[u8], passing: bool, max: u64) -> &[u8]
    ensures { Ok result.now ≡ front_of_notes passing max (Some bytes.now) }
{
    let piece = notes_piece(bytes);
    if may_note(piece, passing) {
        front(bytes, max)
    } else {
        piece
    }
}

fn notes_piece(bytes: &[u8]) -> &[u8]
    ensures { result.now ≡ notes_piece bytes.now }
{
    front(bytes, 16_777_215)
}

fn first_piece(bytes: &[u8]) -> &[u8]
    ensures { result.now ≡ first_piece bytes.now }
{
    front(bytes, 4095)
}

fn put(
    alloc: Global,
    files: &mut Vec<(String, Vec<u8>)>,
    path: &str,
    bytes: &[u8],
) -> Result<(), AllocError>
    ensures ok { IfOk result (λ _. (name : _) × (copy : _) × (files.new.items ≡ (name, copy) ∷ files.old.items) × (string_bytes name ≡ path.now) × (copy.items ≡ bytes.now)) }
    ensures err { OnErr result (files.new.items ≡ files.old.items) }
{
    let name = String::from_str(alloc, path)?;
    let copy = Vec::from_slice(alloc, bytes)?;
    files.insert(0, (name, copy))?;
    Ok(())
}

/// An outlet in memory, which takes so many bytes and then fails.
#[derive(Drop)]
pub struct MemoryOutlet {
    pub bytes: Vec<u8>,
    room: usize,
    failed: bool,
}

impl MemoryOutlet {
    pub fn new(alloc: Global, room: usize) -> MemoryOutlet
        ensures { ⟦<MemoryOutlet as Outlet>⟧.is_broken result ≡ false }
    {
        MemoryOutlet {
            bytes: Vec::new(alloc),
            room,
            failed: false,
        }
    }
}

impl Outlet for MemoryOutlet {
    ghost bytes = { λ o. Some o.bytes.items };

    ghost is_broken = { λ o. o.failed };

    fn write(&mut self, buf: &[u8]) -> io::Result<usize> {
        let count = buf.len().min(self.room);
        if count == 0 || self.bytes.extend_from_slice(&buf[..count]).is_err() {
            self.failed = true;
            return Err(io::Error::from(io::ErrorKind::StorageFull));
        }
        self.room -= count;
        Ok(count)
    }
}
