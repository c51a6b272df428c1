//! Inlets and outlets in memory, which take or give a few bytes at a time and fail at a chosen place.
ghost use Rattle.std.specs.Prelude.{◌≡◌, false, None, Some};

use flag_text::Outlet;
use std::alloc::Global;
use std::io;
use sync_server::Inlet;

/// Gives at most so many bytes a read, and fails once so many reads were made.
#[derive(Drop)]
pub struct MemoryInlet<'a> {
    bytes: &'a [u8],
    most: usize,
    reads: u64,
    broken: bool,
}

impl<'a> MemoryInlet<'a> {
    pub fn new(bytes: &'a [u8], most: usize, reads: u64) -> MemoryInlet<'a>
        ensures { ⟦<MemoryInlet<'a> as Inlet>⟧.is_broken result ≡ false }
    {
        MemoryInlet {
            bytes,
            most,
            reads,
            broken: false,
        }
    }
}

impl Inlet for MemoryInlet<'_> {
    ghost bytes = { λ _. None };

    ghost is_broken = { λ inlet. inlet.broken };

    ghost was_read = { λ old new. Unit {0} };

    fn read(&mut self, buf: &mut [u8]) -> io::Result<usize> {
        if self.reads == 0 {
            self.broken = true;
            return Err(io::Error::from(io::ErrorKind::ConnectionReset));
        }
        self.reads -= 1;
        let count = buf.len().min(self.most).min(self.bytes.len());
        let (given, left) = self.bytes.split_at(count);
        buf[..count].copy_from_slice(given);
        self.bytes = left;
        Ok(count)
    }
}

/// Takes at most so many bytes a write, and fails once it is full.
#[derive(Drop)]
pub struct MemoryOutlet {
    pub bytes: Vec<u8>,
    most: usize,
    room: usize,
    broken: bool,
}

impl MemoryOutlet {
    pub fn new(alloc: Global, most: usize, room: usize) -> MemoryOutlet
        ensures { ⟦<MemoryOutlet as Outlet>⟧.is_broken result ≡ false }
    {
        MemoryOutlet {
            bytes: Vec::new(alloc),
            most,
            room,
            broken: false,
        }
    }
}

impl Outlet for MemoryOutlet {
    ghost bytes = { λ outlet. Some outlet.bytes.items };

    ghost is_broken = { λ outlet. outlet.broken };

    fn write(&mut self, buf: &[u8]) -> io::Result<usize> {
        let count = buf.len().min(self.most).min(self.room);
        if count == 0 || self.bytes.extend_from_slice(&buf[..count]).is_err() {
            self.broken = true;
            return Err(io::Error::from(io::ErrorKind::StorageFull));
        }
        self.room -= count;
        Ok(count)
    }
}
