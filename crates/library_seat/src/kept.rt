//! Lines that come.
ghost use Rattle.std.specs.Prelude.{◌≡◌, ◌+◌, ◌++◌, ◌∷◌, [], true, false, length, map, nat_lt, is_none, IfSome, OnErr, OnOk};
ghost use Rattle.std.specs.List.{concat, list_any};
ghost use Rattle.std.specs.Str.{bytes_eq};
ghost use Rattle.library_seat.specs.Kept.{with_line, with_lines, nothing};

use indexmap::IndexSet;
use std::alloc::{AllocError, Global};

/// Lines that are kept until somebody takes them.
#[derive(Drop)]
pub struct KeptLines {
    pub(crate) lines: IndexSet<Vec<u8>>,
    pub(crate) bytes: usize,
    pub(crate) most: usize,
    pub(crate) full: bool,
    pub ghost sum: { bytes ≡ length (concat (map (λ line. line.items) lines.keys)) },
}

impl KeptLines {
    ghost use Rattle.library_seat.specs.LinesView.{Begins, kept_view, lines_view};

    /// No lines yet, and later lines of so many bytes at most.
    pub fn new(alloc: Global, most: usize) -> KeptLines
        ensures { kept_view result ≡ nothing most }
    {
        KeptLines {
            lines: IndexSet::new(alloc),
            bytes: 0,
            most,
            full: false,
        }
    }

    /// The most bytes that lines are kept up to.
    pub fn most(&self) -> usize
        ensures { result ≡ (kept_view self.now).most }
    {
        self.most
    }

    /// From now on lines are kept up to so many bytes. Those that are kept stay.
    pub fn set_most(&mut self, most: usize)
        ensures { kept_view self.new ≡ record (kept_view self.old) { most = most } }
    {
        self.most = most;
    }

    /// Adds lines, one after another. Where memory runs out none is added.
    pub fn add_all(&mut self, alloc: Global, lines: &[Vec<u8>]) -> Result<(), AllocError>
        ensures added { OnOk result (kept_view self.new ≡ with_lines (kept_view self.old) (lines_view lines.now)) }
        ensures refused { OnErr result (kept_view self.new ≡ kept_view self.old) }
    {
        let (count, bytes, full) = (self.lines.len(), self.bytes, self.full);
        let added = self.add_each(alloc, lines);
        if added.is_err() {
            self.lines.truncate(count);
            self.bytes = bytes;
            self.full = full;
        }
        added
    }

    /// Adds lines, as far as there is memory.
    fn add_each(&mut self, alloc: Global, lines: &[Vec<u8>]) -> Result<(), AllocError>
        ensures added { OnOk result (kept_view self.new ≡ with_lines (kept_view self.old) (lines_view lines.now)) }
        ensures begins { Begins self.old self.new }
    {
        for line in lines {
            self.add(alloc, line.as_slice())?;
        }
        Ok(())
    }

    /// Adds a line, unless it is kept already.
    #[tactic(auto, unfolding(crate::specs::Kept::with_line))]
    fn add(&mut self, alloc: Global, line: &[u8]) -> Result<(), AllocError>
        ensures added { OnOk result (kept_view self.new ≡ with_line (kept_view self.old) line.now) }
        ensures begins { Begins self.old self.new }
    {
        if self.has(line) {
            return Ok(());
        }
        match self.bytes_with(line) {
            Some(bytes) => self.push(alloc, line, bytes),
            None => {
                self.full = true;
                Ok(())
            }
        }
    }

    /// Whether a line is kept.
    fn has(&self, line: &[u8]) -> bool
        ensures { result ≡ list_any (bytes_eq line.now) (kept_view self.now).lines }
    {
        self.lines.contains(line)
    }

    /// How many bytes the lines have with another, where there is room for it.
    fn bytes_with(&self, line: &[u8]) -> Option<usize>
        ensures room { is_none result ≡ nat_lt self.now.most (length (concat (kept_view self.now).lines) + length line.now) }
        ensures bytes { IfSome result (λ n. n ≡ length (concat (kept_view self.now).lines) + length line.now) }
    {
        let (most, length) = (self.most, line.len());
        if length > most || self.bytes > most - length {
            return None;
        }
        Some(self.bytes + length)
    }

    /// Adds a line that is not kept yet, with which the lines have so many bytes.
    fn push(&mut self, alloc: Global, line: &[u8], bytes: usize) -> Result<(), AllocError>
        requires new { list_any (bytes_eq line.now) (kept_view self.old).lines ≡ false }
        requires bytes { bytes ≡ length (concat (kept_view self.old).lines) + length line.now }
        ensures added { OnOk result (kept_view self.new ≡ record (kept_view self.old) { lines = (kept_view self.old).lines ++ line.now ∷ [] }) }
        ensures begins { Begins self.old self.new }
    {
        let copy = Vec::from_slice(alloc, line)?;
        self.lines.insert(copy)?;
        self.bytes = bytes;
        Ok(())
    }
}
