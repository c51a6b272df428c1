//! Lines that are taken.
ghost use Rattle.std.specs.Prelude.{◌≡◌, ◌≤◌, ◌+◌, ◌++◌, length, take, drop};
ghost use Rattle.std.specs.List.{concat};
ghost use Rattle.library_seat.specs.Kept.{nothing};

use crate::kept::KeptLines;

impl KeptLines {
    ghost use Rattle.library_seat.specs.LinesView.{kept_view};

    /// How many bytes the lines have together.
    pub fn len(&self) -> usize
        ensures { result ≡ length (concat (kept_view self.now).lines) }
    {
        self.bytes
    }

    /// Whether a line was left out since lines were last taken.
    pub fn is_full(&self) -> bool
        ensures { result ≡ (kept_view self.now).full }
    {
        self.full
    }

    /// Moves the lines to the beginning of `out`, one after another.
    pub fn take(&mut self, out: &mut [u8])
        requires { length (concat (kept_view self.old).lines) ≤ length out.old }
        ensures out { out.new ≡ concat (kept_view self.old).lines ++ drop (length (concat (kept_view self.old).lines)) out.old }
        ensures emptied { kept_view self.new ≡ nothing (kept_view self.old).most }
    {
        self.copy_to(out);
        self.lines.clear();
        self.bytes = 0;
        self.full = false;
    }

    /// Copies the lines to the beginning of `out`.
    fn copy_to(&self, out: &mut [u8])
        requires { length (concat (kept_view self.now).lines) ≤ length out.old }
        ensures { out.new ≡ concat (kept_view self.now).lines ++ drop (length (concat (kept_view self.now).lines)) out.old }
    {
        let mut end = 0;
        for line in self.lines.as_slice() {
            copy_at(out, end, line.as_slice());
            end += line.len();
        }
    }
}

/// Copies bytes to a place.
fn copy_at(out: &mut [u8], start: usize, bytes: &[u8])
    requires { start + length bytes.now ≤ length out.old }
    ensures { out.new ≡ take start out.old ++ (bytes.now ++ drop (start + length bytes.now) out.old) }
{
    out[start..start + bytes.len()].copy_from_slice(bytes);
}
