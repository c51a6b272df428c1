//! Lines that were read of a file.
ghost use Rattle.std.specs.Prelude.{◌≡◌, ◌+◌, ◌≤◌, OnErr, OnOk, length};
ghost use Rattle.log_file.specs.Line.{EndsLine, lines_in};
ghost use Rattle.note_log.specs.Files.{History};
ghost use Rattle.note_log.specs.Memory.{AllStand};
ghost use Rattle.note_log.specs.Recalled.{EachStandsAt, Puts, Recalls};

use byte_streams::cut_line;
use lru::LruCache;
use std::alloc::{AllocError, Global};
use std::hash::RandomState;

/// Remembers each of these lines of the file of a number, the last one as the most recently used.
#[tactic(auto, using(crate::proofs::Recalling::recalls_none, crate::proofs::Recalling::recalls_line, crate::proofs::Recalling::recalls_each))]
pub(crate) fn recall_lines(
    alloc: Global,
    table: &mut LruCache<Vec<u8>, u64, RandomState>,
    number: u64,
    lines: &[u8],
) -> Result<(), AllocError>
    requires { ∥ EndsLine lines.now ∥₁ }
    ensures cap { table.new.cap ≡ table.old.cap }
    ensures stand { (history : History) → AllStand history table.old.entries → EachStandsAt history number lines.now → AllStand history table.new.entries }
    ensures recalls { OnOk result (length table.old.entries + lines_in lines.now ≤ table.old.cap → ∥ Recalls lines.now number table.new.entries ∥₁) }
{
    let mut rest = lines;
    'lines: while let Some((line, behind)) = cut_line(rest) {
        recall_line(alloc, table, number, line)?;
        rest = behind;
    }
    Ok(())
}

/// Remembers a line of the file of a number, as the most recently used.
fn recall_line(
    alloc: Global,
    table: &mut LruCache<Vec<u8>, u64, RandomState>,
    number: u64,
    line: &[u8],
) -> Result<(), AllocError>
    ensures cap { table.new.cap ≡ table.old.cap }
    ensures puts { OnOk result (Puts line.now number table.old table.new.entries) }
    ensures stays { OnErr result (table.new ≡ table.old) }
{
    let key = Vec::from_slice(alloc, line)?;
    table.put(key, number)?;
    Ok(())
}
