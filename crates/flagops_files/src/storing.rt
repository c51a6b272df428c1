//! From bytes to a file at a path.
ghost use Rattle.std.specs.Prelude.{◌≡◌, ◌||◌, false, IfErr, OnErr, OnOk};
ghost use Rattle.flagops_shell.specs.Files.{KeepsOthers, Stores};
ghost use Rattle.flagops_files.specs.Refusal.{ComesFrom, is_file_fault, is_want, stores_file, unwritable, TellsOf};
ghost use Rattle.flagops_files.specs.Told.{file};

use crate::refusal::{Refusal, Refused};
use file_diagnostics::of_unwritable;
use flagops_shell::{FileSet, Remark};
use std::alloc::Global;

/// Writes `bytes` to the file at `path`. After a refusal the files are as they were.
#[tactic(auto, using(crate::proofs::Told::says))]
pub fn store<F: FileSet>(
    alloc: Global,
    files: &mut F,
    path: &str,
    bytes: &[u8],
) -> Result<(), Refused>
    ensures stored { OnOk result (Stores (F.holding files.old) (F.holding files.new) path.now bytes.now) }
    ensures others { KeepsOthers (F.holding files.old) (F.holding files.new) path.now }
    ensures refused { OnErr result (F.holding files.new ≡ F.holding files.old) }
    ensures fault { IfErr result (λ r. is_want r.refusal ≡ false → r.refusal ≡ unwritable) }
    ensures calls { ComesFrom stores_file result }
    ensures failed { F.has_failed files.new ≡ (F.has_failed files.old || is_file_fault result) }
    ensures names { TellsOf (file path.now) result }
{
    match files.write(alloc, path, bytes) {
        Ok(()) => Ok(()),
        Err(fault) => Err(Refused {
            refusal: Refusal::Store(fault),
            remark: Remark::of(of_unwritable(alloc, path, files.trouble())),
        }),
    }
}
