//! Files that are loaded and written for the command `book`, where each refusal is one of the command.
ghost use Rattle.std.specs.Prelude.{◌≡◌, ◌||◌, false, IfErr, IfSome, OnErr, OnOk};
ghost use Rattle.flagops_files.specs.Losses.{losses_at};
ghost use Rattle.flagops_books.specs.Refusal.{ComesFrom, GivesUnlessWant, TellsOf, is_file_fault, is_want, loads_book, stores_file, unwritable};
ghost use Rattle.flagops_books.specs.declared.refusal.BookRefusal.TheVariants.{Load};
ghost use Rattle.flagops_files.specs.Question.{notes_bytes_at, replaceable_at};
ghost use Rattle.flagops_files.specs.Told.{file};
ghost use Rattle.flagops_shell.specs.Files.{KeepsOthers, Stores};
ghost use Rattle.flagops_shell.specs.Outcomes.{refused_by};

use crate::refusal::Refused;
use book_core::Book;
use flagops_files::losses_at;
use flagops_shell::FileSet;
use std::alloc::Global;

/// The bytes of the file at `path`, a book, a tally or note lines.
#[tactic(auto, using(crate::proofs::Loaded::told, crate::proofs::Loaded::comes, crate::proofs::Loaded::failed_load, crate::proofs::Loaded::loads_both))]
pub(crate) fn load_notes<F: FileSet>(
    alloc: Global,
    files: &mut F,
    path: &str,
    passing: bool,
) -> Result<Vec<u8>, Refused>
    ensures exact { IfSome (F.holding files.old) (λ at. GivesUnlessWant (λ v. v.items) result (refused_by Load (notes_bytes_at at passing path.now))) }
    ensures calls { ComesFrom loads_book result }
    ensures failed { F.has_failed files.new ≡ (F.has_failed files.old || is_file_fault result) }
    ensures kept { F.holding files.new ≡ F.holding files.old }
    ensures names { TellsOf (file path.now) result }
{
    match flagops_files::load_notes(alloc, files, path, passing) {
        Ok(bytes) => Ok(bytes),
        Err(refused) => Err(Refused::of(refused)),
    }
}

/// Whether a book may be written at a path.
#[tactic(auto, using(crate::proofs::Loaded::told, crate::proofs::Loaded::comes, crate::proofs::Loaded::failed_load))]
pub(crate) fn check_replaceable<F: FileSet>(
    alloc: Global,
    files: &F,
    path: &str,
) -> Result<(), Refused>
    ensures exact { IfSome (F.holding files.now) (λ at. GivesUnlessWant (λ u. u) result (refused_by Load (replaceable_at at path.now))) }
    ensures calls { ComesFrom loads_book result }
    ensures read { is_file_fault result ≡ false }
    ensures names { TellsOf (file path.now) result }
{
    match flagops_files::check_replaceable(alloc, files, path) {
        Ok(()) => Ok(()),
        Err(refused) => Err(Refused::of(refused)),
    }
}

/// How many inputs of the book in the file at a path a new book does not have.
#[tactic(auto, using(crate::proofs::Loaded::told, crate::proofs::Loaded::comes, crate::proofs::Loaded::failed_load))]
pub(crate) fn load_losses<F: FileSet>(
    alloc: Global,
    files: &mut F,
    path: &str,
    new: &Book,
) -> Result<u64, Refused>
    ensures exact { IfSome (F.holding files.old) (λ at. GivesUnlessWant (λ n. n) result (refused_by Load (losses_at at path.now new.now))) }
    ensures calls { ComesFrom loads_book result }
    ensures failed { F.has_failed files.new ≡ (F.has_failed files.old || is_file_fault result) }
    ensures kept { F.holding files.new ≡ F.holding files.old }
    ensures names { TellsOf (file path.now) result }
{
    match losses_at(alloc, files, path, new) {
        Ok(lost) => Ok(lost),
        Err(refused) => Err(Refused::of(refused)),
    }
}

/// Writes `bytes` to the file at `path`. After a refusal the files are as they were.
#[tactic(auto, using(crate::proofs::Loaded::told, crate::proofs::Loaded::comes, crate::proofs::Loaded::failed_load, crate::proofs::Loaded::unwritten))]
pub(crate) fn store<F: FileSet>(
    alloc: Global,
    files: &mut F,
    path: &str,
    bytes: &[u8],
) -> Result<(), Refused>
    ensures stored { OnOk result (Stores (F.holding files.old) (F.holding files.new) path.now bytes.now) }
    ensures others { KeepsOthers (F.holding files.old) (F.holding files.new) path.now }
    ensures refused { OnErr result (F.holding files.new ≡ F.holding files.old) }
    ensures fault { IfErr result (λ r. is_want r.refusal ≡ false → r.refusal ≡ unwritable) }
    ensures calls { ComesFrom stores_file result }
    ensures failed { F.has_failed files.new ≡ (F.has_failed files.old || is_file_fault result) }
    ensures names { TellsOf (file path.now) result }
{
    match flagops_files::store(alloc, files, path, bytes) {
        Ok(()) => Ok(()),
        Err(refused) => Err(Refused::of(refused)),
    }
}
