//! The book that stands at a path, beside the one that would be written there.
ghost use Rattle.std.specs.Prelude.{◌≡◌, ◌||◌, IfOk, IfSome};
ghost use Rattle.flagops_files.specs.Losses.{is_filled, losses_at, lost_of};
ghost use Rattle.flagops_files.specs.Question.{book_at};
ghost use Rattle.flagops_files.specs.Refusal.{ComesFrom, GivesUnlessWant, TellsOf, is_file_fault, loads_book};
ghost use Rattle.flagops_files.specs.Told.{file};

use crate::counting::lost_inputs;
use crate::{Call, Refused, load_book, out_of_memory};
use book_core::Book;
use flagops_shell::FileSet;
use std::alloc::{AllocError, Global};

/// How many inputs of the book in the file at a path the new book does not have: none where no file can be read, or it is empty.
/// A file that is no book is refused as [`load_book`] refuses it.
#[tactic(auto, using(crate::proofs::Loaded::none_there, crate::proofs::Loaded::there))]
pub fn losses_at<F: FileSet>(
    alloc: Global,
    files: &mut F,
    path: &str,
    new: &Book,
) -> Result<u64, Refused>
    ensures exact { IfSome (F.holding files.old) (λ at. GivesUnlessWant (λ n. n) result (losses_at at path.now new.now)) }
    ensures calls { ComesFrom loads_book result }
    ensures failed { F.has_failed files.new ≡ (F.has_failed files.old || is_file_fault result) }
    ensures kept { F.holding files.new ≡ F.holding files.old }
    ensures names { TellsOf (file path.now) result }
{
    match is_filled(alloc, files, path) {
        Ok(true) => lost_of(alloc, files, path, new),
        Ok(false) => Ok(0),
        Err(AllocError) => Err(out_of_memory(Call::ReadBook)),
    }
}

/// The same of a file that has bytes.
#[tactic(auto, using(crate::proofs::Loaded::counted_so))]
fn lost_of<F: FileSet>(alloc: Global, files: &mut F, path: &str, new: &Book) -> Result<u64, Refused>
    ensures exact { IfSome (F.holding files.old) (λ at. GivesUnlessWant (λ n. n) result (lost_of (book_at at path.now) new.now)) }
    ensures calls { ComesFrom loads_book result }
    ensures failed { F.has_failed files.new ≡ (F.has_failed files.old || is_file_fault result) }
    ensures kept { F.holding files.new ≡ F.holding files.old }
    ensures names { TellsOf (file path.now) result }
{
    let old = load_book(alloc, files, path)?;
    match lost_inputs(alloc, &old, new) {
        Ok(lost) => Ok(lost),
        Err(AllocError) => Err(out_of_memory(Call::ReadBook)),
    }
}

/// Whether the file at a path has bytes, as far as it can be read.
#[tactic(auto, using(crate::proofs::Loaded::filled, crate::proofs::Loaded::unread))]
fn is_filled<F: FileSet>(alloc: Global, files: &F, path: &str) -> Result<bool, AllocError>
    ensures { IfSome (F.holding files.now) (λ at. IfOk result (λ b. b ≡ is_filled (at path.now))) }
{
    match files.front(alloc, path)? {
        Some(front) => Ok(!front.as_slice().is_empty()),
        None => Ok(false),
    }
}
