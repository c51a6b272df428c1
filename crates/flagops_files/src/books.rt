//! From the path of a book file to the book, and from that of a file of notes to its bytes.
ghost use Rattle.std.specs.Prelude.{◌≡◌, ◌||◌, false, IfSome, option_map};
ghost use Rattle.flagops_shell.specs.Beginning.{first_line};
ghost use Rattle.flagops_files.specs.Question.{book_at, book_bytes_at, if_readable, if_replaceable, notes_bytes_at, replaceable_at};
ghost use Rattle.flagops_files.specs.Refusal.{ComesFrom, GivesUnlessWant, is_file_fault, loads_book, loads_file, TellsOf};
ghost use Rattle.flagops_files.specs.Told.{file};

use crate::refusal::{Refusal, Refused};
use book_core::{Book, BookFileFault, read_book};
use file_diagnostics::{Ends, of_book, of_long_book, of_other_file, of_unreadable};
use flagops_shell::{FileSet, Remark, first_line};
use std::alloc::{AllocError, Global};

/// The largest book file, in bytes.
const BOOK_LIMIT: u64 = 1 << 40;

/// The book of the file at a path.
#[tactic(auto, using(crate::proofs::Told::says), unfolding(crate::specs::Question::book_at))]
pub fn load_book<F: FileSet>(alloc: Global, files: &mut F, path: &str) -> Result<Book, Refused>
    ensures exact { IfSome (F.holding files.old) (λ at. GivesUnlessWant (λ b. b) result (book_at at path.now)) }
    ensures calls { ComesFrom loads_book result }
    ensures failed { F.has_failed files.new ≡ (F.has_failed files.old || is_file_fault result) }
    ensures kept { F.holding files.new ≡ F.holding files.old }
    ensures names { TellsOf (file path.now) result }
{
    let bytes = load_book_bytes(alloc, files, path)?;
    match read_book(alloc, bytes.as_slice()) {
        Ok(book) => Ok(book),
        Err(fault) => Err(Refused {
            refusal: Refusal::ReadBook(fault),
            remark: Remark::of(of_book(alloc, path, Ends::of(bytes.as_slice()), fault)),
        }),
    }
}

/// The bytes of the book file at `path`. A file of more than 2^40 bytes is refused as unreadable. Of a file that begins neither
/// as a book nor as a tally, only the first 4,096 bytes are returned.
#[tactic(auto, using(crate::proofs::Told::says), unfolding(crate::specs::Question::book_bytes_at))]
pub fn load_book_bytes<F: FileSet>(
    alloc: Global,
    files: &mut F,
    path: &str,
) -> Result<Vec<u8>, Refused>
    ensures exact { IfSome (F.holding files.old) (λ at. GivesUnlessWant (λ v. v.items) result (book_bytes_at at path.now)) }
    ensures calls { ComesFrom loads_file result }
    ensures failed { F.has_failed files.new ≡ (F.has_failed files.old || is_file_fault result) }
    ensures kept { F.holding files.new ≡ F.holding files.old }
    ensures names { TellsOf (file path.now) result }
{
    match files.read_book(alloc, path, BOOK_LIMIT) {
        Ok(bytes) => if_readable(alloc, path, bytes),
        Err(fault) => Err(Refused {
            refusal: Refusal::Load(fault),
            remark: Remark::of(of_unreadable(alloc, path, files.trouble())),
        }),
    }
}

/// The bytes of the file at `path`, a book, a tally or note lines. A file of more than 2^40 bytes is refused as unreadable. Of a
/// file that begins as none of them, only the first 16,777,216 bytes are returned. With `passing`, where lines that are no notes
/// are passed over, a file begins as note lines if a line ends within those bytes.
#[tactic(auto, using(crate::proofs::Told::says), unfolding(crate::specs::Question::notes_bytes_at))]
pub fn load_notes<F: FileSet>(
    alloc: Global,
    files: &mut F,
    path: &str,
    passing: bool,
) -> Result<Vec<u8>, Refused>
    ensures exact { IfSome (F.holding files.old) (λ at. GivesUnlessWant (λ v. v.items) result (notes_bytes_at at passing path.now)) }
    ensures calls { ComesFrom loads_file result }
    ensures failed { F.has_failed files.new ≡ (F.has_failed files.old || is_file_fault result) }
    ensures kept { F.holding files.new ≡ F.holding files.old }
    ensures names { TellsOf (file path.now) result }
{
    match files.read_notes(alloc, path, passing, BOOK_LIMIT) {
        Ok(bytes) => if_readable(alloc, path, bytes),
        Err(fault) => Err(Refused {
            refusal: Refusal::Load(fault),
            remark: Remark::of(of_unreadable(alloc, path, files.trouble())),
        }),
    }
}

/// Bytes that were read at a path, unless there are more of them than a book file has.
#[tactic(auto, using(crate::proofs::Told::says))]
fn if_readable(alloc: Global, path: &str, bytes: Vec<u8>) -> Result<Vec<u8>, Refused>
    ensures exact { GivesUnlessWant (λ v. v.items) result (if_readable bytes.items) }
    ensures calls { ComesFrom loads_file result }
    ensures read { is_file_fault result ≡ false }
    ensures names { TellsOf (file path.now) result }
{
    if bytes.len() as u64 > BOOK_LIMIT {
        return Err(Refused {
            refusal: Refusal::LongBook,
            remark: Remark::of(of_long_book(alloc, path)),
        });
    }
    Ok(bytes)
}

/// Whether a book may be written at a path: there is no plain file that can be read, or it is empty, or its first line is
/// that of a book. Any other file is refused, and left as it is.
#[tactic(auto, unfolding(crate::specs::Question::replaceable_at))]
pub fn check_replaceable<F: FileSet>(alloc: Global, files: &F, path: &str) -> Result<(), Refused>
    ensures exact { IfSome (F.holding files.now) (λ at. GivesUnlessWant (λ u. u) result (replaceable_at at path.now)) }
    ensures calls { ComesFrom loads_book result }
    ensures read { is_file_fault result ≡ false }
    ensures names { TellsOf (file path.now) result }
{
    match files.front(alloc, path) {
        Ok(Some(front)) => if_replaceable(alloc, path, front.as_slice()),
        Ok(None) => Ok(()),
        Err(AllocError) => Err(Refused {
            refusal: Refusal::ReadBook(BookFileFault::WantOfMemory),
            remark: Remark::Short,
        }),
    }
}

/// The same of what a file at the path begins with.
#[tactic(auto, using(crate::proofs::Told::says))]
fn if_replaceable(alloc: Global, path: &str, front: &[u8]) -> Result<(), Refused>
    ensures exact { GivesUnlessWant (λ u. u) result (if_replaceable front.now) }
    ensures calls { ComesFrom loads_book result }
    ensures read { is_file_fault result ≡ false }
    ensures names { TellsOf (file path.now) result }
{
    if front.is_empty() {
        return Ok(());
    }
    match read_book(alloc, first_line(front)) {
        Ok(_book) => Ok(()),
        Err(fault) => Err(Refused {
            refusal: Refusal::ReadBook(fault),
            remark: Remark::of(of_other_file(alloc, path, fault)),
        }),
    }
}
