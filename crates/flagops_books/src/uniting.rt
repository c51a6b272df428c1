//! From the paths of books and of files of note lines to the book of all their notes.
ghost use Rattle.std.specs.Prelude.{◌≡◌, ◌||◌, [], false, true, Ok, map, IfErr, IfOk, IfSome, string_bytes};
ghost use Rattle.book_core.specs.Reading.{book_of};
ghost use Rattle.flagops_books.specs.Attempts.{united_attempts};
ghost use Rattle.flagops_books.specs.Calls.{unites_files};
ghost use Rattle.flagops_books.specs.Step.{GivesUnited, HaveSucceeded, IsStepOf, IsStopOf};
ghost use Rattle.flagops_books.specs.Union.{IsLast, IsUnited, IsWithBook, IsWithBytes, IsWithFile, is_one_line, union_refusal};
ghost use Rattle.flagops_shell.specs.Outcomes.{refused_by};
ghost use Rattle.flagops_files.specs.Question.{notes_bytes_at};
ghost use Rattle.flagops_books.specs.Refusal.{ComesFrom, GivesUnlessWant, call_of, is_file_fault, is_unread, is_want, loads_book, TellsOf, TellsOfFirst, read_refusal};
ghost use Rattle.flagops_files.specs.Told.{file};
ghost use Rattle.flagops_shell.specs.Diagnostic.{Says};
ghost use Rattle.file_diagnostics.specs.Named.{Names};
ghost use Rattle.note_lines.specs.Notes.{IsBookOf, Notes, no_notes};

use crate::lines::{stray_line, stray_remark, with_passed};
use crate::loading::load_notes;
use crate::refusal::{BookRefusal, Refused, out_of_memory};
use book_core::{Book, BookFault, read_book};
use file_diagnostics::{Ends, of_book, of_full_book};
use flagops_files::Refusal;
use flagops_shell::{FileSet, NOTES_PIECE, Outcome, Remark, Status, ends_line};
use note_lines::{NotesFault, NotesTaken, begins_book, take_notes};
use std::alloc::{AllocError, Global};

/// What files note, and what a person is told of each with lines that were passed over.
#[derive(Drop)]
pub(crate) struct Gathered {
    pub(crate) book: Book,
    pub(crate) told: String,
}

/// What files come to where no call refuses them.
#[derive(Drop)]
pub(crate) enum Step {
    /// All lines were taken.
    Noted(Gathered),
    /// A line is that of no note: the whole output.
    Stopped(Outcome),
}

/// What the files at these paths note, each read before the next.
pub(crate) fn united<F: FileSet>(
    alloc: Global,
    files: &mut F,
    paths: &[&str],
    passing: bool,
) -> Result<Step, Refused>
    ensures exact { IfSome (F.holding files.old) (λ at. GivesUnited result (IsUnited at passing (map (λ p. p.now) paths.now) no_notes [])) }
    ensures calls { ComesFrom unites_files result }
    ensures failed { F.has_failed files.new ≡ (F.has_failed files.old || is_file_fault result) }
    ensures kept { F.holding files.new ≡ F.holding files.old }
    ensures names { IfSome (F.holding files.old) (λ at. TellsOfFirst (united_attempts at passing [] (map (λ p. p.now) paths.now)) result) }
    ensures succeed { IfSome (F.holding files.old) (λ at. HaveSucceeded (united_attempts at passing [] (map (λ p. p.now) paths.now)) result) }
{
    let mut all = Gathered {
        book: Book::new(alloc),
        told: String::new(alloc),
    };
    for path in paths {
        let step = with_file(alloc, files, all, path, passing)?;
        all = match step {
            Step::Noted(next) => next,
            Step::Stopped(outcome) => return Ok(Step::Stopped(outcome)),
        };
    }
    Ok(Step::Noted(all))
}

/// What is noted so far, with what the file at a path notes: a book where it begins as one, and else note lines.
fn with_file<F: FileSet>(
    alloc: Global,
    files: &mut F,
    all: Gathered,
    path: &str,
    passing: bool,
) -> Result<Step, Refused>
    ensures exact { IfSome (F.holding files.old) (λ at. (now : Notes) → IsBookOf now all.book → GivesUnited result (IsWithFile IsLast passing now (string_bytes all.told) path.now (notes_bytes_at at passing path.now))) }
    ensures calls { ComesFrom unites_files result }
    ensures failed { F.has_failed files.new ≡ (F.has_failed files.old || is_file_fault result) }
    ensures kept { F.holding files.new ≡ F.holding files.old }
    ensures names { TellsOf (file path.now) result }
{
    let bytes = load_notes(alloc, files, path, passing)?;
    if begins_book(bytes.as_slice()) {
        with_book(alloc, all, path, bytes.as_slice())
    } else {
        with_lines(alloc, all, path, bytes.as_slice(), passing)
    }
}

/// What is noted so far, with the book that bytes are, which were loaded from a path.
fn with_book(alloc: Global, all: Gathered, path: &str, bytes: &[u8]) -> Result<Step, Refused>
    ensures exact { (now : Notes) → IsBookOf now all.book → GivesUnited result (IsWithBook IsLast now (string_bytes all.told) (book_of bytes.now)) }
    ensures calls { ComesFrom unites_files result }
    ensures read { is_file_fault result ≡ false }
    ensures names { TellsOf (file path.now) result }
{
    let other = book_in(alloc, path, bytes)?;
    let Gathered { book, told } = all;
    match book.union(alloc, &other) {
        Ok(both) => Ok(Step::Noted(Gathered { book: both, told })),
        Err(fault) => Err(not_united(alloc, path, fault)),
    }
}

/// The book that bytes are, which were loaded from a path.
#[tactic(auto, using(flagops_files::proofs::Told::says))]
fn book_in(alloc: Global, path: &str, bytes: &[u8]) -> Result<Book, Refused>
    ensures exact { GivesUnlessWant (λ b. b) result (refused_by read_refusal (book_of bytes.now)) }
    ensures calls { ComesFrom loads_book result }
    ensures read { is_file_fault result ≡ false }
    ensures names { TellsOf (file path.now) result }
{
    match read_book(alloc, bytes) {
        Ok(book) => Ok(book),
        Err(fault) => Err(Refused {
            refusal: BookRefusal::Load(Refusal::ReadBook(fault)),
            remark: Remark::of(of_book(alloc, path, Ends::of(bytes), fault)),
        }),
    }
}

/// Why what is noted so far is not united with the book at a path.
#[tactic(auto, using(flagops_files::proofs::Told::says))]
fn not_united(alloc: Global, path: &str, fault: BookFault) -> Refused
    ensures refusal { result.refusal ≡ union_refusal fault }
    ensures calls { unites_files (call_of result.refusal) ≡ true }
    ensures read { is_unread result.refusal ≡ false }
    ensures names { is_want result.refusal ≡ false → Says (Names path.now) result.remark }
{
    match fault {
        BookFault::WantOfMemory => out_of_memory(),
        _ => full(alloc, path),
    }
}

/// What is noted so far, with the note lines that bytes are, which were loaded from a path.
fn with_lines(
    alloc: Global,
    all: Gathered,
    path: &str,
    bytes: &[u8],
    passing: bool,
) -> Result<Step, Refused>
    ensures exact { (now : Notes) → IsBookOf now all.book → GivesUnited result (IsWithBytes false IsLast passing now (string_bytes all.told) path.now bytes.now) }
    ensures calls { ComesFrom unites_files result }
    ensures read { is_file_fault result ≡ false }
    ensures names { TellsOf (file path.now) result }
{
    if is_one_line(bytes) {
        return stopped(alloc, path, 1, Ends::of(bytes));
    }
    let Gathered { book, told } = all;
    match take_notes(alloc, book, bytes, passing) {
        Ok(taken) => with_taken(alloc, taken, told, path),
        Err(NotesFault::Line(n)) => stopped(alloc, path, n, Ends::of(bytes)),
        Err(NotesFault::PageFull) => Err(full(alloc, path)),
        Err(NotesFault::WantOfMemory) => Err(out_of_memory()),
    }
}

/// Whether bytes are more than any note line of a document has, and no line ends in them.
fn is_one_line(bytes: &[u8]) -> bool
    ensures { result ≡ is_one_line bytes.now }
{
    !(bytes.len() < NOTES_PIECE || ends_line(bytes))
}

/// The notes of a file at a path with those before, and what is told of the file behind what is told so far.
fn with_taken(alloc: Global, taken: NotesTaken, told: String, path: &str) -> Result<Step, Refused>
    ensures noted { IfOk result (IsStepOf path.now taken (string_bytes told)) }
    ensures wants { IfErr result (λ e. e.refusal ≡ BookRefusal.WantOfMemory) }
{
    let NotesTaken { book, passed, torn } = taken;
    match with_passed(alloc, told, path, passed, torn) {
        Ok(told) => Ok(Step::Noted(Gathered { book, told })),
        Err(AllocError) => Err(out_of_memory()),
    }
}

/// The output where line `n` of the file at a path is that of no note.
#[tactic(auto, using(flagops_files::proofs::Told::says))]
fn stopped(alloc: Global, path: &str, n: u64, ends: Ends) -> Result<Step, Refused>
    ensures stray { IfOk result (IsStopOf path.now n) }
    ensures wants { IfErr result (λ e. e.refusal ≡ BookRefusal.WantOfMemory) }
{
    match stray_line(alloc, path, n) {
        Ok(text) => Ok(Step::Stopped(Outcome {
            text: text.into_bytes(),
            status: Status::Refused,
            remark: Some(Remark::of(stray_remark(alloc, path, n, ends))),
        })),
        Err(AllocError) => Err(out_of_memory()),
    }
}

/// The refusal of a file with whose notes a page would have too many inputs.
#[tactic(auto, using(flagops_files::proofs::Told::says))]
fn full(alloc: Global, path: &str) -> Refused
    ensures refusal { result.refusal ≡ BookRefusal.FullBook }
    ensures names { Says (Names path.now) result.remark }
{
    Refused {
        refusal: BookRefusal::FullBook,
        remark: Remark::of(of_full_book(alloc, path)),
    }
}
