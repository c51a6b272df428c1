//! What a rollout is asked over where the inputs that were recorded are those of a book.
ghost use Rattle.std.specs.Prelude.{◌≡◌, ◌<◌, ◌||◌, IfOk, IfSome, Ok};
ghost use Rattle.flagops_shell.specs.Files.{load_of};
ghost use Rattle.flagops_files.specs.Loading.{max_text};
ghost use Rattle.flagops_files.specs.Question.{IsBookQuestionAt, book_at, book_question_attempts, book_question_subjects, book_question_view};
ghost use Rattle.flagops_files.specs.Refusal.{ComesFrom, GivesOne, GivesUnlessWant, is_file_fault, loads_book, loads_book_question, TellsOf, TellsOfFirst, TellsOfOne};
ghost use Rattle.flagops_files.specs.Told.{file};

use crate::books::load_book_bytes;
use crate::documents::{Document, load_document};
use crate::refusal::{Refusal, Refused};
use crate::requests::load_request;
use file_diagnostics::{Ends, of_book};
use flag_defs::Flags;
use flagops_shell::{FileSet, Remark};
use page_tally::BookFile;
use rollout::{Refining, RequestFile, read_book_asked};
use std::alloc::Global;
use std::thread::Threads;

/// The bytes of a document and its flags, the file of a request, whose refusal is left to the call that takes it, and the
/// book.
#[derive(Drop)]
pub struct BookQuestion {
    pub document: Vec<u8>,
    pub flags: Flags,
    pub request: RequestFile,
    pub book: BookFile,
}

/// The question of the files at these paths, each loaded and read before the next; the document may have floats, or may not. The
/// inputs that the request is about are counted while the book is read, for the site's rule with each weight multiplied by the
/// factor. The condition is a factor from 1.
#[tactic(auto, unfolding(crate::specs::Question::IsBookQuestionAt))]
pub fn load_book_question<R: Threads, F: FileSet>(
    rt: &R,
    alloc: Global,
    files: &mut F,
    document: &str,
    floats: bool,
    request: &str,
    book: &str,
    factor: u32,
) -> Result<BookQuestion, Refused>
    requires { 0 < factor }
    ensures exact { IfSome (F.holding files.old) (λ at. GivesOne book_question_view result (IsBookQuestionAt floats at document.now request.now book.now)) }
    ensures bytes { IfSome (F.holding files.old) (λ at. IfOk result (λ q. load_of at document.now max_text ≡ Ok q.document.items)) }
    ensures calls { ComesFrom loads_book_question result }
    ensures failed { F.has_failed files.new ≡ (F.has_failed files.old || is_file_fault result) }
    ensures kept { F.holding files.new ≡ F.holding files.old }
    ensures names { TellsOfOne (book_question_subjects document.now request.now book.now) result }
    ensures first { IfSome (F.holding files.old) (λ at. TellsOfFirst (book_question_attempts floats at document.now request.now book.now) result) }
{
    let Document { bytes, flags } = load_document(alloc, files, document, floats)?;
    let request = load_request(alloc, files, request)?;
    let book = load_book_for(rt, alloc, files, &flags, &request, factor, book)?;
    Ok(BookQuestion {
        document: bytes,
        flags,
        request,
        book,
    })
}

/// The book of the file at a path, read for a request.
#[tactic(auto, using(crate::proofs::Told::says), unfolding(crate::specs::Question::book_at))]
fn load_book_for<R: Threads, F: FileSet>(
    rt: &R,
    alloc: Global,
    files: &mut F,
    flags: &Flags,
    request: &RequestFile,
    factor: u32,
    path: &str,
) -> Result<BookFile, Refused>
    requires { 0 < factor }
    ensures exact { IfSome (F.holding files.old) (λ at. GivesUnlessWant (λ b. b) result (book_at at path.now)) }
    ensures calls { ComesFrom loads_book result }
    ensures failed { F.has_failed files.new ≡ (F.has_failed files.old || is_file_fault result) }
    ensures kept { F.holding files.new ≡ F.holding files.old }
    ensures names { TellsOf (file path.now) result }
{
    let bytes = load_book_bytes(alloc, files, path)?;
    let ends = Ends::of(bytes.as_slice());
    let refining = Refining::Times(factor);
    match read_book_asked(rt, alloc, refining, flags, request.asked().ok(), bytes) {
        Ok(book) => Ok(book),
        Err(fault) => Err(Refused {
            refusal: Refusal::ReadBook(fault),
            remark: Remark::of(of_book(alloc, path, ends, fault)),
        }),
    }
}
