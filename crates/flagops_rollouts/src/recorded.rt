//! What is doubted of what was recorded for a request: that there is no input, or one that is none of its flag.
ghost use Rattle.std.specs.Prelude.{◌≡◌, List, ℕ, Some, false, nat_eq, option_map, IfOk, IfSome, string_bytes};
ghost use Rattle.std.specs.Result.{result_ok};
ghost use Rattle.logic_ast.specs.Expr.{view};
ghost use Rattle.flag_defs.specs.Flag.{flag_view};
ghost use Rattle.flag_defs.specs.Flags.{flags_view};
ghost use Rattle.book_core.specs.Book.{inputs_on};
ghost use Rattle.book_core.specs.Listing.{has_none};
ghost use Rattle.page_tally.specs.Foreign.{has_foreign};
ghost use Rattle.price_core.specs.Request.{asked_of};
ghost use Rattle.flagops_rollouts.specs.Doubts.{NamesDoubt, doubt_in, recorded_doubt};
ghost use Rattle.flagops_rollouts.specs.Foreign.{has_foreign_input, is_foreign};
ghost use Rattle.flagops_rollouts.specs.Unrecorded.{has_no_input, is_unrecorded, page_asked, page_in};
ghost use Rattle.flagops_files.specs.Question.{question_view};
ghost use Rattle.flagops_shell.specs.Diagnostic.{Says};
ghost use Rattle.file_diagnostics.specs.Named.{Names};

use crate::doubts::NotedDoubt;
use crate::refusal::Doubt;
use book_core::{Book, BookFileFault, Page, read_book};
use flag_defs::{Flag, Flags};
use flagops_files::{Evidence, Question};
use flagops_shell::Remark;
use logic_ast::LogicFault;
use note_tallies::PageTally;
use page_tally::BookFile;
use price_core::{PriceFault, Request};
use rollout_diagnostics::{of_empty_tally, of_foreign, of_unrecorded};
use std::alloc::{AllocError, Global};
use std::thread::Threads;

/// What is doubted of what was recorded for a request in the file at a path: its page has no input, or one that is none of
/// its flag.
pub fn doubt_of_recorded<R: Threads>(
    rt: &R,
    alloc: Global,
    path: &str,
    question: &Question,
) -> Result<Option<NotedDoubt>, AllocError>
    ensures doubt { IfOk result (λ o. option_map (λ d. d.doubt) o ≡ recorded_doubt (is_unrecorded (question_view question.now)) (is_foreign (question_view question.now))) }
    ensures notes { IfOk result (λ o. IfSome o (λ d. (request : List ℕ) → Says (NamesDoubt request path.now d.doubt) d.remark)) }
{
    let Ok(request) = question.request.asked() else {
        return Ok(None);
    };
    match page_asked(alloc, &question.flags, request)? {
        Some(page) => noted(rt, alloc, path, &question.evidence, &page),
        None => Ok(None),
    }
}

/// What is doubted of what was recorded for a request in the file at a path: its page has no input, or one that is none of its
/// flag. Nothing is doubted of a request that is refused, or whose flag has no such site.
pub fn doubt_in_evidence<R: Threads>(
    rt: &R,
    alloc: Global,
    path: &str,
    flags: &Flags,
    request: &[u8],
    evidence: &Evidence,
) -> Result<Option<NotedDoubt>, AllocError>
    ensures doubt { IfOk result (λ o. option_map (λ d. d.doubt) o ≡ doubt_in evidence.now (page_asked (flags_view flags.now) (result_ok (asked_of request.now)))) }
    ensures notes { IfOk result (λ o. IfSome o (λ d. (request : List ℕ) → Says (NamesDoubt request path.now d.doubt) d.remark)) }
{
    match page_read(alloc, flags, request)? {
        Some(page) => noted(rt, alloc, path, evidence, &page),
        None => Ok(None),
    }
}

/// The same of a book, which was loaded from this path.
pub fn doubt_in_book<R: Threads>(
    rt: &R,
    alloc: Global,
    path: &str,
    flags: &Flags,
    request: &[u8],
    book: &BookFile,
) -> Result<Option<NotedDoubt>, AllocError>
    ensures doubt { IfOk result (λ o. option_map (λ d. d.doubt) o ≡ doubt_in (Evidence.Book book.now) (page_asked (flags_view flags.now) (result_ok (asked_of request.now)))) }
    ensures notes { IfOk result (λ o. IfSome o (λ d. (request : List ℕ) → Says (NamesDoubt request path.now d.doubt) d.remark)) }
{
    match page_read(alloc, flags, request)? {
        Some(page) => noted_in_book(rt, alloc, path, book, &page),
        None => Ok(None),
    }
}

/// The page of a request by its bytes, where it is one and its flag has the site.
fn page_read(alloc: Global, flags: &Flags, request: &[u8]) -> Result<Option<Page>, AllocError>
    ensures { IfOk result (λ page. page ≡ page_asked (flags_view flags.now) (result_ok (asked_of request.now))) }
{
    match Request::read(alloc, request) {
        Ok(request) => page_asked(alloc, flags, &request),
        Err(PriceFault::WantOfMemory) => Err(AllocError),
        Err(_) => Ok(None),
    }
}

/// The page of a request, where its flag has the site.
pub(crate) fn page_asked(
    alloc: Global,
    flags: &Flags,
    request: &Request,
) -> Result<Option<Page>, AllocError>
    ensures { IfOk result (λ page. page ≡ page_asked (flags_view flags.now) (Some request.now)) }
{
    let key = request.flag();
    page_in(alloc, key, request.site(), flags.get(key))
}

/// The page of a site of a flag, where it has the site.
fn page_in(
    alloc: Global,
    key: &str,
    site: u32,
    flag: Option<&Flag>,
) -> Result<Option<Page>, AllocError>
    ensures { IfOk result (λ page. page ≡ page_in key.now site (option_map (λ f. flag_view f.now) flag.entry)) }
{
    let Some(flag) = flag else {
        return Ok(None);
    };
    let Some(targeting) = flag.targeting() else {
        return Ok(None);
    };
    match Page::of(alloc, key, targeting, site) {
        Ok(page) => Ok(Some(page)),
        Err(LogicFault::WantOfMemory) => Err(AllocError),
        Err(_) => Ok(None),
    }
}

/// What is doubted of a page, with what is told of it.
fn noted<R: Threads>(
    rt: &R,
    alloc: Global,
    path: &str,
    evidence: &Evidence,
    page: &Page,
) -> Result<Option<NotedDoubt>, AllocError>
    ensures doubt { IfOk result (λ o. option_map (λ d. d.doubt) o ≡ recorded_doubt (has_no_input evidence.now page.now) (has_foreign_input evidence.now page.now)) }
    ensures notes { IfOk result (λ o. IfSome o (λ d. (request : List ℕ) → Says (NamesDoubt request path.now d.doubt) d.remark)) }
{
    match evidence {
        Evidence::Book(book) => noted_in_book(rt, alloc, path, book, page),
        Evidence::Tally(tally) => Ok(noted_in_tally(alloc, path, tally, page)),
    }
}

/// The same of a page of a book.
#[tactic(auto, using(flagops_files::proofs::Told::says))]
fn noted_in_book<R: Threads>(
    rt: &R,
    alloc: Global,
    path: &str,
    book: &BookFile,
    page: &Page,
) -> Result<Option<NotedDoubt>, AllocError>
    ensures doubt { IfOk result (λ o. option_map (λ d. d.doubt) o ≡ recorded_doubt (has_none (inputs_on book.now page.now)) (has_foreign page.now (inputs_on book.now page.now))) }
    ensures notes { IfOk result (λ o. IfSome o (λ d. (request : List ℕ) → Says (NamesDoubt request path.now d.doubt) d.remark)) }
{
    if book.has_none(rt, alloc, page)? {
        return Ok(Some(NotedDoubt {
            doubt: Doubt::Unrecorded,
            remark: Remark::of(of_bare(alloc, path, book, page)),
        }));
    }
    if book.has_foreign(rt, alloc, page)? {
        return Ok(Some(NotedDoubt {
            doubt: Doubt::Foreign,
            remark: Remark::of(of_mixed(alloc, path, book, page)),
        }));
    }
    Ok(None)
}

/// The same of a tally, which has no inputs that could be told apart.
#[tactic(auto, using(flagops_files::proofs::Told::says))]
fn noted_in_tally(alloc: Global, path: &str, tally: &PageTally, page: &Page) -> Option<NotedDoubt>
    ensures doubt { option_map (λ d. d.doubt) result ≡ recorded_doubt (nat_eq tally.now.inputs 0) false }
    ensures notes { IfSome result (λ d. (request : List ℕ) → Says (NamesDoubt request path.now d.doubt) d.remark) }
{
    if tally.inputs != 0 {
        return None;
    }
    Some(NotedDoubt {
        doubt: Doubt::Unrecorded,
        remark: Remark::of(of_empty_tally(alloc, path, page)),
    })
}

/// What is told of a page without inputs.
fn of_bare(alloc: Global, path: &str, book: &BookFile, page: &Page) -> Result<String, AllocError>
    ensures { IfOk result (λ s. Names path.now (string_bytes s)) }
{
    let book = in_memory(alloc, book)?;
    let others = book.pages_of(alloc, page.flag.as_str())?;
    of_unrecorded(alloc, path, page, others.as_slice())
}

/// What is told of a page with inputs that are none of its flag.
fn of_mixed(alloc: Global, path: &str, book: &BookFile, page: &Page) -> Result<String, AllocError>
    ensures { IfOk result (λ s. Names path.now (string_bytes s)) }
{
    let exposure = in_memory(alloc, book)?.exposure(alloc, page)?;
    of_foreign(alloc, path, page, exposure.inputs())
}

/// The book with its inputs.
fn in_memory(alloc: Global, book: &BookFile) -> Result<Book, AllocError> {
    match read_book(alloc, book.bytes()) {
        Ok(book) => Ok(book),
        Err(fault) => match fault {
            BookFileFault::WantOfMemory => Err(AllocError),
            // The file was read before.
            _ => unreachable!(),
        },
    }
}
