//! From what files note to the book that is written, and what is printed of it.
ghost use Rattle.std.specs.Prelude.{◌≡◌, ◌||◌, false, true, Ok, IfErr, IfOk, IfSome, is_some, string_bytes};
ghost use Rattle.book_core.specs.Book.{input_count};
ghost use Rattle.book_core.specs.Printing.{book_text};
ghost use Rattle.flagops_books.specs.Calls.{book_calls, checks_losses, saves_book};
ghost use Rattle.flagops_books.specs.Report.{IsStored, counts_text, replaces_at};
ghost use Rattle.flagops_books.specs.Told.{is_told};
ghost use Rattle.flagops_shell.specs.Ending.{KeepsUnlessDone};
ghost use Rattle.flagops_shell.specs.Files.{KeepsOthers};
ghost use Rattle.flagops_books.specs.Refusal.{ComesFrom, GivesOne, GivesUnlessWant, is_file_fault, TellsOf};
ghost use Rattle.flagops_books.specs.declared.refusal.BookRefusal.TheVariants.{WouldLose};
ghost use Rattle.flagops_shell.specs.Report.{outcome_view};
ghost use Rattle.file_diagnostics.specs.Named.{Names};
ghost use Rattle.flagops_files.specs.Told.{file};
ghost use Rattle.flagops_shell.specs.Diagnostic.{Says};
ghost use Rattle.flagops_shell.specs.declared.refused.Remark.TheVariants.{Lines};

use crate::loading::{load_losses, store};
use crate::refusal::{BookRefusal, Refused, out_of_memory};
use crate::uniting::Gathered;
use book_core::{Book, print_book};
use flagops_files::of_losses;
use flagops_shell::{FileSet, Outcome, Remark, Status};
use std::alloc::{AllocError, Global};

/// What is printed of a book, and the file that it is written as.
#[derive(Drop)]
struct Output {
    text: Vec<u8>,
    file: Vec<u8>,
}

/// The report of what so many files note, once the book is written: where inputs of the book that is there may not be lost, it is
/// written only where none is.
#[tactic(auto, using(crate::proofs::Losing::writes))]
pub(crate) fn stored<F: FileSet>(
    alloc: Global,
    files: &mut F,
    out: &str,
    lossy: bool,
    all: Gathered,
    count: usize,
) -> Result<Outcome, Refused>
    ensures exact { IfSome (F.holding files.old) (λ at. GivesOne outcome_view result (IsStored (replaces_at at out.now lossy all.book) at (F.holding files.new) out.now (book_text all.book) (counts_text (input_count all.book) count) (is_told (string_bytes all.told)))) }
    ensures calls { ComesFrom book_calls result }
    ensures failed { F.has_failed files.new ≡ (F.has_failed files.old || is_file_fault result) }
    ensures others { KeepsOthers (F.holding files.old) (F.holding files.new) out.now }
    ensures kept { KeepsUnlessDone (F.holding files.old) (F.holding files.new) result }
    ensures names { TellsOf (file out.now) result }
    ensures told { IfOk result (λ o. IfSome o.remark (λ m. m ≡ Lines all.told)) }
{
    check_losses(alloc, files, out, &all.book, lossy)?;
    saved(alloc, files, out, all, count)
}

/// That a new book may be written over the one at a path.
#[tactic(auto, using(crate::proofs::Losing::free, crate::proofs::Losing::none_lost, crate::proofs::Losing::some_lost, crate::proofs::Losing::unknown, crate::proofs::Losing::checks, crate::proofs::Losing::loses))]
fn check_losses<F: FileSet>(
    alloc: Global,
    files: &mut F,
    path: &str,
    new: &Book,
    lossy: bool,
) -> Result<(), Refused>
    ensures exact { IfSome (F.holding files.old) (λ at. GivesUnlessWant (λ u. u) result (replaces_at at path.now lossy new.now)) }
    ensures calls { ComesFrom checks_losses result }
    ensures failed { F.has_failed files.new ≡ (F.has_failed files.old || is_file_fault result) }
    ensures kept { F.holding files.new ≡ F.holding files.old }
    ensures names { TellsOf (file path.now) result }
{
    if lossy {
        return Ok(());
    }
    let lost = load_losses(alloc, files, path, new)?;
    if lost == 0 {
        Ok(())
    } else {
        Err(would_lose(alloc, path, lost))
    }
}

/// The refusal to lose so many inputs of the book at a path.
#[tactic(auto, using(flagops_files::proofs::Told::says))]
fn would_lose(alloc: Global, path: &str, lost: u64) -> Refused
    ensures refusal { result.refusal ≡ WouldLose lost }
    ensures names { Says (Names path.now) result.remark }
{
    Refused {
        refusal: BookRefusal::WouldLose(lost),
        remark: Remark::of(of_losses(
            alloc,
            path,
            lost,
            "keep them by naming it among the files, or give them up with --replace",
        )),
    }
}

/// The report of a book that may be written, once it was.
fn saved<F: FileSet>(
    alloc: Global,
    files: &mut F,
    out: &str,
    all: Gathered,
    count: usize,
) -> Result<Outcome, Refused>
    ensures exact { IfSome (F.holding files.old) (λ at. GivesOne outcome_view result (IsStored (Ok tt) at (F.holding files.new) out.now (book_text all.book) (counts_text (input_count all.book) count) (is_told (string_bytes all.told)))) }
    ensures calls { ComesFrom saves_book result }
    ensures failed { F.has_failed files.new ≡ (F.has_failed files.old || is_file_fault result) }
    ensures others { KeepsOthers (F.holding files.old) (F.holding files.new) out.now }
    ensures kept { KeepsUnlessDone (F.holding files.old) (F.holding files.new) result }
    ensures names { TellsOf (file out.now) result }
    ensures told { IfOk result (λ o. IfSome o.remark (λ m. m ≡ Lines all.told)) }
{
    let Gathered { book, told } = all;
    let Output { text, file } = output_of(alloc, &book, count)?;
    store(alloc, files, out, file.as_slice())?;
    Ok(Outcome {
        text,
        status: Status::Done,
        remark: remark_of(told),
    })
}

/// What is printed of a book of so many files, and its file.
fn output_of(alloc: Global, book: &Book, count: usize) -> Result<Output, Refused>
    ensures text { IfOk result (λ o. o.text.items ≡ counts_text (input_count book.now) count) }
    ensures file { IfOk result (λ o. o.file.items ≡ book_text book.now) }
    ensures wants { IfErr result (λ e. e.refusal ≡ BookRefusal.WantOfMemory) }
{
    match printed(alloc, book, count) {
        Ok(output) => Ok(output),
        Err(AllocError) => Err(out_of_memory()),
    }
}

fn printed(alloc: Global, book: &Book, count: usize) -> Result<Output, AllocError>
    ensures text { IfOk result (λ o. o.text.items ≡ counts_text (input_count book.now) count) }
    ensures file { IfOk result (λ o. o.file.items ≡ book_text book.now) }
{
    let inputs = book.inputs();
    let text = format!(in alloc; "inputs {inputs}\nfiles {count}\n")?;
    let file = print_book(alloc, book)?;
    Ok(Output {
        text: text.into_bytes(),
        file,
    })
}

/// What a person is told beside the output, where there is something to tell.
fn remark_of(told: String) -> Option<Remark>
    ensures told { is_some result ≡ is_told (string_bytes told) }
    ensures lines { IfSome result (λ m. m ≡ Lines told) }
{
    if told.is_empty() {
        None
    } else {
        Some(Remark::Lines(told))
    }
}
