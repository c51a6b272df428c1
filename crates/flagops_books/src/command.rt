//! The command `book`.
ghost use Rattle.std.specs.Prelude.{◌≡◌, ◌||◌, IfOk, IfSome, ⊤};
ghost use Rattle.flagops_books.specs.Attempts.{book_attempts, read_attempts};
ghost use Rattle.flagops_books.specs.Calls.{book_calls, unites_files};
ghost use Rattle.flagops_books.specs.Command.{description};
ghost use Rattle.flagops_books.specs.Report.{IsBookReport, IsUnitedFor, LeavesUnited, TellsUnited};
ghost use Rattle.flagops_books.specs.Step.{GivesUnited, HaveSucceeded};
ghost use Rattle.flagops_books.specs.Words as words;
ghost use Rattle.flagops_books.specs.Words.{uniting_view};
ghost use Rattle.flagops_books.specs.Refusal.{ComesFrom, GivesOne, is_file_fault, TellsOfFirst};
ghost use Rattle.flagops_shell.specs.Ending.{KeepsUnlessDone};
ghost use Rattle.flagops_shell.specs.Report.{outcome_view};

use crate::asked::Uniting;
use crate::loading::check_replaceable;
use crate::refusal::{BookRefusal, Refused};
use crate::storing::stored;
use crate::uniting::{Step, united};
use crate::words::read_uniting;
use flagops_shell::{Command, FileSet, Outcome};
use std::alloc::Global;
use std::convert::AsStr;

/// It writes the book of what several files note, replaced whole, and prints how many inputs it has and of how many files it is; a
/// refusal leaves the files as they were. A book that is there is written over only where the new one has all its inputs, unless with
/// `replace`. A person is told of each file in which lines were passed over.
impl<'w, R, F: FileSet> Command<'w, R, F> for Uniting<'w> {
    type Refusal = BookRefusal;

    ghost Asked = { words.Uniting };

    ghost Needs = { ⊤ };

    ghost view = { uniting_view };

    ghost description = { description };

    fn read<S: AsStr>(alloc: Global, words: &'w [S]) -> Result<Uniting<'w>, clap::Error> {
        read_uniting(alloc, words)
    }

    #[tactic(auto, using(crate::proofs::Ending::remarks, crate::proofs::Ending::wants))]
    fn answer(&self, _rt: &R, alloc: Global, files: &mut F) -> Result<Outcome, Refused> {
        outcome(alloc, files, self)
    }

    fn call_of(&self, refusal: &BookRefusal) -> &'static str {
        refusal.call().name()
    }
}

/// What the files at the paths come to.
fn outcome<F: FileSet>(
    alloc: Global,
    files: &mut F,
    asked: &Uniting<'_>,
) -> Result<Outcome, Refused>
    ensures exact { IfSome (F.holding files.old) (λ at. GivesOne outcome_view result (IsBookReport at (F.holding files.new) (uniting_view asked.now))) }
    ensures calls { ComesFrom book_calls result }
    ensures failed { F.has_failed files.new ≡ (F.has_failed files.old || is_file_fault result) }
    ensures left { LeavesUnited (F.holding files.old) (F.holding files.new) (uniting_view asked.now) }
    ensures kept { KeepsUnlessDone (F.holding files.old) (F.holding files.new) result }
    ensures names { IfSome (F.holding files.old) (λ at. TellsOfFirst (book_attempts at (uniting_view asked.now)) result) }
    ensures notes { IfOk result (λ o. IfSome (F.holding files.old) (λ at. IfSome o.remark (TellsUnited (uniting_view asked.now) at))) }
{
    let came = united_for(alloc, files, asked)?;
    match came {
        Step::Noted(all) => stored(
            alloc,
            files,
            asked.out,
            asked.replace,
            all,
            asked.files.len(),
        ),
        Step::Stopped(outcome) => Ok(outcome),
    }
}

/// What the files note, once the file that is written is known to be none, an empty one or a book.
fn united_for<F: FileSet>(
    alloc: Global,
    files: &mut F,
    asked: &Uniting<'_>,
) -> Result<Step, Refused>
    ensures exact { IfSome (F.holding files.old) (λ at. GivesUnited result (IsUnitedFor (uniting_view asked.now) at)) }
    ensures calls { ComesFrom unites_files result }
    ensures failed { F.has_failed files.new ≡ (F.has_failed files.old || is_file_fault result) }
    ensures kept { F.holding files.new ≡ F.holding files.old }
    ensures names { IfSome (F.holding files.old) (λ at. TellsOfFirst (read_attempts at (uniting_view asked.now)) result) }
    ensures succeed { IfSome (F.holding files.old) (λ at. HaveSucceeded (read_attempts at (uniting_view asked.now)) result) }
{
    match check_replaceable(alloc, files, asked.out) {
        Ok(_) => united(alloc, files, asked.files.as_slice(), asked.torn),
        Err(refused) => Err(refused),
    }
}
