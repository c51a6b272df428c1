//! What `book` takes, in the terms of `clap`.
ghost use Rattle.std.specs.Prelude.{◌≡◌, IfOk};
ghost use Rattle.clap.specs.Words.{app_of};
ghost use Rattle.flagops_books.specs.Words.{book_app, book_begun};

use clap::Command;
use flagops_words::arguments::{flag, required, some_words};
use flagops_words::{about, example};
use std::alloc::{AllocError, Global};

/// The command `book`. The first of its words is its own name.
#[tactic(auto, unfolding(crate::specs::Words::book_app))]
pub fn usage<'a>(alloc: Global) -> Result<Command<'a>, AllocError>
    ensures { IfOk result (λ c. app_of c ≡ book_app) }
{
    let torn = flag(
        alloc,
        "torn",
        "Skip each line of a file of note lines that is not a note",
    );
    let replace = flag(alloc, "replace", "Write OUT even if it loses inputs");
    begun(alloc)?.arg(torn)?.arg(replace)
}

/// The command with the paths of its files.
fn begun<'a>(alloc: Global) -> Result<Command<'a>, AllocError>
    ensures { IfOk result (λ c. app_of c ≡ book_begun) }
{
    let command = Command::new(alloc, "book")
        .bin_name("flagops book")?
        .about(about::BOOK)
        .after_help(example::BOOK);
    let out = required(alloc, "OUT", "The book file that is written");
    let files = some_words(
        alloc,
        "FILE",
        "The files to merge: books, and note lines as record and ofrep write them",
    );
    command.arg(out)?.arg(files)
}
