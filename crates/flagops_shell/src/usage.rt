//! What is written where the words of a command ask for nothing.
ghost use Rattle.std.specs.Prelude.{◌≡◌, false};
ghost use Rattle.clap.specs.Words.{kind_of};
ghost use Rattle.flagops_shell.specs.Console.{IsOpen};
ghost use Rattle.flagops_shell.specs.Report.{PutsText};
ghost use Rattle.flagops_shell.specs.Usage.{ShowsUsage};

use crate::console::Console;
use crate::outcome::{Outcome, Status};
use crate::reports::{report, tell, want};
use clap::error::ErrorKind;
use flag_text::Outlet;
use std::alloc::{AllocError, Global};

/// The name of the program, as the line of a refusal has it where no command is known yet.
const PROGRAM: &str = "flagops";

/// What `clap` ends with where a number has something else than digits.
const NO_DIGITS: &str = ": invalid digit found in string\n\nFor more information, try '--help'.\n";

/// What `clap` begins with where a word with a hyphen is no option.
const NO_ARGUMENT: &str = "error: unexpected argument '-";

/// Writes the text of `clap` where it belongs: help and the version to the output with status 0, a mistake beside it with
/// status 2.
pub fn report_usage<O: Outlet, E: Outlet>(
    alloc: Global,
    error: &clap::Error,
    console: &mut Console<O, E>,
) -> u8
    requires { IsOpen console.old }
    ensures { ShowsUsage console.old console.new result (kind_of error.now) }
{
    if error.kind() == ErrorKind::OutOfMemory {
        return want(console, PROGRAM);
    }
    match text_of(alloc, error) {
        Ok(text) => {
            if error.use_stderr() {
                complain(&mut console.err, text.as_str())
            } else {
                report(console, &Outcome::plain(text.into_bytes(), Status::Done))
            }
        }
        Err(AllocError) => want(console, PROGRAM),
    }
}

/// What `clap` says, and behind a mistake in a number what a number looks like.
fn text_of(alloc: Global, error: &clap::Error) -> Result<String, AllocError> {
    let text = error.to_string(alloc)?;
    match hint_on(text.as_str()) {
        Some(hint) => format!(in alloc; "{text}\n{hint}"),
        None => Ok(text),
    }
}

/// What to write in place of a number that `clap` does not take, by what it says of it.
fn hint_on(text: &str) -> Option<&'static str> {
    if text.ends_with(NO_DIGITS) {
        return Some(
            "A number is written in decimal digits alone, a time in seconds since 1970, as 'date +%s' prints it.\n",
        );
    }
    let rest = text.strip_prefix(NO_ARGUMENT)?;
    if rest.as_bytes().first()?.is_ascii_digit() {
        Some("The numbers of options begin at 0, and times at 0, which is the year 1970.\n")
    } else {
        None
    }
}

/// Tells a mistake in the words, and gives the status of words that ask for nothing.
pub fn complain<E: Outlet>(err: &mut E, text: &str) -> u8
    requires { E.is_broken err.old ≡ false }
    ensures told { PutsText (E.bytes err.old) (E.bytes err.new) (E.is_broken err.new) }
    ensures status { result ≡ 2 }
{
    tell(err, text);
    Status::Usage.number()
}
