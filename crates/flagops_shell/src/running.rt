//! Running a command.
ghost use Rattle.std.specs.Prelude.{map};
ghost use Rattle.flagops_shell.specs.Console.{IsOpen};
ghost use Rattle.flagops_shell.specs.Ending.{ShowsRefusal};
ghost use Rattle.flagops_shell.specs.Running.{AnswersAsked, AnswersStored, AnswersUnread, LeavesAsked, TellsUnasked};

use crate::command::Command;
use crate::command_refusal::CommandRefusal;
use crate::console::Console;
use crate::files::FileSet;
use crate::outcome::Outcome;
use crate::refused::Refused;
use crate::reports::{report, want};
use crate::usage::report_usage;
use flag_text::Outlet;
use std::alloc::Global;
use std::convert::AsStr;

/// Does what the words after the program's name ask of a command, and gives the status to end with: 0 done, 1 refused or the
/// output failed, 2 words that ask for nothing, 3 no rule fits.
///
/// The report goes to the output, made whole before its first byte is written. The error output gets the text of `clap` on words
/// that it refuses, and what a person is told. What becomes of it changes neither the report nor the status. Help and the version,
/// where they are asked for, go to the output with status 0.
pub fn run<'w, R: AllocGlobal, S: AsStr, F: FileSet, C: Command<'w, R, F>, O: Outlet, E: Outlet>(
    rt: &R,
    words: &'w [S],
    files: &mut F,
    console: &mut Console<O, E>,
) -> u8
    requires needs { C.Needs }
    requires open { IsOpen console.old }
    ensures answers { AnswersAsked C.description C.Refusal.is_unread console.old console.new result C.Refusal.line_of (F.holding files.old) (F.holding files.new) (F.has_failed files.new) (map S.text words.entry.now) }
    ensures unread { AnswersUnread C.description C.Refusal.is_unread console.old console.new result (F.has_failed files.old) (F.has_failed files.new) (map S.text words.entry.now) }
    ensures tells { TellsUnasked C.description C.Refusal.is_unread console.old console.new result (map S.text words.entry.now) }
    ensures left { LeavesAsked C.description C.Refusal.is_unread (map S.text words.entry.now) (F.holding files.old) (F.holding files.new) }
    ensures stored { AnswersStored C.description console.old console.new result (F.holding files.old) (F.holding files.new) }
{
    let alloc = rt.alloc();
    let command = match C::read(alloc, words) {
        Ok(command) => command,
        Err(error) => return report_usage(alloc, &error, console),
    };
    match command.answer(rt, alloc, files) {
        Ok(outcome) => report(console, &outcome),
        Err(refused) => {
            let call = command.call_of(&refused.refusal);
            refuse(alloc, refused, call, console)
        }
    }
}

/// Writes the line of a refusal, or that of the call of this name where memory ran out in the command or for the line.
pub fn refuse<X: CommandRefusal, O: Outlet, E: Outlet>(
    alloc: Global,
    refused: Refused<X>,
    call: &str,
    console: &mut Console<O, E>,
) -> u8
    requires { IsOpen console.old }
    ensures { ShowsRefusal console.old console.new result X.is_want X.line_of call.now refused.refusal refused.remark }
{
    match Outcome::refused(alloc, refused) {
        Some(outcome) => report(console, &outcome),
        None => want(console, call),
    }
}
