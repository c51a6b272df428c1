//! The command `completions`: the script by which a shell completes the words of the program.
ghost use Rattle.std.specs.Prelude.{◌≡◌, [], false};
ghost use Rattle.flagops_commands.specs.Attempts.{TellsOfFirst};
ghost use Rattle.flagops_commands.specs.Calls.{completions_calls};
ghost use Rattle.flagops_commands.specs.Completions.{completions_report};
ghost use Rattle.flagops_commands.specs.Refusal.{ComesFrom, GivesUnlessWant, is_file_fault};
ghost use Rattle.flagops_shell.specs.Report.{outcome_view};

use crate::refusal::{ListedCall, Refused, out_of_memory};
use flagops_shell::{Outcome, Status};
use flagops_words::Shell;
use std::alloc::{AllocError, Global};

/// The script of a shell.
pub fn completions(alloc: Global, shell: Shell) -> Result<Outcome, Refused>
    ensures exact { GivesUnlessWant outcome_view result (completions_report shell) }
    ensures calls { ComesFrom completions_calls result }
    ensures read { is_file_fault result ≡ false }
    ensures names { TellsOfFirst [] result }
{
    match String::from_str(alloc, shell.script()) {
        Ok(text) => Ok(Outcome::plain(text.into_bytes(), Status::Done)),
        Err(AllocError) => Err(out_of_memory(ListedCall::Flagops)),
    }
}
