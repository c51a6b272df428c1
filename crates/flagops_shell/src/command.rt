//! What is known of every command.
ghost use Rattle.std.specs.Prelude.{◌≡◌, ◌||◌, ◌⊎◌, None, Some, IfErr, IfOk, IfSome, map};
ghost use Rattle.clap.specs.Kinds.{IsAmong};
ghost use Rattle.clap.specs.Words.{kind_of};
ghost use Rattle.clap.specs.declared.error.kind.ErrorKind.TheVariants.{OutOfMemory};
ghost use Rattle.flagops_shell.specs.Ending.{KeepsUnless, Remarks, is_file_fault};
ghost use Rattle.flagops_shell.specs.Given.{GivesOne};
ghost use Rattle.flagops_shell.specs.Report.{outcome_view};
ghost use Rattle.flagops_shell.specs.Running.{Description};

use crate::command_refusal::CommandRefusal;
use crate::files::FileSet;
use crate::outcome::Outcome;
use crate::refused::Refused;
use std::alloc::Global;
use std::convert::AsStr;

/// A command with its words, over a runtime `R` and the files `F`.
pub trait Command<'w, R, F: FileSet>: Sized + Drop {
    /// Why it is refused.
    type Refusal: CommandRefusal;

    // What its words ask for, without where they lie in memory.
    ghost Asked: { Type 0 };

    // What it needs of the runtime.
    ghost Needs: { Type 0 };

    ghost view: { Self → Asked };

    ghost description: { Description Asked Self.Refusal };

    /// Reads the words after the program's name, of which the command's own is the first.
    fn read<S: AsStr>(alloc: Global, words: &'w [S]) -> Result<Self, clap::Error>
        ensures ok { IfOk result (λ c. description.asked_by (map S.text words.entry.now) ≡ Some (view c)) }
        ensures err { IfErr result (λ e. (kind_of e ≡ OutOfMemory)
            ⊎ ((description.asked_by (map S.text words.entry.now) ≡ None) × IsAmong (kind_of e) (description.faults_of (map S.text words.entry.now)))) };

    /// What it comes to over the files, or why it is refused.
    fn answer(
        &self,
        rt: &R,
        alloc: Global,
        files: &mut F,
    ) -> Result<Outcome, Refused<Self::Refusal>>
        requires { Needs }
        ensures exact { IfSome (F.holding files.old) (λ at. GivesOne Self.Refusal.is_want outcome_view result (description.MayCome (view self.now) at (F.holding files.new))) }
        ensures remarks { IfSome (F.holding files.old) (λ at. Remarks Self.Refusal.is_want (description.MayTell (view self.now) at) result) }
        ensures wants { IfErr result (λ e. description.MayWant (view self.now) (description.call_of (view self.now) e.refusal)) }
        ensures failed { F.has_failed files.new ≡ (F.has_failed files.old || is_file_fault Self.Refusal.is_unread result) }
        ensures left { description.MayLeave (view self.now) (F.holding files.old) (F.holding files.new) }
        ensures kept { KeepsUnless description.IsDone (F.holding files.old) (F.holding files.new) result };

    /// The name of the call that ran out of memory, where it did.
    fn call_of(&self, refusal: &Self::Refusal) -> &'static str
        ensures { result.now ≡ description.call_of (view self.now) refusal.now };
}
