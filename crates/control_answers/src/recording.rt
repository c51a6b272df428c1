//! What is recorded at a site.
ghost use Rattle.std.specs.Map.{lookup};
ghost use Rattle.std.specs.Prelude.{◌≡◌, None, IsErrOf, string_bytes};
ghost use Rattle.std.specs.Str.{bytes_eq};
ghost use Rattle.flag_defs.specs.Flags.{flags_view};
ghost use Rattle.note_streams.specs.LogLines.{files_view};
ghost use Rattle.rollout.specs.declared.fault.RolloutFault.{RolloutFault};
ghost use Rattle.control_answers.specs.Record.{IsRecordAnswer, IsRecordOver};
ghost use Rattle.control_answers.specs.Target.{target_view};
ghost use Rattle.control_answers.specs.Turns.{Gives};
ghost use Rattle.control_answers.specs.declared.refusal.ControlRefusal.TheVariants.{Rollout};

use crate::place::target_in;
use crate::refusal::ControlRefusal;
use crate::target::Target;
use flag_defs::Flags;
use note_streams::{LogFile, tally_files};
use note_tallies::print_tally;
use std::alloc::Global;

/// The file of the tally of the inputs that log files hold of the page of a site, at the rule's total.
///
/// The refusals come in the order of the flag, the site, its buckets, its weight, the total and the files.
pub fn record_answer(
    alloc: Global,
    flags: &Flags,
    key: &str,
    site: u32,
    files: &[LogFile<'_>],
) -> Result<String, ControlRefusal>
    ensures exact { Gives string_bytes (IsRecordAnswer (flags_view flags.now) key.now site (files_view files.now)) result }
    // A flag that is unknown is refused without memory.
    ensures unknown { lookup (bytes_eq key.now) (flags_view flags.now) ≡ None → IsErrOf result (Rollout RolloutFault.UnknownFlag) }
{
    let target = target_in(alloc, flags, key, site)?;
    recorded(alloc, target, files)
}

/// The file of the tally of what is held of a target.
fn recorded(alloc: Global, target: Target, files: &[LogFile<'_>]) -> Result<String, ControlRefusal>
    ensures { Gives string_bytes (IsRecordOver (files_view files.now) (target_view target)) result }
{
    let tally = tally_files(alloc, target.page, target.total, files)?;
    Ok(print_tally(alloc, &tally)?)
}
