//! The rule of a right answer in its document.
ghost use Rattle.std.specs.Prelude.{◌≡◌, ◌<◌, ◌≤◌, false, length, IfErr, IfOk, IsErrOf, Ok};
ghost use Rattle.std.specs.Str.{is_utf8};
ghost use Rattle.flag_defs.specs.Document.{DocumentMeans, max_bytes};
ghost use Rattle.flag_defs.specs.Flags.{flags_view};
ghost use Rattle.flag_defs.specs.declared.fault.DefFault.TheVariants as fault;
ghost use Rattle.kept_document.specs.Kept.{IsRefused, KeptAt, place_in};
ghost use Rattle.plan_text.specs.Answer.{planned_view};
ghost use Rattle.library_rollouts.specs.Apply.{IsApplied, IsKeptAt, IsKeptOn};
ghost use Rattle.library_rollouts.specs.View.{bytes_view};
ghost use Rattle.library_rollouts.specs.Writing.{Makes, Writes};
ghost use Rattle.library_rollouts.specs.declared.refusal.RolloutRefusal.TheVariants as refusal;

use crate::refusal::RolloutRefusal;
use crate::writing::write;
use bucket_core::Rule;
use flag_defs::{Flags, read_flags};
use kept_document::{KeepFault, keep};
use note_tallies::{PageTally, read_tally};
use plan_text::{Planned, read_planned};
use rollout::{RequestFile, verify_file_on_tally};
use std::alloc::Global;
use std::str;

/// Writes the document with the rule of a right answer at the site of its request, and all else as it was.
///
/// The refusals come in the order of the document, the tally, the plan file, the request, the check, `NoRule`, what refuses the
/// changed flags, what refuses the changed text, and the room.
pub fn apply(
    alloc: Global,
    document: &[u8],
    request: &[u8],
    tally: &[u8],
    plan: &[u8],
    out: &mut [u8],
    written: &mut usize,
) -> Result<(), RolloutRefusal>
    ensures writes { Writes (IsApplied document.now request.now tally.now plan.now) result (record { bytes = out.old; written = written.old }) (record { bytes = out.new; written = written.new }) }
    // these need no memory
    ensures large { max_bytes < length document.now → IsErrOf result (refusal.Document fault.TooLarge) }
    ensures no_text { length document.now ≤ max_bytes → is_utf8 document.now ≡ false → IsErrOf result (refusal.Document fault.NotJson) }
{
    let text = applied(alloc, document, request, tally, plan)?;
    write(text.as_slice(), out, written)
}

/// The text of the document with the rule.
fn applied(
    alloc: Global,
    document: &[u8],
    request: &[u8],
    tally: &[u8],
    plan: &[u8],
) -> Result<Vec<u8>, RolloutRefusal>
    ensures made { Makes bytes_view (IsApplied document.now request.now tally.now plan.now) result }
    ensures large { max_bytes < length document.now → IsErrOf result (refusal.Document fault.TooLarge) }
    ensures no_text { length document.now ≤ max_bytes → is_utf8 document.now ≡ false → IsErrOf result (refusal.Document fault.NotJson) }
{
    let flags = read_flags(alloc, document)?;
    let tally = read_tally(alloc, tally)?;
    let planned = read_planned(alloc, plan)?;
    applied_on(alloc, document, &flags, request, &tally, &planned)
}

/// The same of what was read.
fn applied_on(
    alloc: Global,
    document: &[u8],
    flags: &Flags,
    request: &[u8],
    tally: &PageTally,
    planned: &Planned,
) -> Result<Vec<u8>, RolloutRefusal>
    ensures { Makes bytes_view (IsKeptOn document.now request.now (flags_view flags.now) tally.now (planned_view planned.now)) result }
{
    let bytes = request.to_vec(alloc)?;
    let request = RequestFile::read(alloc, bytes)?;
    verify_file_on_tally(alloc, flags, &request, tally, planned, None)?;
    let asked = request.asked()?;
    match planned {
        Planned::Emit(rule, _) => {
            kept_at(alloc, document, flags, asked.flag(), asked.site(), rule)
        }
        Planned::NoneExists(_) => Err(RolloutRefusal::NoRule),
    }
}

/// The text with a rule at a site of a flag, of bytes that mean these flags.
fn kept_at(
    alloc: Global,
    document: &[u8],
    flags: &Flags,
    key: &str,
    site: u32,
    rule: &Rule,
) -> Result<Vec<u8>, RolloutRefusal>
    ensures { Makes bytes_view (IsKeptAt document.now (flags_view flags.now) key.now site rule.now) result }
{
    let wanted = rollout::apply(alloc, flags, key, site, rule)?;
    let text = kept_text(alloc, document, flags, key, site, rule, &wanted)?;
    Ok(text)
}

/// The text with a rule at a site, which means the flags that are wanted.
fn kept_text(
    alloc: Global,
    document: &[u8],
    flags: &Flags,
    key: &str,
    site: u32,
    rule: &Rule,
    wanted: &Flags,
) -> Result<Vec<u8>, KeepFault>
    ensures kept { IfOk result (λ v. KeptAt document.now (place_in false document.now (flags_view flags.now) key.now site) rule.now v.items) }
    ensures means { IfOk result (λ v. DocumentMeans v.items (Ok (flags_view wanted.now))) }
    ensures refused { IfErr result (IsRefused false document.now (place_in false document.now (flags_view flags.now) key.now site) rule.now (flags_view wanted.now)) }
{
    match str::from_utf8(document) {
        Ok(document) => keep(alloc, document, flags, key, site, rule, wanted, false),
        // Bytes that are no text mean no flags.
        Err(_) => Err(KeepFault::Differs),
    }
}
