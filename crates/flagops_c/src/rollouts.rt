//! The exports on rollouts, which take bytes and no seat.
ghost use Rattle.std.specs.Prelude.{◌≡◌, ◌<◌, ◌≤◌, false, length};
ghost use Rattle.std.specs.Str.{is_utf8};
ghost use Rattle.flag_defs.specs.Document.{max_bytes};
ghost use Rattle.library_rollouts.specs.Apply.{IsApplied};
ghost use Rattle.library_rollouts.specs.Plan.{IsPlan};
ghost use Rattle.library_rollouts.specs.Tally.{IsTally};
ghost use Rattle.library_rollouts.specs.Verify.{IsVerdict};
ghost use Rattle.library_rollouts.specs.Writing.{Makes};
ghost use Rattle.library_rollouts.specs.View.{right_view};
ghost use Rattle.flagops_c.specs.Rollouts.{Answers, WritesBy, planned_number, rollout_number};

use crate::numbers::{number_of_planned, number_of_rollout};
use library_rollouts::{apply, plan, tally, verify};
use std::alloc::Global;

/// Writes the tally of note lines at the site of a request.
#[unsafe(no_mangle)]
pub extern "C" fn flagops_tally(
    alloc: Global,
    document: &[u8],
    request: &[u8],
    notes: &[u8],
    out: &mut [u8],
    written: &mut usize,
) -> u32
    ensures tallies { WritesBy rollout_number (IsTally document.now request.now notes.now) result
        (record { bytes = out.old; written = written.old }) (record { bytes = out.new; written = written.new }) }
    // these need no memory
    ensures large { max_bytes < length document.now → result ≡ 13 }
    ensures no_text { length document.now ≤ max_bytes → is_utf8 document.now ≡ false → result ≡ 11 }
{
    let tallied = tally(alloc, document, request, notes, out, written);
    number_of_rollout(tallied)
}

/// Writes the plan file of the answer to a request over a tally.
#[unsafe(no_mangle)]
pub extern "C" fn flagops_plan(
    alloc: Global,
    document: &[u8],
    request: &[u8],
    tally: &[u8],
    out: &mut [u8],
    written: &mut usize,
) -> u32
    ensures plans { WritesBy planned_number (IsPlan document.now request.now tally.now) result
        (record { bytes = out.old; written = written.old }) (record { bytes = out.new; written = written.new }) }
    // these need no memory
    ensures large { max_bytes < length document.now → result ≡ 13 }
    ensures no_text { length document.now ≤ max_bytes → is_utf8 document.now ≡ false → result ≡ 11 }
{
    let planned = plan(alloc, document, request, tally, out, written);
    number_of_planned(planned)
}

/// Whether the answer of a plan file is right for a request over a tally.
#[unsafe(no_mangle)]
pub extern "C" fn flagops_verify(
    alloc: Global,
    document: &[u8],
    request: &[u8],
    tally: &[u8],
    plan: &[u8],
) -> u32
    ensures verifies { Answers rollout_number (Makes right_view (IsVerdict document.now request.now tally.now plan.now)) result }
    // these need no memory
    ensures large { max_bytes < length document.now → result ≡ 13 }
    ensures no_text { length document.now ≤ max_bytes → is_utf8 document.now ≡ false → result ≡ 11 }
{
    let verdict = verify(alloc, document, request, tally, plan);
    number_of_rollout(verdict)
}

/// Writes the document with the rule of a right answer at the site of its request, and all else as it was.
#[unsafe(no_mangle)]
pub extern "C" fn flagops_apply(
    alloc: Global,
    document: &[u8],
    request: &[u8],
    tally: &[u8],
    plan: &[u8],
    out: &mut [u8],
    written: &mut usize,
) -> u32
    ensures applies { WritesBy rollout_number (IsApplied document.now request.now tally.now plan.now) result
        (record { bytes = out.old; written = written.old }) (record { bytes = out.new; written = written.new }) }
    // these need no memory
    ensures large { max_bytes < length document.now → result ≡ 13 }
    ensures no_text { length document.now ≤ max_bytes → is_utf8 document.now ≡ false → result ≡ 11 }
{
    let applied = apply(alloc, document, request, tally, plan, out, written);
    number_of_rollout(applied)
}
