//! The command `apply`: a document with the rule of a plan file at a site.
ghost use Rattle.std.specs.Prelude.{◌≡◌, ◌||◌, [], ◌∷◌, ◌++◌, false, is_some, nat_lt, None, Ok, IfErr, IfOk, IfSome};
ghost use Rattle.bucket_core.specs.Rule.{total_weight};
ghost use Rattle.flag_defs.specs.Flags.{flags_view};
ghost use Rattle.flag_defs.specs.Floats.{floats_view};
ghost use Rattle.plan_text.specs.Answer.{planned_view};
ghost use Rattle.flagops_rollouts.specs.Apply.{IsApplyReport, IsLocalReport, document_line, none_report, printed_as, told_report};
ghost use Rattle.flagops_rollouts.specs.Attempts.{TellsOfFirst, apply_attempts};
ghost use Rattle.flagops_rollouts.specs.Beside.{Tells, noted_with, part_if};
ghost use Rattle.flagops_rollouts.specs.Calls.{apply_calls, apply_itself};
ghost use Rattle.flagops_rollouts.specs.Finer.{finer_part, times_at};
ghost use Rattle.flagops_rollouts.specs.Omitted.{TellsOmitted, is_omitting, settle_omitted};
ghost use Rattle.flagops_rollouts.specs.Refusal.{ComesFrom, GivesOne, GivesUnlessWant, is_file_fault, TellsOfOne};
ghost use Rattle.flagops_rollouts.specs.Remarks.{TellsAppliedAt, applied_parts};
ghost use Rattle.flagops_shell.specs.Diagnostic.{Says};
ghost use Rattle.flagops_shell.specs.Outcomes.{beside, done};
ghost use Rattle.flagops_shell.specs.Report.{outcome_view};
ghost use Rattle.flagops_files.specs.Told.{file};
ghost use Rattle.flagops_rollouts.specs.Subjects.{applied_subjects, apply_subjects, is_of_printed};
ghost use Rattle.file_diagnostics.specs.Named.{Names};
ghost use Rattle.flagops_rollouts.specs.declared.refusal.RolloutCall.TheVariants.{Apply};
ghost use Rattle.flagops_rollouts.specs.declared.refusal.RolloutRefusal.TheVariants.{WantOfMemory};

use crate::finer::{times_at, with_total};
use crate::loading::{load_document, load_planned};
use crate::omitted::settled_omissions;
use crate::refusal::{Refused, RolloutCall, RolloutRefusal, out_of_memory};
use bucket_core::Rule;
use flag_defs::{Flags, print_flags, print_flags_with_floats};
use flagops_files::Document;
use flagops_shell::{FileSet, Outcome, Remark, Status};
use plan_text::Planned;
use rollout_diagnostics::of_applied;
use std::alloc::{AllocError, Global};

/// The document with the rule of a plan file as the buckets of a flag's site, as a line; `none` where the plan has no
/// rule, whatever the flag and the site are. What the line leaves out of the document is told, or refused where that is asked
/// for. That the rule has finer points than the one that stood there is told too. The document may have floats, or may not.
#[tactic(auto, unfolding(crate::specs::Apply::IsApplyReport))]
pub fn apply<F: FileSet>(
    alloc: Global,
    files: &mut F,
    document: &str,
    floats: bool,
    plan: &str,
    key: &str,
    site: u32,
    strict: bool,
) -> Result<Outcome, Refused>
    ensures exact { IfSome (F.holding files.old) (λ at. GivesOne outcome_view result (IsApplyReport floats at document.now plan.now key.now site strict)) }
    ensures calls { ComesFrom apply_calls result }
    ensures failed { F.has_failed files.new ≡ (F.has_failed files.old || is_file_fault result) }
    ensures kept { F.holding files.new ≡ F.holding files.old }
    ensures names { TellsOfOne (apply_subjects document.now plan.now) result }
    ensures first { IfSome (F.holding files.old) (λ at. TellsOfFirst (apply_attempts floats at document.now plan.now) result) }
    ensures notes { IfOk result (λ o. IfSome o.remark (Says (Names document.now))) }
    ensures parts { IfSome (F.holding files.old) (λ at. IfOk result (λ o. TellsAppliedAt floats at document.now plan.now key.now site o.remark)) }
{
    let loaded = load_document(alloc, files, document, floats)?;
    let planned = load_planned(alloc, files, plan)?;
    applied(
        alloc, document, &loaded, floats, key, site, plan, &planned, strict,
    )
}

/// The same of a document and an answer that were loaded from these paths.
#[tactic(auto, using(flagops_files::proofs::Told::says), unfolding(crate::specs::Apply::told_report, crate::specs::Apply::applied_report))]
pub fn applied(
    alloc: Global,
    path: &str,
    document: &Document,
    floats: bool,
    key: &str,
    site: u32,
    plan: &str,
    planned: &Planned,
    strict: bool,
) -> Result<Outcome, Refused>
    ensures exact { GivesUnlessWant outcome_view result (told_report floats document.now.bytes.items (flags_view document.now.flags) (floats_view document.now.flags) key.now site strict (planned_view planned.now)) }
    ensures local { IfOk result (λ o. IsLocalReport floats (flags_view document.now.flags) (floats_view document.now.flags) key.now site (planned_view planned.now) (outcome_view o)) }
    ensures calls { ComesFrom apply_itself result }
    ensures read { is_file_fault result ≡ false }
    ensures names { TellsOfOne (applied_subjects path.now plan.now) result }
    ensures notes { IfOk result (λ o. IfSome o.remark (Says (Names path.now))) }
    ensures parts { IfOk result (λ o. Tells (applied_parts floats path.now document.now.bytes.items (flags_view document.now.flags) key.now site (planned_view planned.now)) o.remark) }
{
    match planned {
        Planned::Emit(rule, _) => {
            let flags = &document.flags;
            match rollout::apply(alloc, flags, key, site, rule) {
                Ok(changed) => {
                    let remark = noted(alloc, path, document, floats, key, site, rule, strict)?;
                    printed(alloc, &changed, floats, remark)
                }
                Err(fault) => Err(Refused {
                    refusal: RolloutRefusal::Apply(fault),
                    remark: Remark::of(of_applied(alloc, plan, flags, key, site, rule, fault)),
                }),
            }
        }
        Planned::NoneExists(_) => none(alloc),
    }
}

/// What a person is told beside the printed form of a document with a rule at a site: what is left out of it, and that
/// the rule has finer points than the one that stood there; or that the first is refused.
fn noted(
    alloc: Global,
    path: &str,
    document: &Document,
    floats: bool,
    key: &str,
    site: u32,
    rule: &Rule,
    strict: bool,
) -> Result<Option<Remark>, Refused>
    ensures exact { GivesUnlessWant (λ r. is_some r) result (noted_with (nat_lt 1 (times_at (flags_view document.now.flags) key.now site (total_weight rule.now))) (settle_omitted strict (is_omitting floats document.now.bytes.items (flags_view document.now.flags)))) }
    ensures calls { ComesFrom apply_itself result }
    ensures read { is_file_fault result ≡ false }
    ensures names { TellsOfOne ((file path.now, is_of_printed) ∷ []) result }
    ensures notes { IfOk result (λ r. IfSome r (Says (Names path.now))) }
    ensures parts { IfOk result (Tells (part_if (is_omitting floats document.now.bytes.items (flags_view document.now.flags)) (TellsOmitted path.now (flags_view document.now.flags)) ++ finer_part path.now (times_at (flags_view document.now.flags) key.now site (total_weight rule.now)) (total_weight rule.now))) }
{
    let omitted = settled_omissions(alloc, path, document, floats, strict)?;
    let points = rule.total();
    match times_at(alloc, &document.flags, key, site, points) {
        Ok(factor) => Ok(with_total(alloc, path, factor, points, omitted)),
        Err(AllocError) => Err(out_of_memory(RolloutCall::Apply)),
    }
}

/// The report of the changed document.
fn printed(
    alloc: Global,
    flags: &Flags,
    floats: bool,
    remark: Option<Remark>,
) -> Result<Outcome, Refused>
    ensures exact { GivesUnlessWant outcome_view result (beside (is_some remark) (done (document_line floats (flags_view flags.now) (floats_view flags.now)))) }
    ensures wants { IfErr result (λ r. r.refusal ≡ WantOfMemory Apply) }
    ensures remark { IfOk result (λ o. o.remark ≡ remark) }
{
    match document_line(alloc, flags, floats) {
        Ok(text) => Ok(Outcome {
            text,
            status: Status::Done,
            remark,
        }),
        Err(AllocError) => Err(out_of_memory(RolloutCall::Apply)),
    }
}

/// The report of a plan without a rule.
fn none(alloc: Global) -> Result<Outcome, Refused>
    ensures exact { GivesUnlessWant outcome_view result (Ok none_report) }
    ensures wants { IfErr result (λ r. r.refusal ≡ WantOfMemory Apply) }
    ensures remark { IfOk result (λ o. o.remark ≡ None) }
{
    match Vec::from_slice(alloc, b"none\n") {
        Ok(text) => Ok(Outcome {
            text,
            status: Status::NoneExists,
            remark: None,
        }),
        Err(AllocError) => Err(out_of_memory(RolloutCall::Apply)),
    }
}

fn document_line(alloc: Global, flags: &Flags, floats: bool) -> Result<Vec<u8>, AllocError>
    ensures { IfOk result (λ v. v.items ≡ document_line floats (flags_view flags.now) (floats_view flags.now)) }
{
    let mut line = printed_as(alloc, flags, floats)?;
    line.push(b'\n')?;
    Ok(line)
}

/// The document of the flags, which may have floats or may not.
fn printed_as(alloc: Global, flags: &Flags, floats: bool) -> Result<Vec<u8>, AllocError>
    ensures { IfOk result (λ v. v.items ≡ printed_as floats (flags_view flags.now) (floats_view flags.now)) }
{
    if floats {
        print_flags_with_floats(alloc, flags)
    } else {
        print_flags(alloc, flags)
    }
}
