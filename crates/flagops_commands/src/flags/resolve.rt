//! The command `resolve`: what the flag of a key resolves to.
ghost use Rattle.std.specs.Prelude.{◌≡◌, ◌<◌, ◌^◌, ◌||◌, codes, false, true, IfOk, IfSome, Some, string_bytes};
ghost use Rattle.flag_defs.specs.Floats.{marked_view};
ghost use Rattle.flag_text.specs.Shape.{is_whole};
ghost use Rattle.flag_text.specs.View.{view};
ghost use Rattle.flag_text.specs.Reading.{tree_of};
ghost use Rattle.flagops_files.specs.Loading.{max_text};
ghost use Rattle.file_diagnostics.specs.Named.{Names};
ghost use Rattle.flag_resolve.specs.Floats.{resolved_with_floats};
ghost use Rattle.flag_resolve.specs.Views.{resolution_view};
ghost use Rattle.flagops_commands.specs.Resolve.{IsResolveReport, resolution_line, resolve_report};
ghost use Rattle.flagops_shell.specs.Diagnostic.{Says};
ghost use Rattle.flagops_commands.specs.Calls.{resolve_calls};
ghost use Rattle.flagops_shell.specs.Outcomes.{refused_by};
ghost use Rattle.flagops_shell.specs.Report.{outcome_view};
ghost use Rattle.flagops_commands.specs.Refusal.{ComesFrom, GivesOne, GivesUnlessWant, is_file_fault, loads_tree, no_tree, TellsOf};
ghost use Rattle.flagops_files.specs.Told.{word};
ghost use Rattle.flagops_commands.specs.Attempts.{TellsOfFirst, resolve_attempts};

use crate::flags::unresolved::remark_on;
use crate::loading::{load_marked, load_tree};
use crate::refusal::{ListedCall, ListedRefusal, Refused, out_of_memory};
use file_diagnostics::of_word;
use flag_defs::Flags;
use flag_resolve::{Kind, Resolution, is_spelled, push_resolution_spelled, resolve_with_floats};
use flag_text::{Tree, read_tree};
use flagops_files::{Refusal, TEXT_LIMIT};
use flagops_shell::{FileSet, Outcome, Remark, Status};
use flagops_words::Moment;
use std::alloc::{AllocError, Global};

/// The resolution of a key in a context, as a line. The document may have floats, or may not; the value of a flag that has some is
/// printed by its spelling. A note names a key that no flag has, and the kind of a flag that is of another.
#[tactic(auto, unfolding(crate::specs::Resolve::IsResolveReport))]
pub fn resolve<F: FileSet>(
    alloc: Global,
    files: &mut F,
    document: &str,
    key: &str,
    kind: Kind,
    default: &str,
    context: &str,
    moment: Moment,
    floats: bool,
) -> Result<Outcome, Refused>
    ensures exact { IfSome (F.holding files.old) (λ at. GivesOne outcome_view result (IsResolveReport at document.now key.now kind default.now context.now moment.number floats)) }
    ensures calls { ComesFrom resolve_calls result }
    ensures failed { F.has_failed files.new ≡ (F.has_failed files.old || is_file_fault result) }
    ensures kept { F.holding files.new ≡ F.holding files.old }
    ensures names { IfSome (F.holding files.old) (λ at. TellsOfFirst (resolve_attempts floats at document.now default.now context.now) result) }
    ensures notes { IfOk result (λ o. IfSome o.remark (Says (Names document.now))) }
{
    let flags = load_marked(alloc, files, document, floats)?;
    let default = default_in(alloc, default)?;
    let context = load_tree(alloc, files, context, TEXT_LIMIT)?;
    match resolved(
        alloc, document, &flags, key, kind, &default, &context, moment,
    ) {
        Ok(outcome) => Ok(outcome),
        Err(AllocError) => Err(out_of_memory(ListedCall::Resolve)),
    }
}

/// The tree that the word DEFAULT spells.
#[tactic(auto, using(flagops_files::proofs::Told::says))]
fn default_in(alloc: Global, text: &str) -> Result<Tree, Refused>
    ensures exact { GivesUnlessWant view result (refused_by no_tree (tree_of text.now max_text)) }
    ensures whole { IfOk result (λ t. is_whole (view t) ≡ true) }
    ensures calls { ComesFrom loads_tree result }
    ensures read { is_file_fault result ≡ false }
    ensures names { TellsOf (word (codes "DEFAULT")) result }
{
    match read_tree(alloc, text.as_bytes(), TEXT_LIMIT as usize) {
        Ok(tree) => Ok(tree),
        Err(fault) => Err(Refused {
            refusal: ListedRefusal::Load(Refusal::ReadTree(fault)),
            remark: Remark::of(of_word(
                alloc,
                "DEFAULT",
                text.as_bytes(),
                TEXT_LIMIT as usize,
                fault,
            )),
        }),
    }
}

/// What the resolution of a key is reported as, among the flags of the document at a path.
#[tactic(auto, using(logic_eval::proofs::Tidy::tidy_whole))]
fn resolved(
    alloc: Global,
    path: &str,
    flags: &Flags,
    key: &str,
    kind: Kind,
    default: &Tree,
    context: &Tree,
    moment: Moment,
) -> Result<Outcome, AllocError>
    requires default { is_whole (view default.now) ≡ true }
    requires context { is_whole (view context.now) ≡ true }
    ensures exact { IfOk result (λ o. outcome_view o ≡ resolve_report (marked_view flags.now) key.now (resolved_with_floats (Some (marked_view flags.now)) kind (view default.now) (view context.now) key.now moment.number)) }
    ensures notes { IfOk result (λ o. IfSome o.remark (Says (Names path.now))) }
{
    let resolution = resolve_with_floats(
        alloc,
        Some(flags),
        key,
        kind,
        default,
        context,
        moment.number,
    )?;
    let text = line(alloc, flags, key, &resolution)?.into_bytes();
    Ok(Outcome {
        text,
        status: Status::Done,
        remark: remark_on(alloc, path, flags, key, kind, resolution.code),
    })
}

/// A resolution as a line.
fn line(
    alloc: Global,
    flags: &Flags,
    key: &str,
    resolution: &Resolution,
) -> Result<String, AllocError>
    ensures { IfOk result (λ s. string_bytes s ≡ resolution_line (marked_view flags.now) key.now (resolution_view resolution.now)) }
{
    let spelled = is_spelled(Some(flags), key, resolution);
    let mut line = String::new(alloc);
    push_resolution_spelled(alloc, &mut line, resolution, spelled)?;
    line.push_str("\n")?;
    Ok(line)
}
