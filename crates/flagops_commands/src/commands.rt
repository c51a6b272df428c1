//! The table of the commands, and what each answers.
ghost use Rattle.std.specs.Prelude.{◌≡◌, ◌||◌, IfOk, IfSome};
ghost use Rattle.flagops_commands.specs.Commands.{calls_of, IsOutcome, Leaves};
ghost use Rattle.flagops_shell.specs.Ending.{KeepsUnlessDone};
ghost use Rattle.flagops_words.specs.Asked.{asked_view};
ghost use Rattle.flagops_commands.specs.Refusal.{ComesFrom, GivesOne, is_file_fault};
ghost use Rattle.flagops_shell.specs.Report.{outcome_view};
ghost use Rattle.flagops_shell.specs.Diagnostic.{Says};
ghost use Rattle.flagops_commands.specs.Attempts.{TellsOfFirst, attempts_of};
ghost use Rattle.flagops_commands.specs.Subjects.{notes_of, numbers_of, parts_of};

use crate::books::drive::drive;
use crate::completions::completions;
use crate::flags::resolve::resolve;
use crate::refusal::Refused;
use crate::rollouts::{apply, keep, plan, verify};
use crate::rules::bucket::bucket;
use crate::rules::price::price;
use flagops_shell::{FileSet, Outcome};
use flagops_words::Asked;
use std::alloc::Global;
use std::sync::Wait;
use std::thread::Threads;

/// What the command answers, or why it is refused. `drive` alone waits, for its workers.
#[tactic(auto, using(crate::proofs::Noted::nothing, crate::proofs::Noted::no_numbers, crate::proofs::Noted::no_parts, crate::proofs::Refusing::all_kept, crate::proofs::Firsts::in_any_files))]
pub fn outcome<R: Threads + Wait + Sync, F: FileSet>(
    rt: &R,
    alloc: Global,
    files: &mut F,
    asked: &Asked<'_>,
) -> Result<Outcome, Refused>
    ensures exact { IfSome (F.holding files.old) (λ at. GivesOne outcome_view result (IsOutcome at (F.holding files.new) (asked_view asked.now))) }
    ensures calls { ComesFrom (calls_of (asked_view asked.now)) result }
    ensures failed { F.has_failed files.new ≡ (F.has_failed files.old || is_file_fault result) }
    ensures left { Leaves (asked_view asked.now) (F.holding files.old) (F.holding files.new) }
    ensures kept { KeepsUnlessDone (F.holding files.old) (F.holding files.new) result }
    ensures names { IfSome (F.holding files.old) (λ at. TellsOfFirst (attempts_of (asked_view asked.now) at) result) }
    ensures notes { IfOk result (λ o. IfSome o.remark (Says (notes_of (asked_view asked.now)))) }
    ensures numbers { IfOk result (λ o. IfSome (F.holding files.old) (λ at. IfSome o.remark (Says (numbers_of (asked_view asked.now) at (outcome_view o))))) }
    ensures parts { IfSome (F.holding files.old) (λ at. IfOk result (λ o. parts_of (asked_view asked.now) at (outcome_view o) o.remark)) }
{
    match asked {
        Asked::Bucket { rule, key, json } => bucket(alloc, files, rule, key, *json),
        Asked::Completions { shell } => completions(alloc, *shell),
        Asked::Price {
            old,
            new,
            request,
            keys,
            json,
        } => price(rt, alloc, files, old, new, request, keys, *json),
        Asked::Resolve {
            document,
            key,
            kind,
            default,
            context,
            moment,
            floats,
        } => resolve(
            alloc, files, document, key, *kind, default, context, *moment, *floats,
        ),
        Asked::Verify {
            document,
            request,
            book,
            plan,
            refine,
            strict,
            json,
            floats,
        } => verify(
            rt, alloc, files, document, *floats, request, book, plan, *refine, *strict, *json,
        ),
        Asked::Plan {
            document,
            request,
            book,
            refine,
            strict,
            explain,
            floats,
        } => plan(
            rt, alloc, files, document, *floats, request, book, *refine, *strict, *explain,
        ),
        Asked::Apply {
            document,
            plan,
            key,
            site,
            strict,
            floats,
        } => apply(alloc, files, document, *floats, plan, key, *site, *strict),
        Asked::Keep {
            document,
            plan,
            request,
            book,
            write,
            refine,
            strict,
            floats,
        } => keep(
            rt, alloc, files, document, *floats, plan, request, book, *write, *refine, *strict,
        ),
        Asked::Drive {
            document,
            asks,
            workers,
            book,
            add,
            replace,
            strict,
            json,
            floats,
        } => drive(
            rt, alloc, files, document, *floats, asks, *workers, book, *add, *replace, *strict,
            *json,
        ),
    }
}
