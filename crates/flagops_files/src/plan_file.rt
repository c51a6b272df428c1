//! From the path of a plan file to the answer that it holds.
ghost use Rattle.std.specs.Prelude.{◌≡◌, ◌||◌, IfSome};
ghost use Rattle.plan_text.specs.Answer.{planned_view};
ghost use Rattle.flagops_files.specs.PlanFile.{plan_at};
ghost use Rattle.flagops_files.specs.Refusal.{ComesFrom, GivesUnlessWant, is_file_fault, loads_plan, TellsOf};
ghost use Rattle.flagops_files.specs.Told.{file};

use crate::loading::{RULE_LIMIT, load};
use crate::refusal::{Refusal, Refused};
use file_diagnostics::of_plan_file;
use flagops_shell::{FileSet, Remark};
use plan_text::{Planned, read_planned};
use std::alloc::Global;

/// The answer of the plan file at a path.
#[tactic(auto, using(crate::proofs::Told::says), unfolding(crate::specs::PlanFile::plan_at))]
pub fn load_planned<F: FileSet>(
    alloc: Global,
    files: &mut F,
    path: &str,
) -> Result<Planned, Refused>
    ensures exact { IfSome (F.holding files.old) (λ at. GivesUnlessWant planned_view result (plan_at at path.now)) }
    ensures calls { ComesFrom loads_plan result }
    ensures failed { F.has_failed files.new ≡ (F.has_failed files.old || is_file_fault result) }
    ensures kept { F.holding files.new ≡ F.holding files.old }
    ensures names { TellsOf (file path.now) result }
{
    let bytes = load(alloc, files, path, u64::from(RULE_LIMIT))?;
    match read_planned(alloc, bytes.as_slice()) {
        Ok(planned) => Ok(planned),
        Err(fault) => Err(Refused {
            refusal: Refusal::ReadPlanned(fault),
            remark: Remark::of(of_plan_file(alloc, path, bytes.as_slice(), fault)),
        }),
    }
}
