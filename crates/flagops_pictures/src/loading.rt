//! The question that a command draws the answer to.
ghost use Rattle.std.specs.Prelude.{◌≡◌, ◌<◌, ◌||◌, IfSome};
ghost use Rattle.flagops_files.specs.Question.{question_view};
ghost use Rattle.flagops_rollouts.specs.Attempts.{TellsOfFirst, question_attempts};
ghost use Rattle.flagops_rollouts.specs.Loaded.{IsQuestionAt};
ghost use Rattle.flagops_rollouts.specs.Refusal.{ComesFrom, GivesOne, is_file_fault, loads_question};

use flagops_files::Question;
use flagops_rollouts::Refused;
use flagops_shell::FileSet;
use std::alloc::Global;
use std::thread::Threads;

/// The question of the files at these paths, of which the document may have floats or may not. The condition is a factor from 1.
#[tactic(auto, using(crate::proofs::Questions::comes, crate::proofs::Questions::failed))]
pub(crate) fn load_question<R: Threads, F: FileSet>(
    rt: &R,
    alloc: Global,
    files: &mut F,
    document: &str,
    floats: bool,
    request: &str,
    evidence: &str,
    factor: u32,
) -> Result<Question, Refused>
    requires { 0 < factor }
    ensures exact { IfSome (F.holding files.old) (λ at. GivesOne question_view result (IsQuestionAt floats at document.now request.now evidence.now)) }
    ensures calls { ComesFrom loads_question result }
    ensures failed { F.has_failed files.new ≡ (F.has_failed files.old || is_file_fault result) }
    ensures kept { F.holding files.new ≡ F.holding files.old }
    ensures names { IfSome (F.holding files.old) (λ at. TellsOfFirst (question_attempts floats at document.now request.now evidence.now) result) }
{
    match flagops_files::load_question(
        rt, alloc, files, document, floats, request, evidence, factor,
    ) {
        Ok(question) => Ok(question),
        Err(refused) => Err(Refused::of(refused)),
    }
}
