//! Files that are loaded and written for a command on rollouts, where each refusal is one of these commands.
ghost use Rattle.std.specs.Prelude.{◌≡◌, ◌<◌, ◌||◌, IfErr, IfOk, IfSome, Ok, OnErr, OnOk, false};
ghost use Rattle.flag_defs.specs.Flags.{flags_view};
ghost use Rattle.flag_defs.specs.Floats.{AreMarkedAs, floats_view};
ghost use Rattle.plan_text.specs.Answer.{planned_view};
ghost use Rattle.flagops_files.specs.Loading.{max_text};
ghost use Rattle.flagops_files.specs.Question.{question_view};
ghost use Rattle.flagops_files.specs.Told.{file};
ghost use Rattle.flagops_shell.specs.Files.{KeepsOthers, Stores, load_of};
ghost use Rattle.flagops_rollouts.specs.Attempts.{TellsOfFirst, question_attempts};
ghost use Rattle.flagops_rollouts.specs.Loaded.{IsDocumentAt, IsQuestionAt, plan_at, question_subjects};
ghost use Rattle.flagops_rollouts.specs.Refusal.{ComesFrom, GivesOne, GivesUnlessWant, TellsOf, TellsOfOne, is_file_fault, is_want, loads_flags, loads_plan, loads_question, stores_file, unwritable};

use crate::refusal::Refused;
use flagops_files::{Document, Question};
use flagops_shell::FileSet;
use plan_text::Planned;
use std::alloc::Global;
use std::thread::Threads;

/// The document at a path, which may have floats or may not.
#[tactic(auto, using(crate::proofs::Loaded::told, crate::proofs::Loaded::comes, crate::proofs::Loaded::failed_load))]
pub fn load_document<F: FileSet>(
    alloc: Global,
    files: &mut F,
    path: &str,
    floats: bool,
) -> Result<Document, Refused>
    ensures exact { IfSome (F.holding files.old) (λ at. GivesOne (λ d. flags_view d.flags) result (IsDocumentAt floats at path.now)) }
    ensures floats { IfOk result (λ d. AreMarkedAs floats d.bytes.items (flags_view d.flags) (floats_view d.flags)) }
    ensures bytes { IfSome (F.holding files.old) (λ at. IfOk result (λ d. load_of at path.now max_text ≡ Ok d.bytes.items)) }
    ensures calls { ComesFrom loads_flags result }
    ensures failed { F.has_failed files.new ≡ (F.has_failed files.old || is_file_fault result) }
    ensures kept { F.holding files.new ≡ F.holding files.old }
    ensures names { TellsOf (file path.now) result }
{
    match flagops_files::load_document(alloc, files, path, floats) {
        Ok(document) => Ok(document),
        Err(refused) => Err(Refused::of(refused)),
    }
}

/// The answer of the plan file at a path.
#[tactic(auto, using(crate::proofs::Loaded::told, crate::proofs::Loaded::comes, crate::proofs::Loaded::failed_load))]
pub fn load_planned<F: FileSet>(
    alloc: Global,
    files: &mut F,
    path: &str,
) -> Result<Planned, Refused>
    ensures exact { IfSome (F.holding files.old) (λ at. GivesUnlessWant planned_view result (plan_at at path.now)) }
    ensures calls { ComesFrom loads_plan result }
    ensures failed { F.has_failed files.new ≡ (F.has_failed files.old || is_file_fault result) }
    ensures kept { F.holding files.new ≡ F.holding files.old }
    ensures names { TellsOf (file path.now) result }
{
    match flagops_files::load_planned(alloc, files, path) {
        Ok(planned) => Ok(planned),
        Err(refused) => Err(Refused::of(refused)),
    }
}

/// The question of the files at these paths, of which the document may have floats or may not. The condition is a factor from 1.
#[tactic(auto, using(crate::proofs::Loaded::told_question, crate::proofs::Loaded::comes, crate::proofs::Loaded::failed_load))]
pub fn load_question<R: Threads, F: FileSet>(
    rt: &R,
    alloc: Global,
    files: &mut F,
    document: &str,
    floats: bool,
    request: &str,
    evidence: &str,
    factor: u32,
) -> Result<Question, Refused>
    requires { 0 < factor }
    ensures exact { IfSome (F.holding files.old) (λ at. GivesOne question_view result (IsQuestionAt floats at document.now request.now evidence.now)) }
    ensures bytes { IfSome (F.holding files.old) (λ at. IfOk result (λ q. load_of at document.now max_text ≡ Ok q.document.items)) }
    ensures calls { ComesFrom loads_question result }
    ensures failed { F.has_failed files.new ≡ (F.has_failed files.old || is_file_fault result) }
    ensures kept { F.holding files.new ≡ F.holding files.old }
    ensures names { TellsOfOne (question_subjects document.now request.now evidence.now) result }
    ensures first { IfSome (F.holding files.old) (λ at. TellsOfFirst (question_attempts floats at document.now request.now evidence.now) result) }
{
    match flagops_files::load_question(
        rt, alloc, files, document, floats, request, evidence, factor,
    ) {
        Ok(question) => Ok(question),
        Err(refused) => Err(Refused::of(refused)),
    }
}

/// Writes `bytes` to the file at `path`. After a refusal the files are as they were.
#[tactic(auto, using(crate::proofs::Loaded::told, crate::proofs::Loaded::comes, crate::proofs::Loaded::failed_load, crate::proofs::Loaded::unwritten))]
pub fn store<F: FileSet>(
    alloc: Global,
    files: &mut F,
    path: &str,
    bytes: &[u8],
) -> Result<(), Refused>
    ensures stored { OnOk result (Stores (F.holding files.old) (F.holding files.new) path.now bytes.now) }
    ensures others { KeepsOthers (F.holding files.old) (F.holding files.new) path.now }
    ensures refused { OnErr result (F.holding files.new ≡ F.holding files.old) }
    ensures fault { IfErr result (λ r. is_want r.refusal ≡ false → r.refusal ≡ unwritable) }
    ensures calls { ComesFrom stores_file result }
    ensures failed { F.has_failed files.new ≡ (F.has_failed files.old || is_file_fault result) }
    ensures names { TellsOf (file path.now) result }
{
    match flagops_files::store(alloc, files, path, bytes) {
        Ok(()) => Ok(()),
        Err(refused) => Err(Refused::of(refused)),
    }
}
