//! What a rollout is asked over: the flags, a request, and what was recorded.
ghost use Rattle.std.specs.Prelude.{◌≡◌, ◌<◌, ◌||◌, IfOk, IfSome, Ok};
ghost use Rattle.flagops_shell.specs.Files.{load_of};
ghost use Rattle.flagops_files.specs.Loading.{max_text};
ghost use Rattle.flagops_files.specs.Question.{IsQuestionAt, question_attempts, question_subjects, question_view};
ghost use Rattle.flagops_files.specs.Refusal.{ComesFrom, GivesOne, is_file_fault, loads_question, TellsOfFirst, TellsOfOne};

use crate::documents::{Document, load_document};
use crate::evidence::{Evidence, load_evidence};
use crate::refusal::Refused;
use crate::requests::load_request;
use flag_defs::Flags;
use flagops_shell::FileSet;
use rollout::RequestFile;
use std::alloc::Global;
use std::thread::Threads;

/// The bytes of a document and its flags, the file of a request, whose refusal is left to the call that takes it, and the book
/// or the tally of what was recorded.
#[derive(Drop)]
pub struct Question {
    pub document: Vec<u8>,
    pub flags: Flags,
    pub request: RequestFile,
    pub evidence: Evidence,
}

/// The question of the files at these paths, each loaded and read before the next; the document may have floats, or may not. The
/// inputs that the request is about are counted while a book is read, for the site's rule with each weight multiplied by the
/// factor. The condition is a factor from 1.
#[tactic(auto, unfolding(crate::specs::Question::IsQuestionAt))]
pub fn load_question<R: Threads, F: FileSet>(
    rt: &R,
    alloc: Global,
    files: &mut F,
    document: &str,
    floats: bool,
    request: &str,
    evidence: &str,
    factor: u32,
) -> Result<Question, Refused>
    requires { 0 < factor }
    ensures exact { IfSome (F.holding files.old) (λ at. GivesOne question_view result (IsQuestionAt floats at document.now request.now evidence.now)) }
    ensures bytes { IfSome (F.holding files.old) (λ at. IfOk result (λ q. load_of at document.now max_text ≡ Ok q.document.items)) }
    ensures calls { ComesFrom loads_question result }
    ensures failed { F.has_failed files.new ≡ (F.has_failed files.old || is_file_fault result) }
    ensures kept { F.holding files.new ≡ F.holding files.old }
    ensures names { TellsOfOne (question_subjects document.now request.now evidence.now) result }
    ensures first { IfSome (F.holding files.old) (λ at. TellsOfFirst (question_attempts floats at document.now request.now evidence.now) result) }
{
    let Document { bytes, flags } = load_document(alloc, files, document, floats)?;
    let request = load_request(alloc, files, request)?;
    let asked = request.asked().ok();
    let evidence = load_evidence(rt, alloc, files, &flags, asked, factor, evidence)?;
    Ok(Question {
        document: bytes,
        flags,
        request,
        evidence,
    })
}
