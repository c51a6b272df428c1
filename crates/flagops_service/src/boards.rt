//! The board of a service, for what is asked for.
ghost use Rattle.std.specs.Prelude.{◌≡◌, IfOk, is_some, map, option_copied, option_map, string_bytes};
ghost use Rattle.flagops_service.specs.Words.{answering_view, applied_to, form_of, paths_served, some_of};

use crate::asked::Answering;
use crate::remembering::memory_of;
use control_desk::DeskRules;
use note_lines::NoteForm;
use note_log::SharedMemory;
use ofrep_guards::{Keys, Paths};
use ofrep_service::{Board, ConnectionLimits};
use service_layers::AccessLines;
use std::alloc::{AllocError, Global};
use std::hash::RandomState;
use std::time::{Clock, SystemTime, UNIX_EPOCH};

/// A board for what is asked for: the workers remember so many notes together, in a table with these keys, write them with the inputs or with their hashes
/// alone, want a key of these where a file is named, and serve the evaluations alone where operations have an address of their own.
/// Their connections have the limits that are asked for.
pub(crate) fn board_of(
    alloc: Global,
    answering: &Answering<'_>,
    clients: Option<Keys>,
    keys: RandomState,
) -> Result<Board, AllocError>
    ensures without { IfOk result (λ board. board.without_record ≡ answering.now.without_record) }
    ensures remember { IfOk result (λ board. is_some board.memory.memory ≡ is_some (some_of answering.now.remember)) }
    ensures form { IfOk result (λ board. board.form ≡ form_of answering.now.log_points) }
    ensures origins { IfOk result (λ board. map string_bytes board.origins.items ≡ (answering_view answering.now).cors) }
    ensures keys { IfOk result (λ board. option_map (λ ring. ring.first) board.keys ≡ clients) }
    ensures paths { IfOk result (λ board. board.paths ≡ paths_served (answering_view answering.now).admin) }
    ensures lines { IfOk result (λ board. is_some board.lines ≡ answering.now.access_log) }
    ensures idle { IfOk result (λ board. board.limits.idle_seconds ≡ answering.now.idle) }
    ensures max_body { IfOk result (λ board. board.limits.body_bytes ≡ answering.now.max_body) }
    ensures folder { IfOk result (λ board. option_map string_bytes board.desks.rules.folder ≡ (answering_view answering.now).log) }
    ensures documents { IfOk result (λ board. map string_bytes board.desks.rules.documents.items ≡ (answering_view answering.now).documents) }
    ensures applied_to { IfOk result (λ board. option_map string_bytes board.desks.rules.applied_to ≡ applied_to (answering_view answering.now)) }
{
    let origins = copied(alloc, answering.cors.as_slice())?;
    let memory = SharedMemory::new(memory_of(alloc, keys, answering.remember)?);
    let paths = paths_served(answering.admin);
    let lines = lines_of(alloc, answering.access_log);
    let board = Board::new(
        answering.without_record,
        memory,
        form_of(answering.log_points),
        origins,
        clients,
        paths,
        lines,
        ConnectionLimits {
            idle_seconds: answering.idle,
            body_bytes: answering.max_body as usize,
        },
        rules_of(alloc, answering)?,
    );
    board.watch_documents(answering.documents.len());
    Ok(board)
}

/// What the desks of operations go by: plans may be applied where that is allowed, to the one document that is answered from.
fn rules_of(alloc: Global, answering: &Answering<'_>) -> Result<DeskRules, AllocError>
    ensures folder { IfOk result (λ rules. option_map string_bytes rules.folder ≡ (answering_view answering.now).log) }
    ensures documents { IfOk result (λ rules. map string_bytes rules.documents.items ≡ (answering_view answering.now).documents) }
    ensures applied_to { IfOk result (λ rules. option_map string_bytes rules.applied_to ≡ applied_to (answering_view answering.now)) }
{
    Ok(DeskRules {
        folder: copied_if(alloc, answering.log)?,
        documents: copied(alloc, answering.documents.as_slice())?,
        applied_to: copied_if(alloc, applied_to(answering))?,
    })
}

/// The path of the document to which plans may be applied, where they may be: it is a file, and the only one.
fn applied_to<'a>(answering: &Answering<'a>) -> Option<&'a str>
    ensures { option_copied result ≡ applied_to (answering_view answering.now) }
{
    match answering.documents.as_slice() {
        [path] if answering.allow_apply && *path != "-" => Some(path),
        _ => None,
    }
}

/// A copy of a text, where there is one.
fn copied_if(alloc: Global, text: Option<&str>) -> Result<Option<String>, AllocError>
    ensures { IfOk result (λ copy. option_map string_bytes copy ≡ option_copied text.entry) }
{
    match text {
        Some(text) => Ok(Some(String::from_str(alloc, text)?)),
        None => Ok(None),
    }
}

/// Shows that the snapshot of this number was published, from documents that are accepted now.
pub(crate) fn show_published<R: Clock>(rt: &R, board: &Board, number: u64) {
    board.publish(number);
    board.accept_document(second_of(rt));
}

/// The second since 1970: 0 where the clock can't be read or is set before.
fn second_of<R: Clock>(rt: &R) -> u64 {
    let Ok(now) = SystemTime::now(rt) else {
        return 0;
    };
    match now.duration_since(UNIX_EPOCH) {
        Ok(since) => since.as_secs(),
        Err(_) => 0,
    }
}

/// Where the lines of requests wait, where they are wanted.
fn lines_of(alloc: Global, access_log: bool) -> Option<AccessLines>
    ensures { is_some result ≡ access_log }
{
    if access_log {
        Some(AccessLines::new(alloc))
    } else {
        None
    }
}

/// What the lines of the logs have of the inputs.
fn form_of(log_points: bool) -> NoteForm
    ensures { result ≡ form_of log_points }
{
    if log_points {
        NoteForm::Hash
    } else {
        NoteForm::Input
    }
}

/// What the workers serve: the evaluations alone, where operations have an address of their own.
fn paths_served(admin: Option<&str>) -> Paths
    ensures { result ≡ paths_served (option_copied admin.entry) }
{
    match admin {
        Some(_) => Paths::Evaluations,
        None => Paths::All,
    }
}

/// Copies of texts.
#[tactic(auto, using(crate::proofs::Copied::one_more))]
fn copied(alloc: Global, texts: &[&str]) -> Result<Vec<String>, AllocError>
    ensures { IfOk result (λ copies. map string_bytes copies.items ≡ map (λ t. t.now) texts.now) }
{
    let mut copies = Vec::new(alloc);
    for text in texts {
        copies.push(String::from_str(alloc, text)?)?;
    }
    Ok(copies)
}
