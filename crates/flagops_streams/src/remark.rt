//! What a person is told on the error outlet. It changes no answer. A line of a subscriber that can't be made is left out; why
//! there was a refusal is told in any case, by a fixed sentence where there is no memory to say more.
ghost use Rattle.std.specs.Prelude.{◌≡◌, ◌≢◌, ◌++◌, ◌-◌, false, [], map, option_map, slice_get, unwrap_or, IfErr, IfOk, string_bytes};
ghost use Rattle.flagops_streams.specs.Documents.{texts_of};
ghost use Rattle.flagops_streams.specs.Told.{MayForewarn, MayTell, Says, TellsNobody, TellsReason, TellsReasonAt, TellsText, came_line, forewarning, gone_line, late_line, listening_line, nobody_line, reason_of};
ghost use Rattle.flagops_streams.specs.Why.{IsAboutDocument, IsWhy, document_line, left_line, memory_line, refused_document, sentence_of, source_word, why_lines};

use crate::disconnected::Disconnected;
use crate::refusal::Refusal;
use file_diagnostics::of_document;
use flag_defs::DefFault;
use flag_text::{Outlet, write_whole};
use source_merge::SourceFault;
use std::alloc::{AllocError, Global};
use sync_server::StreamEnd;

/// What a document that is refused leaves.
const PUBLISHED_BEFORE: &str = "  the subscribers have what was published before it\n";

/// Where subscribers may come.
pub(crate) fn say_listening<E: Outlet>(alloc: Global, err: &mut E, port: u16, subscribers: usize)
    ensures line { MayTell (listening_line port subscribers) (E.bytes err.old) (E.bytes err.new) (E.is_broken err.new) }
    ensures stays { E.is_broken err.new ≡ false → E.is_broken err.old ≡ false }
{
    say_made(err, listening_line(alloc, port, subscribers));
}

#[tactic(auto, unfolding(crate::specs::Told::listening_line))]
fn listening_line(alloc: Global, port: u16, subscribers: usize) -> Result<String, AllocError>
    ensures { IfOk result (λ s. string_bytes s ≡ listening_line port subscribers) }
{
    format!(in alloc; "serve: listens on 127.0.0.1:{port}, waits for {subscribers} subscribers\n")
}

/// A subscriber has come.
pub(crate) fn say_came<E: Outlet>(alloc: Global, err: &mut E, number: usize, subscribers: usize)
    ensures line { MayTell (came_line number subscribers) (E.bytes err.old) (E.bytes err.new) (E.is_broken err.new) }
    ensures stays { E.is_broken err.new ≡ false → E.is_broken err.old ≡ false }
{
    say_made(err, came_line(alloc, number, subscribers));
}

#[tactic(auto, unfolding(crate::specs::Told::came_line))]
fn came_line(alloc: Global, number: usize, subscribers: usize) -> Result<String, AllocError>
    ensures { IfOk result (λ s. string_bytes s ≡ came_line number subscribers) }
{
    format!(in alloc; "serve: subscriber {number} of {subscribers} has come\n")
}

/// A subscriber has gone, whose stream ended so.
pub(crate) fn say_gone<E: Outlet>(alloc: Global, err: &mut E, number: usize, gone: Disconnected)
    ensures line { MayTell (gone_line number gone.frames gone.end) (E.bytes err.old) (E.bytes err.new) (E.is_broken err.new) }
    ensures stays { E.is_broken err.new ≡ false → E.is_broken err.old ≡ false }
{
    say_made(err, gone_line(alloc, number, gone.end, gone.frames));
}

#[tactic(auto, unfolding(crate::specs::Told::gone_line))]
fn gone_line(
    alloc: Global,
    number: usize,
    end: StreamEnd,
    snapshots: u64,
) -> Result<String, AllocError>
    ensures { IfOk result (λ s. string_bytes s ≡ gone_line number snapshots end) }
{
    let why = reason(end);
    format!(in alloc; "serve: subscriber {number} has gone after {snapshots} snapshots: {why}\n")
}

/// Why a subscriber's stream ended, for a person.
fn reason(end: StreamEnd) -> &'static str
    ensures { result.now ≡ reason_of end }
{
    match end {
        StreamEnd::Closed => "it was sent the last one",
        StreamEnd::Limit => "it was sent 1000, the most that one subscriber is sent",
        StreamEnd::WriteFault => "it takes no more bytes",
        StreamEnd::ReadSeatFault => "the current snapshot can't be read",
        StreamEnd::WantOfMemory => "memory ran out",
    }
}

/// The path of the document at a place, from 1.
pub(crate) fn path_at<'a>(paths: &[&'a str], place: u64) -> Option<&'a str>
    ensures { option_map (λ path. path.now) result ≡ slice_get (map (λ path. path.now) paths.now) (place - 1) }
{
    paths.get(place.saturating_sub(1) as usize).copied()
}

/// The document at a place, from 1, which was read from the file at a path, will be refused.
pub(crate) fn say_forewarning<E: Outlet>(
    alloc: Global,
    err: &mut E,
    path: &str,
    place: u64,
    text: &[u8],
    fault: DefFault,
)
    ensures line { fault ≢ DefFault.WantOfMemory → MayForewarn path.now place (E.bytes err.old) (E.bytes err.new) (E.is_broken err.new) }
    ensures stays { E.is_broken err.new ≡ false → E.is_broken err.old ≡ false }
{
    if let Ok(why) = of_document(alloc, path, text, fault) {
        say_forewarned(alloc, err, place, why.as_str());
    }
}

/// The same, with the words for why.
fn say_forewarned<E: Outlet>(alloc: Global, err: &mut E, place: u64, why: &str)
    ensures line { MayTell (forewarning place why.now) (E.bytes err.old) (E.bytes err.new) (E.is_broken err.new) }
    ensures stays { E.is_broken err.new ≡ false → E.is_broken err.old ≡ false }
{
    say_made(err, forewarning(alloc, place, why));
}

#[tactic(auto, unfolding(crate::specs::Told::forewarning))]
fn forewarning(alloc: Global, place: u64, why: &str) -> Result<String, AllocError>
    ensures { IfOk result (λ s. string_bytes s ≡ forewarning place why.now) }
{
    format!(in alloc; "serve: document {place} will be refused\n{why}")
}

/// Why documents with these paths and bytes, or no more of them, were published.
pub(crate) fn say_why<E: Outlet>(
    alloc: Global,
    err: &mut E,
    paths: &[&str],
    texts: &[Vec<u8>],
    refusal: Refusal,
)
    ensures told { TellsReasonAt (map (λ path. path.now) paths.now) refusal (E.bytes err.old) (E.bytes err.new) (E.is_broken err.new) }
    ensures stays { E.is_broken err.new ≡ false → E.is_broken err.old ≡ false }
{
    say_lines(err, lines_by(alloc, paths, texts, refusal));
}

/// Why a command was refused.
pub fn say_refused<E: Outlet>(alloc: Global, err: &mut E, refusal: Refusal)
    ensures told { TellsText (E.bytes err.old) (E.bytes err.new) (E.is_broken err.new) }
    ensures why { TellsReason refusal (E.bytes err.old) (E.bytes err.new) (E.is_broken err.new) }
    ensures stays { E.is_broken err.new ≡ false → E.is_broken err.old ≡ false }
{
    say_lines(err, lines_of(alloc, refusal));
}

/// Nobody listens on the port.
pub(crate) fn say_unreachable<E: Outlet>(alloc: Global, err: &mut E, port: u16)
    ensures { TellsNobody port (E.bytes err.old) (E.bytes err.new) (E.is_broken err.new) }
{
    say_lines(err, nobody_line(alloc, port));
}

#[tactic(auto, unfolding(crate::specs::Told::nobody_line))]
fn nobody_line(alloc: Global, port: u16) -> Result<String, AllocError>
    ensures { IfOk result (λ s. string_bytes s ≡ nobody_line port) }
{
    format!(in alloc; "error: nobody listens on 127.0.0.1:{port}; 'flagops serve {port} ..' does\n")
}

/// Nothing came for so many seconds.
pub(crate) fn say_late<E: Outlet>(alloc: Global, err: &mut E, wait: u64)
    ensures { MayTell (late_line wait) (E.bytes err.old) (E.bytes err.new) (E.is_broken err.new) }
{
    say_made(err, late_line(alloc, wait));
}

#[tactic(auto, unfolding(crate::specs::Told::late_line))]
fn late_line(alloc: Global, wait: u64) -> Result<String, AllocError>
    ensures { IfOk result (λ s. string_bytes s ≡ late_line wait) }
{
    format!(in alloc;
        "error: nothing came for {wait} seconds; --wait gives more, and 0 waits for ever\n"
    )
}

/// What a person is told of a refusal, of a document by the path of its file.
#[tactic(auto, using(crate::proofs::Reasons::why_else, crate::proofs::Reasons::why_nowhere, crate::proofs::Reasons::why_there))]
fn lines_by(
    alloc: Global,
    paths: &[&str],
    texts: &[Vec<u8>],
    refusal: Refusal,
) -> Result<String, AllocError>
    ensures { IfOk result (λ s. IsWhy (map (λ path. path.now) paths.now) refusal (string_bytes s)) }
{
    match refused_document(refusal) {
        Some((place, fault)) => match path_at(paths, place) {
            Some(path) => lines_about(alloc, path, text_at(texts, place), fault),
            None => lines_of(alloc, refusal),
        },
        None => lines_of(alloc, refusal),
    }
}

/// The place, from 1, of a document that is refused, and why.
fn refused_document(refusal: Refusal) -> Option<(u64, DefFault)>
    ensures { result ≡ refused_document refusal }
{
    match refusal {
        Refusal::Set(SourceFault::Refused(fault), place) => Some((place, fault)),
        _ => None,
    }
}

/// The bytes of the document at a place, from 1; none where there is no such document.
fn text_at(texts: &[Vec<u8>], place: u64) -> &[u8]
    ensures { result.now ≡ unwrap_or (slice_get (texts_of texts.now) (place - 1)) [] }
{
    match texts.get(place.saturating_sub(1) as usize) {
        Some(text) => text.as_slice(),
        None => b"",
    }
}

/// What a person is told of a document with this path and these bytes, which is refused once others are published.
fn lines_about(
    alloc: Global,
    path: &str,
    text: &[u8],
    fault: DefFault,
) -> Result<String, AllocError>
    ensures { IfOk result (λ s. IsAboutDocument path.now fault (string_bytes s)) }
{
    let mut lines = of_document(alloc, path, text, fault)?;
    lines.push_str(PUBLISHED_BEFORE)?;
    Ok(lines)
}

/// What a person is told of a refusal.
fn lines_of(alloc: Global, refusal: Refusal) -> Result<String, AllocError>
    ensures { IfOk result (λ s. string_bytes s ≡ why_lines refusal) }
{
    match refusal {
        Refusal::Set(fault, place) => document_lines(alloc, fault, place),
        Refusal::Unserved(missed) => format!(in alloc;
            "error: subscribers that were not sent the last snapshot: {missed}\n"
        ),
        _ => {
            let sentence = sentence_of(refusal);
            format!(in alloc; "error: {sentence}\n")
        }
    }
}

/// What a person is told of a document that its source refuses, of which nothing else is known.
fn document_lines(alloc: Global, fault: SourceFault, place: u64) -> Result<String, AllocError>
    ensures { IfOk result (λ s. string_bytes s ≡ document_line place (source_word fault) ++ left_line) }
{
    let mut lines = document_line(alloc, place, source_word(fault))?;
    lines.push_str(PUBLISHED_BEFORE)?;
    Ok(lines)
}

#[tactic(auto, unfolding(crate::specs::Why::document_line))]
fn document_line(alloc: Global, place: u64, why: &str) -> Result<String, AllocError>
    ensures { IfOk result (λ s. string_bytes s ≡ document_line place why.now) }
{
    format!(in alloc;
        "error: the document at place {place} of those to be published is refused: {why}\n"
    )
}

/// Why a source refuses a document: the name of the fault.
fn source_word(fault: SourceFault) -> &'static str
    ensures { result.now ≡ source_word fault }
{
    match fault {
        SourceFault::Refused(fault) => fault.name(),
        other => other.name(),
    }
}

/// The reason of a refusal that needs no more than a sentence.
fn sentence_of(refusal: Refusal) -> &'static str
    ensures { result.now ≡ sentence_of refusal }
{
    match refusal {
        Refusal::Add(_) => "'serve' publishes at most 16 documents",
        Refusal::Unreadable => "a document cannot be read",
        Refusal::Set(_, _) => "a document is refused",
        Refusal::Merged(_) =>
            "the documents together have more than 10,000 flags or are printed in more than 4,194,304 bytes",
        Refusal::Share(_) | Refusal::Publish(_) => "the flags cannot be shared with the threads",
        Refusal::Unbound =>
            "the port is in use, or may not be listened on; choose another, from 1024 on",
        Refusal::NoConnection =>
            "the connection of a subscriber failed as it came, or none has come in time",
        Refusal::NoThread => "the system makes no more threads; serve fewer subscribers",
        Refusal::Unreachable => "nobody listens on the port",
        Refusal::Unserved(_) => "not every subscriber was sent the last snapshot",
        Refusal::Unloaded | Refusal::WantOfMemory => "out of memory",
    }
}

/// Tells a line where it could be made.
fn say_made<E: Outlet>(err: &mut E, line: Result<String, AllocError>)
    ensures says { IfOk line (λ s. Says (E.bytes err.old) (E.bytes err.new) (E.is_broken err.new) (string_bytes s)) }
    ensures none { IfErr line (λ _. E.bytes err.new ≡ E.bytes err.old) }
    ensures stays { E.is_broken err.new ≡ false → E.is_broken err.old ≡ false }
{
    if let Ok(line) = line {
        say(err, line.as_str());
    }
}

/// Tells lines, or where they could not be made a fixed sentence.
pub(crate) fn say_lines<E: Outlet>(err: &mut E, lines: Result<String, AllocError>)
    ensures says { IfOk lines (λ s. Says (E.bytes err.old) (E.bytes err.new) (E.is_broken err.new) (string_bytes s)) }
    ensures sentence { IfErr lines (λ _. Says (E.bytes err.old) (E.bytes err.new) (E.is_broken err.new) memory_line) }
    ensures stays { E.is_broken err.new ≡ false → E.is_broken err.old ≡ false }
{
    match lines {
        Ok(lines) => say(err, lines.as_str()),
        Err(AllocError) => say(err, "error: out of memory\n"),
    }
}

/// Writes a text, or a front of it where the outlet fails.
pub fn say<E: Outlet>(err: &mut E, text: &str)
    ensures says { Says (E.bytes err.old) (E.bytes err.new) (E.is_broken err.new) text.now }
    ensures stays { E.is_broken err.new ≡ false → E.is_broken err.old ≡ false }
{
    write_whole(err, text.as_bytes());
}
