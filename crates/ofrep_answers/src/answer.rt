//! What a request is answered.
ghost use Rattle.std.specs.Prelude.{◌≡◌, ◌++◌, filter, map, option_copied, OnOk};
ghost use Rattle.logic_eval.specs.Views.{reach_view};
ghost use Rattle.ofrep_answers.specs.Answer.{answer_view, bare, body_view, bytes_of, media_type, reached_view};
ghost use Rattle.ofrep_answers.specs.Answer as spec;
ghost use Rattle.ofrep_answers.specs.Evaluation.{is_noted, reached_at};

use crate::reasons::Reasons;
use http::StatusCode;
use limits::INPUT_BYTES;
use logic_eval::Reached;
use std::alloc::{AllocError, Global};

/// The body of an answer.
#[derive(Drop)]
pub enum Content {
    /// No body.
    Nothing,
    /// A plain text.
    Plain(&'static str),
    /// A JSON text that is always the same.
    Fixed(&'static str),
    /// A JSON text.
    Json(Vec<u8>),
    /// What the service counts, which its owner writes.
    Counts,
}

/// The sites that the evaluation of a flag reached by hash inputs of which there may be a note, in their order.
#[derive(Drop)]
pub struct FlagReached {
    /// The key of the flag.
    pub flag: String,
    /// The sites, of which there are some.
    pub reached: Vec<Reached>,
}

/// What a request is answered.
#[derive(Drop)]
pub struct Answer {
    /// The status.
    pub status: StatusCode,
    /// The methods that the path takes, for the field `Allow`.
    pub allow: Option<&'static str>,
    /// The entity tag of the body, for the field `ETag`.
    pub tag: Option<String>,
    /// The body.
    pub content: Content,
    /// What the evaluations reached by inputs of which there may be a note, by flag.
    pub reached: Vec<FlagReached>,
    /// How they ended, and how many inputs are too long for a note.
    pub reasons: Reasons,
}

impl Content {
    /// The media type of the body, for the field `Content-Type`.
    pub fn media_type(&self) -> Option<&'static str>
        ensures exact { option_copied result ≡ media_type (body_view self.now) }
    {
        match self {
            Content::Nothing => None,
            Content::Plain(_) => Some("text/plain; charset=utf-8"),
            Content::Fixed(_) => Some("application/json"),
            Content::Json(_) => Some("application/json"),
            Content::Counts => Some("text/plain; version=0.0.4"),
        }
    }

    /// The bytes of the body: none where there is no body, and where the owner of what the service counts writes them.
    pub fn as_bytes(&self) -> &[u8]
        ensures exact { result.now ≡ bytes_of (body_view self.now) }
    {
        match self {
            Content::Nothing | Content::Counts => "".as_bytes(),
            Content::Plain(text) => text.as_bytes(),
            Content::Fixed(text) => text.as_bytes(),
            Content::Json(text) => text.as_slice(),
        }
    }
}

impl Answer {
    /// An answer without an evaluation.
    pub(crate) fn bare(alloc: Global, status: StatusCode, content: Content) -> Answer
        ensures { answer_view result ≡ bare status (body_view content) }
    {
        Answer {
            status,
            allow: None,
            tag: None,
            content,
            reached: Vec::new(alloc),
            reasons: Reasons::none(),
        }
    }

    /// The answer at a path that nothing is served at.
    pub(crate) fn nothing_here(alloc: Global) -> Answer
        ensures { answer_view result ≡ spec.nothing_here }
    {
        let text = r#"{"errorDetails":"nothing is served at this path"}"#;
        Answer::bare(alloc, StatusCode::NOT_FOUND, Content::Fixed(text))
    }

    /// The answer to a body of too many bytes.
    pub(crate) fn too_large(alloc: Global) -> Answer
        ensures { answer_view result ≡ spec.too_large }
    {
        let text = r#"{"errorDetails":"the body is too large"}"#;
        Answer::bare(alloc, StatusCode::PAYLOAD_TOO_LARGE, Content::Fixed(text))
    }

    /// The answer at a path that takes these methods and no other.
    pub(crate) fn not_allowed(alloc: Global, methods: &'static str) -> Answer
        ensures { answer_view result ≡ spec.not_allowed methods.now }
    {
        Answer {
            status: StatusCode::METHOD_NOT_ALLOWED,
            allow: Some(methods),
            tag: None,
            content: Content::Fixed(r#"{"errorDetails":"this path takes another method"}"#),
            reached: Vec::new(alloc),
            reasons: Reasons::none(),
        }
    }
}

/// Whether a note may have the hash input of a site.
pub(crate) fn is_noted(site: &Reached) -> bool
    ensures { result ≡ is_noted (reach_view site.now) }
{
    site.input.len() <= INPUT_BYTES
}

/// The sites that were reached by an input of which there may be a note. What no note may have is held no longer, however long it is.
fn noted(mut reached: Vec<Reached>) -> Vec<Reached>
    ensures { map reach_view result.items ≡ filter is_noted (map reach_view reached.items) }
{
    reached.retain(|site| is_noted(site));
    reached
}

/// Adds the sites that the evaluation of a flag reached by an input of which there may be a note, where there are some.
#[tactic(auto, using(crate::proofs::Reached::kept, crate::proofs::Reached::added))]
pub(crate) fn push_reached(
    alloc: Global,
    all: &mut Vec<FlagReached>,
    key: &str,
    reached: Vec<Reached>,
) -> Result<(), AllocError>
    ensures ok { OnOk result (map reached_view all.new.items ≡ map reached_view all.old.items ++ reached_at key.now (map reach_view reached.items)) }
{
    let noted = noted(reached);
    if noted.is_empty() {
        return Ok(());
    }
    let flag = String::from_str(alloc, key)?;
    all.push(FlagReached {
        flag,
        reached: noted,
    })?;
    Ok(())
}
