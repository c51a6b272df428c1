//! The token by which a plan is applied: which document, which plan, which request.
ghost use Rattle.std.specs.Prelude.{◌≡◌, IfOk, IsErrOf, IsUtf8, string_bytes};
ghost use Rattle.control_answers.specs.Token.{FindsMember, ReadsToken, is_tag_of, token_text};
ghost use Rattle.control_answers.specs.declared.refusal.ControlRefusal.TheVariants.{BadToken};

use crate::refusal::ControlRefusal;
use ofrep_requests::{entity_tag, opaque_tag};
use simdutf8::basic;
use std::alloc::{AllocError, Global};
use text_spans::{Step, find};

/// The texts of the members of a token, as they stand there.
#[derive(Clone, Copy)]
pub(crate) struct Token<'a> {
    /// The tag of the document that was planned on, in quotes.
    pub(crate) document: &'a [u8],
    /// The plan file.
    pub(crate) plan: &'a [u8],
    /// The request.
    pub(crate) request: &'a [u8],
}

/// The token of a text. Refusals: `BadToken` where it is no JSON text, or has none of these members.
pub(crate) fn token_in(alloc: Global, bytes: &[u8]) -> Result<Token<'_>, ControlRefusal>
    ensures exact { ReadsToken bytes.now result }
    ensures no_text { ¬ (IsUtf8 bytes.now) → IsErrOf result BadToken }
{
    let Ok(text) = basic::from_utf8(bytes) else {
        return Err(ControlRefusal::BadToken);
    };
    let document = member(alloc, text, "document")?;
    let plan = member(alloc, text, "plan")?;
    let request = member(alloc, text, "request")?;
    Ok(Token {
        document,
        plan,
        request,
    })
}

/// The bytes of a member of an object.
fn member<'a>(alloc: Global, text: &'a str, name: &str) -> Result<&'a [u8], ControlRefusal>
    ensures { FindsMember text.now name.now result }
{
    match find(alloc, text, [Step::Name(name)].as_slice())? {
        Some(span) => Ok(&text.as_bytes()[span.start..span.end]),
        None => Err(ControlRefusal::BadToken),
    }
}

/// Whether this is the tag of a document, in quotes.
pub(crate) fn is_tag_of(alloc: Global, tag: &[u8], document: &str) -> Result<bool, AllocError>
    ensures { IfOk result (λ same. same ≡ is_tag_of tag.now document.now) }
{
    let opaque = opaque_tag(alloc, document.as_bytes())?;
    let own = entity_tag(alloc, opaque.as_str())?;
    Ok(own.as_bytes() == tag)
}

/// The token by which the plan of a request is applied to a document.
pub(crate) fn token_text(
    alloc: Global,
    document: &str,
    request: &[u8],
    plan: &[u8],
) -> Result<Vec<u8>, AllocError>
    ensures { IfOk result (λ v. v.items ≡ token_text document.now request.now plan.now) }
{
    let tag = opaque_tag(alloc, document.as_bytes())?;
    let mut token = Vec::new(alloc);
    token.extend_from_slice("{\"document\":\"".as_bytes())?;
    token.extend_from_slice(tag.as_bytes())?;
    token.extend_from_slice("\",\"plan\":".as_bytes())?;
    token.extend_from_slice(plan)?;
    token.extend_from_slice(",\"request\":".as_bytes())?;
    token.extend_from_slice(request)?;
    token.extend_from_slice("}".as_bytes())?;
    Ok(token)
}
