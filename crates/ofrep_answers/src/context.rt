//! From the body of a request to the evaluation context that it carries.
ghost use Rattle.std.specs.Prelude.{◌≡◌, ◌<◌, ◌≤◌, ◌↔◌, true, false, length, Ok, Some, IfOk, IfSome, IsOk, IsErrOf, option_map};
ghost use Rattle.std.specs.Str.{is_utf8};
ghost use Rattle.flag_text.specs.Outcome.{GivesUnless, seen_as};
ghost use Rattle.flag_text.specs.Readers.{find_member};
ghost use Rattle.flag_text.specs.Shape.{is_tidy, members_are_tidy};
ghost use Rattle.flag_text.specs.View.{view, members_view};
ghost use Rattle.ofrep_answers.specs.Context.{body_context, context_as, context_of, max_body, no_json};
ghost use Rattle.ofrep_answers.specs.Context as spec;

use crate::deep::is_too_deep;
use crate::fault::ContextFault;
use flag_text::{TextFault, Tree, position_of};
use json::Scratch;
use spelled_numbers::{read_sent_with, shallow, without_spelling};
use std::alloc::Global;

/// The most bytes of a request's body.
pub const MAX_BODY: usize = limits::TEXT_BYTES;

/// The evaluation context that the body of a request carries: the object that is its member `context`. Where that is absent or
/// null, or the body is empty, it is the empty object. The body's other members are passed over. A number whose value is whole and in
/// range is that whole number however it is spelled; any other is in nobody's way until it is read (`spelled_numbers`).
///
/// Refusals, in this order: `TooLarge`, before anything is read; `BodyTooDeep`; `NotJson`; `BodyNotObject`; `NotObject`; `TooDeep`. The
/// first, the third of bytes that are not UTF-8, and the context of an empty body take no memory.
pub fn read_context(alloc: Global, body: &[u8]) -> Result<Tree, ContextFault>
    ensures exact { GivesUnless ContextFault.WantOfMemory view result (context_of body.now) }
    ensures tidy { IfOk result (λ t. is_tidy (view t) ≡ true) }
    ensures empty { length body.now ≡ 0 → IsOk result }
    ensures large { IsErrOf result ContextFault.TooLarge ↔ (max_body < length body.now) }
    ensures no_text { length body.now ≤ max_body → is_utf8 body.now ≡ false → IsErrOf result ContextFault.NotJson }
{
    read_context_with(alloc, body, &mut Scratch::new(alloc))
}

/// As [`read_context`], with room that the caller keeps from body to body. What the room holds makes no difference.
pub fn read_context_with(
    alloc: Global,
    body: &[u8],
    scratch: &mut Scratch,
) -> Result<Tree, ContextFault>
    ensures exact { GivesUnless ContextFault.WantOfMemory view result (context_of body.now) }
    ensures tidy { IfOk result (λ t. is_tidy (view t) ≡ true) }
    ensures empty { length body.now ≡ 0 → IsOk result }
    ensures large { IsErrOf result ContextFault.TooLarge ↔ (max_body < length body.now) }
    ensures no_text { length body.now ≤ max_body → is_utf8 body.now ≡ false → IsErrOf result ContextFault.NotJson }
{
    if body.is_empty() {
        return Ok(Tree::Object(Vec::new(alloc)));
    }
    match read_sent_with(alloc, body, MAX_BODY, scratch) {
        Ok(tree) => body_context(alloc, tree),
        Err(TextFault::NotJson) => Err(no_json(body)),
        Err(fault) => Err(ContextFault::from(fault)),
    }
}

/// Why a body is not read as JSON: it nests too deep, or is no JSON text.
fn no_json(body: &[u8]) -> ContextFault
    ensures { result ≡ no_json body.now }
{
    if is_too_deep(body) {
        ContextFault::BodyTooDeep
    } else {
        ContextFault::NotJson
    }
}

/// The context of a body that was read.
fn body_context(alloc: Global, body: Tree) -> Result<Tree, ContextFault>
    requires { is_tidy (view body) ≡ true }
    ensures exact { seen_as view result ≡ body_context (Ok (view body)) }
    ensures tidy { IfOk result (λ t. is_tidy (view t) ≡ true) }
{
    match without_spelling(body) {
        Tree::Object(members) => context_in(alloc, member_named(members, "context")),
        _ => Err(ContextFault::BodyNotObject),
    }
}

/// The context that the member `context` is.
fn context_in(alloc: Global, context: Option<Tree>) -> Result<Tree, ContextFault>
    requires { IfSome context (λ t. is_tidy (view t) ≡ true) }
    ensures exact { seen_as view result ≡ spec.context_in (option_map view context) }
    ensures tidy { IfOk result (λ t. is_tidy (view t) ≡ true) }
{
    match context {
        None => Ok(Tree::Object(Vec::new(alloc))),
        Some(context) => context_as(alloc, without_spelling(context)),
    }
}

/// The context that a value is: null is the empty one.
fn context_as(alloc: Global, context: Tree) -> Result<Tree, ContextFault>
    requires { is_tidy (view context) ≡ true }
    ensures exact { seen_as view result ≡ context_as (view context) }
    ensures tidy { IfOk result (λ t. is_tidy (view t) ≡ true) }
{
    match context {
        Tree::Null => Ok(Tree::Object(Vec::new(alloc))),
        Tree::Object(members) => Ok(shallow(Tree::Object(members))?),
        _ => Err(ContextFault::NotObject),
    }
}

/// The member of this name, taken out of the members.
pub(crate) fn member_named(mut members: Vec<(String, Tree)>, name: &str) -> Option<Tree>
    requires { members_are_tidy (members_view members.items) ≡ true }
    ensures value { option_map view result ≡ find_member name.now (members_view members.items) }
    ensures tidy { IfSome result (λ t. is_tidy (view t) ≡ true) }
{
    let place = position_of(members.as_slice(), name)?;
    let (_, member) = members.swap_remove(place);
    Some(member)
}
