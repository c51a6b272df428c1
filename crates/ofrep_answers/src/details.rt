//! What is wrong with a body that has no context.
ghost use Rattle.std.specs.Prelude.{◌≡◌, true, IfOk, Ok, string_bytes, option_map};
ghost use Rattle.flag_text.specs.Shape.{is_tidy};
ghost use Rattle.flag_text.specs.View.{view};
ghost use Rattle.ofrep_answers.specs.Context.{max_body};
ghost use Rattle.ofrep_answers.specs.Way.{deep_at, way_in, way_of};
ghost use Rattle.ofrep_answers.specs.Way as spec;
ghost use Rattle.spelled_numbers.specs.Sent.{sent_of};

use crate::context::{MAX_BODY, member_named};
use crate::fault::ContextFault;
use crate::way::way_to;
use flag_text::{TREE_LEVELS, TextFault, Tree};
use spelled_numbers::read_sent;
use std::alloc::{AllocError, Global};

/// How many levels a context may have.
const MAX_LEVELS: u32 = TREE_LEVELS as u32;

/// What is wrong with a body that has this fault, for people. It reads the body again for the way to what nests too deep.
pub fn details_in(alloc: Global, body: &[u8], fault: ContextFault) -> Result<String, AllocError>
    ensures exact { IfOk result (λ details. string_bytes details ≡ spec.details_in body.now fault) }
{
    match fault {
        ContextFault::TooDeep => details_at(alloc, way_of(alloc, body)?),
        _ => String::from_str(alloc, fault.details()),
    }
}

/// What is wrong in a context that nests too deep: the place, where there is one.
fn details_at(alloc: Global, way: Option<String>) -> Result<String, AllocError>
    ensures { IfOk result (λ details. string_bytes details ≡ spec.details_at (option_map string_bytes way)) }
{
    match way {
        Some(way) => deep_at(alloc, way),
        None => String::from_str(alloc, ContextFault::TooDeep.details()),
    }
}

/// What is wrong at the end of the way.
fn deep_at(alloc: Global, way: String) -> Result<String, AllocError>
    ensures { IfOk result (λ details. string_bytes details ≡ deep_at (string_bytes way)) }
{
    format!(in alloc; "`context{way}` nests deeper than 120 levels")
}

/// The way in the context of a body.
fn way_of(alloc: Global, body: &[u8]) -> Result<Option<String>, AllocError>
    ensures { IfOk result (λ way. option_map string_bytes way ≡ way_of (sent_of body.now max_body)) }
{
    match read_sent(alloc, body, MAX_BODY) {
        Ok(tree) => way_in_body(alloc, tree),
        Err(TextFault::WantOfMemory) => Err(AllocError),
        Err(_) => Ok(None),
    }
}

/// The way in the context of a body that was read.
fn way_in_body(alloc: Global, body: Tree) -> Result<Option<String>, AllocError>
    requires { is_tidy (view body) ≡ true }
    ensures { IfOk result (λ way. option_map string_bytes way ≡ way_of (Ok (view body))) }
{
    match body {
        Tree::Object(members) => way_in(alloc, member_named(members, "context")),
        _ => Ok(None),
    }
}

/// The way in the member `context`.
fn way_in(alloc: Global, context: Option<Tree>) -> Result<Option<String>, AllocError>
    ensures { IfOk result (λ way. option_map string_bytes way ≡ way_in (option_map view context)) }
{
    match context {
        Some(context) => way_to(alloc, MAX_LEVELS, &context),
        None => Ok(None),
    }
}
