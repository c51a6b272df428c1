//! What is asked of a seat is read, up to the first refusal.
ghost use Rattle.std.specs.Prelude.{◌≡◌, ◌<◌, ◌≤◌, ◌^◌, true, false, length, option_copied, None, Ok, IfOk, IfSome, IsErrOf};
ghost use Rattle.std.specs.Str.{is_utf8};
ghost use Rattle.flag_text.specs.Outcome.{GivesUnless};
ghost use Rattle.flag_text.specs.Shape.{is_whole};
ghost use Rattle.flag_text.specs.View.{view};
ghost use Rattle.library_seat.specs.Early.{early_refusal, text_refusal};
ghost use Rattle.library_seat.specs.Question.{context_of, default_of, key_of, kind_of, max_text, moment_of, question_of};
ghost use Rattle.library_seat.specs.View.{asked_view, context_view, question_view};
ghost use Rattle.library_seat.specs.declared.refusal.Refusal.TheVariants as refusal;

use crate::asked::{Asked, Question, ReadContext};
use crate::refusal::Refusal;
use crate::workspace::Workspace;
use flag_resolve::Kind;
use flag_text::Tree;
use limits::LATEST_MOMENT;
use std::alloc::Global;

/// Reads what is asked. The refusals come in the order of the kind, the key, the moment and the default.
pub(crate) fn question_of<'a>(
    alloc: Global,
    asked: &Asked<'a>,
    workspace: &mut Workspace,
) -> Result<Question<'a>, Refusal>
    ensures exact { GivesUnless refusal.WantOfMemory question_view result (question_of (asked_view asked.now)) }
    ensures key { IfOk result (λ q. q.key.now ≡ asked.now.key.now) }
    ensures early { IfSome (early_refusal (asked_view asked.now)) (λ e. IsErrOf result e) }
{
    let Some(kind) = kind_of(asked.kind) else {
        return Err(Refusal::Kind);
    };
    let Some(key) = key_of(asked.key) else {
        return Err(Refusal::Key);
    };
    let Some(moment) = moment_of(asked.moment) else {
        return Err(Refusal::Moment);
    };
    match default_of(alloc, asked.default, workspace) {
        Ok(default) => Ok(Question {
            key,
            kind,
            default,
            moment,
        }),
        Err(refusal) => Err(refusal),
    }
}

/// The kind of a number.
fn kind_of(number: u32) -> Option<Kind>
    ensures { result ≡ kind_of number }
{
    match number {
        0 => Some(Kind::Bool),
        1 => Some(Kind::Text),
        2 => Some(Kind::Whole),
        3 => Some(Kind::Object),
        4 => Some(Kind::Float),
        _ => None,
    }
}

/// The key of some bytes, where they are a text.
fn key_of(bytes: &[u8]) -> Option<&str>
    ensures exact { option_copied result ≡ key_of bytes.now }
    ensures same { IfSome result (λ key. key.now ≡ bytes.now) }
{
    match str::from_utf8(bytes) {
        Ok(text) => Some(text),
        Err(_) => None,
    }
}

/// A moment, where it is none too late.
fn moment_of(moment: u64) -> Option<u64>
    ensures exact { result ≡ moment_of moment }
    ensures small { IfSome result (λ m. m < 2 ^ 53) }
{
    if moment <= LATEST_MOMENT {
        Some(moment)
    } else {
        None
    }
}

/// The default that some bytes stand for.
fn default_of(alloc: Global, bytes: &[u8], workspace: &mut Workspace) -> Result<Tree, Refusal>
    ensures exact { GivesUnless refusal.WantOfMemory view result (default_of bytes.now) }
    ensures whole { IfOk result (λ t. is_whole (view t) ≡ true) }
    ensures early { IfSome (text_refusal bytes.now) (λ e. IsErrOf result (refusal.Default e)) }
{
    if let Some(tree) = truth_of(bytes) {
        return Ok(tree);
    }
    match workspace.read_tree(alloc, bytes) {
        Ok(tree) => Ok(tree),
        Err(fault) => Err(Refusal::of_default(fault)),
    }
}

/// The truth value that some bytes are the name of: most defaults are one, and it needs no reading.
fn truth_of(bytes: &[u8]) -> Option<Tree>
    ensures exact { IfSome result (λ t. default_of bytes.now ≡ Ok (view t)) }
    ensures whole { IfSome result (λ t. is_whole (view t) ≡ true) }
    ensures early { IfSome result (λ _. text_refusal bytes.now ≡ None) }
{
    if bytes == b"false".as_slice() {
        return Some(Tree::Bool(false));
    }
    if bytes == b"true".as_slice() {
        return Some(Tree::Bool(true));
    }
    None
}

/// The context that some bytes stand for.
pub(crate) fn context_of(
    alloc: Global,
    bytes: &[u8],
    workspace: &mut Workspace,
) -> Result<ReadContext, Refusal>
    ensures exact { GivesUnless refusal.WantOfMemory context_view result (context_of bytes.now) }
    ensures early { IfSome (text_refusal bytes.now) (λ e. IsErrOf result (refusal.Context e)) }
{
    match workspace.read_sent_tree(alloc, bytes) {
        Ok(tree) => Ok(ReadContext { tree }),
        Err(fault) => Err(Refusal::of_context(fault)),
    }
}
