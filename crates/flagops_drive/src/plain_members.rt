//! The members of an ask, token by token.
ghost use Rattle.std.specs.Prelude.{◌≡◌, ◌≤◌, ◌<◌, ◌^◌, pos, true, is_some, Some, IfOk, codes};
ghost use Rattle.std.specs.Bool.{OnTrue};
ghost use Rattle.json.specs.Json.{read_key};
ghost use Rattle.flag_text.specs.Readers.{as_object};
ghost use Rattle.flag_text.specs.Shape.{is_whole, levels, text as text_shape, whole};
ghost use Rattle.flag_text.specs.View.{view};
ghost use Rattle.flag_defs.specs.Kind.{word_of};
ghost use Rattle.flagops_drive.specs.Plain.{Comes};

use crate::reading::moment_of;
use crate::unplain::Unplain;
use flag_resolve::Kind;
use flag_text::{JSON_LEVELS, TREE_LEVELS, Tree, read_value};
use json::{Reader, Token};
use std::alloc::Global;

/// How deep a member of an ask nests at most in a JSON text, and in one of whole numbers: the ask and the list of asks are
/// around it.
const MEMBER_JSON_LEVELS: usize = JSON_LEVELS - 2;

const MEMBER_LEVELS: usize = TREE_LEVELS - 2;

/// Takes the next name, and says whether it is this one.
fn comes(reader: &mut Reader<'_>, name: &str) -> bool
    ensures { OnTrue result (read_key reader.old ≡ Some (Some name.now, reader.new)) }
{
    match reader.next_key() {
        Ok(Some(key)) => key == name,
        _ => false,
    }
}

/// Takes the next member, a text of this name.
pub(crate) fn text<'a>(reader: &mut Reader<'a>, name: &str) -> Result<&'a str, Unplain>
    ensures { IfOk result (λ s. Comes name.now reader.old (text_shape s.now) reader.new) }
{
    if !comes(reader, name) {
        return Err(Unplain::Otherwise);
    }
    match reader.next() {
        Some(Token::String(text)) => Ok(text),
        _ => Err(Unplain::Otherwise),
    }
}

/// Takes the next member, of this name.
pub(crate) fn tree(alloc: Global, reader: &mut Reader<'_>, name: &str) -> Result<Tree, Unplain>
    ensures value { IfOk result (λ t. Comes name.now reader.old (view t) reader.new) }
    ensures whole { IfOk result (λ t. is_whole (view t) ≡ true) }
    ensures shallow { IfOk result (λ t. levels (view t) ≤ 118) }
{
    if !comes(reader, name) {
        return Err(Unplain::Otherwise);
    }
    let tree = read_value(alloc, reader, MEMBER_JSON_LEVELS)?;
    if !tree.is_whole() || !tree.fits(MEMBER_LEVELS) {
        return Err(Unplain::Otherwise);
    }
    Ok(tree)
}

/// Takes the next member, the kind of value that is wanted.
pub(crate) fn kind(reader: &mut Reader<'_>) -> Result<Kind, Unplain>
    ensures { IfOk result (λ kind. Comes (codes "want") reader.old (text_shape (word_of kind)) reader.new) }
{
    let word = text(reader, "want")?;
    match Kind::named(word) {
        Some(kind) => Ok(kind),
        None => Err(Unplain::Otherwise),
    }
}

/// Takes the next member, the evaluation context.
pub(crate) fn context(alloc: Global, reader: &mut Reader<'_>) -> Result<Tree, Unplain>
    ensures value { IfOk result (λ t. Comes (codes "context") reader.old (view t) reader.new) }
    ensures object { IfOk result (λ t. is_some (as_object (view t)) ≡ true) }
    ensures whole { IfOk result (λ t. is_whole (view t) ≡ true) }
    ensures shallow { IfOk result (λ t. levels (view t) ≤ 118) }
{
    let context = tree(alloc, reader, "context")?;
    if context.as_object().is_none() {
        return Err(Unplain::Otherwise);
    }
    Ok(context)
}

/// Takes the next member, the moment.
pub(crate) fn moment(alloc: Global, reader: &mut Reader<'_>) -> Result<u64, Unplain>
    ensures value { IfOk result (λ n. Comes (codes "moment") reader.old (whole (pos n)) reader.new) }
    ensures small { IfOk result (λ n. n < 2 ^ 53) }
{
    let moment = tree(alloc, reader, "moment")?;
    match moment_of(&moment) {
        Some(moment) => Ok(moment),
        None => Err(Unplain::Otherwise),
    }
}
