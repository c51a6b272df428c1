//! From the bytes of a document with floats to its tree.
ghost use Rattle.std.specs.Prelude.{◌≡◌, ◌<◌, ◌≤◌, ◌↔◌, true, false, length, map, IfOk, IsErrOf};
ghost use Rattle.std.specs.Str.{IsUtf8, is_utf8};
ghost use Rattle.json.specs.Lex.{tokens};
ghost use Rattle.json.specs.Tree.{HasNumbers, depth, json_tokens};
ghost use Rattle.json.specs.Value.{value_view};
ghost use Rattle.flag_text.specs.Grammar.{value_in};
ghost use Rattle.flag_text.specs.Outcome.{GivesUnless};
ghost use Rattle.flag_text.specs.Reading.{json_levels};
ghost use Rattle.flag_text.specs.Shape.{is_tidy};
ghost use Rattle.flag_text.specs.View.{view};
ghost use Rattle.spelled_numbers.specs.Floats.{with_texts};
ghost use Rattle.spelled_numbers.specs.Marks.{marks_of_text};
ghost use Rattle.spelled_numbers.specs.Reading.{doc_with_floats, if_value, text_with_floats};
ghost use Rattle.spelled_numbers.specs.View.{mark_view, tree_view};

use crate::marks::{Mark, marks_in};
use crate::texts::{Level, write_object};
use flag_text::{JSON_LEVELS, TextFault, Tree, read_doc};
use json::{Error, Reader, Scratch, Value, Writer};
use simdutf8::basic;
use std::alloc::{AllocError, Global};

/// A document as it is read with floats.
#[derive(Drop)]
pub struct Document {
    /// The tree, in which the values of variants with floats are texts.
    pub tree: Tree,
    /// Each flag's key, and whether its variants have floats, in the order of the text. Of flags of one key the last counts.
    pub marks: Vec<Mark>,
}

/// The document that the bytes stand for, as `flag_text::read_doc` reads them, where the values of variants that have numbers which
/// are not whole stand as the texts that they are spelled by. `max` is the most bytes that are read.
///
/// Refusals, in this order: `TooLarge`, before anything is read; `NotJson`. The first, and the second of bytes that are not UTF-8,
/// take no memory.
pub fn read_with_floats(alloc: Global, bytes: &[u8], max: usize) -> Result<Document, TextFault>
    ensures exact { GivesUnless TextFault.WantOfMemory tree_view result (doc_with_floats bytes.now max) }
    ensures marks { IfOk result (λ d. map mark_view d.marks.items ≡ marks_of_text bytes.now) }
    ensures tidy { IfOk result (λ d. is_tidy (view d.tree) ≡ true) }
    ensures large { IsErrOf result TextFault.TooLarge ↔ (max < length bytes.now) }
    ensures no_text { length bytes.now ≤ max → is_utf8 bytes.now ≡ false → IsErrOf result TextFault.NotJson }
{
    if bytes.len() > max {
        return Err(TextFault::TooLarge);
    }
    match basic::from_utf8(bytes) {
        Ok(text) => text_document(alloc, text),
        Err(_) => Err(TextFault::NotJson),
    }
}

/// The document that a text is.
fn text_document(alloc: Global, text: &str) -> Result<Document, TextFault>
    ensures exact { GivesUnless TextFault.WantOfMemory tree_view result (text_with_floats text.now) }
    ensures marks { IfOk result (λ d. map mark_view d.marks.items ≡ marks_of_text text.now) }
    ensures tidy { IfOk result (λ d. is_tidy (view d.tree) ≡ true) }
{
    let mut scratch = Scratch::new(alloc);
    let value = value_in(alloc, text, &mut scratch)?;
    let marks = marks_in(alloc, &value)?;
    let bytes = with_texts(alloc, &value)?;
    let tree = read_doc(alloc, bytes.as_slice(), usize::MAX)?;
    Ok(Document { tree, marks })
}

/// The value that a text is.
fn value_in<'a>(
    alloc: Global,
    text: &'a str,
    scratch: &'a mut Scratch,
) -> Result<Value<'a>, TextFault>
    ensures exact { GivesUnless TextFault.WantOfMemory value_view result (if_value (value_in text.now)) }
    ensures numbers { IfOk result (λ v. HasNumbers (value_view v)) }
    ensures nests { IfOk result (λ v. depth (value_view v) ≤ json_levels) }
{
    let mut reader = Reader::new(text, scratch)?;
    let value = match Value::read(alloc, &mut reader, JSON_LEVELS) {
        Ok(value) => value,
        Err(Error::OutOfMemory) => return Err(TextFault::WantOfMemory),
        Err(_) => return Err(TextFault::NotJson),
    };
    if reader.next().is_some() {
        return Err(TextFault::NotJson);
    }
    Ok(value)
}

/// The text of a document with the values of variants that have floats as texts.
fn with_texts(alloc: Global, value: &Value<'_>) -> Result<Vec<u8>, AllocError>
    requires { HasNumbers (value_view value.now) }
    ensures tokens { IfOk result (λ b. tokens b.items ≡ json_tokens (with_texts (value_view value.now))) }
    ensures utf8 { IfOk result (λ b. IsUtf8 b.items) }
{
    let mut writer = Writer::new(Vec::with_capacity(alloc, 128)?);
    write_object(alloc, &mut writer, Level::Document, value)?;
    Ok(writer.into_inner())
}
