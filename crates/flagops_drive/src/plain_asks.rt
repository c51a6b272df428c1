//! The asks of a text that is a list of asks in the common form, token by token.
ghost use Rattle.std.specs.Prelude.{◌≡◌, ◌≤◌, ◌<◌, true, length, Some, Ok, Err, IfOk, OnOk};
ghost use Rattle.std.specs.Str.{is_utf8};
ghost use Rattle.json.specs.Json.{value, items};
ghost use Rattle.serde_json.specs.Read.{converted, read};
ghost use Rattle.flag_text.specs.Grammar.{items_from, tree_from};
ghost use Rattle.flag_text.specs.Reading.{if_json, tree_of};
ghost use Rattle.flag_text.specs.Shape.{list};
ghost use Rattle.flagops_drive.specs.Plain.{ask_shape, asks_shape};
ghost use Rattle.flagops_drive.specs.declared.unplain.Unplain.TheVariants.{WantOfMemory};

use crate::plain_ask::PlainAsk;
use crate::plain_members::{context, kind, moment, text, tree};
use crate::unplain::Unplain;
use json::{Reader, Scratch, Token};
use simdutf8::basic;
use std::alloc::Global;

/// The asks of bytes that are a list of asks, each with its members in the order of the documentation. `max` is the most bytes
/// that are read.
pub(crate) fn plain_asks<'a>(
    alloc: Global,
    bytes: &'a [u8],
    max: usize,
    scratch: &'a mut Scratch,
) -> Result<Vec<PlainAsk<'a>>, Unplain>
    ensures value { IfOk result (λ v. tree_of bytes.now max ≡ Ok (list (asks_shape v.items))) }
    ensures want { result ≡ Err WantOfMemory → (length bytes.now ≤ max) × (is_utf8 bytes.now ≡ true) }
{
    if bytes.len() > max {
        return Err(Unplain::Otherwise);
    }
    match basic::from_utf8(bytes) {
        Ok(text) => text_asks(alloc, text, scratch),
        Err(_) => Err(Unplain::Otherwise),
    }
}

/// The asks of a text.
fn text_asks<'a>(
    alloc: Global,
    text: &'a str,
    scratch: &'a mut Scratch,
) -> Result<Vec<PlainAsk<'a>>, Unplain>
    ensures { IfOk result (λ v. if_json (read text.now) ≡ Ok (list (asks_shape v.items))) }
{
    let mut reader = Reader::new(text, scratch)?;
    let Some(Token::BeginArray) = reader.next() else {
        return Err(Unplain::Otherwise);
    };
    let asks = listed_asks(alloc, &mut reader)?;
    if reader.next().is_some() {
        return Err(Unplain::Otherwise);
    }
    Ok(asks)
}

/// Takes asks, and the end of their list.
fn listed_asks<'a>(alloc: Global, reader: &mut Reader<'a>) -> Result<Vec<PlainAsk<'a>>, Unplain>
    ensures { IfOk result (λ v. converted items_from (items (value 126) (length reader.old) reader.old) ≡ Some (asks_shape v.items, reader.new)) }
{
    let mut found = Vec::new(alloc);
    'asks: while !reader.take_end_array() {
        let ask = plain_ask(alloc, reader)?;
        found.push(ask)?;
    }
    Ok(found)
}

/// Takes the next value, an ask.
fn plain_ask<'a>(alloc: Global, reader: &mut Reader<'a>) -> Result<PlainAsk<'a>, Unplain>
    ensures value { IfOk result (λ a. converted tree_from (value 126 reader.old) ≡ Some (ask_shape a, reader.new)) }
    ensures shorter { OnOk result (length reader.new < length reader.old) }
{
    let Some(Token::BeginObject) = reader.next() else {
        return Err(Unplain::Otherwise);
    };
    let key = text(reader, "key")?;
    let want = kind(reader)?;
    let default = tree(alloc, reader, "default")?;
    let context = context(alloc, reader)?;
    let moment = moment(alloc, reader)?;
    let Ok(None) = reader.next_key() else {
        return Err(Unplain::Otherwise);
    };
    Ok(PlainAsk {
        key,
        want,
        default,
        context,
        moment,
    })
}
