//! The texts of a list of texts, where they lie.
ghost use Rattle.std.specs.Prelude.{◌≡◌, ◌<◌, ◌≤◌, ℕ, List, ◌∷◌, false, length, None, Some, Ok, IfOk, MatchOption};
ghost use Rattle.std.specs.Bool.{OnTrue, OnFalse};
ghost use Rattle.std.specs.Str.{is_utf8};
ghost use Rattle.json.specs.Json.{value, items, no_items};
ghost use Rattle.json.specs.Lex.{tokens};
ghost use Rattle.json.specs.Token.{Token as SpecToken};
ghost use Rattle.rule_text.specs.Texts.{AreTexts, AreTokensOf, texts_then, texts_view};

use json::{Reader, Scratch, Token};
use simdutf8::basic;
use std::alloc::{AllocError, Global};

/// Reads a JSON list of texts, such as a key file, of at most `max` bytes; `None` for anything else. The texts borrow from `bytes`,
/// or from `scratch` if they have escapes. More bytes, and bytes that are no UTF-8, take no memory. Cost: a pass over the bytes for
/// their encoding, one over the tokens, and 16 bytes for each text.
pub fn read_texts<'a>(
    alloc: Global,
    bytes: &'a [u8],
    max: usize,
    scratch: &'a mut Scratch,
) -> Result<Option<Vec<&'a str>>, AllocError>
    ensures exact { IfOk result (λ o. MatchOption o ((texts : List (List ℕ)) → ¬ (AreTexts bytes.now max texts)) (λ v. AreTexts bytes.now max (texts_view v.items))) }
    ensures large { max < length bytes.now → result ≡ Ok None }
    ensures no_text { length bytes.now ≤ max → is_utf8 bytes.now ≡ false → result ≡ Ok None }
{
    if bytes.len() > max {
        return Ok(None);
    }
    match basic::from_utf8(bytes) {
        Ok(text) => texts_in(alloc, text, scratch),
        Err(_) => Ok(None),
    }
}

/// The texts of a JSON text that is a list of texts, none of any other.
fn texts_in<'a>(
    alloc: Global,
    text: &'a str,
    scratch: &'a mut Scratch,
) -> Result<Option<Vec<&'a str>>, AllocError>
    ensures { IfOk result (λ o. MatchOption o ((texts : List (List ℕ)) → ¬ (AreTokensOf texts (tokens text.now))) (λ v. AreTokensOf (texts_view v.items) (tokens text.now))) }
{
    let mut reader = Reader::new(text, scratch)?;
    if !begins_list(&mut reader) {
        return Ok(None);
    }
    let found = texts(alloc, &mut reader)?;
    if reader.next().is_some() {
        return Ok(None);
    }
    Ok(found)
}

/// Takes the next token, and says whether a list begins with it.
fn begins_list(reader: &mut Reader<'_>) -> bool
    ensures begins { OnTrue result (reader.old ≡ SpecToken.begin_array ∷ reader.new) }
    ensures other { OnFalse result ((rest : List SpecToken) → ¬ (reader.old ≡ SpecToken.begin_array ∷ rest)) }
{
    let Some(token) = reader.next() else {
        return false;
    };
    match token {
        Token::BeginArray => true,
        Token::BeginObject
        | Token::EndObject
        | Token::EndArray
        | Token::Key(_)
        | Token::String(_)
        | Token::Number(_)
        | Token::Bool(_)
        | Token::Null
        | Token::Bad => false,
    }
}

/// Texts, and the end of their list; none where anything else comes first.
fn texts<'a>(alloc: Global, reader: &mut Reader<'a>) -> Result<Option<Vec<&'a str>>, AllocError>
    ensures { IfOk result (λ o. MatchOption o ((texts : List (List ℕ)) (rest : List SpecToken) → ¬ (items (value 126) (length reader.old) reader.old ≡ Some (texts_then texts no_items, rest)))
        (λ v. items (value 126) (length reader.old) reader.old ≡ Some (texts_then (texts_view v.items) no_items, reader.new))) }
{
    let mut found = Vec::new(alloc);
    'texts: while !reader.take_end_array() {
        match next_text(reader) {
            Some(text) => found.push(text)?,
            None => return Ok(None),
        }
    }
    Ok(Some(found))
}

/// The next token, where it is a text.
fn next_text<'a>(reader: &mut Reader<'a>) -> Option<&'a str>
    ensures { MatchOption result ((s : List ℕ) (rest : List SpecToken) → ¬ (reader.old ≡ SpecToken.string s ∷ rest)) (λ s. reader.old ≡ SpecToken.string s.now ∷ reader.new) }
{
    match reader.next()? {
        Token::String(text) => Some(text),
        Token::BeginObject
        | Token::EndObject
        | Token::BeginArray
        | Token::EndArray
        | Token::Key(_)
        | Token::Number(_)
        | Token::Bool(_)
        | Token::Null
        | Token::Bad => None,
    }
}
