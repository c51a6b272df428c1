//! Flags that a later version loses, though its text has their keys.
ghost use Rattle.std.specs.Prelude.{◌≡◌, IfOk, option_copied, option_map, string_bytes};
ghost use Rattle.flag_defs.specs.Flags.{flags_view};
ghost use Rattle.json.specs.Lex.{tokens};
ghost use Rattle.json.specs.Reads.{token_of};
ghost use Rattle.flag_doubts.specs.Regression.{first_lost, is_lost, lost_name, names_in};

use flag_defs::Flags;
use json::{Reader, Scratch, Token};
use simdutf8::basic;
use std::alloc::{AllocError, Global};

/// The first name of a member in the text, in the order of the text, that is the key of a flag now and of none later.
pub(crate) fn first_lost(
    alloc: Global,
    current: &Flags,
    later: &Flags,
    text: &[u8],
) -> Result<Option<String>, AllocError>
    ensures { IfOk result (λ o. option_map string_bytes o ≡ first_lost (flags_view current.now) (flags_view later.now) (names_in text.now)) }
{
    match basic::from_utf8(text) {
        Ok(text) => lost_in(alloc, current, later, text),
        Err(_) => Ok(None),
    }
}

fn lost_in(
    alloc: Global,
    current: &Flags,
    later: &Flags,
    text: &str,
) -> Result<Option<String>, AllocError>
    ensures { IfOk result (λ o. option_map string_bytes o ≡ first_lost (flags_view current.now) (flags_view later.now) (tokens text.now)) }
{
    let mut scratch = Scratch::new(alloc);
    let mut reader = Reader::new(text, &mut scratch)?;
    lost_among(alloc, current, later, &mut reader)
}

/// The same of the tokens that are left.
fn lost_among(
    alloc: Global,
    current: &Flags,
    later: &Flags,
    reader: &mut Reader<'_>,
) -> Result<Option<String>, AllocError>
    ensures { IfOk result (λ o. option_map string_bytes o ≡ first_lost (flags_view current.now) (flags_view later.now) reader.old) }
{
    'tokens: while let Some(token) = reader.next() {
        if let Some(name) = lost_name(current, later, token) {
            return Ok(Some(String::from_str(alloc, name)?));
        }
    }
    Ok(None)
}

/// The name that a token is of, where it is the key of a flag that is lost.
fn lost_name<'a>(current: &Flags, later: &Flags, token: Token<'a>) -> Option<&'a str>
    ensures { option_copied result ≡ lost_name (flags_view current.now) (flags_view later.now) (token_of token.entry) }
{
    match token {
        Token::Key(name) if is_lost(current, later, name) => Some(name),
        _ => None,
    }
}

/// Whether there is a flag of this key now, and none later.
fn is_lost(current: &Flags, later: &Flags, key: &str) -> bool
    ensures { result ≡ is_lost (flags_view current.now) (flags_view later.now) key.now }
{
    current.get(key).is_some() && later.get(key).is_none()
}
