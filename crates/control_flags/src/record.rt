//! The site whose record is asked for.
ghost use Rattle.std.specs.Prelude.{◌≡◌, ◌<◌, length, None, Ok, IfOk, IfSome, option_map, string_bytes};
ghost use Rattle.std.specs.List.{position};
ghost use Rattle.control_flags.specs.Calls.{asked_of, asked_view, is_ampersand, number_in, parts_at, parts_behind, parts_of, parts_view, record_of, text_in};

use book_core::site_of;
use flag_text::{TextFault, read_tree};
use percent_encoding::percent_decode;
use std::alloc::{AllocError, Global};

const FLAG: &[u8] = b"flag=";

const SITE: &[u8] = b"&site=";

/// The most digits of a number that is read.
const MOST_DIGITS: usize = 16;

/// A site of a flag.
#[derive(Debug, Drop)]
pub struct RecordAsked {
    /// The flag's key.
    pub flag: String,
    /// The site's number.
    pub site: u32,
}

/// The site that a query `flag=KEY&site=N` asks for, the escapes of its key decoded; none where the query is no such one. That its
/// parts are others takes no memory.
pub fn record_asked(alloc: Global, query: &str) -> Result<Option<RecordAsked>, AllocError>
    ensures exact { IfOk result (λ asked. option_map asked_view asked ≡ record_of query.now) }
    ensures other { parts_of query.now ≡ None → result ≡ Ok None }
{
    match parts_of(query.as_bytes()) {
        Some((key, digits)) => asked_of(alloc, key, digits),
        None => Ok(None),
    }
}

/// The key and the number of a query, as they are spelled.
fn parts_of(query: &[u8]) -> Option<(&[u8], &[u8])>
    ensures { option_map parts_view result ≡ parts_of query.now }
{
    parts_behind(query.strip_prefix(FLAG)?)
}

/// The same of what stands behind `flag=`. The key ends at the first ampersand.
fn parts_behind(rest: &[u8]) -> Option<(&[u8], &[u8])>
    ensures { option_map parts_view result ≡ parts_behind rest.now }
{
    parts_at(rest, ampersand_at(rest)?)
}

/// The same where the key ends there.
fn parts_at(rest: &[u8], end: usize) -> Option<(&[u8], &[u8])>
    requires { end < length rest.now }
    ensures { option_map parts_view result ≡ parts_at rest.now end }
{
    let (key, behind) = rest.split_at(end);
    let digits = behind.strip_prefix(SITE)?;
    Some((key, digits))
}

/// Where the first ampersand stands.
fn ampersand_at(bytes: &[u8]) -> Option<usize>
    ensures at { result ≡ position is_ampersand bytes.now }
    ensures within { IfSome result (λ at. at < length bytes.now) }
{
    bytes.iter().position(|b| *b == b'&')
}

/// The site that a key and a number ask for.
fn asked_of(alloc: Global, key: &[u8], digits: &[u8]) -> Result<Option<RecordAsked>, AllocError>
    ensures { IfOk result (λ asked. option_map asked_view asked ≡ asked_of key.now digits.now) }
{
    let Some(site) = number_in(alloc, digits)? else {
        return Ok(None);
    };
    let Some(flag) = text_in(alloc, key)? else {
        return Ok(None);
    };
    Ok(Some(RecordAsked { flag, site }))
}

/// The number of 32 bits that digits spell, as JSON does.
fn number_in(alloc: Global, digits: &[u8]) -> Result<Option<u32>, AllocError>
    ensures { IfOk result (λ n. n ≡ number_in digits.now) }
{
    match read_tree(alloc, digits, MOST_DIGITS) {
        Ok(tree) => Ok(site_of(&tree)),
        Err(TextFault::WantOfMemory) => Err(AllocError),
        Err(_) => Ok(None),
    }
}

/// The text that is spelled so, where it is UTF-8.
fn text_in(alloc: Global, spelled: &[u8]) -> Result<Option<String>, AllocError>
    ensures { IfOk result (λ text. option_map string_bytes text ≡ text_in spelled.now) }
{
    let mut bytes = Vec::new(alloc);
    percent_decode(spelled).append_to(&mut bytes)?;
    match String::from_utf8(bytes) {
        Ok(text) => Ok(Some(text)),
        Err(_) => Ok(None),
    }
}
