//! The keys of clients.
ghost use Rattle.std.specs.Prelude.{◌≡◌, ◌≢◌, IfErr, IfOk, MatchResult, Err, Ok, not, true};
ghost use Rattle.std.specs.List.{list_all};
ghost use Rattle.std.specs.Str.{bytes_eq};
ghost use Rattle.std.specs.Str.Lines.{lines};
ghost use Rattle.ofrep_guards.specs.Key.{bad_line, bears, is_among, is_bearer, keys_in, keys_of, keys_view};
ghost use Rattle.ofrep_guards.specs.KeyLine.{is_key, is_visible};
ghost use Rattle.ofrep_guards.specs.declared.key.KeyFault.TheVariants.{WantOfMemory};

use crate::keys::Keys;
use std::alloc::{AllocError, Global};
use std::str;
use thiserror::Error;

/// The most bytes of a file of keys.
pub const MOST_KEY_BYTES: usize = 65_536;

/// The fewest bytes of a key.
const SHORTEST: usize = 16;

/// The scheme by which a request shows a key in its field `Authorization`, and the space behind it.
const SCHEME: &[u8] = b"bearer ";

/// Why a file has no keys to use.
#[derive(Clone, Copy, Debug, PartialEq, Eq, Error)]
pub enum KeyFault {
    #[error("out of memory")]
    WantOfMemory,
    /// It is empty.
    #[error("the file is empty")]
    NoKey,
    /// It has more than 65,536 bytes.
    #[error("the file is too large")]
    TooLarge,
    /// A line is no key: it has fewer than 16 bytes, or one that is no visible ASCII. Its place, from 0, where the bytes of the file
    /// are a text.
    #[error("a line is no key")]
    BadKey(Option<usize>),
}

impl From<AllocError> for KeyFault {
    ghost from_gives = { λ _ e. e ≡ WantOfMemory };

    fn from(_fault: AllocError) -> KeyFault {
        KeyFault::WantOfMemory
    }
}

impl Keys {
    /// No key.
    pub(crate) fn none(alloc: Global) -> Keys {
        Keys {
            text: String::new(alloc),
        }
    }

    /// The keys of a file, of which each line is one: at least 16 bytes of visible ASCII. A refusal takes no memory.
    pub fn read(alloc: Global, bytes: &[u8]) -> Result<Keys, KeyFault>
        ensures ok { IfOk result (λ keys. keys_of bytes.now ≡ Ok (keys_view keys)) }
        ensures err { IfErr result (λ fault. fault ≢ WantOfMemory → keys_of bytes.now ≡ Err fault) }
        ensures refused { (fault : KeyFault) → keys_of bytes.now ≡ Err fault → result ≡ Err fault }
    {
        let text = key_text(bytes)?;
        Ok(Keys {
            text: String::from_str(alloc, text)?,
        })
    }

    /// The same keys once more.
    pub(crate) fn copied(&self, alloc: Global) -> Result<Keys, AllocError>
        ensures { IfOk result (λ keys. keys_view keys ≡ keys_view self.now) }
    {
        Ok(Keys {
            text: String::from_str(alloc, self.text.as_str())?,
        })
    }

    /// Whether the value of a field `Authorization` shows one of the keys.
    pub(crate) fn are_borne(&self, value: &[u8]) -> bool
        ensures { result ≡ bears (keys_view self.now) value.now }
    {
        if value.len() < SCHEME.len() {
            return false;
        }
        let (scheme, key) = value.split_at(SCHEME.len());
        is_bearer(scheme) && self.have(key)
    }

    /// Whether this is one of the keys. How long that takes does not tell how much of a key it is.
    pub(crate) fn have(&self, key: &[u8]) -> bool
        ensures { result ≡ is_among (keys_view self.now) key.now }
    {
        self.text
            .as_str()
            .lines()
            .any(|line| is_same(line.as_bytes(), key))
    }
}

/// The text of a file of keys.
fn key_text(bytes: &[u8]) -> Result<&str, KeyFault>
    ensures cases { MatchResult result (λ text. keys_of bytes.now ≡ Ok (lines text.now)) (λ fault. keys_of bytes.now ≡ Err fault) }
    ensures keys { IfOk result (λ text. list_all is_key (lines text.now) ≡ true) }
{
    if bytes.is_empty() {
        return Err(KeyFault::NoKey);
    }
    if bytes.len() > MOST_KEY_BYTES {
        return Err(KeyFault::TooLarge);
    }
    lines_text(bytes)
}

/// The text of lines of which each is a key.
#[tactic(auto, using(crate::proofs::KeyFiles::good, crate::proofs::KeyFiles::bad, crate::proofs::KeyFiles::no_text, crate::proofs::KeyFiles::all_keys))]
fn lines_text(bytes: &[u8]) -> Result<&str, KeyFault>
    ensures cases { MatchResult result (λ text. keys_in bytes.now ≡ Ok (lines text.now)) (λ fault. keys_in bytes.now ≡ Err fault) }
    ensures keys { IfOk result (λ text. list_all is_key (lines text.now) ≡ true) }
{
    let Ok(text) = str::from_utf8(bytes) else {
        return Err(KeyFault::BadKey(None));
    };
    match bad_line(text) {
        Some(at) => Err(KeyFault::BadKey(Some(at))),
        None => Ok(text),
    }
}

/// The place, from 0, of the first line that is no key.
fn bad_line(text: &str) -> Option<usize>
    ensures { result ≡ bad_line (lines text.now) }
{
    text.lines().position(|line| !is_key(line.as_bytes()))
}

fn is_key(line: &[u8]) -> bool
    ensures { result ≡ is_key line.now }
{
    line.len() >= SHORTEST && are_visible(line)
}

fn are_visible(bytes: &[u8]) -> bool
    ensures { result ≡ list_all is_visible bytes.now }
{
    bytes.iter().all(|byte| is_visible(*byte))
}

fn is_visible(byte: u8) -> bool
    ensures { result ≡ is_visible byte }
{
    b' ' < byte && byte < 0x7f
}

/// Whether this is the name of the scheme and a space.
fn is_bearer(scheme: &[u8]) -> bool
    ensures { result ≡ is_bearer scheme.now }
{
    scheme.eq_ignore_ascii_case(SCHEME)
}

/// Whether two texts are the same. All of them is compared, wherever they differ.
fn is_same(one: &[u8], other: &[u8]) -> bool
    ensures { result ≡ bytes_eq one.now other.now }
{
    if one.len() != other.len() {
        return false;
    }
    let mut same = true;
    for i in 0..one.len() {
        same &= one[i] == other[i];
    }
    same
}
