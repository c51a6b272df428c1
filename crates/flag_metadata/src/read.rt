//! From the bytes of a document to its metadata.
ghost use Rattle.std.specs.Prelude.{◌≡◌, ◌++◌, ◌∷◌, [], IfOk, None, OnOk, Some, if◌then◌else◌, is_none, map, string_bytes, option_map};
ghost use Rattle.json.specs.Value.{members_view, value_view};
ghost use Rattle.flag_text.specs.Grammar.{value_in};
ghost use Rattle.flag_metadata.specs.Document.{broken_flags, broken_in, broken_of, by_key, described, document_of, each_flag, entries_in, flags_among, flags_in, if_broken, if_described, own_entries, with_flag};
ghost use Rattle.flag_metadata.specs.View.{broken_view, document_view, entries_view, flags_view};

use crate::document::{Broken, DocumentMetadata};
use crate::member::{Member, own_members};
use flag_text::JSON_LEVELS;
use json::{Error, Reader, Scratch, Value};
use simdutf8::basic;
use std::alloc::{AllocError, Global};
use std::collections::BTreeMap;

/// The metadata of the document that the bytes are, and which of it is broken.
pub(crate) fn read_metadata(
    alloc: Global,
    bytes: &[u8],
) -> Result<(DocumentMetadata, Broken), AllocError>
    ensures members { IfOk result (λ r. document_view r.0 ≡ document_of bytes.now) }
    ensures broken { IfOk result (λ r. broken_view r.1 ≡ broken_of bytes.now) }
{
    match basic::from_utf8(bytes) {
        Ok(text) => of_text(alloc, text),
        Err(_) => Ok(nothing(alloc)),
    }
}

/// No metadata.
fn nothing(alloc: Global) -> (DocumentMetadata, Broken)
    ensures members { document_view result.0 ≡ if_described None }
    ensures broken { broken_view result.1 ≡ if_broken None }
{
    let metadata = DocumentMetadata {
        document: Vec::new(alloc),
        flags: BTreeMap::new(alloc),
    };
    let broken = Broken {
        document: false,
        flags: Vec::new(alloc),
    };
    (metadata, broken)
}

/// The metadata of the document that a text is.
fn of_text(alloc: Global, text: &str) -> Result<(DocumentMetadata, Broken), AllocError>
    ensures members { IfOk result (λ r. document_view r.0 ≡ if_described (value_in text.now)) }
    ensures broken { IfOk result (λ r. broken_view r.1 ≡ if_broken (value_in text.now)) }
{
    let mut scratch = Scratch::new(alloc);
    match value_in(alloc, text, &mut scratch)? {
        Some(value) => of_value(alloc, &value),
        None => Ok(nothing(alloc)),
    }
}

/// The value that a text is, where it is one.
fn value_in<'a>(
    alloc: Global,
    text: &'a str,
    scratch: &'a mut Scratch,
) -> Result<Option<Value<'a>>, AllocError>
    ensures { IfOk result (λ found. option_map value_view found ≡ value_in text.now) }
{
    let mut reader = Reader::new(text, scratch)?;
    let value = match Value::read(alloc, &mut reader, JSON_LEVELS) {
        Ok(value) => value,
        Err(Error::OutOfMemory) => return Err(AllocError),
        Err(_) => return Ok(None),
    };
    if reader.next().is_some() {
        return Ok(None);
    }
    Ok(Some(value))
}

/// The metadata of a document.
fn of_value(alloc: Global, value: &Value<'_>) -> Result<(DocumentMetadata, Broken), AllocError>
    ensures members { IfOk result (λ r. document_view r.0 ≡ described (value_view value.now)) }
    ensures broken { IfOk result (λ r. broken_view r.1 ≡ broken_in (value_view value.now)) }
{
    let own = own_members(alloc, value)?;
    let (flags, broken) = of_document(alloc, value)?;
    let broken = Broken {
        document: own.is_none(),
        flags: broken,
    };
    let metadata = DocumentMetadata {
        document: own.unwrap_or(Vec::new(alloc)),
        flags,
    };
    Ok((metadata, broken))
}

/// The members of each flag of a document, and the keys of those whose metadata is broken.
fn of_document(
    alloc: Global,
    document: &Value<'_>,
) -> Result<(BTreeMap<String, Vec<Member>>, Vec<String>), AllocError>
    ensures members { IfOk result (λ r. flags_view r.0.entries ≡ by_key (each_flag (flags_in (value_view document.now)))) }
    ensures broken { IfOk result (λ r. map string_bytes r.1.items ≡ broken_flags (flags_in (value_view document.now))) }
{
    match document.get("flags") {
        Some(flags) => of_object(alloc, flags),
        None => Ok((BTreeMap::new(alloc), Vec::new(alloc))),
    }
}

/// The same of the flags of an object.
fn of_object(
    alloc: Global,
    flags: &Value<'_>,
) -> Result<(BTreeMap<String, Vec<Member>>, Vec<String>), AllocError>
    ensures members { IfOk result (λ r. flags_view r.0.entries ≡ by_key (each_flag (flags_among (value_view flags.now)))) }
    ensures broken { IfOk result (λ r. map string_bytes r.1.items ≡ broken_flags (flags_among (value_view flags.now))) }
{
    match flags {
        Value::Object(flags) => of_flags(alloc, flags),
        _ => Ok((BTreeMap::new(alloc), Vec::new(alloc))),
    }
}

/// The members of each flag, and the keys of those whose metadata is broken.
fn of_flags(
    alloc: Global,
    flags: &Vec<(&str, Value<'_>)>,
) -> Result<(BTreeMap<String, Vec<Member>>, Vec<String>), AllocError>
    ensures members { IfOk result (λ r. flags_view r.0.entries ≡ by_key (each_flag (members_view flags.now.items))) }
    ensures broken { IfOk result (λ r. map string_bytes r.1.items ≡ broken_flags (members_view flags.now.items)) }
{
    let mut found = BTreeMap::new(alloc);
    let mut broken = Vec::new(alloc);
    for (key, flag) in flags {
        put_flag(alloc, &mut found, &mut broken, key, flag)?;
    }
    Ok((found, broken))
}

/// Puts a flag in the place of another of its key, which takes no memory for a flag without metadata but that of its key.
fn put_flag(
    alloc: Global,
    found: &mut BTreeMap<String, Vec<Member>>,
    broken: &mut Vec<String>,
    key: &str,
    flag: &Value<'_>,
) -> Result<(), AllocError>
    ensures members { OnOk result (flags_view found.new.entries ≡ with_flag (flags_view found.old.entries) (key.now, entries_in (value_view flag.now))) }
    ensures broken { OnOk result (map string_bytes broken.new.items ≡ (if is_none (own_entries (value_view flag.now)) then map string_bytes broken.old.items ++ key.now ∷ [] else map string_bytes broken.old.items)) }
{
    let own = own_members(alloc, flag)?;
    if own.is_none() {
        broken.push(String::from_str(alloc, key)?)?;
    }
    insert(
        found,
        String::from_str(alloc, key)?,
        own.unwrap_or(Vec::new(alloc)),
    )
}

fn insert(
    found: &mut BTreeMap<String, Vec<Member>>,
    key: String,
    members: Vec<Member>,
) -> Result<(), AllocError>
    ensures { OnOk result (flags_view found.new.entries ≡ with_flag (flags_view found.old.entries) (string_bytes key, entries_view members.items)) }
{
    drop(found.insert(key, members)?);
    Ok(())
}
