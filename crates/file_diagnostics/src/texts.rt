//! Diagnostics of a text that is no tree.
ghost use Rattle.std.specs.Prelude.{◌≡◌, ◌≢◌, Err, IfErr, IfOk, None, Ok, Some, alloc_error, string_bytes};
ghost use Rattle.file_diagnostics.specs.Named.{Names, NamesWord};

use crate::ends::BYTE_ORDER_MARK;
use crate::lines::{Lines, Opening};
use crate::looks::look_of;
use crate::numbers::{put_number, spelled_at};
use crate::search::{Sought, first_wrong};
use crate::way::Way;
use flag_text::{TREE_LEVELS, TextFault, Tree, read_doc};
use serde_json::Value;
use simdutf8::basic;
use std::alloc::{AllocError, Global};

/// The bytes of a way into what nests too deep from which on no further step is shown.
const MOST_OF_WAY: usize = 40;

/// The most bytes of a text in which a fault is looked for: the values that are made for it take some 30 times as many.
const LOOKED_INTO: usize = 1 << 22;

/// Explains why `bytes`, read from the file at `path`, are not read as a JSON text.
pub fn of_text(
    alloc: Global,
    path: &str,
    bytes: &[u8],
    limit: usize,
    fault: TextFault,
) -> Result<String, AllocError>
    ensures names { IfOk result (λ s. Names path.now (string_bytes s)) }
{
    let mut lines = Lines::new(alloc);
    put_text_fault(&mut lines, bytes, limit, fault)?;
    lines.headed(Opening::Error, path)
}

/// Explains why a word of the command line is not read as a JSON text.
pub fn of_word(
    alloc: Global,
    name: &str,
    bytes: &[u8],
    limit: usize,
    fault: TextFault,
) -> Result<String, AllocError>
    ensures names { IfOk result (λ s. NamesWord name.now (string_bytes s)) }
{
    let mut lines = Lines::new(alloc);
    put_text_fault(&mut lines, bytes, limit, fault)?;
    if fault == TextFault::NotJson {
        write!(
            lines,
            "  {name} is JSON: a text stands in quotes of its own, as '\"none\"'\n"
        );
    }
    lines.after_word(name)
}

/// Why a text is not read as JSON, after its name.
pub fn put_text_fault(
    lines: &mut Lines,
    bytes: &[u8],
    limit: usize,
    fault: TextFault,
) -> Result<(), AllocError> {
    match fault {
        TextFault::WantOfMemory => return Err(AllocError),
        TextFault::NotJson => put_not_json(lines, bytes)?,
        TextFault::TooLarge => write!(lines, " has more than {limit} bytes\n"),
        TextFault::NotWhole => {
            write!(lines, ": ");
            put_not_whole(lines, bytes, limit)?;
            write!(
                lines,
                "\n  numbers are whole, from -(2^53-1) to 2^53-1, without point or exponent: use a smaller unit (cents), or a text\n",
            );
        }
        TextFault::TooDeep => {
            write!(lines, ": lists and objects nest deeper than 120 levels");
            put_too_deep(lines, bytes, limit)?;
            write!(lines, "\n");
        }
    }
    Ok(())
}

/// The first number that is not taken, where it stands and why.
fn put_not_whole(lines: &mut Lines, bytes: &[u8], limit: usize) -> Result<(), AllocError> {
    match looked_into(lines.alloc, bytes, limit)? {
        Some(tree) => {
            let mut way = Way::new();
            let _wrong = first_wrong(&tree, Sought::NotWhole, &mut way);
            let path = way.path(lines.alloc, &[])?;
            let spelled = spelled_at(lines.alloc, bytes, path.as_slice())?;
            write!(lines, "{}", place_at(lines.alloc, &way, usize::MAX)?);
            put_number(lines, spelled);
        }
        None => write!(lines, "a number in it is not whole, or out of range"),
    }
    Ok(())
}

/// The first place that nests too deep.
fn put_too_deep(lines: &mut Lines, bytes: &[u8], limit: usize) -> Result<(), AllocError> {
    if let Some(tree) = looked_into(lines.alloc, bytes, limit)? {
        let mut way = Way::new();
        let _wrong = first_wrong(&tree, Sought::Within(TREE_LEVELS), &mut way);
        write!(lines, ", at {}", place_at(lines.alloc, &way, MOST_OF_WAY)?);
    }
    Ok(())
}

/// Of a text that is not JSON: that nothing stands there, that a mark stands before it, or the line and the column at which it
/// goes wrong, and what it looks like.
pub(crate) fn put_not_json(lines: &mut Lines, bytes: &[u8]) -> Result<(), AllocError> {
    if bytes.is_empty() {
        write!(lines, " is empty, which is not valid JSON\n");
    } else if bytes.starts_with(BYTE_ORDER_MARK) {
        write!(
            lines,
            " begins with a byte order mark, so it is not valid JSON\n  save it as UTF-8 without the mark\n",
        );
    } else {
        write!(lines, " is not valid JSON: ");
        put_json_fault(lines, bytes)?;
        match look_of(bytes) {
            Some(look) => write!(lines, "\n  it looks like {look}\n"),
            None => write!(
                lines,
                "\n  no trailing comma, no comment; names and texts stand in double quotes\n",
            ),
        }
    }
    Ok(())
}

/// What `serde_json` says of a text that it does not read, with line and column.
fn put_json_fault(lines: &mut Lines, bytes: &[u8]) -> Result<(), AllocError> {
    let Ok(text) = basic::from_utf8(bytes) else {
        write!(lines, "its bytes are not UTF-8");
        return Ok(());
    };
    if bytes.len() > LOOKED_INTO {
        write!(
            lines,
            "where it goes wrong is looked for in at most 4194304 bytes"
        );
        return Ok(());
    }
    match Value::from_str(lines.alloc, text) {
        Ok(_value) => write!(lines, "it nests too deep"),
        Err(e) if e.is_memory() => return Err(AllocError),
        Err(e) => write!(lines, "{e}"),
    }
    Ok(())
}

/// What a text is read as, none where it is too long to be looked into.
fn looked_into(alloc: Global, bytes: &[u8], limit: usize) -> Result<Option<Tree>, AllocError> {
    if bytes.len() > LOOKED_INTO {
        return Ok(None);
    }
    tree_or_none(read_doc(alloc, bytes, limit))
}

/// The place to which a way leads from the root. No further step is shown after the most bytes.
fn place_at(alloc: Global, way: &Way<'_>, most: usize) -> Result<String, AllocError> {
    let way = way.text(alloc, most)?;
    let shown = way.as_str();
    let shown = if shown.is_empty() {
        "the root"
    } else {
        shown.strip_prefix(".").unwrap_or(shown)
    };
    String::from_str(alloc, shown)
}

/// What was read, none where it was refused for another fault than want of memory.
pub fn tree_or_none(read: Result<Tree, TextFault>) -> Result<Option<Tree>, AllocError>
    ensures read { IfOk read (λ tree. result ≡ Ok (Some tree)) }
    ensures short { read ≡ Err TextFault.WantOfMemory → result ≡ Err alloc_error }
    ensures refused { IfErr read (λ fault. fault ≢ TextFault.WantOfMemory → result ≡ Ok None) }
{
    match read {
        Ok(tree) => Ok(Some(tree)),
        Err(TextFault::WantOfMemory) => Err(AllocError),
        Err(_) => Ok(None),
    }
}
