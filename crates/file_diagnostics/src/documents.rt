//! Diagnostics of bytes that are no flag document.
ghost use Rattle.std.specs.Prelude.{◌≢◌, IfOk, string_bytes};
ghost use Rattle.file_diagnostics.specs.Named.{Names};

use crate::lines::{Lines, Opening};
use crate::looks::{look_of, look_of_tree};
use crate::texts::{put_not_json, tree_or_none};
use flag_defs::DefFault;
use flag_text::{Tree, read_doc};
use limits::{FLAGS, TEXT_BYTES};
use std::alloc::{AllocError, Global};

/// What a document looks like.
const LOOK: &str = "{\"flags\":{\"KEY\":{\"state\":\"ENABLED\",\"variants\":{..}}}}";

/// Explains why `bytes`, read from the file at `path`, are no flag document.
pub fn of_document(
    alloc: Global,
    path: &str,
    bytes: &[u8],
    fault: DefFault,
) -> Result<String, AllocError>
    ensures names { fault ≢ DefFault.WantOfMemory → IfOk result (λ s. Names path.now (string_bytes s)) }
{
    let mut lines = Lines::new(alloc);
    match fault {
        DefFault::WantOfMemory => return String::from_str(alloc, "error: out of memory\n"),
        DefFault::NotJson => put_not_json(&mut lines, bytes)?,
        DefFault::NoFlags => {
            write!(lines, " is not a flag document: ");
            put_no_flags(&mut lines, bytes)?;
            write!(lines, "\n  a document looks like {LOOK}\n");
        }
        DefFault::TooLarge => {
            write!(lines, " is too large: ");
            put_too_large(&mut lines, bytes)?;
            write!(
                lines,
                "\n  a document has at most 10,000 flags and 4,194,304 bytes, also as \"flagops apply\" prints it\n",
            );
        }
    }
    lines.headed(Opening::Error, path)
}

/// What stands in the place of the flags, and what the file looks like.
fn put_no_flags(lines: &mut Lines, bytes: &[u8]) -> Result<(), AllocError> {
    let Some(document) = tree_or_none(read_doc(lines.alloc, bytes, TEXT_BYTES))? else {
        write!(lines, "it has no \"flags\"");
        return Ok(());
    };
    match (&document, document.member("flags")) {
        (Tree::Object(_), Some(flags)) => {
            write!(lines, "\"flags\" is {}, not an object", lines.value(flags));
        }
        (Tree::Object(_), None) => {
            write!(lines, "it has no \"flags\"");
            if let Some(look) = look_of(bytes).or(look_of_tree(&document)) {
                write!(lines, "\n  it looks like {look}");
            }
        }
        (other, _) => write!(lines, "it is {}, not an object", lines.value(other)),
    }
    Ok(())
}

/// Which limit a document passes.
fn put_too_large(lines: &mut Lines, bytes: &[u8]) -> Result<(), AllocError> {
    let flags = flags_in(lines.alloc, bytes)?;
    if bytes.len() > TEXT_BYTES {
        write!(lines, "it has {} bytes", bytes.len());
    } else if flags > FLAGS {
        write!(lines, "it has {flags} flags");
    } else {
        write!(lines, "it is too long with its references replaced");
    }
    Ok(())
}

/// The number of flags in a document.
fn flags_in(alloc: Global, bytes: &[u8]) -> Result<usize, AllocError> {
    let Some(document) = tree_or_none(read_doc(alloc, bytes, TEXT_BYTES))? else {
        return Ok(0);
    };
    match document.member("flags") {
        Some(Tree::Object(flags)) => Ok(flags.len()),
        _ => Ok(0),
    }
}
