//! Why a line of the standard input is not taken, as far as the bytes with which the input began show it.
ghost use Rattle.std.specs.Prelude.{IfOk, string_bytes};
ghost use Rattle.flagops_filters.specs.Remarks.{NamesInput};

use crate::remarks::INPUT;
use file_diagnostics::{Lines, look_of, put_text_fault};
use flag_text::read_doc;
use std::alloc::{AllocError, Global};

/// Why the line of a number, from 1, is not a context.
pub(crate) fn no_context_lines(
    alloc: Global,
    number: u64,
    first_bytes: &[u8],
) -> Result<String, AllocError>
    ensures { IfOk result (λ s. NamesInput (string_bytes s)) }
{
    let mut lines = Lines::new(alloc);
    write!(lines, ": line {number}");
    match (number, look_of(first_bytes)) {
        (1, Some(look)) => write!(lines, " is not a context\n  the input looks like {look}\n"),
        _ => put_no_context(&mut lines, line_at(first_bytes, number))?,
    }
    lines.after_word(INPUT)
}

/// What a line is that is not a context, where it is known.
fn put_no_context(lines: &mut Lines, line: Option<&[u8]>) -> Result<(), AllocError> {
    match line {
        Some(line) if begins_text(line) => {
            write!(lines, " is only the beginning of a JSON text\n")
        }
        Some(line) => match read_doc(lines.alloc, line, line.len()) {
            Ok(tree) => write!(lines, " is {}, not a context\n", lines.value(&tree)),
            Err(fault) => {
                write!(lines, ", read by itself,");
                put_text_fault(lines, line, line.len(), fault)?;
            }
        },
        None => write!(lines, " is not a context\n"),
    }
    write!(
        lines,
        "  a context is a JSON object, each on a line of its own\n"
    );
    Ok(())
}

/// Whether nothing but a bracket stands on a line, as on the first one of a text that is laid out over several.
fn begins_text(line: &[u8]) -> bool {
    match line.split_first() {
        Some((first, rest)) => {
            (*first == b'{' || *first == b'[')
                && rest.iter().all(|byte| *byte == b' ' || *byte == b'\r')
        }
        None => false,
    }
}

/// Why the line of a number, from 1, is not a note line.
pub(crate) fn no_note_lines(
    alloc: Global,
    number: u64,
    first_bytes: &[u8],
) -> Result<String, AllocError>
    ensures { IfOk result (λ s. NamesInput (string_bytes s)) }
{
    let mut lines = Lines::new(alloc);
    write!(lines, ": line {number} is not a note line\n");
    match (number, look_of(first_bytes)) {
        (1, Some(look)) => write!(lines, "  the input looks like {look}\n"),
        _ => write!(
            lines,
            "  a note line is [FLAG,SITE,BY,INPUT], spelled as record and ofrep write it\n"
        ),
    }
    lines.after_word(INPUT)
}

/// The line of a number, from 1, where it ends within the first bytes of an input.
fn line_at(first_bytes: &[u8], number: u64) -> Option<&[u8]> {
    let mut rest = first_bytes;
    for _before in 1..number {
        let (_, after) = cut(rest)?;
        rest = after;
    }
    let (line, _) = cut(rest)?;
    Some(line)
}

/// The bytes before the first line feed, and those behind it.
fn cut(bytes: &[u8]) -> Option<(&[u8], &[u8])> {
    let end = bytes.iter().position(|byte| *byte == b'\n')?;
    let (line, rest) = bytes.split_at_checked(end)?;
    let (_feed, after) = rest.split_first()?;
    Some((line, after))
}
