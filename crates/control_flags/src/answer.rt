//! The text of the answer.
ghost use Rattle.std.specs.Prelude.{◌≡◌, IfOk, string_bytes};
ghost use Rattle.control_flags.specs.Flags.{bool_text, flags_text, head_text, rows_text};

use crate::doubts::doubts_text;
use crate::joined::{names_text, quoted};
use crate::kinds::kinds_text;
use crate::sites::sites_text;
use book_core::Page;
use flag_defs::{Flags, print_flags_with_floats};
use std::alloc::{AllocError, Global};
use std::collections::BTreeMap;

/// What is asked: the flags of a snapshot, and what is known of them beside.
#[derive(Clone, Copy)]
pub struct FlagsAsked<'a> {
    /// The number of the snapshot.
    pub number: u64,
    /// Its flags.
    pub flags: &'a Flags,
    /// What a person is told of the broken ones, a line each (`file_diagnostics`).
    pub remarks: &'a str,
    /// The names of the documents that they come from.
    pub sources: &'a [&'a str],
    /// How many inputs are recorded on pages. Of a page that has none here nothing is told.
    pub recorded: &'a BTreeMap<Page, u64>,
    /// Whether a plan can be applied.
    pub may_apply: bool,
}

/// The body that tells the flags, as JSON. Want of memory is its one fault.
pub fn flags_answer(alloc: Global, asked: &FlagsAsked<'_>) -> Result<Vec<u8>, AllocError>
    ensures { IfOk result (λ v. v.items ≡ flags_text asked.now) }
{
    let rows = rows_text(alloc, asked)?;
    let flags = print_flags_with_floats(alloc, asked.flags)?;
    let mut body = rows.into_bytes();
    body.extend_from_slice(flags.as_slice())?;
    body.extend_from_slice(b"}\n")?;
    Ok(body)
}

/// What stands before the merged flags.
fn rows_text(alloc: Global, asked: &FlagsAsked<'_>) -> Result<String, AllocError>
    ensures { IfOk result (λ s. string_bytes s ≡ rows_text asked.now) }
{
    let head = head_text(alloc, asked)?;
    let sites = sites_text(alloc, asked.flags, asked.recorded)?;
    let doubts = doubts_text(alloc, asked.flags)?;
    let kinds = kinds_text(alloc, asked.flags)?;
    format!(in alloc;
        "{head},\"sites\":[{sites}],\"doubts\":[{doubts}],\"kinds\":[{kinds}],\"merged\":"
    )
}

/// What stands before the sites.
fn head_text(alloc: Global, asked: &FlagsAsked<'_>) -> Result<String, AllocError>
    ensures { IfOk result (λ s. string_bytes s ≡ head_text asked.now) }
{
    let number = asked.number;
    let may_apply = bool_text(asked.may_apply);
    let remarks = quoted(alloc, asked.remarks)?;
    let sources = names_text(alloc, asked.sources)?;
    format!(in alloc;
        "{{\"snapshot\":{number},\"may_apply\":{may_apply},\"remarks\":{remarks},\"sources\":[{sources}]"
    )
}

fn bool_text(is: bool) -> &'static str
    ensures { result.now ≡ bool_text is }
{
    if is { "true" } else { "false" }
}
