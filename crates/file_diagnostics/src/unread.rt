//! Diagnostics of members that nobody reads.
ghost use Rattle.std.specs.Prelude.{ℕ, List, Some, IfOk, string_bytes};
ghost use Rattle.file_diagnostics.specs.Lines.{Grows, text_so_far};
ghost use Rattle.file_diagnostics.specs.Meant.{IsMeant};
ghost use Rattle.file_diagnostics.specs.Named.{Names};

use crate::lines::{Lines, Opening};
use flag_text::Tree;
use member_names::Reader;
use std::alloc::{AllocError, Global};

/// The most members that are listed.
const MOST_MEMBERS: usize = 10;

/// Names the members of an object in the file at `path` that its reader passes over.
pub fn of_unread(
    alloc: Global,
    path: &str,
    tree: &Tree,
    reader: Reader,
) -> Result<String, AllocError>
    ensures names { IfOk result (λ s. Names path.now (string_bytes s)) }
{
    let mut lines = Lines::new(alloc);
    write!(lines, " has a member that is not read:\n");
    if let Some(members) = tree.as_object() {
        put_unread(&mut lines, members, reader);
    }
    lines.headed(Opening::Note, path)
}

/// The first members that are not read, each with the one that may be meant.
fn put_unread(lines: &mut Lines, members: &[(String, Tree)], reader: Reader) {
    let mut listed: usize = 0;
    for (name, _) in members {
        let name = name.as_str();
        if !reader.reads(name) {
            if listed == MOST_MEMBERS {
                return write!(lines, "  and more\n");
            }
            write!(lines, "  {}", lines.name(name));
            put_meant(lines, name, reader);
            listed = listed.saturating_add(1);
        }
    }
}

/// The member that may be meant by a name that is not read, and the end of the line.
pub fn put_meant(lines: &mut Lines, name: &str, reader: Reader)
    ensures { (ending : List ℕ) × IsMeant reader ending × Grows (text_so_far lines.old) (Some ending) (text_so_far lines.new) }
{
    match reader.meant(name) {
        Some(meant) => write!(lines, "; perhaps {} is meant\n", lines.name(meant)),
        None => write!(lines, "\n"),
    }
}
