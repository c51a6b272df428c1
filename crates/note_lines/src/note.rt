//! What a note line says.
ghost use Rattle.std.specs.Prelude.{◌≡◌, IfOk};
ghost use Rattle.flag_text.specs.View.{view};
ghost use Rattle.note_lines.specs.Reading.{shape_note};

use crate::parts::page_and_last;
use book_core::Page;
use flag_text::Tree;
use std::alloc::{AllocError, Global};
use std::marker::Model;
use std::sync::Arc;

/// A hash input that reached the `fractional` operation of a page.
#[derive(Debug, Drop)]
pub struct Note {
    /// The operation.
    pub page: Page,
    /// The hash input: of an evaluation whose sites share it, their notes do too.
    pub input: Arc<String>,
}

impl Model for Note {
    ghost use Rattle.std.specs.Arc.{arc_value};
    ghost use Rattle.std.specs.Prelude.{string_bytes};
    ghost use Rattle.note_lines.specs.Note.{Noted};

    ghost Value = { Noted };

    ghost view = { λ n. record { page = n.page; input = string_bytes (arc_value n.input) } };
}

/// The note of a list `[FLAG,SITE,BY,INPUT]`.
pub(crate) fn tree_note(alloc: Global, tree: &Tree) -> Result<Option<Note>, AllocError>
    ensures { IfOk result (λ note. note ≡ shape_note (view tree.now)) }
{
    let Some((page, last)) = page_and_last(alloc, tree)? else {
        return Ok(None);
    };
    let Some(input) = last.as_text() else {
        return Ok(None);
    };
    let input = Arc::new(alloc, String::from_str(alloc, input)?)?;
    Ok(Some(Note { page, input }))
}
