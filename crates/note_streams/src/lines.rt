//! What is recorded of lines, one after another.
ghost use Rattle.std.specs.Prelude.{◌≡◌, ◌+◌, ◌<◌, ◌≤◌, ◌^◌, false, true, option_map, IfOk, IfSome, OnOk, MatchOption, None, Some};
ghost use Rattle.flag_text.specs.Shape.{is_tidy};
ghost use Rattle.flag_text.specs.View.{view};
ghost use Rattle.note_streams.specs.Record.{context_of, is_blank, joined, object_in, of_line, record_of};
ghost use Rattle.note_streams.specs.Outcomes.{contexts};
ghost use Rattle.note_streams.specs.View.{outcomes_view, recorded_view};
ghost use Rattle.note_streams.specs.Scene.{scene_of};
ghost use Rattle.note_streams.specs.Lines.{lines_view};

use crate::recorded::Recorded;
use crate::scene::Recorder;
use flag_text::{TextFault, Tree};
use limits::TEXT_BYTES;
use spelled_numbers::read_sent_tree;
use std::alloc::{AllocError, Global};

/// What is recorded of some lines, without their line feeds, up to the first that is no context. Want of memory is its one
/// fault.
pub fn record_lines(
    alloc: Global,
    recorder: &Recorder<'_>,
    lines: &[&[u8]],
) -> Result<Recorded, AllocError>
    ensures { IfOk result (λ r. recorded_view r ≡ record_of (scene_of recorder.now) (lines_view lines.now)) }
{
    let mut out = Recorded::nothing(alloc);
    for line in lines {
        record_line(alloc, recorder, line, &mut out)?;
        if out.refused {
            return Ok(out);
        }
    }
    Ok(out)
}

/// Adds what is recorded of a line.
#[tactic(auto, unfolding(crate::specs::Record::joined, crate::specs::Record::of_line))]
fn record_line(
    alloc: Global,
    recorder: &Recorder<'_>,
    line: &[u8],
    out: &mut Recorded,
) -> Result<(), AllocError>
    requires open { out.old.refused ≡ false }
    requires room { out.old.lines + 1 < 2 ^ 64 }
    requires few { contexts (outcomes_view out.old.outcomes) ≤ out.old.lines }
    ensures { OnOk result (recorded_view out.new ≡ joined (recorded_view out.old) (of_line (scene_of recorder.now) line.now)) }
{
    out.lines += 1;
    if line.len() > TEXT_BYTES {
        out.refused = true;
        return Ok(());
    }
    if is_blank(line) {
        return Ok(());
    }
    match context_in(alloc, line)? {
        None => {
            out.refused = true;
            Ok(())
        }
        Some(context) => recorder.record(alloc, &context, out),
    }
}

/// Whether a line has nothing but blanks.
fn is_blank(line: &[u8]) -> bool
    ensures { result ≡ is_blank line.now }
{
    line.iter()
        .all(|b| *b == b' ' || *b == b'\t' || *b == b'\r')
}

/// The context that a line is.
fn context_in(alloc: Global, line: &[u8]) -> Result<Option<Tree>, AllocError>
    ensures context { IfOk result (λ r. MatchOption r (context_of line.now ≡ None) (λ t. context_of line.now ≡ Some (view t))) }
    ensures tidy { IfOk result (λ r. IfSome r (λ t. is_tidy (view t) ≡ true)) }
{
    match read_sent_tree(alloc, line, line.len()) {
        Ok(tree) => Ok(if_object(tree)),
        Err(TextFault::WantOfMemory) => Err(AllocError),
        Err(_) => Ok(None),
    }
}

/// A tree that is an object.
fn if_object(tree: Tree) -> Option<Tree>
    requires { is_tidy (view tree) ≡ true }
    ensures context { option_map view result ≡ object_in (view tree) }
    ensures tidy { IfSome result (λ t. is_tidy (view t) ≡ true) }
{
    match tree {
        Tree::Object(members) => Some(Tree::Object(members)),
        _ => None,
    }
}
