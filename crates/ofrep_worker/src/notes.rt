//! The notes of what an answer reached.
ghost use Rattle.std.specs.Prelude.{◌≡◌, ◌==◌, ◌||◌, ◌++◌, IfOk, OnOk, map, option_map};
ghost use Rattle.flag_defs.specs.Flags.{flags_view};
ghost use Rattle.logic_ast.specs.Expr.{view};
ghost use Rattle.logic_eval.specs.Views.{reach_view};
ghost use Rattle.ofrep_answers.specs.Answer.{answer_view, reached_view};
ghost use Rattle.ofrep_worker.specs.Notes.{note_at, notes_at, notes_by, notes_in, notes_of};

use flag_defs::Flags;
use http::StatusCode;
use logic_ast::Expr;
use logic_eval::Reached;
use note_lines::Note;
use ofrep_answers::{Answer, FlagReached};
use site_pages::{page_at, targeting_of};
use std::alloc::{AllocError, Global};

/// The notes that are to be recorded before an answer: of all that it reached where it is 200 or 304, and none else.
#[tactic(auto, unfolding(crate::specs::Notes::notes_of))]
pub(crate) fn notes_of(
    alloc: Global,
    flags: &Flags,
    answer: &Answer,
) -> Result<Vec<Note>, AllocError>
    ensures { IfOk result (λ notes. notes.items ≡ notes_of (flags_view flags.now) (answer_view answer.now)) }
{
    if tells(answer.status) {
        notes_in(alloc, flags, answer.reached.as_slice())
    } else {
        Ok(Vec::new(alloc))
    }
}

/// Whether an answer with this status tells something of flags.
pub(crate) fn tells(status: StatusCode) -> bool
    ensures { result ≡ (status == 200 || status == 304) }
{
    status == StatusCode::OK || status == StatusCode::NOT_MODIFIED
}

/// The notes of what evaluations reached.
fn notes_in(alloc: Global, flags: &Flags, reached: &[FlagReached]) -> Result<Vec<Note>, AllocError>
    ensures { IfOk result (λ notes. notes.items ≡ notes_in (flags_view flags.now) (map reached_view reached.now)) }
{
    let mut notes = Vec::new(alloc);
    for flag in reached {
        push_notes(alloc, flags, flag, &mut notes)?;
    }
    Ok(notes)
}

/// Adds the notes of what the evaluation of a flag reached.
fn push_notes(
    alloc: Global,
    flags: &Flags,
    flag: &FlagReached,
    notes: &mut Vec<Note>,
) -> Result<(), AllocError>
    ensures { OnOk result (notes.new.items ≡ notes.old.items ++ notes_by (flags_view flags.now) (reached_view flag.now)) }
{
    let key = flag.flag.as_str();
    let targeting = targeting_of(flags, key);
    push_all(alloc, key, targeting, flag.reached.as_slice(), notes)
}

/// Adds the note of each site that was reached.
#[tactic(auto, using(crate::proofs::Steps::mapped_more))]
fn push_all(
    alloc: Global,
    key: &str,
    targeting: Option<&Expr>,
    reached: &[Reached],
    notes: &mut Vec<Note>,
) -> Result<(), AllocError>
    ensures { OnOk result (notes.new.items ≡ notes.old.items ++ notes_at key.now (option_map (λ e. view e.now) targeting.entry) (map reach_view reached.now)) }
{
    for reach in reached {
        notes.push(note_at(alloc, key, targeting, reach)?)?;
    }
    Ok(())
}

/// The note of a site that was reached: its page, and its hash input, which is shared.
fn note_at(
    alloc: Global,
    key: &str,
    targeting: Option<&Expr>,
    reach: &Reached,
) -> Result<Note, AllocError>
    ensures { IfOk result (λ note. note ≡ note_at key.now (option_map (λ e. view e.now) targeting.entry) (reach_view reach.now)) }
{
    let page = page_at(alloc, key, targeting, reach.site)?;
    let input = reach.input.clone()?;
    Ok(Note { page, input })
}
