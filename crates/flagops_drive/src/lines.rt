//! The lines that are printed of what was driven.
ghost use Rattle.std.specs.Prelude.{◌≡◌, IfOk, drop, map, string_bytes};
ghost use Rattle.flag_defs.specs.Floats.{marked_view};
ghost use Rattle.flag_resolve.specs.Views.{resolution_view};
ghost use Rattle.flagops_drive.specs.Floats.{is_first_spelled, spelled_of};
ghost use Rattle.flagops_drive.specs.Lines.{count_lines, drive_text, resolution_lines};

use book_share::Ask;
use flag_defs::Flags;
use flag_resolve::{Resolution, is_spelled, push_resolution_spelled};
use std::alloc::{AllocError, Global};

/// How many inputs the book that is written has, and the counts of the notes.
#[derive(Clone, Copy)]
pub(crate) struct Counts {
    pub(crate) inputs: u128,
    pub(crate) calls: u128,
    pub(crate) news: u128,
    pub(crate) full: u128,
    pub(crate) long: u128,
}

/// A line for the resolution of each ask by the flags, then the counts.
#[tactic(auto, unfolding(crate::specs::Lines::drive_text))]
pub(crate) fn lines(
    alloc: Global,
    flags: &Flags,
    asks: &[Ask<'_>],
    answers: &[Resolution],
    counts: &Counts,
    json: bool,
) -> Result<String, AllocError>
    ensures { IfOk result (λ s. string_bytes s ≡ drive_text json (spelled_of (marked_view flags.now) asks.now (map resolution_view answers.now)) (map resolution_view answers.now) counts.now.inputs counts.now.calls counts.now.news counts.now.full counts.now.long) }
{
    let mut lines = resolution_lines(alloc, flags, asks, answers)?;
    let counts = count_lines(alloc, counts, json)?;
    lines.push_str(counts.as_str())?;
    Ok(lines)
}

fn resolution_lines(
    alloc: Global,
    flags: &Flags,
    asks: &[Ask<'_>],
    answers: &[Resolution],
) -> Result<String, AllocError>
    ensures { IfOk result (λ s. string_bytes s ≡ resolution_lines (spelled_of (marked_view flags.now) asks.now (map resolution_view answers.now)) (map resolution_view answers.now)) }
{
    let mut lines = String::new(alloc);
    for index in 0..answers.len() {
        let answer = &answers[index];
        let spelled = is_spelled_at(flags, asks, index, answer);
        push_resolution_spelled(alloc, &mut lines, answer, spelled)?;
        lines.push_str("\n")?;
    }
    Ok(lines)
}

/// Whether the value of the resolution of the ask at a place is printed by its spelling.
fn is_spelled_at(flags: &Flags, asks: &[Ask<'_>], index: usize, answer: &Resolution) -> bool
    ensures { result ≡ is_first_spelled (marked_view flags.now) (drop index asks.now) (resolution_view answer.now) }
{
    match asks.get(index) {
        Some(ask) => is_spelled(Some(flags), ask.key, answer),
        None => false,
    }
}

/// The counts, a line each, or an object in one line.
fn count_lines(alloc: Global, counts: &Counts, json: bool) -> Result<String, AllocError>
    ensures { IfOk result (λ s. string_bytes s ≡ count_lines json counts.now.inputs counts.now.calls counts.now.news counts.now.full counts.now.long) }
{
    let Counts {
        inputs,
        calls,
        news,
        full,
        long,
    } = *counts;
    if json {
        format!(in alloc;
            "{{\"calls\":{calls},\"full\":{full},\"inputs\":{inputs},\"long\":{long},\"news\":{news}}}\n"
        )
    } else {
        format!(in alloc; "inputs {inputs}\ncalls {calls}\nnews {news}\nfull {full}\nlong {long}\n")
    }
}
