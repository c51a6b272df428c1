//! Parts of a page, each read by itself.
ghost use Rattle.std.specs.Prelude.{◌≡◌, ◌+◌, ◌<◌, ◌≤◌, ◌++◌, ℕ, List, [], ◌∷◌, length, true, Option, IfOk, IfSome, IsTrue, OnOk};
ghost use Rattle.std.specs.Ordering.{is_lt};
ghost use Rattle.bucket_core.specs.Rule.{IsRuleTotal};
ghost use Rattle.book_core.specs.Book.{most_inputs};
ghost use Rattle.book_core.specs.Page.{bytes_cmp};
ghost use Rattle.page_tally.specs.Parts.{IsEndOf, IsJoined, IsPart, IsPartOf};
ghost use Rattle.page_tally.specs.Points.{points_if};

use crate::input::is_below;
use crate::plain::short_line;
use bucket_core::scale;
use limits::PAGE_INPUTS;
use murmur_core::hash;
use std::alloc::{AllocError, Global};

/// About as many bytes as the line of an input has at least. Points find room without their vector being moved.
const USUAL_BYTES: usize = 16;

/// The lines that stand first among some bytes, read before it is known what stands before them: the first and the last of
/// their inputs, how many there are, the point of each where inputs are counted, and the bytes behind these lines.
#[derive(Drop)]
pub(crate) struct Part<'a> {
    pub(crate) first: &'a [u8],
    pub(crate) last: &'a [u8],
    pub(crate) inputs: usize,
    pub(crate) points: Vec<u32>,
    pub(crate) rest: &'a [u8],
}

impl<'a> Part<'a> {
    /// Takes the next line where it is plain, its input is above the last one, and one page could take all. Gives whether it
    /// did.
    fn take_next(&mut self, total: Option<u32>) -> Result<bool, AllocError>
        requires allowed { IfSome total IsRuleTotal }
        ensures part { OnOk result ((bytes : List ℕ) → IsPartOf bytes total self.old → IsPartOf bytes total self.new) }
        ensures shorter { IfOk result (λ taken. taken ≡ true → length self.new.rest.now < length self.old.rest.now) }
    {
        if self.inputs >= PAGE_INPUTS {
            return Ok(false);
        }
        let Some((input, rest)) = short_line(self.rest) else {
            return Ok(false);
        };
        if !is_below(self.last, input) {
            return Ok(false);
        }
        push_point(&mut self.points, total, input)?;
        self.last = input;
        self.inputs += 1;
        self.rest = rest;
        Ok(true)
    }

    /// This part and the one that was read from the bytes behind, where they follow on one another and one page could take
    /// both; else this part alone.
    pub(crate) fn joined(
        self,
        next: Option<Part<'a>>,
        behind: &[u8],
    ) -> Result<Part<'a>, AllocError>
        ensures { IfOk result (λ p. (bytes : List ℕ) (total : Option ℕ) → IsPartOf bytes total self.entry → IsEndOf bytes behind.now → IfSome next.entry (IsPartOf behind.now total) → IsPartOf bytes total p) }
    {
        let Some(next) = next else {
            return Ok(self);
        };
        if !self.meets(&next, behind) {
            return Ok(self);
        }
        self.merged(next)
    }

    /// Whether this part ends where the bytes behind begin, its last input is below the first one there, and one page could
    /// take both.
    fn meets(&self, next: &Part<'_>, behind: &[u8]) -> bool
        ensures end { IsTrue result → length self.now.rest.now ≡ length behind.now }
        ensures above { IsTrue result → is_lt (bytes_cmp self.now.last.now next.now.first.now) ≡ true }
        ensures few { IsTrue result → self.now.inputs + next.now.inputs ≤ most_inputs }
    {
        self.rest.len() == behind.len()
            && is_below(self.last, next.first)
            && self.inputs <= PAGE_INPUTS
            && next.inputs <= PAGE_INPUTS - self.inputs
    }

    /// This part and the one behind as one.
    fn merged(self, mut next: Part<'a>) -> Result<Part<'a>, AllocError>
        requires few { self.inputs + next.inputs ≤ most_inputs }
        ensures { IfOk result (IsJoined self.entry next.entry) }
    {
        let mut points = self.points;
        points.append(&mut next.points)?;
        Ok(Part {
            first: self.first,
            last: next.last,
            inputs: self.inputs + next.inputs,
            points,
            rest: next.rest,
        })
    }
}

/// Reads the plain lines that stand first, up to the one behind which no more than so many bytes are left, or to the last that
/// one page could take. None where no plain line stands first.
pub(crate) fn read_part<'a>(
    alloc: Global,
    bytes: &'a [u8],
    stop: usize,
    total: Option<u32>,
) -> Result<Option<Part<'a>>, AllocError>
    requires { IfSome total IsRuleTotal }
    ensures { IfOk result (λ r. IfSome r (IsPartOf bytes.now total)) }
{
    let room = bytes.len().saturating_sub(stop) / USUAL_BYTES;
    let Some(mut part) = first_line(alloc, bytes, total, room)? else {
        return Ok(None);
    };
    while part.rest.len() > stop {
        if !part.take_next(total)? {
            return Ok(Some(part));
        }
    }
    Ok(Some(part))
}

/// The part of the first line alone, where it is plain, with room for so many points where inputs are counted.
fn first_line<'a>(
    alloc: Global,
    bytes: &'a [u8],
    total: Option<u32>,
    room: usize,
) -> Result<Option<Part<'a>>, AllocError>
    requires { IfSome total IsRuleTotal }
    ensures { IfOk result (λ r. IfSome r (IsPart bytes.now total [])) }
{
    let Some((first, rest)) = short_line(bytes) else {
        return Ok(None);
    };
    let room = if total.is_some() { room } else { 0 };
    let mut points = Vec::with_capacity(alloc, room)?;
    push_point(&mut points, total, first)?;
    Ok(Some(Part {
        first,
        last: first,
        inputs: 1,
        points,
        rest,
    }))
}

/// The point of an input, where inputs are counted.
fn push_point(points: &mut Vec<u32>, total: Option<u32>, input: &[u8]) -> Result<(), AllocError>
    requires { IfSome total IsRuleTotal }
    ensures { OnOk result (points.new.items ≡ points.old.items ++ points_if total (input.now ∷ [])) }
{
    if let Some(total) = total {
        points.push(scale(total, hash(input, 0)))?;
    }
    Ok(())
}
