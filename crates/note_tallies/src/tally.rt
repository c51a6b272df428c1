//! A tally, line by line.
ghost use Rattle.std.specs.Prelude.{◌≡◌, ◌≢◌, ◌<◌, ◌++◌, ◌∷◌, [], ℕ, List, Option, true, false, option_map, IfOk, OnOk, OnErr, IfErr, MatchOption, None, Ok, Err};
ghost use Rattle.page_tally.specs.Folding.{is_above_last};
ghost use Rattle.note_lines.specs.Hashed.{Hashed, IsHashed, hashed_line};
ghost use Rattle.note_lines.specs.Note.{Noted, IsNote, note_line};
ghost use Rattle.note_tallies.specs.Tally.{IsLineOn, IsTallyTotal};
ghost use Rattle.note_tallies.specs.Last.{last_line};
ghost use Rattle.note_tallies.specs.Lines.{untallied, passed, has_room, finished, is_alike, with_point};
ghost use Rattle.note_tallies.specs.Place.{IsPlace};
ghost use Rattle.note_tallies.specs.Refusals.{Refuses, SaysNothing, TakesSaid};

use crate::fault::LineTallyFault;
use crate::page_lines::PageLines;
use crate::place::Place;
use crate::{MOST_AT_POINT, MOST_IN_ALL, PageTally};
use book_core::Page;
use bucket_core::{point, scale};
use note_lines::{has_hash, read_hashed_note, read_note};
use std::alloc::{AllocError, Global};
use std::marker::Model;
use std::mem;

/// How many inputs of one page fall on each of so many points, of the note lines so far.
#[derive(Drop)]
pub struct LineTally {
    page: PageLines,
    total: u32,
    before: Option<Vec<u8>>,
    first: Option<Vec<u8>>,
    last: LastCounted,
    inputs: u64,
    counts: Vec<u32>,
    // room for the next line
    spare: Vec<u8>,
}

/// The last line that was counted.
#[derive(Drop)]
enum LastCounted {
    /// There is none.
    Nothing,
    /// The last line of all.
    Before,
    /// A line that others came after.
    Line(Vec<u8>),
}

impl LastCounted {
    /// The line, where the last line of all is this one.
    fn line(self, before: Option<Vec<u8>>) -> Option<Vec<u8>>
        ensures { option_map (λ v. v.items) result ≡ last_line self (option_map (λ v. v.items) before) }
    {
        match self {
            LastCounted::Nothing => None,
            LastCounted::Before => before,
            LastCounted::Line(line) => Some(line),
        }
    }
}

impl LastCounted {
    /// The same line, once another one has come after the last of all, which was this.
    fn passed(self, before: Option<Vec<u8>>) -> LastCounted
        ensures { (next : Option (List ℕ)) → last_line result next ≡ last_line self (option_map (λ v. v.items) before) }
    {
        match self.line(before) {
            None => LastCounted::Nothing,
            Some(line) => LastCounted::Line(line),
        }
    }
}

impl Model for LineTally {
    ghost use Rattle.std.specs.Prelude.{option_map};
    ghost use Rattle.note_tallies.specs.Last.{last_line};
    ghost use Rattle.note_tallies.specs.Lines.{Tallied, IsTally};

    ghost Value = { Tallied };

    ghost view = { λ t. record { page = t.page; total = t.total; before = option_map (λ v. v.items) t.before; first = option_map (λ v. v.items) t.first; last = last_line t.last (option_map (λ v. v.items) t.before); inputs = t.inputs; counts = t.counts.items } };

    ghost invariant = { λ t. IsTally (record { page = t.page; total = t.total; before = option_map (λ v. v.items) t.before; first = option_map (λ v. v.items) t.first; last = last_line t.last (option_map (λ v. v.items) t.before); inputs = t.inputs; counts = t.counts.items }) };
}

impl LineTally {
    /// The tally of no line. The condition is a total from 1 to 1,000,000.
    pub fn new(alloc: Global, page: Page, total: u32) -> Result<LineTally, AllocError>
        requires { IsTallyTotal total }
        ensures { IfOk result (λ tally. tally ≡ untallied page total) }
    {
        let page = PageLines::new(alloc, page)?;
        let counts = vec![in alloc; 0u32; total as usize]?;
        Ok(LineTally {
            page,
            total,
            before: None,
            first: None,
            last: LastCounted::Nothing,
            inputs: 0,
            counts,
            spare: Vec::new(alloc),
        })
    }

    /// Takes the next line, with its line feed: one with an input, or one with the hash of an input in its place. A line of the
    /// page is counted at the point of its hash, a line of another page is passed over.
    ///
    /// Refusals, in this order: `Line` where it is the line of no note; `Order` where it is not above the line before it;
    /// `Mixed` where one of both has an input and the other a hash; `TooMany`. A refused line leaves the tally as it was. That a
    /// line without a line feed is none takes no memory.
    pub fn take(&mut self, alloc: Global, line: &[u8]) -> Result<(), LineTallyFault>
        ensures taken { OnOk result (TakesSaid self.old line.now self.new) }
        ensures refused { IfErr result (λ fault. Refuses self.old line.now fault) }
        ensures unended { ((text : List ℕ) → line.now ≢ text ++ 10 ∷ []) → result ≡ Err LineTallyFault.Line }
        ensures same { OnErr result (self.new ≡ self.old) }
    {
        let Some(place) = self.place_of(alloc, line)? else {
            return Err(LineTallyFault::Line);
        };
        if !self.is_next(line) {
            return Err(LineTallyFault::Order);
        }
        if !self.is_alike(line) {
            return Err(LineTallyFault::Mixed);
        }
        self.take_at(alloc, line, place)
    }

    /// The tally of the lines so far.
    pub fn finish(self) -> PageTally
        ensures { result ≡ finished self }
    {
        let LineTally {
            page,
            total,
            before,
            first,
            last,
            inputs,
            counts,
            spare: _spare,
        } = self;
        PageTally {
            page: page.into_page(),
            total,
            first,
            last: last.line(before),
            inputs,
            counts,
        }
    }

    /// Whether a line is above the one before it.
    fn is_next(&self, line: &[u8]) -> bool
        ensures { result ≡ is_above_last self.now.before line.now }
    {
        match &self.before {
            None => true,
            Some(before) => before.as_slice().cmp(line).is_lt(),
        }
    }

    /// Whether a line has an input as the one before it, or a hash as that.
    fn is_alike(&self, line: &[u8]) -> bool
        ensures { result ≡ is_alike self.now.before line.now }
    {
        match &self.before {
            None => true,
            Some(before) => has_hash(before.as_slice()) == has_hash(line),
        }
    }

    /// Where a line is counted; none where it is the line of no note.
    fn place_of(&self, alloc: Global, line: &[u8]) -> Result<Option<Place>, AllocError>
        ensures place { IfOk result (λ r. MatchOption r (SaysNothing line.now) (IsPlace self.now line.now)) }
        ensures unended { ((text : List ℕ) → line.now ≢ text ++ 10 ∷ []) → result ≡ Ok None }
    {
        if let Some(input) = self.page.plain_input(line) {
            return Ok(Some(Place::Own(point(self.total, input))));
        }
        if has_hash(line) {
            self.place_of_hash(alloc, line)
        } else {
            self.place_of_input(alloc, line)
        }
    }

    /// The same of a line with an input.
    fn place_of_input(&self, alloc: Global, line: &[u8]) -> Result<Option<Place>, AllocError>
        ensures place { IfOk result (λ r. MatchOption r ((note : Noted) → IsNote note → line.now ≢ note_line note) (IsPlace self.now line.now)) }
        ensures unended { ((text : List ℕ) → line.now ≢ text ++ 10 ∷ []) → result ≡ Ok None }
    {
        let Some(note) = read_note(alloc, line)? else {
            return Ok(None);
        };
        if note.page != *self.page.page() {
            return Ok(Some(Place::Other));
        }
        Ok(Some(Place::Own(point(self.total, note.input.as_str()))))
    }

    /// The same of a line with a hash.
    fn place_of_hash(&self, alloc: Global, line: &[u8]) -> Result<Option<Place>, AllocError>
        ensures place { IfOk result (λ r. MatchOption r ((note : Hashed) → IsHashed note → line.now ≢ hashed_line note) (IsPlace self.now line.now)) }
        ensures unended { ((text : List ℕ) → line.now ≢ text ++ 10 ∷ []) → result ≡ Ok None }
    {
        let Some(note) = read_hashed_note(alloc, line)? else {
            return Ok(None);
        };
        if note.page != *self.page.page() {
            return Ok(Some(Place::Other));
        }
        Ok(Some(Place::Own(scale(self.total, note.hash))))
    }

    /// Takes a line that is above the one before it and of its kind.
    fn take_at(&mut self, alloc: Global, line: &[u8], place: Place) -> Result<(), LineTallyFault>
        requires above { is_above_last self.old.before line.now ≡ true }
        requires alike { is_alike self.old.before line.now ≡ true }
        requires place { IsPlace self.old line.now place }
        ensures taken { OnOk result (TakesSaid self.old line.now self.new) }
        ensures refused { IfErr result (λ fault. Refuses self.old line.now fault) }
        ensures same { OnErr result (self.new ≡ self.old) }
    {
        match place {
            Place::Own(at) => self.count(alloc, line, at),
            Place::Other => self.pass(alloc, line),
        }
    }

    /// Passes over a line.
    fn pass(&mut self, alloc: Global, line: &[u8]) -> Result<(), LineTallyFault>
        requires above { is_above_last self.old.before line.now ≡ true }
        requires alike { is_alike self.old.before line.now ≡ true }
        ensures passed { OnOk result (self.new ≡ passed self.old line.now) }
        ensures want { IfErr result (λ fault. fault ≡ LineTallyFault.WantOfMemory) }
        ensures same { OnErr result (self.new ≡ self.old) }
    {
        let next = copy_into(&mut self.spare, alloc, line)?;
        let before = mem::replace(&mut self.before, Some(next));
        let last = mem::replace(&mut self.last, LastCounted::Nothing);
        self.last = last.passed(before);
        Ok(())
    }

    /// Counts a line of the page at its point.
    fn count(&mut self, alloc: Global, line: &[u8], at: u32) -> Result<(), LineTallyFault>
        requires above { is_above_last self.old.before line.now ≡ true }
        requires alike { is_alike self.old.before line.now ≡ true }
        requires line { IsLineOn self.old.page line.now }
        requires below { at < self.old.total }
        ensures counted { OnOk result (with_point self.old line.now at ≡ Ok self.new) }
        ensures refused { IfErr result (λ fault. fault ≢ LineTallyFault.WantOfMemory → with_point self.old line.now at ≡ Err fault) }
        ensures full { has_room self.old at ≡ false → result ≡ Err LineTallyFault.TooMany }
        ensures same { OnErr result (self.new ≡ self.old) }
    {
        let at = at as usize;
        if self.inputs >= MOST_IN_ALL || self.counts[at] >= MOST_AT_POINT {
            return Err(LineTallyFault::TooMany);
        }
        let next = copy_into(&mut self.spare, alloc, line)?;
        if self.first.is_none() {
            self.first = Some(line.to_vec(alloc)?);
        }
        let before = mem::replace(&mut self.before, Some(next));
        put_back(&mut self.spare, before);
        self.last = LastCounted::Before;
        self.inputs += 1;
        self.counts[at] += 1;
        Ok(())
    }
}

/// Keeps the room of a line for the next one.
fn put_back(spare: &mut Vec<u8>, line: Option<Vec<u8>>) {
    if let Some(line) = line {
        *spare = line;
    }
}

/// A copy of a line, in the room that is spare.
fn copy_into(spare: &mut Vec<u8>, alloc: Global, line: &[u8]) -> Result<Vec<u8>, AllocError>
    ensures { IfOk result (λ copy. copy.items ≡ line.now) }
{
    let mut copy = mem::replace(spare, Vec::new(alloc));
    copy.clear();
    copy.extend_from_slice(line)?;
    Ok(copy)
}
