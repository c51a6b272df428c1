//! The diagnostic of what is wrong in a flag's member, or in the evaluators that it refers to.
use crate::evaluators::{Causes, references};
use crate::lines::Lines;
use crate::numbers::{may_have_fraction, put_number, spelled_at};
use crate::search::{Sought, Wrong, first_wrong};
use crate::way::Way;
use flag_text::Tree;
use logic_ast::Misuse;
use std::alloc::{AllocError, Global};
use std::collections::BTreeMap;
use text_spans::Step;

/// How many numbers of a document are shown as they are spelled: for each the document is read again.
const MOST_SPELLED: usize = 8;

/// The operators of JsonLogic that are not taken.
const LEFT_OUT: &[&str] = &["/", "?:", "log"];

/// What is sought in the members of flags and in the evaluators that they refer to.
#[derive(Drop)]
pub(crate) struct Referred<'a> {
    /// The document.
    bytes: &'a [u8],
    /// How many more numbers are shown as they are spelled.
    spellings: usize,
    sought: Sought<'a>,
    evaluators: &'a [(String, Tree)],
    /// The nearest to each evaluator, once a flag refers to what is sought.
    causes: Option<Causes<'a>>,
    /// The words on an evaluator that were made so far, by its place.
    words: BTreeMap<usize, String>,
}

impl<'a> Referred<'a> {
    pub(crate) fn new(
        alloc: Global,
        bytes: &'a [u8],
        evaluators: &'a [(String, Tree)],
        sought: Sought<'a>,
    ) -> Referred<'a> {
        Referred {
            bytes,
            spellings: MOST_SPELLED,
            sought,
            evaluators,
            causes: None,
            words: BTreeMap::new(alloc),
        }
    }

    /// The first place at which something is wrong in the member at this path, or in the evaluators that it refers to.
    pub(crate) fn put<'x>(
        &mut self,
        lines: &mut Lines,
        path: &[Step<'x>],
        member: Option<&'x Tree>,
    ) -> Result<(), AllocError> {
        if let Some(tree) = member {
            let mut way = Way::new();
            if let Some(wrong) = first_wrong(tree, self.sought, &mut way) {
                let shown = way.text(lines.alloc, usize::MAX)?;
                write!(lines, "{shown}");
                return self.put_wrong(lines, path, &way, wrong, "");
            }
            if let Some(place) = self.nearest(lines.alloc, tree)? {
                return self.put_evaluator(lines, place);
            }
            // what is wrong is then in what the tree refers to, where it refers to anything
            if let Some(name) = references(lines.alloc, tree)?.first() {
                let name = lines.name(name);
                write!(lines, ", or what it refers to (first {name}),");
            }
        }
        write!(lines, " has {}", unplaced(self.sought));
        Ok(())
    }

    /// The place of the nearest evaluator with what is sought that a tree refers to.
    fn nearest(&mut self, alloc: Global, tree: &Tree) -> Result<Option<usize>, AllocError> {
        if self.causes.is_none() {
            self.causes = Some(Causes::find(alloc, self.evaluators, self.sought)?);
        }
        match &self.causes {
            Some(causes) => causes.nearest(alloc, tree),
            None => Ok(None),
        }
    }

    /// The evaluator at a place, which is searched but once.
    fn put_evaluator(&mut self, lines: &mut Lines, place: usize) -> Result<(), AllocError> {
        if self.words.get(&place).is_none() {
            let text = self.text_at(lines.alloc, place)?;
            self.words.insert(place, text)?;
        }
        if let Some(words) = self.words.get(&place) {
            write!(lines, "{words}");
        }
        Ok(())
    }

    fn text_at(&mut self, alloc: Global, place: usize) -> Result<String, AllocError> {
        let evaluators = self.evaluators;
        let mut lines = Lines::new(alloc);
        if let Some((key, tree)) = evaluators.get(place) {
            let key = key.as_str();
            let mut way = Way::new();
            if let Some(wrong) = first_wrong(tree, self.sought, &mut way) {
                let shown = way.text(alloc, usize::MAX)?;
                write!(lines, " refers to $evaluators{}{shown}", lines.step(key));
                let path = [Step::Name("$evaluators"), Step::Name(key)];
                self.put_wrong(&mut lines, path.as_slice(), &way, wrong, ", which")?;
            }
        }
        lines.finish()
    }

    /// What is wrong at the end of a way from the value at a path, after a word for the place.
    fn put_wrong<'x>(
        &mut self,
        lines: &mut Lines,
        path: &[Step<'x>],
        way: &Way<'x>,
        wrong: Wrong<'_>,
        which: &str,
    ) -> Result<(), AllocError> {
        match wrong {
            Wrong::Number => {
                let path = way.path(lines.alloc, path)?;
                write!(lines, "{which}");
                let spelled = self.spelling_at(lines.alloc, path.as_slice())?;
                put_number(lines, spelled);
                if way.ends_at_weight() && may_have_fraction(spelled) {
                    write!(lines, "; multiply all weights alike until each is whole");
                }
            }
            Wrong::Reference(name) => write!(
                lines,
                "{which} refers to {}, not an evaluator; known evaluators: {}",
                lines.name(name),
                lines.listed(self.evaluators),
            ),
            Wrong::Misuse(name, misuse) => put_misuse(lines, name, misuse),
            Wrong::Levels => write!(lines, "{which} nests too deep"),
        }
        Ok(())
    }

    /// How the number at a path of the document is spelled, of as many numbers as are looked for.
    fn spelling_at(
        &mut self,
        alloc: Global,
        path: &[Step<'_>],
    ) -> Result<Option<&'a str>, AllocError> {
        if self.spellings == 0 {
            return Ok(None);
        }
        self.spellings -= 1;
        spelled_at(alloc, self.bytes, path)
    }

    /// Why the number at a path of the document is not taken.
    pub(crate) fn put_number(
        &mut self,
        lines: &mut Lines,
        path: &[Step<'_>],
    ) -> Result<(), AllocError> {
        let spelled = self.spelling_at(lines.alloc, path)?;
        put_number(lines, spelled);
        Ok(())
    }
}

/// What is wrong with the operation of this name itself.
fn put_misuse(lines: &mut Lines, name: &str, misuse: Misuse) {
    let is_left_out = LEFT_OUT.iter().any(|operator| *operator == name);
    let name = lines.name(name);
    match misuse {
        Misuse::Operator if is_left_out => {
            write!(lines, ": JsonLogic's operator {name} is left out here");
        }
        Misuse::Operator => write!(lines, ": the operator {name} is unknown"),
        Misuse::Arguments(count) => {
            write!(
                lines,
                ": the operator {name} does not take {count} arguments"
            );
        }
        Misuse::Bucket(place) => {
            write!(
                lines,
                ": argument {place} of {name} is not a bucket [name, weight]"
            );
        }
    }
}

/// What is wrong where no place was found.
fn unplaced(sought: Sought<'_>) -> &'static str {
    match sought {
        Sought::NotWhole => "a number that is not whole, or a $ref to no evaluator",
        Sought::Unknown(_) => "a $ref back to itself, or to no evaluator",
        Sought::Misuse => "an operator that is unknown or has wrong arguments",
        Sought::Within(_) => "too many levels",
    }
}
