//! The way from the root of a tree to a place in it.
use crate::quoting::quoted_step;
use logic_ast::is_fractional;
use std::alloc::{AllocError, Global};
use text_spans::Step;

/// The most steps to a place: no text that is read nests deeper.
const MOST_STEPS: usize = flag_text::JSON_LEVELS;

/// The way to a place, which a search notes from its end back to the root once it found the place.
#[derive(Drop)]
pub(crate) struct Way<'a> {
    /// The step to the place itself comes first.
    steps: [Step<'a>; MOST_STEPS],
    count: usize,
}

impl<'a> Way<'a> {
    /// No steps: the way to the root.
    pub(crate) fn new() -> Way<'a> {
        Way {
            steps: [Step::Index(0); MOST_STEPS],
            count: 0,
        }
    }

    /// Puts a step before those that are noted.
    pub(crate) fn begin_with(&mut self, step: Step<'a>) {
        if self.count < MOST_STEPS {
            self.steps[self.count] = step;
            self.count += 1;
        }
    }

    /// The steps behind others: a path from the root where those lead from it to where the way begins.
    pub(crate) fn path(
        &self,
        alloc: Global,
        before: &[Step<'a>],
    ) -> Result<Vec<Step<'a>>, AllocError> {
        let mut path = Vec::new(alloc);
        for step in before {
            path.push(*step)?;
        }
        for n in (0..self.count).rev() {
            if let Some(step) = self.steps.get(n) {
                path.push(*step)?;
            }
        }
        Ok(path)
    }

    /// Whether it leads to the weight of a bucket.
    pub(crate) fn ends_at_weight(&self) -> bool {
        match (self.steps.get(0), self.steps.get(2)) {
            (Some(Step::Index(1)), Some(Step::Name(name))) => {
                self.count >= 3 && is_fractional(name)
            }
            _ => false,
        }
    }

    /// The steps from the root on. Behind more than so many bytes, dots stand for the steps that are left.
    pub(crate) fn text(&self, alloc: Global, most: usize) -> Result<String, AllocError> {
        let mut text = String::new(alloc);
        for n in (0..self.count).rev() {
            if text.len() > most {
                text.push_str("..")?;
                break;
            }
            match self.steps.get(n) {
                Some(Step::Index(place)) => write!(text, "[{place}]")?,
                Some(Step::Name(name)) => text.push_str(quoted_step(alloc, name)?.as_str())?,
                None => {}
            }
        }
        Ok(text)
    }
}
