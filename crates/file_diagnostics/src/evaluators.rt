//! For each evaluator of a document the nearest place at which something is wrong, in itself or in those that it refers to.
//!
//! One search for the whole document finds them, backward from the evaluators in which something is wrong: it looks at each
//! reference twice, however many flags refer to them.
use crate::search::{Sought, first_wrong, position};
use crate::way::Way;
use flag_references::reference_of;
use flag_text::Tree;
use std::alloc::{AllocError, Global};

/// How many references lead from an evaluator to the nearest in which something is wrong, and the place of that one.
#[derive(Clone, Copy)]
struct Nearest {
    steps: usize,
    place: usize,
}

/// The evaluators, each with the nearest that has what is sought. Of two that are as near, the one that is referred to first.
#[derive(Drop)]
pub(crate) struct Causes<'a> {
    evaluators: &'a [(String, Tree)],
    nearest: Vec<Option<Nearest>>,
}

impl<'a> Causes<'a> {
    /// `O(references · log evaluators)`.
    pub(crate) fn find(
        alloc: Global,
        evaluators: &'a [(String, Tree)],
        sought: Sought<'_>,
    ) -> Result<Causes<'a>, AllocError> {
        let mut causes = Causes {
            evaluators,
            nearest: Vec::new(alloc),
        };
        let mut reached = causes.begin(alloc, sought)?;
        let links = links_among(alloc, evaluators)?;
        for turn in 0..evaluators.len() {
            let Some(place) = reached.get(turn).copied() else {
                break;
            };
            let steps = causes.settle(alloc, place)?;
            for link in links_to(links.as_slice(), place) {
                if causes.at(link.from).is_none() {
                    causes.set(link.from, steps.saturating_add(1), place);
                    reached.push(link.from)?;
                }
            }
        }
        Ok(causes)
    }

    /// The places of the evaluators that have themselves what is sought.
    fn begin(&mut self, alloc: Global, sought: Sought<'_>) -> Result<Vec<usize>, AllocError> {
        let mut places = Vec::new(alloc);
        for (place, (_, tree)) in self.evaluators.iter().enumerate() {
            let mut way = Way::new();
            match first_wrong(tree, sought, &mut way) {
                Some(_) => {
                    self.nearest.push(Some(Nearest { steps: 0, place }))?;
                    places.push(place)?;
                }
                None => self.nearest.push(None)?,
            }
        }
        Ok(places)
    }

    /// Gives an evaluator that was reached by a reference the nearest of those that it refers to, all of which with fewer steps
    /// were settled before it. It answers its steps.
    fn settle(&mut self, alloc: Global, place: usize) -> Result<usize, AllocError> {
        let evaluators = self.evaluators;
        match (self.at(place), evaluators.get(place)) {
            (Some(reached), Some((_, tree))) if reached.steps > 0 => {
                if let Some(nearest) = self.nearest(alloc, tree)? {
                    self.set(place, reached.steps, nearest);
                }
                Ok(reached.steps)
            }
            _ => Ok(0),
        }
    }

    fn at(&self, evaluator: usize) -> Option<Nearest> {
        *self.nearest.get(evaluator)?
    }

    fn set(&mut self, evaluator: usize, steps: usize, place: usize) {
        if let Some(nearest) = self.nearest.get_mut(evaluator) {
            *nearest = Some(Nearest { steps, place });
        }
    }

    /// The place of the nearest evaluator with what is sought, of those that a tree refers to, itself or by others.
    pub(crate) fn nearest(&self, alloc: Global, tree: &Tree) -> Result<Option<usize>, AllocError> {
        let mut first: Option<Nearest> = None;
        for name in references(alloc, tree)? {
            if let Some(place) = position(self.evaluators, name) {
                first = nearer(first, self.at(place));
            }
        }
        Ok(first.map(|nearest| nearest.place))
    }
}

/// The one with fewer steps, the first where they have as many.
fn nearer(first: Option<Nearest>, other: Option<Nearest>) -> Option<Nearest> {
    match (first, other) {
        (Some(it), Some(other)) if other.steps < it.steps => Some(other),
        (Some(it), _) => Some(it),
        (None, other) => other,
    }
}

/// A reference from one evaluator to another, by their places.
#[derive(Clone, Copy)]
struct Link {
    from: usize,
    to: usize,
}

/// The references among evaluators, in the order of what they refer to.
fn links_among(alloc: Global, evaluators: &[(String, Tree)]) -> Result<Vec<Link>, AllocError> {
    let mut links = Vec::new(alloc);
    for (from, (_, tree)) in evaluators.iter().enumerate() {
        for name in references(alloc, tree)? {
            if let Some(to) = position(evaluators, name) {
                links.push(Link { from, to })?;
            }
        }
    }
    links.sort_unstable_by_key(|link| link.to);
    Ok(links)
}

/// Those of the references that are to an evaluator.
fn links_to(links: &[Link], place: usize) -> &[Link] {
    let start = links.partition_point(|link| link.to < place);
    let end = links.partition_point(|link| link.to <= place);
    links.get(start..end).unwrap_or(&[])
}

/// The names that a tree refers to itself, in the order in which it does.
pub(crate) fn references(alloc: Global, tree: &Tree) -> Result<Vec<&str>, AllocError> {
    let mut names = Vec::new(alloc);
    refer(&mut names, tree)?;
    Ok(names)
}

/// Adds the names that a tree refers to.
#[cycle(refer)]
fn refer<'a>(names: &mut Vec<&'a str>, tree: &'a Tree) -> Result<(), AllocError> {
    match tree {
        Tree::List(items) => refer_items(names, items),
        Tree::Object(members) => match reference_of(members.as_slice()) {
            Some(name) => Ok(names.push(name)?),
            None => refer_members(names, members),
        },
        _ => Ok(()),
    }
}

#[cycle(refer)]
fn refer_items<'a>(names: &mut Vec<&'a str>, items: &'a Vec<Tree>) -> Result<(), AllocError> {
    for item in items {
        refer(names, item)?;
    }
    Ok(())
}

#[cycle(refer)]
fn refer_members<'a>(
    names: &mut Vec<&'a str>,
    members: &'a Vec<(String, Tree)>,
) -> Result<(), AllocError> {
    for (_, member) in members {
        refer(names, member)?;
    }
    Ok(())
}
