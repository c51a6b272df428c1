//! The first place in a tree at which something is wrong, in preorder, and the way to it.
//!
//! One search finds both: where a part has the place, the step to the part is noted before those that lie in it.
use crate::way::Way;
use flag_references::{MisusePlace, misuse_place, reference_of};
use flag_text::Tree;
use logic_ast::Misuse;
use text_spans::Step;

/// What is looked for.
#[derive(Clone, Copy)]
pub(crate) enum Sought<'a> {
    /// A number that is not whole.
    NotWhole,
    /// A reference whose name is none of these members', which are sorted.
    Unknown(&'a [(String, Tree)]),
    /// An operation that is wrong in itself.
    Misuse,
    /// A list or an object that lies in so many levels of others.
    Within(usize),
}

impl<'a> Sought<'a> {
    /// What is sought in the parts of a list or an object.
    fn inside(self) -> Sought<'a> {
        match self {
            Sought::Within(levels) => Sought::Within(levels.saturating_sub(1)),
            _ => self,
        }
    }
}

/// What is wrong at a place.
#[derive(Clone, Copy)]
pub(crate) enum Wrong<'a> {
    /// A number that is not whole.
    Number,
    /// A reference to this name.
    Reference(&'a str),
    /// An operation of this name, wrong in itself.
    Misuse(&'a str, Misuse),
    /// It nests too deep.
    Levels,
}

/// What is wrong at the first place, the way to which is noted. Nothing is noted where there is no such place.
#[cycle(first_wrong)]
pub(crate) fn first_wrong<'a>(
    tree: &'a Tree,
    sought: Sought<'_>,
    way: &mut Way<'a>,
) -> Option<Wrong<'a>> {
    if let Sought::Misuse = sought {
        return first_misuse(tree, way);
    }
    if let Some(wrong) = wrong_at(tree, sought) {
        return Some(wrong);
    }
    match tree {
        Tree::List(items) => first_in_items(items, sought.inside(), way),
        Tree::Object(members) => first_in_members(members, sought.inside(), way),
        _ => None,
    }
}

#[cycle(first_wrong)]
fn first_in_items<'a>(
    items: &'a Vec<Tree>,
    sought: Sought<'_>,
    way: &mut Way<'a>,
) -> Option<Wrong<'a>> {
    for (place, item) in items.iter().enumerate() {
        if let Some(wrong) = first_wrong(item, sought, way) {
            way.begin_with(Step::Index(place));
            return Some(wrong);
        }
    }
    None
}

#[cycle(first_wrong)]
fn first_in_members<'a>(
    members: &'a Vec<(String, Tree)>,
    sought: Sought<'_>,
    way: &mut Way<'a>,
) -> Option<Wrong<'a>> {
    for (name, member) in members {
        if let Some(wrong) = first_wrong(member, sought, way) {
            way.begin_with(Step::Name(name.as_str()));
            return Some(wrong);
        }
    }
    None
}

/// The first operation that is wrong in itself, the way to which is noted.
#[cycle(first_misuse)]
fn first_misuse<'a>(tree: &'a Tree, way: &mut Way<'a>) -> Option<Wrong<'a>> {
    match (tree, misuse_place(tree)?) {
        (Tree::List(items), MisusePlace::Inside(place)) => {
            let wrong = first_misuse(items.get(place)?, way)?;
            way.begin_with(Step::Index(place));
            Some(wrong)
        }
        (Tree::Object(members), MisusePlace::Inside(place)) => {
            let (name, member) = members.get(place)?;
            let wrong = first_misuse(member, way)?;
            way.begin_with(Step::Name(name.as_str()));
            Some(wrong)
        }
        (Tree::Object(members), MisusePlace::Here(misuse)) => {
            let (name, _) = members.first()?;
            Some(Wrong::Misuse(name.as_str(), misuse))
        }
        _ => None,
    }
}

/// What is wrong with a tree itself.
fn wrong_at<'a>(tree: &'a Tree, sought: Sought<'_>) -> Option<Wrong<'a>> {
    match (sought, tree) {
        (Sought::NotWhole, Tree::Other) => Some(Wrong::Number),
        (Sought::Unknown(known), Tree::Object(members)) => {
            let name = reference_of(members.as_slice())?;
            match position(known, name) {
                Some(_) => None,
                None => Some(Wrong::Reference(name)),
            }
        }
        (Sought::Within(0), Tree::List(_) | Tree::Object(_)) => Some(Wrong::Levels),
        _ => None,
    }
}

/// The place of a name among members, which are sorted.
pub(crate) fn position(members: &[(String, Tree)], name: &str) -> Option<usize> {
    members
        .binary_search_by(|(key, _)| key.as_str().cmp(name))
        .ok()
}
