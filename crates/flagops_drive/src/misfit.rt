//! What keeps a tree from being a list of asks, and where.
ghost use Rattle.std.specs.Prelude.{◌≡◌};
ghost use Rattle.flag_text.specs.View.{items_view, view};
ghost use Rattle.flagops_drive.specs.Misfit.{ask_misfit, first_misfit, is_read, misfit_of, name_of, unless_few, unless_read};

use crate::asks::MOST_ASKS;
use crate::reading::{context_in, default_in, key_in, moment_in, want_in};
use flag_text::Tree;

/// A member of an ask.
#[derive(Clone, Copy, Debug, PartialEq, Eq)]
pub enum AskMember {
    Key,
    Want,
    Default,
    Context,
    Moment,
}

impl AskMember {
    /// Its name in the object of an ask.
    pub fn name(self) -> &'static str
        ensures { result.now ≡ name_of self }
    {
        match self {
            AskMember::Key => "key",
            AskMember::Want => "want",
            AskMember::Default => "default",
            AskMember::Context => "context",
            AskMember::Moment => "moment",
        }
    }
}

/// What keeps a tree from being a list of asks. Places are counted from 0.
#[derive(Clone, Copy, Debug, PartialEq, Eq)]
pub enum Misfit {
    /// It is no list.
    NoList,
    /// The item at this place has no such member; what is no object has none.
    Lacks(usize, AskMember),
    /// This member of the item at this place is not of its form.
    Misshapen(usize, AskMember),
    /// It has 2^32 items or more.
    TooMany,
}

impl Misfit {
    /// The first misfit of a tree: that of the first item that is no ask, and of its members in the order of `AskMember`, or
    /// else that there are too many. There is none exactly where the tree is a list of asks.
    pub fn of(tree: &Tree) -> Option<Misfit>
        ensures { result ≡ misfit_of (view tree.now) }
    {
        match tree {
            Tree::List(items) => first_misfit(items.as_slice()).or(unless_few(items.len())),
            _ => Some(Misfit::NoList),
        }
    }
}

/// The misfit of the first item that is no ask.
fn first_misfit(items: &[Tree]) -> Option<Misfit>
    ensures { result ≡ first_misfit 0 (items_view items.now) }
{
    for (place, item) in items.iter().enumerate() {
        if let Some(misfit) = ask_misfit(place, item) {
            return Some(misfit);
        }
    }
    None
}

/// The first member that keeps the item at a place from being an ask.
fn ask_misfit(place: usize, item: &Tree) -> Option<Misfit>
    ensures { result ≡ ask_misfit place (view item.now) }
{
    unless_read(place, item, AskMember::Key)
        .or(unless_read(place, item, AskMember::Want))
        .or(unless_read(place, item, AskMember::Default))
        .or(unless_read(place, item, AskMember::Context))
        .or(unless_read(place, item, AskMember::Moment))
}

fn unless_read(place: usize, item: &Tree, member: AskMember) -> Option<Misfit>
    ensures { result ≡ unless_read place (view item.now) member }
{
    if is_read(item, member) {
        None
    } else if item.member(member.name()).is_some() {
        Some(Misfit::Misshapen(place, member))
    } else {
        Some(Misfit::Lacks(place, member))
    }
}

/// Whether a member of an ask is there, and of its form.
fn is_read(item: &Tree, member: AskMember) -> bool
    ensures { result ≡ is_read (view item.now) member }
{
    match member {
        AskMember::Key => key_in(item).is_some(),
        AskMember::Want => want_in(item).is_some(),
        AskMember::Default => default_in(item).is_some(),
        AskMember::Context => context_in(item).is_some(),
        AskMember::Moment => moment_in(item).is_some(),
    }
}

fn unless_few(count: usize) -> Option<Misfit>
    ensures { result ≡ unless_few count }
{
    if count > MOST_ASKS {
        Some(Misfit::TooMany)
    } else {
        None
    }
}
