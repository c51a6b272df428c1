//! Which members are read of an object, and the first that is not.
ghost use Rattle.std.specs.Prelude.{◌≡◌, map, option_map, IfSome, true};
ghost use Rattle.flag_text.specs.View.{view, members_view};
ghost use Rattle.member_names.specs.Unread.{first_unread, is_among, member_names, reads, unread_of};

use crate::near::is_near;
use flag_text::Tree;

/// What reads an object by the names of its members.
#[derive(Clone, Copy, Debug, PartialEq, Eq)]
pub enum Reader {
    /// The reading of a rollout request.
    Request,
    /// The reading of an ask.
    Ask,
    /// The reading of a flag document.
    Document,
    /// The reading of a flag's definition.
    Definition,
}

impl Reader {
    /// The names of the members that are taken.
    pub fn names(self) -> &'static [&'static str]
        ensures { map (λ n. n.now) result.now ≡ member_names self }
    {
        match self {
            Reader::Request => REQUEST,
            Reader::Ask => ASK,
            Reader::Document => DOCUMENT,
            Reader::Definition => DEFINITION,
        }
    }

    /// Whether the member of this name is taken.
    pub fn reads(self, name: &str) -> bool
        ensures { result ≡ reads self name.now }
    {
        is_among(self.names(), name)
    }

    /// The first member of an object that is not taken, in the order of the names. What is no object has none.
    pub fn unread(self, tree: &Tree) -> Option<&str>
        ensures { option_map (λ n. n.now) result ≡ unread_of self (view tree.now) }
    {
        first_unread(self, tree.as_object()?)
    }

    /// The member that is taken and whose name is near this one: it begins with it or is its beginning, or a letter of it
    /// is missing, one too many, another one, or exchanged with the next.
    pub fn meant(self, name: &str) -> Option<&'static str>
        ensures { IfSome result (λ n. reads self n.now ≡ true) }
    {
        for known in self.names() {
            if is_near(name, known) && self.reads(known) {
                return Some(known);
            }
        }
        None
    }
}

const REQUEST: &[&str] = &[
    "plan", "flag", "site", "totals", "price", "prices", "forbid",
];

const ASK: &[&str] = &["key", "want", "default", "context", "moment"];

const DOCUMENT: &[&str] = &["flags", "$evaluators", "$schema", "metadata"];

const DEFINITION: &[&str] = &[
    "state",
    "variants",
    "defaultVariant",
    "targeting",
    "metadata",
];

fn is_among(names: &[&str], name: &str) -> bool
    ensures { result ≡ is_among (map (λ n. n.now) names.now) name.now }
{
    for known in names {
        if name == *known {
            return true;
        }
    }
    false
}

fn first_unread(reader: Reader, members: &[(String, Tree)]) -> Option<&str>
    ensures { option_map (λ n. n.now) result ≡ first_unread reader (members_view members.now) }
{
    for (name, _) in members {
        if !reader.reads(name.as_str()) {
            return Some(name.as_str());
        }
    }
    None
}
