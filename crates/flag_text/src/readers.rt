//! The parts of a tree by kind and name.
ghost use Rattle.std.specs.Prelude.{◌≡◌, option_map, option_copied};
ghost use Rattle.flag_text.specs.Readers.{as_bool, as_whole, as_text, as_list, as_object, find_member, member_of};
ghost use Rattle.flag_text.specs.View.{view, items_view, members_view};

use crate::tree::Tree;

impl Tree {
    /// The truth value, of a boolean.
    pub fn as_bool(&self) -> Option<bool>
        ensures { result ≡ as_bool (view self.now) }
    {
        match self {
            Tree::Bool(b) => Some(*b),
            _ => None,
        }
    }

    /// The number, of a whole number.
    pub fn as_whole(&self) -> Option<i64>
        ensures { result ≡ as_whole (view self.now) }
    {
        match self {
            Tree::Whole(n) => Some(*n),
            _ => None,
        }
    }

    /// The text, of a text.
    pub fn as_text(&self) -> Option<&str>
        ensures { option_copied result ≡ as_text (view self.now) }
    {
        match self {
            Tree::Text(text) => Some(text.as_str()),
            _ => None,
        }
    }

    /// The items, of a list.
    pub fn as_list(&self) -> Option<&[Tree]>
        ensures { option_map (λ ts. items_view ts.now) result ≡ as_list (view self.now) }
    {
        match self {
            Tree::List(items) => Some(items.as_slice()),
            _ => None,
        }
    }

    /// The members, of an object, in their order.
    pub fn as_object(&self) -> Option<&[(String, Tree)]>
        ensures { option_map (λ ms. members_view ms.now) result ≡ as_object (view self.now) }
    {
        match self {
            Tree::Object(members) => Some(members.as_slice()),
            _ => None,
        }
    }

    /// The member of this name, of an object that has one. It looks at the members one by one.
    pub fn member(&self, name: &str) -> Option<&Tree>
        ensures { option_map (λ t. view t.now) result ≡ member_of name.now (view self.now) }
    {
        match self {
            Tree::Object(members) => find_member(members.as_slice(), name),
            _ => None,
        }
    }
}

fn find_member<'a>(members: &'a [(String, Tree)], name: &str) -> Option<&'a Tree>
    ensures { option_map (λ t. view t.now) result ≡ find_member name.now (members_view members.now) }
{
    for (key, member) in members {
        if key.as_str() == name {
            return Some(member);
        }
    }
    None
}
