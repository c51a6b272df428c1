//! The member of a name among members whose names are sorted and distinct, by halving.
ghost use Rattle.std.specs.Prelude.{◌≡◌, ◌<◌, true, length, Some, None, IfSome, MatchOption, option_map, string_bytes};
ghost use Rattle.std.specs.List.{HoldsAt};
ghost use Rattle.flag_text.specs.Readers.{find_member};
ghost use Rattle.flag_text.specs.Shape.{names_rise};
ghost use Rattle.flag_text.specs.View.{view, members_view};

use crate::tree::Tree;

/// The place of the member of this name, if there is one. The condition is that the names rise
/// strictly, as they do in each object that was read. It compares about log2 of the members' number
/// of names.
pub fn position_of(members: &[(String, Tree)], name: &str) -> Option<usize>
    requires rising { names_rise (members_view members.now) ≡ true }
    ensures within { IfSome result (λ i. i < length members.now) }
    ensures named { IfSome result (HoldsAt (λ m. string_bytes m.0 ≡ name.now) members.now) }
    ensures found { MatchOption result (find_member name.now (members_view members.now) ≡ None)
        (HoldsAt (λ m. find_member name.now (members_view members.now) ≡ Some (view m.1)) members.now) }
{
    match members.binary_search_by(|(key, _)| key.as_str().cmp(name)) {
        Ok(i) => Some(i),
        Err(_) => None,
    }
}

/// The value of the member of this name, if there is one, found as [`position_of`] finds it.
pub fn member_by_halving<'a>(members: &'a [(String, Tree)], name: &str) -> Option<&'a Tree>
    requires rising { names_rise (members_view members.now) ≡ true }
    ensures found { option_map (λ t. view t.now) result ≡ find_member name.now (members_view members.now) }
{
    let i = position_of(members, name)?;
    Some(&members[i].1)
}
