//! The members of an object that is being read.
ghost use Rattle.std.specs.Prelude.{◌≡◌, [], true, string_bytes, IfOk, OnOk};
ghost use Rattle.std.specs.Bool.{OnTrue};
ghost use Rattle.std.specs.Cmp.Lexicographic.{slice_cmp};
ghost use Rattle.std.specs.List.{All};
ghost use Rattle.std.specs.Ordering.{nat_cmp};
ghost use Rattle.std.specs.declared.cmp.Ordering.TheVariants.{Less};
ghost use Rattle.flag_text.specs.Grammar.{put};
ghost use Rattle.flag_text.specs.Shape.{names_rise};
ghost use Rattle.flag_text.specs.SortedMembers.{entries_of};
ghost use Rattle.flag_text.specs.View.{view, members_view};

use crate::tree::Tree;
use std::alloc::{AllocError, Global};
use std::collections::BTreeMap;
use std::mem;

/// Up to so many members are kept in a vector, in whatever order their names come.
const FEW: usize = 64;

/// The members that were read so far, sorted by name. A vector that has many goes on while the names rise, as they mostly do
/// where a program wrote the object; else they move to a map, so that each member costs a logarithm of their number.
#[derive(Drop)]
pub(crate) enum SortedMembers {
    Few(Vec<(String, Tree)>),
    Many(BTreeMap<String, Tree>),
}

impl SortedMembers {
    /// No member, and room for one: most objects of a document are operations, which have one member.
    pub(crate) fn new(alloc: Global) -> Result<SortedMembers, AllocError>
        ensures { IfOk result (λ s. entries_of s ≡ []) }
    {
        Ok(SortedMembers::Few(Vec::with_capacity(alloc, 1)?))
    }

    /// Takes a member in, in place of one of the same name.
    pub(crate) fn put(
        &mut self,
        alloc: Global,
        name: String,
        member: Tree,
    ) -> Result<(), AllocError>
        requires rising { names_rise (members_view (entries_of self.old)) ≡ true }
        ensures { OnOk result (members_view (entries_of self.new)
            ≡ put (string_bytes name) (view member) (members_view (entries_of self.old))) }
    {
        if self.is_crowded(name.as_str()) {
            self.spread(alloc)?;
        }
        match self {
            SortedMembers::Few(list) => insert(list, name, member),
            SortedMembers::Many(map) => {
                drop(map.insert(name, member)?);
                Ok(())
            }
        }
    }

    /// Whether this name would move many members of a vector.
    fn is_crowded(&self, name: &str) -> bool
        requires rising { names_rise (members_view (entries_of self.now)) ≡ true }
    {
        match self {
            SortedMembers::Few(list) => list.len() >= FEW && !is_past(list, name),
            SortedMembers::Many(_) => false,
        }
    }

    /// Moves the members to a map.
    fn spread(&mut self, alloc: Global) -> Result<(), AllocError>
        requires rising { names_rise (members_view (entries_of self.old)) ≡ true }
        ensures { OnOk result (members_view (entries_of self.new) ≡ members_view (entries_of self.old)) }
    {
        if let SortedMembers::Few(list) = self {
            let list = mem::replace(list, Vec::new(alloc));
            *self = SortedMembers::Many(mapped(alloc, list)?);
        }
        Ok(())
    }

    /// The members, in their order.
    pub(crate) fn into_list(self, alloc: Global) -> Result<Vec<(String, Tree)>, AllocError>
        ensures { IfOk result (λ v. v.items ≡ entries_of self) }
    {
        match self {
            SortedMembers::Few(list) => Ok(list),
            SortedMembers::Many(map) => listed(alloc, map),
        }
    }
}

/// Takes a member into members whose names rise, in place of one of the same name.
fn insert(members: &mut Vec<(String, Tree)>, name: String, member: Tree) -> Result<(), AllocError>
    requires rising { names_rise (members_view members.old.items) ≡ true }
    ensures { OnOk result (members_view members.new.items ≡ put (string_bytes name) (view member) (members_view members.old.items)) }
{
    if is_past(members, name.as_str()) {
        members.push((name, member))?;
        return Ok(());
    }
    match members.binary_search_by(|(key, _)| key.as_str().cmp(name.as_str())) {
        Ok(i) => members[i].1 = member,
        Err(i) => members.insert(i, (name, member))?,
    }
    Ok(())
}

/// Whether the name is above the last of these.
fn is_past(members: &Vec<(String, Tree)>, name: &str) -> bool
    requires rising { names_rise (members_view members.now.items) ≡ true }
    ensures { OnTrue result (All (λ m. slice_cmp nat_cmp (string_bytes m.0) name.now ≡ Less) members.now.items) }
{
    match members.last() {
        Some((last, _)) => last.as_str() < name,
        None => true,
    }
}

/// A map of members whose names rise.
fn mapped(alloc: Global, members: Vec<(String, Tree)>) -> Result<BTreeMap<String, Tree>, AllocError>
    requires rising { names_rise (members_view members.items) ≡ true }
    ensures { IfOk result (λ m. members_view m.entries ≡ members_view members.items) }
{
    let mut map = BTreeMap::new(alloc);
    for (name, member) in members {
        drop(map.insert(name, member)?);
    }
    Ok(map)
}

/// The members of a map, by name.
fn listed(alloc: Global, members: BTreeMap<String, Tree>) -> Result<Vec<(String, Tree)>, AllocError>
    ensures { IfOk result (λ v. v.items ≡ members.entries) }
{
    let mut list = Vec::with_capacity(alloc, members.len())?;
    for member in members {
        list.push(member)?;
    }
    Ok(list)
}
