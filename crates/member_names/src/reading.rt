//! From the bytes of a text to the tree of its members of some names.
ghost use Rattle.std.specs.Prelude.{◌≡◌, ◌<◌, ◌≤◌, ◌↔◌, false, length, map, Ok, Some, None, Err, IfOk, IfErr, IfSome, IsErrOf, OnOk};
ghost use Rattle.std.specs.Str.{is_utf8};
ghost use Rattle.json.specs.Json.{members, value};
ghost use Rattle.serde_json.specs.Read.{converted, read};
ghost use Rattle.flag_text.specs.Grammar.{tree_from, members_from};
ghost use Rattle.flag_text.specs.Reading.{if_json, if_whole, tree_of};
ghost use Rattle.flag_text.specs.Shape.{no_members};
ghost use Rattle.flag_text.specs.View.{view, members_view};
ghost use Rattle.flag_text.specs.declared.fault.TextFault.TheVariants.{WantOfMemory};
ghost use Rattle.member_names.specs.Kept.{is_among, AgreeOn, GivesNamed, IsKeptOf};
ghost use Rattle.member_names.specs.NamedPassed.{AreMembersPlain, IsPlain, IsTaken, Passes};

use crate::passing::pass_value;
use flag_text::{JSON_LEVELS, TREE_LEVELS, TextFault, Tree, read_tree, read_value, whole_tree};
use json::{Reader, Scratch, Token};
use simdutf8::basic;
use std::alloc::{AllocError, Global};
use std::collections::BTreeMap;

/// How deep the lists and objects of a member nest at most, as it is read, and as a tree may have it.
const MEMBER_DEPTH: usize = JSON_LEVELS - 1;

const MEMBER_LEVELS: usize = TREE_LEVELS - 1;

/// As [`read_tree`], for who looks only at the members of these names: others may be missing in the tree of an object. It
/// takes memory for the members of the names, unless it has to read the whole text as a tree.
///
/// Refusals, as those of [`read_tree`]: `TooLarge`, `NotJson`, `TooDeep`, `NotWhole`. The first, and the second of bytes that
/// are not UTF-8, take no memory.
pub fn read_named(
    alloc: Global,
    bytes: &[u8],
    max: usize,
    names: &[&str],
) -> Result<Tree, TextFault>
    ensures exact { GivesNamed (map (λ n. n.now) names.now) result (tree_of bytes.now max) }
    ensures large { IsErrOf result TextFault.TooLarge ↔ (max < length bytes.now) }
    ensures no_text { length bytes.now ≤ max → is_utf8 bytes.now ≡ false → IsErrOf result TextFault.NotJson }
{
    match kept_tree(alloc, bytes, max, names)? {
        Some(tree) => Ok(tree),
        None => read_tree(alloc, bytes, max),
    }
}

/// The members of the names, of an object whose other members were passed over.
fn kept_tree(
    alloc: Global,
    bytes: &[u8],
    max: usize,
    names: &[&str],
) -> Result<Option<Tree>, TextFault>
    ensures read { IfOk result (λ o. IfSome o (IsKeptOf (map (λ n. n.now) names.now) (tree_of bytes.now max))) }
    ensures fault { IfErr result (λ e. e ≡ WantOfMemory) }
    ensures large { max < length bytes.now → result ≡ Ok None }
    ensures no_text { is_utf8 bytes.now ≡ false → result ≡ Ok None }
{
    if bytes.len() > max {
        return Ok(None);
    }
    match basic::from_utf8(bytes) {
        Ok(text) => if_kept(kept_of_text(alloc, text, names)),
        Err(_) => Ok(None),
    }
}

/// What was read, unless it is to be read in another way.
fn if_kept(read: Result<Tree, TextFault>) -> Result<Option<Tree>, TextFault>
    ensures read { IfOk result (λ o. IfSome o (λ t. read ≡ Ok t)) }
    ensures fault { IfErr result (λ e. e ≡ WantOfMemory) }
{
    match read {
        Ok(tree) => Ok(Some(tree)),
        Err(TextFault::WantOfMemory) => Err(TextFault::WantOfMemory),
        Err(_) => Ok(None),
    }
}

/// The members of the names of an object's text. `NotJson` says only that the text is to be read in another way.
fn kept_of_text(alloc: Global, text: &str, names: &[&str]) -> Result<Tree, TextFault>
    ensures { IfOk result (IsKeptOf (map (λ n. n.now) names.now) (if_whole (if_json (read text.now)))) }
{
    let mut scratch = Scratch::new(alloc);
    let mut reader = Reader::new(text, &mut scratch)?;
    let Some(Token::BeginObject) = reader.next() else {
        return Err(TextFault::NotJson);
    };
    let kept = kept_members(alloc, &mut reader, names)?;
    if reader.next().is_some() {
        return Err(TextFault::NotJson);
    }
    Ok(Tree::Object(listed(alloc, kept)?))
}

/// Takes the members of an object and its end, and keeps those of the names. Of a name that is repeated the last member stays.
fn kept_members(
    alloc: Global,
    reader: &mut Reader<'_>,
    names: &[&str],
) -> Result<BTreeMap<String, Tree>, TextFault>
    ensures { IfOk result (λ kept. Passes (converted (λ ms. members_from ms no_members) (members (value 126) (length reader.old) reader.old)) reader.new
        (λ all. AreMembersPlain 119 all × AgreeOn (map (λ n. n.now) names.now) (members_view kept.entries) all)) }
{
    let mut kept = BTreeMap::new(alloc);
    'members: while let Some(name) = reader.next_key().or(Err(TextFault::NotJson))? {
        take_member(alloc, reader, names, name, &mut kept)?;
    }
    Ok(kept)
}

/// Takes the member of this name, and keeps it where the name is one of the names.
fn take_member(
    alloc: Global,
    reader: &mut Reader<'_>,
    names: &[&str],
    name: &str,
    kept: &mut BTreeMap<String, Tree>,
) -> Result<(), TextFault>
    ensures taken { OnOk result (Passes (converted tree_from (value 126 reader.old)) reader.new
        (λ t. IsPlain 119 t × IsTaken (is_among (map (λ n. n.now) names.now) name.now) name.now t (members_view kept.old.entries) (members_view kept.new.entries))) }
    ensures shorter { OnOk result (length reader.new < length reader.old) }
{
    if is_among(names, name) {
        let name = String::from_str(alloc, name)?;
        let member = read_plain(alloc, reader)?;
        drop(kept.insert(name, member)?);
        return Ok(());
    }
    pass_value(reader, MEMBER_DEPTH, MEMBER_LEVELS).ok_or(TextFault::NotJson)
}

/// Takes the next value as a tree, if its numbers are all whole and it does not nest too deep for a member.
fn read_plain(alloc: Global, reader: &mut Reader<'_>) -> Result<Tree, TextFault>
    ensures plain { IfOk result (λ t. (converted tree_from (value 126 reader.old) ≡ Some (view t, reader.new)) × IsPlain 119 (view t)) }
    ensures shorter { OnOk result (length reader.new < length reader.old) }
{
    let member = whole_tree(read_value(alloc, reader, MEMBER_DEPTH)?)?;
    if member.fits(MEMBER_LEVELS) {
        Ok(member)
    } else {
        Err(TextFault::NotJson)
    }
}

fn is_among(names: &[&str], name: &str) -> bool
    ensures { result ≡ is_among (map (λ n. n.now) names.now) name.now }
{
    for known in names {
        if name == *known {
            return true;
        }
    }
    false
}

/// The members of a map, by name.
fn listed(alloc: Global, members: BTreeMap<String, Tree>) -> Result<Vec<(String, Tree)>, AllocError>
    ensures { IfOk result (λ v. v.items ≡ members.entries) }
{
    let mut list = Vec::with_capacity(alloc, members.len())?;
    for member in members {
        list.push(member)?;
    }
    Ok(list)
}
