//! What the values of a JSON text are to a rule, token by token, with no tree.
ghost use Rattle.std.specs.Prelude.{◌≡◌, ◌≢◌, ◌<◌, ◌≤◌, ◌||◌, ◌∷◌, ℕ, length, false, nat_lt, Some, None, Err, IfOk, IfErr, OnOk};
ghost use Rattle.json.specs.Json.{value, items, members, parse_map};
ghost use Rattle.json.specs.Reads.{token_of};
ghost use Rattle.serde_json.specs.Data.{Data, Members, no_members};
ghost use Rattle.serde_json.specs.Read.{converted, of_json, of_items, of_members};
ghost use Rattle.flag_text.specs.Reading.{shape_of, items_shape, members_shape};
ghost use Rattle.rule_text.specs.Parts.{part_view, part_of, name_view, name_of, weight_in, rest_of, list_view, list_of, item_view, item_of, extents_view, extents_of, all_extents};

use crate::number::number;
use flag_text::TextFault;
use json::{Reader, Token};
use std::alloc::Global;
use std::collections::BTreeMap;

/// How much deeper a JSON text may nest than a tree of whole numbers.
const SPARE: usize = 7;

/// How far a value is from a tree of whole numbers.
#[derive(Clone, Copy)]
pub(crate) struct Extent {
    /// Whether its lists and objects nest too deep for such a tree.
    pub(crate) deep: bool,
    /// Whether a number in it is not whole.
    pub(crate) other: bool,
}

impl Extent {
    /// The extent of no value, and of one that is whole and nests nothing.
    pub(crate) fn none() -> Extent
        ensures { result ≡ record { deep = false; other = false } }
    {
        Extent {
            deep: false,
            other: false,
        }
    }

    /// The extent of both.
    pub(crate) fn and(self, more: Extent) -> Extent
        ensures { result ≡ record { deep = self.deep || more.deep; other = self.other || more.other } }
    {
        Extent {
            deep: self.deep || more.deep,
            other: self.other || more.other,
        }
    }

    /// The extent of a list or an object of these values, which may nest so deep themselves.
    pub(crate) fn around(self, depth: usize) -> Extent
        ensures { result ≡ record { deep = nat_lt depth 7 || self.deep; other = self.other } }
    {
        Extent {
            deep: depth < SPARE || self.deep,
            other: self.other,
        }
    }
}

/// What a value is to a rule.
#[derive(Clone, Copy)]
pub(crate) struct Part<'a> {
    /// The text that it is.
    pub(crate) name: Option<&'a str>,
    /// The weight that it is.
    pub(crate) weight: Option<u64>,
    /// The name and the weight of the literal bucket that it is.
    pub(crate) bucket: Option<(&'a str, u64)>,
    pub(crate) extent: Extent,
}

impl<'a> Part<'a> {
    /// A value that is no part of a rule.
    pub(crate) fn other(extent: Extent) -> Part<'a>
        ensures { part_view result ≡ (None, None, None, extent) }
    {
        Part {
            name: None,
            weight: None,
            bucket: None,
            extent,
        }
    }
}

/// Reads a value whose lists and objects nest at most so deep.
#[cycle(read)]
pub(crate) fn read_part<'a>(
    alloc: Global,
    reader: &mut Reader<'a>,
    depth: usize,
) -> Result<Part<'a>, TextFault>
    ensures ok { IfOk result (λ p. (d : Data) × (converted of_json (value depth reader.old) ≡ Some (d, reader.new)) × (part_view p ≡ part_of depth (shape_of d))) }
    ensures shorter { OnOk result (length reader.new < length reader.old) }
    ensures err { result ≡ Err TextFault.NotJson → converted of_json (value depth reader.old) ≡ None }
    ensures kind { IfErr result (λ e. e ≢ TextFault.WantOfMemory → e ≡ TextFault.NotJson) }
{
    let token = reader.next().ok_or(TextFault::NotJson)?;
    part_from(alloc, token, reader, depth)
}

/// Reads an item of a list of buckets: the name and the weight of the literal bucket that it is, and its extent.
#[inline(always)]
pub(crate) fn read_item<'a>(
    alloc: Global,
    reader: &mut Reader<'a>,
    depth: usize,
) -> Result<(Option<(&'a str, u64)>, Extent), TextFault>
    requires { 0 < depth }
    ensures ok { IfOk result (λ p. (d : Data) × (converted of_json (value depth reader.old) ≡ Some (d, reader.new)) × (item_view p ≡ item_of depth (shape_of d))) }
    ensures shorter { OnOk result (length reader.new < length reader.old) }
    ensures err { result ≡ Err TextFault.NotJson → converted of_json (value depth reader.old) ≡ None }
    ensures kind { IfErr result (λ e. e ≢ TextFault.WantOfMemory → e ≡ TextFault.NotJson) }
{
    let token = reader.next().ok_or(TextFault::NotJson)?;
    if let Token::BeginArray = token {
        return list_part(alloc, reader, depth - 1);
    }
    let part = part_from(alloc, token, reader, depth)?;
    Ok((part.bucket, part.extent))
}

/// Reads the value that begins with a token.
#[cycle(read)]
pub(crate) fn part_from<'a>(
    alloc: Global,
    token: Token<'a>,
    reader: &mut Reader<'a>,
    depth: usize,
) -> Result<Part<'a>, TextFault>
    ensures ok { IfOk result (λ p. (d : Data) × (converted of_json (value depth (token_of token.entry ∷ reader.old)) ≡ Some (d, reader.new)) × (part_view p ≡ part_of depth (shape_of d))) }
    ensures shorter { OnOk result (length reader.new ≤ length reader.old) }
    ensures err { result ≡ Err TextFault.NotJson → converted of_json (value depth (token_of token.entry ∷ reader.old)) ≡ None }
    ensures kind { IfErr result (λ e. e ≢ TextFault.WantOfMemory → e ≡ TextFault.NotJson) }
{
    match token {
        Token::String(text) => Ok(Part {
            name: Some(text),
            weight: None,
            bucket: None,
            extent: Extent::none(),
        }),
        Token::Number(text) => match number(text) {
            Some((weight, other)) => Ok(Part {
                name: None,
                weight,
                bucket: None,
                extent: Extent { deep: false, other },
            }),
            None => Err(TextFault::NotJson),
        },
        Token::Bool(_) => Ok(Part::other(Extent::none())),
        Token::Null => Ok(Part::other(Extent::none())),
        Token::EndObject | Token::EndArray | Token::Key(_) | Token::Bad => Err(TextFault::NotJson),
        Token::BeginArray => {
            if depth == 0 {
                return Err(TextFault::NotJson);
            }
            let (bucket, extent) = list_part(alloc, reader, depth - 1)?;
            Ok(Part {
                name: None,
                weight: None,
                bucket,
                extent,
            })
        }
        Token::BeginObject => {
            if depth == 0 {
                return Err(TextFault::NotJson);
            }
            let members = read_members(alloc, reader, depth - 1)?;
            Ok(Part::other(extent_of(members).around(depth - 1)))
        }
    }
}

/// Reads the items of a list, and its end: the name and the weight of the literal bucket that the list is, and its
/// extent.
#[cycle(read)]
pub(crate) fn list_part<'a>(
    alloc: Global,
    reader: &mut Reader<'a>,
    depth: usize,
) -> Result<(Option<(&'a str, u64)>, Extent), TextFault>
    ensures ok { IfOk result (λ p. parse_map (λ ds. list_of depth (items_shape ds)) (converted of_items (items (value depth) (length reader.old) reader.old)) ≡ Some (list_view p, reader.new)) }
    ensures shorter { OnOk result (length reader.new < length reader.old) }
    ensures err { result ≡ Err TextFault.NotJson → converted of_items (items (value depth) (length reader.old) reader.old) ≡ None }
    ensures kind { IfErr result (λ e. e ≢ TextFault.WantOfMemory → e ≡ TextFault.NotJson) }
{
    if reader.take_end_array() {
        return Ok((None, Extent::none().around(depth)));
    }
    let (name, first) = read_name(alloc, reader, depth)?;
    let (weight, rest) = read_rest(alloc, reader, depth)?;
    Ok((name.zip(weight), first.and(rest).around(depth)))
}

/// Reads a value where a name may stand: the text that it is, and its extent.
#[cycle(read)]
#[inline(always)]
fn read_name<'a>(
    alloc: Global,
    reader: &mut Reader<'a>,
    depth: usize,
) -> Result<(Option<&'a str>, Extent), TextFault>
    ensures ok { IfOk result (λ p. (d : Data) × (converted of_json (value depth reader.old) ≡ Some (d, reader.new)) × (name_view p ≡ name_of depth (shape_of d))) }
    ensures shorter { OnOk result (length reader.new < length reader.old) }
    ensures err { result ≡ Err TextFault.NotJson → converted of_json (value depth reader.old) ≡ None }
    ensures kind { IfErr result (λ e. e ≢ TextFault.WantOfMemory → e ≡ TextFault.NotJson) }
{
    let token = reader.next().ok_or(TextFault::NotJson)?;
    if let Token::String(text) = token {
        return Ok((Some(text), Extent::none()));
    }
    let part = part_from(alloc, token, reader, depth)?;
    Ok((part.name, part.extent))
}

/// Reads a value where a weight may stand: the weight that it is, and its extent.
#[cycle(read)]
#[inline(always)]
fn read_weight(
    alloc: Global,
    reader: &mut Reader<'_>,
    depth: usize,
) -> Result<(Option<u64>, Extent), TextFault>
    ensures ok { IfOk result (λ p. (d : Data) × (converted of_json (value depth reader.old) ≡ Some (d, reader.new)) × (p ≡ weight_in depth (shape_of d))) }
    ensures shorter { OnOk result (length reader.new < length reader.old) }
    ensures err { result ≡ Err TextFault.NotJson → converted of_json (value depth reader.old) ≡ None }
    ensures kind { IfErr result (λ e. e ≢ TextFault.WantOfMemory → e ≡ TextFault.NotJson) }
{
    let token = reader.next().ok_or(TextFault::NotJson)?;
    if let Token::Number(text) = token {
        return match number(text) {
            Some((weight, other)) => Ok((weight, Extent { deep: false, other })),
            None => Err(TextFault::NotJson),
        };
    }
    let part = part_from(alloc, token, reader, depth)?;
    Ok((part.weight, part.extent))
}

/// Reads the items that are left of a list behind its first, and its end: what the weight of a bucket of all would be, 1
/// where none is left, and their extent.
#[cycle(read)]
fn read_rest(
    alloc: Global,
    reader: &mut Reader<'_>,
    depth: usize,
) -> Result<(Option<u64>, Extent), TextFault>
    ensures ok { IfOk result (λ r. (n : ℕ) → length reader.old ≤ n → parse_map (λ ds. rest_of depth (items_shape ds)) (converted of_items (items (value depth) n reader.old)) ≡ Some (r, reader.new)) }
    ensures shorter { OnOk result (length reader.new < length reader.old) }
    ensures err { result ≡ Err TextFault.NotJson → (n : ℕ) → length reader.old ≤ n → converted of_items (items (value depth) n reader.old) ≡ None }
    ensures kind { IfErr result (λ e. e ≢ TextFault.WantOfMemory → e ≡ TextFault.NotJson) }
{
    let mut weight = Some(1);
    let mut begun = false;
    let mut extent = Extent::none();
    'items: while !reader.take_end_array() {
        let (item_weight, item_extent) = read_weight(alloc, reader, depth)?;
        weight = if begun { None } else { item_weight };
        begun = true;
        extent = extent.and(item_extent);
    }
    Ok((weight, extent))
}

/// Reads the members of an object, and its end: the extent of each by its name, of which the last member stays.
#[cycle(read)]
fn read_members<'a>(
    alloc: Global,
    reader: &mut Reader<'a>,
    depth: usize,
) -> Result<BTreeMap<&'a str, Extent>, TextFault>
    ensures ok { IfOk result (λ m. (ms : Members) × (converted (λ js. of_members js no_members) (members (value depth) (length reader.old) reader.old) ≡ Some (ms, reader.new))
        × (extents_view m.entries ≡ extents_of depth (members_shape ms))) }
    ensures shorter { OnOk result (length reader.new < length reader.old) }
    ensures err { result ≡ Err TextFault.NotJson
        → converted (λ js. of_members js no_members) (members (value depth) (length reader.old) reader.old) ≡ None }
    ensures kind { IfErr result (λ e. e ≢ TextFault.WantOfMemory → e ≡ TextFault.NotJson) }
{
    let mut found = BTreeMap::new(alloc);
    'members: while let Some(name) = reader.next_key().or(Err(TextFault::NotJson))? {
        let member = read_part(alloc, reader, depth)?;
        found.insert(name, member.extent)?;
    }
    Ok(found)
}

/// The extent of all members.
fn extent_of(members: BTreeMap<&str, Extent>) -> Extent
    ensures { result ≡ all_extents (extents_view members.entry.entries) }
{
    let mut extent = Extent::none();
    for (_, member) in members {
        extent = extent.and(member);
    }
    extent
}
