//! From the tokens of a JSON text to a tree, with no other value in between: each text, list and object is made once.
ghost use Rattle.std.specs.Prelude.{◌≡◌, ◌≢◌, ◌<◌, length, Some, None, Err, IfOk, IfErr, OnOk};
ghost use Rattle.json.specs.Json.{value, items, members};
ghost use Rattle.serde_json.specs.Read.{converted};
ghost use Rattle.flag_text.specs.Grammar.{tree_from, items_from, members_from};
ghost use Rattle.flag_text.specs.Shape.{no_members};
ghost use Rattle.flag_text.specs.SortedMembers.{entries_of};
ghost use Rattle.flag_text.specs.View.{view, items_view, members_view};

use crate::fault::TextFault;
use crate::members::SortedMembers;
use crate::number::number_tree;
use crate::tree::Tree;
use json::{Reader, Token};
use std::alloc::Global;

/// Takes the next value of a JSON text, whose lists and objects nest at most so deep, as the tree that it stands for: a number
/// that is not whole is `Other`, and a member that is repeated under its name takes the place of the one before.
///
/// `NotJson` where no such value comes next. It takes memory for each text, list and object.
#[cycle(read)]
pub fn read_value(alloc: Global, reader: &mut Reader<'_>, depth: usize) -> Result<Tree, TextFault>
    ensures ok { IfOk result (λ t. converted tree_from (value depth reader.old) ≡ Some (view t, reader.new)) }
    ensures shorter { OnOk result (length reader.new < length reader.old) }
    ensures err { result ≡ Err TextFault.NotJson → converted tree_from (value depth reader.old) ≡ None }
    ensures kind { IfErr result (λ e. e ≢ TextFault.WantOfMemory → e ≡ TextFault.NotJson) }
{
    let token = reader.next().ok_or(TextFault::NotJson)?;
    match token {
        Token::String(text) => Ok(Tree::Text(String::from_str(alloc, text)?)),
        Token::Number(text) => match number_tree(text) {
            Some(number) => Ok(number),
            None => Err(TextFault::NotJson),
        },
        Token::Bool(b) => Ok(Tree::Bool(b)),
        Token::Null => Ok(Tree::Null),
        Token::EndObject | Token::EndArray | Token::Key(_) | Token::Bad => Err(TextFault::NotJson),
        Token::BeginArray => {
            if depth == 0 {
                return Err(TextFault::NotJson);
            }
            Ok(Tree::List(read_items(alloc, reader, depth - 1)?))
        }
        Token::BeginObject => {
            if depth == 0 {
                return Err(TextFault::NotJson);
            }
            let members = read_members(alloc, reader, depth - 1)?;
            Ok(Tree::Object(members.into_list(alloc)?))
        }
    }
}

/// Reads the items of a list, and its end.
#[cycle(read)]
fn read_items(alloc: Global, reader: &mut Reader<'_>, depth: usize) -> Result<Vec<Tree>, TextFault>
    ensures ok { IfOk result (λ v. converted items_from (items (value depth) (length reader.old) reader.old)
        ≡ Some (items_view v.items, reader.new)) }
    ensures shorter { OnOk result (length reader.new < length reader.old) }
    ensures err { result ≡ Err TextFault.NotJson
        → converted items_from (items (value depth) (length reader.old) reader.old) ≡ None }
    ensures kind { IfErr result (λ e. e ≢ TextFault.WantOfMemory → e ≡ TextFault.NotJson) }
{
    // Room for two: most lists of a long rule are a name and a weight, and a vector that grows begins with four.
    let mut found = Vec::with_capacity(alloc, 2)?;
    'items: while !reader.take_end_array() {
        let item = read_value(alloc, reader, depth)?;
        found.push(item)?;
    }
    Ok(found)
}

/// Reads the members of an object, and its end. Of a name that is repeated the last member stays.
#[cycle(read)]
fn read_members(
    alloc: Global,
    reader: &mut Reader<'_>,
    depth: usize,
) -> Result<SortedMembers, TextFault>
    ensures ok { IfOk result (λ s. converted (λ ms. members_from ms no_members) (members (value depth) (length reader.old) reader.old)
        ≡ Some (members_view (entries_of s), reader.new)) }
    ensures shorter { OnOk result (length reader.new < length reader.old) }
    ensures err { result ≡ Err TextFault.NotJson
        → converted (λ ms. members_from ms no_members) (members (value depth) (length reader.old) reader.old) ≡ None }
    ensures kind { IfErr result (λ e. e ≢ TextFault.WantOfMemory → e ≡ TextFault.NotJson) }
{
    let mut found = SortedMembers::new(alloc)?;
    'members: while let Some(name) = reader.next_key().or(Err(TextFault::NotJson))? {
        let key = String::from_str(alloc, name)?;
        let member = read_value(alloc, reader, depth)?;
        found.put(alloc, key, member)?;
    }
    Ok(found)
}
