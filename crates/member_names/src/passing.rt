//! Values that are passed over, token by token.
ghost use Rattle.std.specs.Prelude.{◌≡◌, ◌≤◌, ◌<◌, length, IfSome, OnSome};
ghost use Rattle.json.specs.Json.{items, members, value};
ghost use Rattle.serde_json.specs.Read.{converted};
ghost use Rattle.flag_text.specs.Grammar.{tree_from, items_from, members_from};
ghost use Rattle.flag_text.specs.Shape.{no_members};
ghost use Rattle.member_names.specs.NamedPassed.{IsPlain, AreItemsPlain, AreMembersPlain, Passes, IsWholeNumber};

use flag_text::{Tree, number_tree};
use json::{Reader, Token};

/// Takes the next value, of at most `depth` levels, where its lists and objects nest at most `most` deep and its numbers are
/// all whole. Where there is no such value next, some of its tokens may be taken.
#[cycle(passing)]
pub(crate) fn pass_value(reader: &mut Reader<'_>, depth: usize, most: usize) -> Option<()>
    requires within { most ≤ depth }
    ensures plain { IfSome result (λ _. Passes (converted tree_from (value depth reader.old)) reader.new (IsPlain most)) }
    ensures shorter { IfSome result (λ _. length reader.new < length reader.old) }
{
    let token = reader.next()?;
    match token {
        Token::String(_text) => Some(()),
        Token::Number(text) => pass_number(text),
        Token::Bool(_b) => Some(()),
        Token::Null => Some(()),
        Token::EndObject | Token::EndArray | Token::Key(_) | Token::Bad => None,
        Token::BeginArray => {
            if most == 0 {
                return None;
            }
            pass_items(reader, depth - 1, most - 1)
        }
        Token::BeginObject => {
            if most == 0 {
                return None;
            }
            pass_members(reader, depth - 1, most - 1)
        }
    }
}

/// Takes the items of a list, and its end.
#[cycle(passing)]
fn pass_items(reader: &mut Reader<'_>, depth: usize, most: usize) -> Option<()>
    requires within { most ≤ depth }
    ensures plain { IfSome result (λ _. Passes (converted items_from (items (value depth) (length reader.old) reader.old)) reader.new (AreItemsPlain most)) }
    ensures shorter { IfSome result (λ _. length reader.new < length reader.old) }
{
    'items: while !reader.take_end_array() {
        pass_value(reader, depth, most)?;
    }
    Some(())
}

/// Takes the members of an object, and its end.
#[cycle(passing)]
fn pass_members(reader: &mut Reader<'_>, depth: usize, most: usize) -> Option<()>
    requires within { most ≤ depth }
    ensures plain { IfSome result (λ _. Passes (converted (λ ms. members_from ms no_members) (members (value depth) (length reader.old) reader.old)) reader.new (AreMembersPlain most)) }
    ensures shorter { IfSome result (λ _. length reader.new < length reader.old) }
{
    'members: while let Some(_name) = reader.next_key().ok()? {
        pass_value(reader, depth, most)?;
    }
    Some(())
}

/// Passes over a number that is whole.
fn pass_number(text: &str) -> Option<()>
    ensures { IfSome result (λ _. IsWholeNumber text.now) }
{
    match number_tree(text) {
        Some(Tree::Whole(_n)) => Some(()),
        _ => None,
    }
}
