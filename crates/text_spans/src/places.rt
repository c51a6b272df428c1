//! The place of a value among the tokens of a text.
ghost use Rattle.std.specs.Prelude.{◌≡◌, [], ◌∷◌, ℕ, List, None, Some};
ghost use Rattle.json.specs.Json.{Items, Json, Members, items, members, value};
ghost use Rattle.json.specs.Token.{Token as Kind};
ghost use Rattle.text_spans.specs.Place.{GoOn, Stand, closed};
ghost use Rattle.text_spans.specs.Path.{item_place, member_place, place};
ghost use Rattle.text_spans.specs.View.{ends_view, path_of, step_of};

use crate::Cursor;
use crate::steps::Step;
use json::Token;

/// A value in a text.
#[derive(Clone, Copy, Drop)]
pub(crate) struct Ends<'a> {
    /// The text from its first byte on.
    pub(crate) from: &'a [u8],
    /// The text behind its last byte.
    pub(crate) behind: &'a [u8],
}

/// Takes the next value, and tells where the value at the path stands in it.
#[cycle(places)]
pub(crate) fn value_place<'a>(cursor: &mut Cursor<'a>, path: &[Step<'_>]) -> Option<Ends<'a>>
    requires stands { Stand cursor.old.reader cursor.old.rest.now }
    ensures place { (d : ℕ) (j : Json) (r : List Kind) → value d cursor.old.reader ≡ Some (j, r)
        → (cursor.new.reader ≡ r) × (ends_view result ≡ place (path_of path.now) j cursor.old.rest.now) }
    ensures stands { Stand cursor.new.reader cursor.new.rest.now }
    ensures passed { GoOn cursor.old.reader cursor.old.rest.now cursor.new.reader cursor.new.rest.now }
{
    match path.split_first() {
        None => whole_place(cursor),
        Some((step, path)) => part_place(cursor, *step, path),
    }
}

/// Takes the next value, and tells where the value at the path stands in the part to which the step leads.
#[cycle(places)]
fn part_place<'a>(cursor: &mut Cursor<'a>, step: Step<'_>, path: &[Step<'_>]) -> Option<Ends<'a>>
    requires stands { Stand cursor.old.reader cursor.old.rest.now }
    ensures place { (d : ℕ) (j : Json) (r : List Kind) → value d cursor.old.reader ≡ Some (j, r)
        → (cursor.new.reader ≡ r) × (ends_view result ≡ place (step_of step.entry ∷ path_of path.now) j cursor.old.rest.now) }
    ensures stands { Stand cursor.new.reader cursor.new.rest.now }
    ensures passed { GoOn cursor.old.reader cursor.old.rest.now cursor.new.reader cursor.new.rest.now }
{
    let token = cursor.next()?;
    match token {
        Token::BeginArray => match step {
            Step::Index(index) => items_place(cursor, index, path),
            Step::Name(_) => no_place(cursor),
        },
        Token::BeginObject => match step {
            Step::Index(_) => no_place(cursor),
            Step::Name(name) => members_place(cursor, name, path),
        },
        _ => None,
    }
}

/// Takes the next value, and tells where it stands.
fn whole_place<'a>(cursor: &mut Cursor<'a>) -> Option<Ends<'a>>
    requires stands { Stand cursor.old.reader cursor.old.rest.now }
    ensures place { (d : ℕ) (j : Json) (r : List Kind) → value d cursor.old.reader ≡ Some (j, r)
        → (cursor.new.reader ≡ r) × (ends_view result ≡ place [] j cursor.old.rest.now) }
    ensures stands { Stand cursor.new.reader cursor.new.rest.now }
    ensures passed { GoOn cursor.old.reader cursor.old.rest.now cursor.new.reader cursor.new.rest.now }
{
    let from = cursor.from_next();
    cursor.pass_value();
    Some(Ends {
        from,
        behind: cursor.rest,
    })
}

/// Takes what is left of a list or an object to which no step of the path leads.
fn no_place<'a>(cursor: &mut Cursor<'a>) -> Option<Ends<'a>>
    requires stands { Stand cursor.old.reader cursor.old.rest.now }
    ensures none { result ≡ None }
    ensures closed { (r : List Kind) → closed 1 cursor.old.reader ≡ Some r → cursor.new.reader ≡ r }
    ensures stands { Stand cursor.new.reader cursor.new.rest.now }
    ensures passed { GoOn cursor.old.reader cursor.old.rest.now cursor.new.reader cursor.new.rest.now }
{
    cursor.close();
    None
}

/// Takes the items of a list and its end, and tells where the value at the path stands in the item at the index.
#[cycle(places)]
fn items_place<'a>(cursor: &mut Cursor<'a>, index: usize, path: &[Step<'_>]) -> Option<Ends<'a>>
    requires stands { Stand cursor.old.reader cursor.old.rest.now }
    ensures place { (d n : ℕ) (js : Items) (r : List Kind) → items (value d) n cursor.old.reader ≡ Some (js, r)
        → (cursor.new.reader ≡ r) × (ends_view result ≡ item_place index (path_of path.now) js cursor.old.rest.now) }
    ensures stands { Stand cursor.new.reader cursor.new.rest.now }
    ensures passed { GoOn cursor.old.reader cursor.old.rest.now cursor.new.reader cursor.new.rest.now }
{
    let mut left = index;
    'items: while !cursor.take_end_list() {
        if left == 0 {
            let found = value_place(cursor, path);
            cursor.close();
            return found;
        }
        cursor.pass_value();
        left -= 1;
    }
    None
}

/// Takes the members of an object and its end, and tells where the value at the path stands in the last one of this name.
#[cycle(places)]
fn members_place<'a>(cursor: &mut Cursor<'a>, name: &str, path: &[Step<'_>]) -> Option<Ends<'a>>
    requires stands { Stand cursor.old.reader cursor.old.rest.now }
    ensures place { (d n : ℕ) (ms : Members) (r : List Kind) → members (value d) n cursor.old.reader ≡ Some (ms, r)
        → (cursor.new.reader ≡ r) × (ends_view result ≡ member_place name.now (path_of path.now) ms None cursor.old.rest.now) }
    ensures stands { Stand cursor.new.reader cursor.new.rest.now }
    ensures passed { GoOn cursor.old.reader cursor.old.rest.now cursor.new.reader cursor.new.rest.now }
{
    let mut found = None;
    'members: while let Some(token) = cursor.next() {
        let Token::Key(key) = token else {
            return found;
        };
        if key == name {
            found = value_place(cursor, path);
        } else {
            cursor.pass_value();
        }
    }
    found
}
