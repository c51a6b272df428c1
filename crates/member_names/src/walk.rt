//! The values of a text, token by token: which of their members stand more than once.
ghost use Rattle.std.specs.Prelude.{◌≡◌, ◌<◌, length, map, None, Some, Err, IfOk, OnOk};
ghost use Rattle.std.specs.Option.{option_or};
ghost use Rattle.json.specs.Json.{items, members, value};
ghost use Rattle.member_names.specs.Passed.{Passes, Begins, Leaves};
ghost use Rattle.member_names.specs.Places.{items_place, members_place, place_of, told, twin_place};
ghost use Rattle.member_names.specs.Repeated.{member_names};
ghost use Rattle.member_names.specs.declared.walk.Stop.TheVariants.{WantOfMemory};

use crate::places::{item_place, member_place, step_to};
use crate::twins::twin_among;
use json::{Reader, Token};
use std::alloc::{AllocError, AllocFailed, Global};

/// Why a walk ends before the text does.
#[derive(Clone, Copy, Debug, PartialEq, Eq)]
pub enum Stop {
    /// Memory ran out.
    WantOfMemory,
    /// The text is no JSON text.
    Invalid,
}

impl From<AllocError> for Stop {
    ghost from_gives = { λ _ e. e ≡ WantOfMemory };

    fn from(_e: AllocError) -> Stop {
        Stop::WantOfMemory
    }
}

impl<T: Drop> From<AllocFailed<T>> for Stop {
    ghost from_gives = { λ _ e. e ≡ WantOfMemory };

    fn from(_e: AllocFailed<T>) -> Stop {
        Stop::WantOfMemory
    }
}

/// What a value begins as.
#[derive(Drop)]
pub enum Next {
    /// An object, of which the members and the end are still to come.
    Object,
    /// Another value, which was passed, and the place of the first name in it that stands before, where there is one.
    Other(Option<String>),
}

// Each function below passes what its name says, and gives the place of the first name in it that stands before, where there is
// one. `names` has the names of the objects that are open, outermost first, and is left as it was where nothing else is said.

/// The next value, of at most so many levels.
#[cycle(places)]
pub fn place_in<'a>(
    alloc: Global,
    reader: &mut Reader<'a>,
    depth: usize,
    names: &mut Vec<&'a str>,
) -> Result<Option<String>, Stop>
    ensures ok { IfOk result (λ o. Passes (value depth) reader.old reader.new (λ j. told o ≡ place_of j)) }
    ensures shorter { OnOk result (length reader.new < length reader.old) }
    ensures names { OnOk result (names.new.items ≡ names.old.items) }
    ensures err { result ≡ Err Stop.Invalid → value depth reader.old ≡ None }
{
    match begin(alloc, reader, depth, names)? {
        Next::Object => in_object(alloc, reader, depth - 1, names),
        Next::Other(place) => Ok(place),
    }
}

/// The next value up to its members, where it is an object.
#[cycle(places)]
pub fn begin<'a>(
    alloc: Global,
    reader: &mut Reader<'a>,
    depth: usize,
    names: &mut Vec<&'a str>,
) -> Result<Next, Stop>
    ensures ok { IfOk result (Begins depth reader.old reader.new) }
    ensures shorter { OnOk result (length reader.new < length reader.old) }
    ensures names { OnOk result (names.new.items ≡ names.old.items) }
    ensures err { result ≡ Err Stop.Invalid → value depth reader.old ≡ None }
{
    let token = reader.next().ok_or(Stop::Invalid)?;
    match token {
        Token::String(_text) => Ok(Next::Other(None)),
        Token::Number(_text) => Ok(Next::Other(None)),
        Token::Bool(_b) => Ok(Next::Other(None)),
        Token::Null => Ok(Next::Other(None)),
        Token::EndObject | Token::EndArray | Token::Key(_) | Token::Bad => Err(Stop::Invalid),
        Token::BeginArray => {
            if depth == 0 {
                return Err(Stop::Invalid);
            }
            Ok(Next::Other(in_items(alloc, reader, depth - 1, names)?))
        }
        Token::BeginObject => {
            if depth == 0 {
                return Err(Stop::Invalid);
            }
            Ok(Next::Object)
        }
    }
}

/// The items of a list and its end.
#[cycle(places)]
fn in_items<'a>(
    alloc: Global,
    reader: &mut Reader<'a>,
    depth: usize,
    names: &mut Vec<&'a str>,
) -> Result<Option<String>, Stop>
    ensures ok { IfOk result (λ o. Passes (items (value depth) (length reader.old)) reader.old reader.new (λ js. told o ≡ items_place 0 js)) }
    ensures shorter { OnOk result (length reader.new < length reader.old) }
    ensures names { OnOk result (names.new.items ≡ names.old.items) }
    ensures err { result ≡ Err Stop.Invalid → items (value depth) (length reader.old) reader.old ≡ None }
{
    let mut place = None;
    let mut item: usize = 0;
    'items: while !reader.take_end_array() {
        let inner = place_in(alloc, reader, depth, names)?;
        place = item_place(alloc, place, item, inner)?;
        item = item.saturating_add(1);
    }
    Ok(place)
}

/// The members of an object and its end.
#[cycle(places)]
fn in_object<'a>(
    alloc: Global,
    reader: &mut Reader<'a>,
    depth: usize,
    names: &mut Vec<&'a str>,
) -> Result<Option<String>, Stop>
    ensures ok { IfOk result (λ o. Passes (members (value depth) (length reader.old)) reader.old reader.new
        (λ ms. told o ≡ option_or (twin_place (member_names ms)) (members_place ms))) }
    ensures shorter { OnOk result (length reader.new < length reader.old) }
    ensures names { OnOk result (names.new.items ≡ names.old.items) }
    ensures err { result ≡ Err Stop.Invalid → members (value depth) (length reader.old) reader.old ≡ None }
{
    let outer = names.len();
    let inner = with_members(alloc, reader, depth, names)?;
    let place = twin_or(alloc, &names[outer..], inner)?;
    names.truncate(outer);
    Ok(place)
}

/// The members of an object and its end: the place within the values, and their names left behind the others.
#[cycle(places)]
pub fn with_members<'a>(
    alloc: Global,
    reader: &mut Reader<'a>,
    depth: usize,
    names: &mut Vec<&'a str>,
) -> Result<Option<String>, Stop>
    ensures ok { IfOk result (λ o. Passes (members (value depth) (length reader.old)) reader.old reader.new
        (λ ms. (told o ≡ members_place ms) × Leaves ms names.old.items names.new.items)) }
    ensures shorter { OnOk result (length reader.new < length reader.old) }
    ensures err { result ≡ Err Stop.Invalid → members (value depth) (length reader.old) reader.old ≡ None }
{
    let mut place = None;
    'members: while let Some(name) = reader.next_key().or(Err(Stop::Invalid))? {
        names.push(name)?;
        let inner = place_in(alloc, reader, depth, names)?;
        place = member_place(alloc, place, name, inner)?;
    }
    Ok(place)
}

/// The step to the first name that stands a second time, else the other place.
pub fn twin_or(
    alloc: Global,
    names: &[&str],
    other: Option<String>,
) -> Result<Option<String>, AllocError>
    ensures { IfOk result (λ o. told o ≡ option_or (twin_place (map (λ n. n.now) names.now)) (told other)) }
{
    match twin_among(alloc, names)? {
        Some(name) => Ok(Some(step_to(alloc, name)?)),
        None => Ok(other),
    }
}
