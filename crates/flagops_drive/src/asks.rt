//! The asks of a file.
ghost use Rattle.std.specs.Prelude.{◌≡◌, ◌<◌, ◌^◌, true, None, IfOk, IfSome, IsErrOf, Ok, is_some, length, map};
ghost use Rattle.flag_text.specs.Outcome.{GivesUnless};
ghost use Rattle.flag_text.specs.Shape.{is_whole, items_are_whole};
ghost use Rattle.flag_text.specs.View.{items_view, view};
ghost use Rattle.flagops_drive.specs.Asks.{ask_view, asks_in, asks_of as asks_of_shape, if_asks};
ghost use Rattle.flagops_drive.specs.Fault.{want};
ghost use Rattle.flagops_drive.specs.File.{count_of, file_view, items_of};
ghost use Rattle.flagops_drive.specs.Plain.{plain_view};

use crate::asks_file::AsksFile;
use crate::fault::DriveRefusal;
use crate::misfit::Misfit;
use crate::plain_ask::PlainAsk;
use crate::reading::ask_in;
use book_share::Ask;
use flag_text::Tree;
use std::alloc::Global;

/// The most asks.
pub(crate) const MOST_ASKS: usize = 4_294_967_295;

/// The items of a list of asks: asks that were read, or trees.
#[derive(Clone, Copy)]
pub(crate) enum AskItems<'a> {
    Plain(&'a [PlainAsk<'a>]),
    Trees(&'a [Tree]),
}

/// The asks that a file is, which they borrow. It is refused with BadAsks where the file is no list of asks, or has 2^32 or
/// more, before memory is taken.
pub fn asks_of<'a>(alloc: Global, file: &'a AsksFile<'_>) -> Result<Vec<Ask<'a>>, DriveRefusal>
    requires { is_whole (file_view file.now) ≡ true }
    ensures exact { GivesUnless want (λ v. map ask_view v.items) result (if_asks (asks_of_shape (file_view file.now))) }
    ensures few { IfOk result (λ v. length v.items < 2 ^ 32) }
    ensures bad { asks_of_shape (file_view file.now) ≡ None → IsErrOf result DriveRefusal.BadAsks }
{
    let Some(items) = ask_items(file) else {
        return Err(DriveRefusal::BadAsks);
    };
    asks_in(alloc, items)
}

/// The items of a file that is a list of asks, and of fewer than 2^32.
pub(crate) fn ask_items<'a>(file: &'a AsksFile<'_>) -> Option<AskItems<'a>>
    requires { is_whole (file_view file.now) ≡ true }
    ensures are { is_some result ≡ is_some (asks_of_shape (file_view file.now)) }
    ensures items { IfSome result (λ items. asks_in (items_of items) ≡ asks_of_shape (file_view file.now)) }
    ensures whole { IfSome result (λ items. items_are_whole (items_of items) ≡ true) }
    ensures few { IfSome result (λ items. count_of items < 2 ^ 32) }
{
    match file {
        AsksFile::Plain(asks) => {
            if asks.len() > MOST_ASKS {
                return None;
            }
            Some(AskItems::Plain(asks.as_slice()))
        }
        AsksFile::Tree(tree) => Some(AskItems::Trees(tree_items(tree)?)),
    }
}

/// The items of a tree that is a list of asks, and of fewer than 2^32.
fn tree_items(tree: &Tree) -> Option<&[Tree]>
    requires { is_whole (view tree.now) ≡ true }
    ensures are { is_some result ≡ is_some (asks_of_shape (view tree.now)) }
    ensures items { IfSome result (λ items. asks_in (items_view items.now) ≡ asks_of_shape (view tree.now)) }
    ensures whole { IfSome result (λ items. items_are_whole (items_view items.now) ≡ true) }
    ensures few { IfSome result (λ items. length items.now < 2 ^ 32) }
{
    if Misfit::of(tree).is_some() {
        return None;
    }
    tree.as_list()
}

/// The asks of items, which they borrow.
pub(crate) fn asks_in<'a>(alloc: Global, items: AskItems<'a>) -> Result<Vec<Ask<'a>>, DriveRefusal>
    requires { items_are_whole (items_of items) ≡ true }
    ensures exact { GivesUnless want (λ v. map ask_view v.items) result (if_asks (asks_in (items_of items.entry))) }
    ensures each { IfOk result (λ v. length v.items ≡ count_of items.entry) }
{
    match items {
        AskItems::Plain(asks) => lent_asks(alloc, asks),
        AskItems::Trees(items) => tree_asks(alloc, items),
    }
}

/// Asks that were read, lent.
fn lent_asks<'a>(alloc: Global, asks: &'a [PlainAsk<'a>]) -> Result<Vec<Ask<'a>>, DriveRefusal>
    ensures exact { GivesUnless want (λ v. map ask_view v.items) result (Ok (map plain_view asks.now)) }
    ensures each { IfOk result (λ v. length v.items ≡ length asks.now) }
{
    let mut lent = Vec::with_capacity(alloc, asks.len())?;
    for ask in asks {
        lent.push(Ask {
            key: ask.key,
            want: ask.want,
            default: &ask.default,
            context: &ask.context,
            moment: ask.moment,
        })?;
    }
    Ok(lent)
}

/// The asks of trees.
fn tree_asks<'a>(alloc: Global, items: &'a [Tree]) -> Result<Vec<Ask<'a>>, DriveRefusal>
    requires { items_are_whole (items_view items.now) ≡ true }
    ensures exact { GivesUnless want (λ v. map ask_view v.items) result (if_asks (asks_in (items_view items.now))) }
    ensures each { IfOk result (λ v. length v.items ≡ length items.now) }
{
    let mut asks = Vec::with_capacity(alloc, items.len())?;
    for item in items {
        let Some(ask) = ask_in(item) else {
            return Err(DriveRefusal::BadAsks);
        };
        asks.push(ask)?;
    }
    Ok(asks)
}
