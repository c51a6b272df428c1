//! Members of asks that nobody reads.
ghost use Rattle.std.specs.Prelude.{◌≡◌};
ghost use Rattle.flag_text.specs.View.{items_view, view};
ghost use Rattle.flagops_drive.specs.File.{file_view};
ghost use Rattle.flagops_drive.specs.Unread.{has_unread_ask, have_unread};

use crate::asks_file::AsksFile;
use flag_text::Tree;
use member_names::Reader;

/// Whether an ask of a file has a member that is not read. What is no list has no asks.
pub fn has_unread_ask(file: &AsksFile<'_>) -> bool
    ensures { result ≡ has_unread_ask (file_view file.now) }
{
    match file {
        AsksFile::Plain(_) => false,
        AsksFile::Tree(tree) => tree_has_unread(tree),
    }
}

fn tree_has_unread(asks: &Tree) -> bool
    ensures { result ≡ has_unread_ask (view asks.now) }
{
    match asks {
        Tree::List(items) => have_unread(items.as_slice()),
        _ => false,
    }
}

fn have_unread(asks: &[Tree]) -> bool
    ensures { result ≡ have_unread (items_view asks.now) }
{
    for ask in asks {
        if Reader::Ask.unread(ask).is_some() {
            return true;
        }
    }
    false
}
