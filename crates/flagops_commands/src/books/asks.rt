//! The file of asks that `drive` answers: how it is loaded, and what a person is told of it.
ghost use Rattle.std.specs.Prelude.{◌≡◌, ◌||◌, true, IfOk, IfSome, string_bytes};
ghost use Rattle.flag_text.specs.Shape.{is_whole};
ghost use Rattle.flag_text.specs.View.{items_view, view};
ghost use Rattle.flagops_drive.specs.File.{file_view};
ghost use Rattle.flagops_files.specs.Loading as loading;
ghost use Rattle.flagops_files.specs.Loading.{max_text};
ghost use Rattle.flagops_files.specs.Refusal as refusals;
ghost use Rattle.flagops_commands.specs.DriveSummary.{IsUnreadText, asks_listed};
ghost use Rattle.flagops_commands.specs.Loaded.{tree_at};
ghost use Rattle.flagops_files.specs.Told.{file};
ghost use Rattle.file_diagnostics.specs.Named.{Names};
ghost use Rattle.flagops_commands.specs.Refusal.{ComesFrom, GivesUnlessWant, is_file_fault, loads_tree, TellsOf};

use crate::books::ask_diagnostics::{of_asks, of_unread_asks};
use crate::refusal::Refused;
use file_diagnostics::of_text;
use flag_text::Tree;
use flagops_drive::{AsksFile, read_asks};
use flagops_files::{Refusal, TEXT_LIMIT, load, make_room_for};
use flagops_shell::{FileSet, Remark};
use json::Scratch;
use std::alloc::{AllocError, Global};

/// What the file of asks at a path holds. The file's bytes stay where they are put, and so do the texts that escapes were
/// replaced in.
#[tactic(auto, using(crate::proofs::Loaded::told, crate::proofs::Loaded::comes, crate::proofs::Loaded::failed_load))]
pub fn load_asks<'a, F: FileSet>(
    alloc: Global,
    files: &mut F,
    path: &str,
    bytes: &'a mut Vec<u8>,
    scratch: &'a mut Scratch,
) -> Result<AsksFile<'a>, Refused>
    ensures exact { IfSome (F.holding files.old) (λ at. GivesUnlessWant file_view result (tree_at at path.now max_text)) }
    ensures whole { IfOk result (λ asks. is_whole (file_view asks) ≡ true) }
    ensures calls { ComesFrom loads_tree result }
    ensures failed { F.has_failed files.new ≡ (F.has_failed files.old || is_file_fault result) }
    ensures kept { F.holding files.new ≡ F.holding files.old }
    ensures names { TellsOf (file path.now) result }
{
    match load_asks_file(alloc, files, path, bytes, scratch) {
        Ok(asks) => Ok(asks),
        Err(refused) => Err(Refused::of(refused)),
    }
}

/// The same, refused as a file.
#[tactic(auto, using(flagops_files::proofs::Told::says), unfolding(flagops_files::specs::Loading::tree_at))]
fn load_asks_file<'a, F: FileSet>(
    alloc: Global,
    files: &mut F,
    path: &str,
    bytes: &'a mut Vec<u8>,
    scratch: &'a mut Scratch,
) -> Result<AsksFile<'a>, flagops_files::Refused>
    ensures exact { IfSome (F.holding files.old) (λ at. refusals.GivesUnlessWant file_view result (loading.tree_at at path.now max_text)) }
    ensures whole { IfOk result (λ asks. is_whole (file_view asks) ≡ true) }
    ensures calls { refusals.ComesFrom refusals.loads_tree result }
    ensures failed { F.has_failed files.new ≡ (F.has_failed files.old || refusals.is_file_fault result) }
    ensures kept { F.holding files.new ≡ F.holding files.old }
    ensures names { refusals.TellsOf (file path.now) result }
{
    *bytes = load(alloc, files, path, u64::from(TEXT_LIMIT))?;
    let bytes = bytes.as_slice();
    make_room_for(alloc, bytes.len());
    match read_asks(alloc, bytes, TEXT_LIMIT as usize, scratch) {
        Ok(asks) => Ok(asks),
        Err(fault) => Err(flagops_files::Refused {
            refusal: Refusal::ReadTree(fault),
            remark: Remark::of(of_text(alloc, path, bytes, TEXT_LIMIT as usize, fault)),
        }),
    }
}

/// What a person is told of a file that is no list of asks. Asks that were read are refused so only where there are 2^32 or
/// more, which a file of the program's limit has not.
pub fn of_no_asks(alloc: Global, path: &str, asks: &AsksFile<'_>) -> Result<String, AllocError>
    ensures { IfOk result (λ s. Names path.now (string_bytes s)) }
{
    match asks {
        AsksFile::Plain(_) => of_asks(alloc, path, &Tree::Null),
        AsksFile::Tree(tree) => of_asks(alloc, path, tree),
    }
}

/// What a person is told of asks that have a member that is not read; those that were read have none.
pub fn of_unread(alloc: Global, path: &str, asks: &AsksFile<'_>) -> Result<String, AllocError>
    ensures names { IfOk result (λ s. Names path.now (string_bytes s)) }
    ensures text { IfOk result (λ s. IsUnreadText path.now (asks_listed (file_view asks.now)) (string_bytes s)) }
{
    match asks {
        AsksFile::Plain(_) => of_unread_asks(alloc, path, &[]),
        AsksFile::Tree(tree) => of_unread_asks(alloc, path, asks_listed(tree)),
    }
}

/// The asks of a tree. What is no list has none.
fn asks_listed(tree: &Tree) -> &[Tree]
    ensures { items_view result.now ≡ asks_listed (view tree.now) }
{
    tree.as_list().unwrap_or(&[])
}
