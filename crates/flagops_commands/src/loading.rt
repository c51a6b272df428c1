//! Files that are loaded and written for a listed command, where each refusal is one of these commands.
ghost use Rattle.std.specs.Prelude.{◌≡◌, ◌||◌, false, true, IfErr, IfOk, IfSome, OnErr, OnOk};
ghost use Rattle.flagops_files.specs.Losses.{losses_at};
ghost use Rattle.flag_defs.specs.Floats.{marked_view};
ghost use Rattle.flag_text.specs.Shape.{is_whole};
ghost use Rattle.flag_text.specs.View.{view};
ghost use Rattle.flagops_files.specs.Told.{file};
ghost use Rattle.flagops_shell.specs.Files.{KeepsOthers, Stores};
ghost use Rattle.flagops_commands.specs.Loaded.{AreFlagsAt, book_at, bytes_at, choice_at, replaceable_at, rule_at, tree_at};
ghost use Rattle.flagops_commands.specs.Refusal.{ComesFrom, GivesOne, GivesUnlessWant, TellsOf, is_file_fault, is_want, loads_book, loads_file, loads_flags, loads_rule, loads_tree, stores_file, unwritable};
ghost use Rattle.flagops_commands.specs.declared.refusal.ListedRefusal.TheVariants.{Load};
ghost use Rattle.flagops_shell.specs.Outcomes.{refused_by};
ghost use Rattle.rule_text.specs.Choosing.{choice_view};

use crate::refusal::Refused;
use book_core::Book;
use bucket_core::Rule;
use flag_defs::Flags;
use flag_text::Tree;
use flagops_files::{TEXT_LIMIT, load, load_flags_as, losses_at};
use flagops_shell::FileSet;
use rule_text::Choice;
use std::alloc::Global;

/// The bytes of the request or the key file at a path.
#[tactic(auto, using(crate::proofs::Loaded::told, crate::proofs::Loaded::comes, crate::proofs::Loaded::failed_load))]
pub(crate) fn load_bytes<F: FileSet>(
    alloc: Global,
    files: &mut F,
    path: &str,
) -> Result<Vec<u8>, Refused>
    ensures exact { IfSome (F.holding files.old) (λ at. GivesUnlessWant (λ v. v.items) result (bytes_at at path.now)) }
    ensures calls { ComesFrom loads_file result }
    ensures failed { F.has_failed files.new ≡ (F.has_failed files.old || is_file_fault result) }
    ensures kept { F.holding files.new ≡ F.holding files.old }
    ensures names { TellsOf (file path.now) result }
{
    match load(alloc, files, path, u64::from(TEXT_LIMIT)) {
        Ok(bytes) => Ok(bytes),
        Err(refused) => Err(Refused::of(refused)),
    }
}

/// The rule of the rule file at a path.
#[tactic(auto, using(crate::proofs::Loaded::told, crate::proofs::Loaded::comes, crate::proofs::Loaded::failed_load))]
pub(crate) fn load_rule<F: FileSet>(
    alloc: Global,
    files: &mut F,
    path: &str,
) -> Result<Rule, Refused>
    ensures exact { IfSome (F.holding files.old) (λ at. GivesUnlessWant (λ r. r) result (rule_at at path.now)) }
    ensures calls { ComesFrom loads_rule result }
    ensures failed { F.has_failed files.new ≡ (F.has_failed files.old || is_file_fault result) }
    ensures kept { F.holding files.new ≡ F.holding files.old }
    ensures names { TellsOf (file path.now) result }
{
    match flagops_files::load_rule(alloc, files, path) {
        Ok(rule) => Ok(rule),
        Err(refused) => Err(Refused::of(refused)),
    }
}

/// What the rule of the rule file at a path gives a key.
#[tactic(auto, using(crate::proofs::Loaded::told, crate::proofs::Loaded::comes, crate::proofs::Loaded::failed_load))]
pub(crate) fn load_choice<F: FileSet>(
    alloc: Global,
    files: &mut F,
    path: &str,
    key: &str,
) -> Result<Choice, Refused>
    ensures exact { IfSome (F.holding files.old) (λ at. GivesUnlessWant choice_view result (choice_at at path.now key.now)) }
    ensures calls { ComesFrom loads_rule result }
    ensures failed { F.has_failed files.new ≡ (F.has_failed files.old || is_file_fault result) }
    ensures kept { F.holding files.new ≡ F.holding files.old }
    ensures names { TellsOf (file path.now) result }
{
    match flagops_files::load_choice(alloc, files, path, key) {
        Ok(choice) => Ok(choice),
        Err(refused) => Err(Refused::of(refused)),
    }
}

/// The tree of the file at a path, of at most so many bytes.
#[tactic(auto, using(crate::proofs::Loaded::told, crate::proofs::Loaded::comes, crate::proofs::Loaded::failed_load))]
pub(crate) fn load_tree<F: FileSet>(
    alloc: Global,
    files: &mut F,
    path: &str,
    limit: u32,
) -> Result<Tree, Refused>
    ensures exact { IfSome (F.holding files.old) (λ at. GivesUnlessWant view result (tree_at at path.now limit)) }
    ensures whole { IfOk result (λ t. is_whole (view t) ≡ true) }
    ensures calls { ComesFrom loads_tree result }
    ensures failed { F.has_failed files.new ≡ (F.has_failed files.old || is_file_fault result) }
    ensures kept { F.holding files.new ≡ F.holding files.old }
    ensures names { TellsOf (file path.now) result }
{
    match flagops_files::load_tree(alloc, files, path, limit) {
        Ok(tree) => Ok(tree),
        Err(refused) => Err(Refused::of(refused)),
    }
}

/// The flags of the document at a path, which may have floats or may not.
#[tactic(auto, using(crate::proofs::Loaded::told, crate::proofs::Loaded::comes, crate::proofs::Loaded::failed_load))]
pub(crate) fn load_marked<F: FileSet>(
    alloc: Global,
    files: &mut F,
    path: &str,
    floats: bool,
) -> Result<Flags, Refused>
    ensures exact { IfSome (F.holding files.old) (λ at. GivesOne marked_view result (AreFlagsAt floats at path.now)) }
    ensures calls { ComesFrom loads_flags result }
    ensures failed { F.has_failed files.new ≡ (F.has_failed files.old || is_file_fault result) }
    ensures kept { F.holding files.new ≡ F.holding files.old }
    ensures names { TellsOf (file path.now) result }
{
    match load_flags_as(alloc, files, path, floats) {
        Ok(flags) => Ok(flags),
        Err(refused) => Err(Refused::of(refused)),
    }
}

/// The book of the file at a path.
#[tactic(auto, using(crate::proofs::Loaded::told, crate::proofs::Loaded::comes, crate::proofs::Loaded::failed_load))]
pub(crate) fn load_book<F: FileSet>(
    alloc: Global,
    files: &mut F,
    path: &str,
) -> Result<Book, Refused>
    ensures exact { IfSome (F.holding files.old) (λ at. GivesUnlessWant (λ b. b) result (book_at at path.now)) }
    ensures calls { ComesFrom loads_book result }
    ensures failed { F.has_failed files.new ≡ (F.has_failed files.old || is_file_fault result) }
    ensures kept { F.holding files.new ≡ F.holding files.old }
    ensures names { TellsOf (file path.now) result }
{
    match flagops_files::load_book(alloc, files, path) {
        Ok(book) => Ok(book),
        Err(refused) => Err(Refused::of(refused)),
    }
}

/// Whether a book may be written at a path.
#[tactic(auto, using(crate::proofs::Loaded::told, crate::proofs::Loaded::comes, crate::proofs::Loaded::failed_load))]
pub(crate) fn check_replaceable<F: FileSet>(
    alloc: Global,
    files: &F,
    path: &str,
) -> Result<(), Refused>
    ensures exact { IfSome (F.holding files.now) (λ at. GivesUnlessWant (λ u. u) result (replaceable_at at path.now)) }
    ensures calls { ComesFrom loads_book result }
    ensures read { is_file_fault result ≡ false }
    ensures names { TellsOf (file path.now) result }
{
    match flagops_files::check_replaceable(alloc, files, path) {
        Ok(()) => Ok(()),
        Err(refused) => Err(Refused::of(refused)),
    }
}

/// How many inputs of the book in the file at a path a new book does not have.
#[tactic(auto, using(crate::proofs::Loaded::told, crate::proofs::Loaded::comes, crate::proofs::Loaded::failed_load))]
pub(crate) fn load_losses<F: FileSet>(
    alloc: Global,
    files: &mut F,
    path: &str,
    new: &Book,
) -> Result<u64, Refused>
    ensures exact { IfSome (F.holding files.old) (λ at. GivesUnlessWant (λ n. n) result (refused_by Load (losses_at at path.now new.now))) }
    ensures calls { ComesFrom loads_book result }
    ensures failed { F.has_failed files.new ≡ (F.has_failed files.old || is_file_fault result) }
    ensures kept { F.holding files.new ≡ F.holding files.old }
    ensures names { TellsOf (file path.now) result }
{
    match losses_at(alloc, files, path, new) {
        Ok(lost) => Ok(lost),
        Err(refused) => Err(Refused::of(refused)),
    }
}

/// Writes `bytes` to the file at `path`. After a refusal the files are as they were.
#[tactic(auto, using(crate::proofs::Loaded::told, crate::proofs::Loaded::comes, crate::proofs::Loaded::failed_load, crate::proofs::Loaded::unwritten))]
pub(crate) fn store<F: FileSet>(
    alloc: Global,
    files: &mut F,
    path: &str,
    bytes: &[u8],
) -> Result<(), Refused>
    ensures stored { OnOk result (Stores (F.holding files.old) (F.holding files.new) path.now bytes.now) }
    ensures others { KeepsOthers (F.holding files.old) (F.holding files.new) path.now }
    ensures refused { OnErr result (F.holding files.new ≡ F.holding files.old) }
    ensures fault { IfErr result (λ r. is_want r.refusal ≡ false → r.refusal ≡ unwritable) }
    ensures calls { ComesFrom stores_file result }
    ensures failed { F.has_failed files.new ≡ (F.has_failed files.old || is_file_fault result) }
    ensures names { TellsOf (file path.now) result }
{
    match flagops_files::store(alloc, files, path, bytes) {
        Ok(()) => Ok(()),
        Err(refused) => Err(Refused::of(refused)),
    }
}
