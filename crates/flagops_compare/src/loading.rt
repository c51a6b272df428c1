//! Both documents, and what was recorded.
ghost use Rattle.std.specs.Prelude.{◌≡◌, ◌||◌, IfSome};
ghost use Rattle.flagops_compare.specs.Loaded.{IsLoadedAt, compare_attempts, loaded_view};
ghost use Rattle.flagops_files.specs.Refusal.{GivesOne, TellsOfFirst, is_file_fault};

use flag_defs::Flags;
use flagops_files::{Evidence, Refused, load_evidence, load_flags_as};
use flagops_shell::FileSet;
use std::alloc::Global;
use std::thread::Threads;

/// The flags of both documents, and the book or the tally of what was recorded.
#[derive(Drop)]
pub(crate) struct Loaded {
    pub(crate) old: Flags,
    pub(crate) new: Flags,
    pub(crate) evidence: Evidence,
}

/// What the files at these paths are, each loaded and read before the next; the documents may have floats, or may not.
#[tactic(auto, unfolding(crate::specs::Loaded::IsLoadedAt))]
pub(crate) fn load_both<R: Threads, F: FileSet>(
    rt: &R,
    alloc: Global,
    files: &mut F,
    old: &str,
    new: &str,
    floats: bool,
    book: &str,
) -> Result<Loaded, Refused>
    ensures exact { IfSome (F.holding files.old) (λ at. GivesOne loaded_view result (IsLoadedAt floats at old.now new.now book.now)) }
    ensures failed { F.has_failed files.new ≡ (F.has_failed files.old || is_file_fault result) }
    ensures kept { F.holding files.new ≡ F.holding files.old }
    ensures names { IfSome (F.holding files.old) (λ at. TellsOfFirst (compare_attempts floats at old.now new.now book.now) result) }
{
    let old = load_flags_as(alloc, files, old, floats)?;
    let new = load_flags_as(alloc, files, new, floats)?;
    // No request: no page is counted while a book is read.
    let evidence = load_evidence(rt, alloc, files, &old, None, 1, book)?;
    Ok(Loaded { old, new, evidence })
}
