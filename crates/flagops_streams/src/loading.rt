//! The documents that `serve` is asked for.
ghost use Rattle.std.specs.Prelude.{◌≡◌, ◌+◌, ◌||◌, false, None, length, map, IfErr, IfOk, IfSome, OnOk};
ghost use Rattle.flagops_streams.specs.Loading.{IsFirstRefused, LoadsTo, documents_view, is_unread, is_unread_next, loaded_at, loaded_next};
ghost use Rattle.flagops_streams.specs.Documents.{documents_in};
ghost use Rattle.flagops_streams.specs.Refusal.{GivesUnlessWant, is_want};
ghost use Rattle.flagops_streams.specs.Why.{IsOneOf, refused_document};

use crate::documents::Documents;
use crate::refusal::Refusal;
use flagops_shell::{FileSet, LoadFault};
use limits::TEXT_BYTES;
use std::alloc::Global;

/// Why the documents were not loaded, and the path of the one where that was seen.
#[derive(Clone, Copy)]
pub struct Unloaded<'a> {
    pub refusal: Refusal,
    pub path: &'a str,
}

/// The documents of the files at the paths, in their order. The source of each is added just before its file is loaded.
pub fn loaded<'a, F: FileSet>(
    alloc: Global,
    files: &mut F,
    paths: &[&'a str],
) -> Result<Documents, Unloaded<'a>>
    ensures exact { IfSome (F.holding files.old) (λ at. LoadsTo result (loaded_at at (map (λ path. path.now) paths.now))) }
    ensures all { IfOk result (λ d. documents_in d ≡ length paths.now) }
    ensures names { IfErr result (λ u. is_want u.refusal ≡ false → IsFirstRefused (F.holding files.old) (map (λ path. path.now) paths.now) u.path.now) }
    ensures one { IfErr result (λ u. IsOneOf (map (λ path. path.now) paths.now) u.path.now) }
    ensures unread { IfErr result (λ u. refused_document u.refusal ≡ None) }
    ensures failed { F.has_failed files.new ≡ (F.has_failed files.old || is_unread result) }
    ensures kept { F.holding files.new ≡ F.holding files.old }
{
    let mut documents = Documents::new(alloc);
    for named in paths {
        let path = *named;
        if let Err(refusal) = load_next(alloc, files, &mut documents, path) {
            return Err(Unloaded { refusal, path });
        }
    }
    Ok(documents)
}

/// Loads one more document.
fn load_next<F: FileSet>(
    alloc: Global,
    files: &mut F,
    documents: &mut Documents,
    path: &str,
) -> Result<(), Refusal>
    ensures exact { IfSome (F.holding files.old) (λ at. GivesUnlessWant (λ _. documents_view documents.new) result (loaded_next at (documents_view documents.old) path.now)) }
    ensures more { OnOk result (documents_in documents.new ≡ documents_in documents.old + 1) }
    ensures unread { IfErr result (λ refusal. refused_document refusal ≡ None) }
    ensures failed { F.has_failed files.new ≡ (F.has_failed files.old || is_unread_next result) }
    ensures kept { F.holding files.new ≡ F.holding files.old }
{
    documents.add_source(alloc)?;
    let text = match files.read(alloc, path, TEXT_BYTES as u64) {
        Ok(text) => text,
        Err(LoadFault::Unreadable) => return Err(Refusal::Unreadable),
        Err(LoadFault::WantOfMemory) => return Err(Refusal::Unloaded),
    };
    documents.push(text)
}
