//! What is passed over of a request: members of names that are not read, and members that stand again under their name.
ghost use Rattle.std.specs.Prelude.{◌≡◌, ◌||◌, is_some, string_bytes, IfOk, IfSome, Ok};
ghost use Rattle.flag_text.specs.Reading.{tree_of};
ghost use Rattle.flag_text.specs.View.{view};
ghost use Rattle.flagops_files.specs.Loading.{max_text};
ghost use Rattle.member_names.specs.Repeated.{is_repeating};
ghost use Rattle.flagops_rollouts.specs.Beside.{AreBoth, Tells};
ghost use Rattle.flagops_rollouts.specs.Doubts.{has_unread, is_unread, request_parts};
ghost use Rattle.flagops_shell.specs.Diagnostic.{Says};
ghost use Rattle.file_diagnostics.specs.Named.{Names};

use crate::beside::behind;
use file_diagnostics::{Lines, Opening, of_unread};
use flag_text::{TextFault, Tree, read_tree};
use flagops_files::TEXT_LIMIT;
use flagops_shell::Remark;
use member_names::{Reader, repeated_place, within};
use rollout::RequestFile;
use std::alloc::{AllocError, Global};

/// What is told of members of a request that are not read, where there are any.
pub fn unread(alloc: Global, path: &str, bytes: &[u8]) -> Result<Option<Remark>, AllocError>
    ensures told { IfOk result (λ r. is_some r ≡ is_unread bytes.now) }
    ensures notes { IfOk result (λ r. IfSome r (Says (Names path.now))) }
    ensures parts { IfOk result (Tells (request_parts path.now bytes.now)) }
{
    let unread = unread_member_of(alloc, path, bytes)?;
    let repeated = repeated(alloc, path, bytes)?;
    Ok(with_more(path, unread, repeated))
}

/// What is told of members of a request that are not read, by their names alone.
fn unread_member_of(alloc: Global, path: &str, bytes: &[u8]) -> Result<Option<Remark>, AllocError>
    ensures told { IfOk result (λ r. is_some r ≡ has_unread (tree_of bytes.now max_text)) }
    ensures notes { IfOk result (λ r. IfSome r (Says (Names path.now))) }
{
    match read_tree(alloc, bytes, TEXT_LIMIT as usize) {
        Ok(tree) => Ok(unread_in(alloc, path, &tree)),
        Err(TextFault::WantOfMemory) => Err(AllocError),
        Err(_) => Ok(None),
    }
}

/// The same of the file of a request, which was read.
pub fn unread_in_file(
    alloc: Global,
    path: &str,
    request: &RequestFile,
) -> Result<Option<Remark>, AllocError>
    ensures told { IfOk result (λ r. is_some r ≡ is_unread request.now) }
    ensures notes { IfOk result (λ r. IfSome r (Says (Names path.now))) }
    ensures parts { IfOk result (Tells (request_parts path.now request.now)) }
{
    let unread = unread_member(alloc, path, request);
    let repeated = repeated(alloc, path, request.bytes())?;
    Ok(with_more(path, unread, repeated))
}

/// The same of the file of a request, which was read.
fn unread_member(alloc: Global, path: &str, request: &RequestFile) -> Option<Remark>
    ensures told { is_some result ≡ has_unread (tree_of request.now max_text) }
    ensures notes { IfSome result (Says (Names path.now)) }
{
    match request.tree() {
        Ok(tree) => unread_in(alloc, path, tree),
        Err(_) => None,
    }
}

/// The same of the names in the tree of a request.
#[tactic(auto, using(flagops_files::proofs::Told::says))]
fn unread_in(alloc: Global, path: &str, tree: &Tree) -> Option<Remark>
    ensures told { is_some result ≡ has_unread (Ok (view tree.now)) }
    ensures notes { IfSome result (Says (Names path.now)) }
{
    match Reader::Request.unread(tree) {
        Some(_) => Some(Remark::of(of_unread(alloc, path, tree, Reader::Request))),
        None => None,
    }
}

/// What is told of a member that stands again under its name in the text of a file, where there is one.
#[tactic(auto, using(flagops_files::proofs::Told::says))]
pub fn repeated(alloc: Global, path: &str, bytes: &[u8]) -> Result<Option<Remark>, AllocError>
    ensures told { IfOk result (λ r. is_some r ≡ is_repeating bytes.now) }
    ensures notes { IfOk result (λ r. IfSome r (Says (Names path.now))) }
{
    match repeated_place(alloc, bytes)? {
        Some(place) => Ok(Some(Remark::of(of_repeated(alloc, path, place.as_str())))),
        None => Ok(None),
    }
}

/// Tells the place of a member of the file at `path` that stands again under its name.
fn of_repeated(alloc: Global, path: &str, place: &str) -> Result<String, AllocError>
    ensures names { IfOk result (λ s. Names path.now (string_bytes s)) }
{
    let mut lines = Lines::new(alloc);
    let place = within(place);
    write!(
        lines,
        " has a member that stands more than once, and the last counts: {place}\n"
    );
    lines.headed(Opening::Note, path)
}

/// What is told of a file, with more behind it. The path is what the contract names.
pub fn with_more(path: &str, first: Option<Remark>, more: Option<Remark>) -> Option<Remark>
    requires first { IfSome first (Says (Names path.now)) }
    requires more { IfSome more (Says (Names path.now)) }
    ensures told { is_some result ≡ (is_some first || is_some more) }
    ensures notes { IfSome result (Says (Names path.now)) }
    ensures both { AreBoth first more result }
{
    behind(first, more)
}
