//! What is known of a document by the names in its text.
ghost use Rattle.std.specs.Prelude.{◌≡◌, is_some, true, IfOk};
ghost use Rattle.file_diagnostics.specs.Broken.{document_in};
ghost use Rattle.flag_doubts.specs.AllRead.{are_all_read};
ghost use Rattle.member_names.specs.Repeated.{json_of};
ghost use Rattle.flag_doubts.specs.Repeated.{Finds, has_repeated, is_repeated};
ghost use Rattle.flag_text.specs.Outcome.{GivesUnless};
ghost use Rattle.flag_text.specs.Shape.{is_tidy};
ghost use Rattle.flag_text.specs.View.{view};
ghost use Rattle.flagops_checks.specs.Judged.{tree_in};
ghost use Rattle.flagops_checks.specs.Names.{AreKnown, HasUnread};

use flag_doubts::Repeated;
use flag_text::{TextFault, Tree, read_doc};
use limits::TEXT_BYTES;
use spelled_numbers::read_with_floats;
use std::alloc::{AllocError, Global};

/// The members of a document that are not read, and what stands more than once in it.
#[derive(Drop)]
pub(crate) struct Names<'a> {
    pub(crate) bytes: &'a [u8],
    /// Whether the document may have floats.
    pub(crate) floats: bool,
    /// A tree with each member that is not read, of the document or of a flag's definition: that of the bytes, or one without
    /// members where there is none.
    pub(crate) document: Tree,
    /// What stands more than once.
    pub(crate) repeated: Repeated,
}

impl Names<'_> {
    /// The place of a member that stands more than once in the document, or in what stands beside its flags.
    pub(crate) fn place(&self) -> Option<&str>
        requires { AreKnown self.now }
        ensures { is_some result ≡ has_repeated self.now.bytes.now }
    {
        match &self.repeated.document {
            Some(place) => Some(place.as_str()),
            None => None,
        }
    }

    /// The place of a member that stands more than once in the definition of the flag of this key.
    pub(crate) fn place_in(&self, key: &str) -> Option<&str>
        requires { AreKnown self.now }
        ensures { is_some result ≡ is_repeated self.now.bytes.now key.now }
    {
        match self.repeated.definitions.get(key) {
            Some(place) => Some(place.as_str()),
            None => None,
        }
    }
}

/// What is known of the names of a document that was read before, with floats or without, in which this was found.
pub(crate) fn names_of(
    alloc: Global,
    bytes: &[u8],
    floats: bool,
    repeated: Repeated,
) -> Result<Names<'_>, AllocError>
    requires { Finds (json_of bytes.now) repeated }
    ensures bytes { IfOk result (λ n. n.bytes.now ≡ bytes.now) }
    ensures floats { IfOk result (λ n. n.floats ≡ floats) }
    ensures known { IfOk result AreKnown }
{
    let document = unread_in(alloc, bytes, floats, repeated.all_read)?;
    Ok(Names {
        bytes,
        floats,
        document,
        repeated,
    })
}

/// A tree with each member that is not read. Where all are read, none is made of the text.
fn unread_in(alloc: Global, bytes: &[u8], floats: bool, all_read: bool) -> Result<Tree, AllocError>
    requires { all_read ≡ are_all_read (json_of bytes.now) }
    ensures { IfOk result (λ t. HasUnread floats bytes.now (view t)) }
{
    if all_read {
        Ok(Tree::Null)
    } else {
        tree_of(alloc, bytes, floats)
    }
}

/// The tree of the bytes of a document that was read before, with floats or without.
fn tree_of(alloc: Global, bytes: &[u8], floats: bool) -> Result<Tree, AllocError>
    ensures tree { IfOk result (λ t. view t ≡ tree_in floats bytes.now) }
    ensures tidy { IfOk result (λ t. is_tidy (view t) ≡ true) }
{
    match document_in(alloc, bytes, floats) {
        Ok(tree) => Ok(tree),
        Err(TextFault::WantOfMemory) => Err(AllocError),
        // Bytes that are no such document have no members.
        Err(_) => Ok(Tree::Null),
    }
}

/// The tree of a document that may have floats, or may not.
fn document_in(alloc: Global, bytes: &[u8], floats: bool) -> Result<Tree, TextFault>
    ensures exact { GivesUnless TextFault.WantOfMemory view result (document_in floats bytes.now) }
    ensures tidy { IfOk result (λ t. is_tidy (view t) ≡ true) }
{
    if floats {
        Ok(read_with_floats(alloc, bytes, TEXT_BYTES)?.tree)
    } else {
        read_doc(alloc, bytes, TEXT_BYTES)
    }
}
