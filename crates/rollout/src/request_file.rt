//! The file of a rollout request, read once.
ghost use Rattle.std.specs.Prelude.{◌≡◌, ◌<◌, ◌≤◌, false, length, true, IfOk, IsErrOf, IsOk};
ghost use Rattle.std.specs.Str.{is_utf8};
ghost use Rattle.flag_text.specs.Outcome.{seen_as};
ghost use Rattle.flag_text.specs.Reading.{tree_of};
ghost use Rattle.flag_text.specs.Shape.{is_whole};
ghost use Rattle.flag_text.specs.View.{view};
ghost use Rattle.price_core.specs.Request.{asked_of, max_request, request_of};
ghost use Rattle.price_core.specs.declared.fault.PriceFault.TheVariants.{BadRequest};

use flag_text::{TextFault, Tree, read_tree};
use limits::TEXT_BYTES;
use price_core::{PriceFault, Request};
use std::alloc::{AllocError, Global};
use std::marker::Model;

/// The file of a rollout request: its bytes, the tree that they stand for, and what is asked by it. It is made once, and
/// what it holds is what reading of these bytes gives, so that nothing reads them again.
#[derive(Drop)]
pub struct RequestFile {
    bytes: Vec<u8>,
    tree: Result<Tree, TextFault>,
    asked: Result<Request, PriceFault>,
}

impl Model for RequestFile {
    ghost use Rattle.std.specs.Prelude.{List, ℕ};
    ghost use Rattle.rollout.specs.RequestFile.{IsReadOf};

    ghost Value = { List ℕ };

    ghost view = { λ r. r.bytes.items };

    ghost invariant = { λ r. IsReadOf r.bytes.items r.tree r.asked };
}

impl RequestFile {
    /// The file of these bytes. Want of memory is the one fault: whatever is wrong with the bytes, [`RequestFile::asked`]
    /// tells. Of a file above the limit of a request, or that is not UTF-8, no memory is taken.
    pub fn read(alloc: Global, bytes: Vec<u8>) -> Result<RequestFile, AllocError>
        ensures bytes { IfOk result (λ r. r ≡ bytes.items) }
        ensures large { max_request < length bytes.items → IsOk result }
        ensures no_text { length bytes.items ≤ max_request → is_utf8 bytes.items ≡ false → IsOk result }
    {
        match read_tree(alloc, bytes.as_slice(), TEXT_BYTES) {
            Ok(tree) => {
                let asked = asked_in(alloc, &tree)?;
                Ok(RequestFile {
                    bytes,
                    tree: Ok(tree),
                    asked,
                })
            }
            Err(TextFault::WantOfMemory) => Err(AllocError),
            Err(fault) => Ok(RequestFile {
                bytes,
                tree: Err(fault),
                asked: Err(PriceFault::BadRequest),
            }),
        }
    }

    /// The bytes of the file.
    pub fn bytes(&self) -> &[u8]
        ensures { result.now ≡ self.now }
    {
        self.bytes.as_slice()
    }

    /// The tree that the bytes stand for, or why they stand for none.
    pub fn tree(&self) -> Result<&Tree, TextFault>
        ensures { seen_as (λ t. view t.now) result ≡ tree_of self.now max_request }
    {
        match &self.tree {
            Ok(tree) => Ok(tree),
            Err(fault) => Err(*fault),
        }
    }

    /// What is asked, or the first refusal of a request.
    #[tactic(auto, using(crate::proofs::Unread::none_above, crate::proofs::Unread::none_of_text))]
    pub fn asked(&self) -> Result<&Request, PriceFault>
        ensures value { seen_as (λ r. r.now) result ≡ asked_of self.now }
        ensures large { max_request < length self.now → IsErrOf result BadRequest }
        ensures no_text { length self.now ≤ max_request → is_utf8 self.now ≡ false → IsErrOf result BadRequest }
    {
        match &self.asked {
            Ok(request) => Ok(request),
            Err(fault) => Err(*fault),
        }
    }
}

/// What is asked by the tree of a text, or the first refusal of a request.
fn asked_in(alloc: Global, tree: &Tree) -> Result<Result<Request, PriceFault>, AllocError>
    requires { is_whole (view tree.now) ≡ true }
    ensures { IfOk result (λ asked. asked ≡ request_of (view tree.now)) }
{
    match Request::of_tree(alloc, tree) {
        Ok(request) => Ok(Ok(request)),
        Err(PriceFault::WantOfMemory) => Err(AllocError),
        Err(fault) => Ok(Err(fault)),
    }
}
