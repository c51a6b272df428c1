//! From the path of a flag document to its flags.
ghost use Rattle.std.specs.Prelude.{◌≡◌, ◌||◌, IfOk, IfSome, Ok};
ghost use Rattle.flag_defs.specs.Flags.{flags_view};
ghost use Rattle.flag_defs.specs.Floats.{AreMarkedAs, floats_view, marked_view};
ghost use Rattle.flagops_files.specs.Documents.{AreFlagsAt, IsDocumentAs};
ghost use Rattle.flagops_shell.specs.Files.{load_of};
ghost use Rattle.flagops_files.specs.Loading.{max_text};
ghost use Rattle.flagops_files.specs.Refusal.{ComesFrom, GivesOne, is_file_fault, loads_flags, TellsOf};
ghost use Rattle.flagops_files.specs.Told.{file};

use crate::loading::{TEXT_LIMIT, load};
use crate::refusal::{Refusal, Refused};
use crate::room::make_room_for;
use file_diagnostics::of_document;
use flag_defs::{Flags, read_flags_as};
use flagops_shell::{FileSet, Remark};
use std::alloc::Global;

/// A flag document: its bytes, and the flags that they mean.
#[derive(Drop)]
pub struct Document {
    pub bytes: Vec<u8>,
    pub flags: Flags,
}

/// The document at a path, which may have floats or may not.
#[tactic(auto, using(crate::proofs::Told::says), unfolding(crate::specs::Documents::AreFlagsAt, crate::specs::Documents::IsDocumentAs))]
pub fn load_document<F: FileSet>(
    alloc: Global,
    files: &mut F,
    path: &str,
    floats: bool,
) -> Result<Document, Refused>
    ensures exact { IfSome (F.holding files.old) (λ at. GivesOne (λ d. flags_view d.flags) result (IsDocumentAs floats at path.now)) }
    ensures marked { IfSome (F.holding files.old) (λ at. GivesOne (λ d. marked_view d.flags) result (AreFlagsAt floats at path.now)) }
    ensures floats { IfOk result (λ d. AreMarkedAs floats d.bytes.items (flags_view d.flags) (floats_view d.flags)) }
    ensures bytes { IfSome (F.holding files.old) (λ at. IfOk result (λ d. load_of at path.now max_text ≡ Ok d.bytes.items)) }
    ensures calls { ComesFrom loads_flags result }
    ensures failed { F.has_failed files.new ≡ (F.has_failed files.old || is_file_fault result) }
    ensures kept { F.holding files.new ≡ F.holding files.old }
    ensures names { TellsOf (file path.now) result }
{
    let bytes = load(alloc, files, path, u64::from(TEXT_LIMIT))?;
    make_room_for(alloc, bytes.len());
    match read_flags_as(alloc, bytes.as_slice(), floats) {
        Ok(flags) => Ok(Document { bytes, flags }),
        Err(fault) => Err(Refused {
            refusal: Refusal::ReadFlags(fault),
            remark: Remark::of(of_document(alloc, path, bytes.as_slice(), fault)),
        }),
    }
}

/// The flags of the document at a path, which may have floats or may not.
pub fn load_flags_as<F: FileSet>(
    alloc: Global,
    files: &mut F,
    path: &str,
    floats: bool,
) -> Result<Flags, Refused>
    ensures exact { IfSome (F.holding files.old) (λ at. GivesOne marked_view result (AreFlagsAt floats at path.now)) }
    ensures document { IfSome (F.holding files.old) (λ at. GivesOne flags_view result (IsDocumentAs floats at path.now)) }
    ensures calls { ComesFrom loads_flags result }
    ensures failed { F.has_failed files.new ≡ (F.has_failed files.old || is_file_fault result) }
    ensures kept { F.holding files.new ≡ F.holding files.old }
    ensures names { TellsOf (file path.now) result }
{
    let Document { flags, .. } = load_document(alloc, files, path, floats)?;
    Ok(flags)
}
