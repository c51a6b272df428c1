//! From the path of a document to its flags, and to what is found by the names in it.
ghost use Rattle.std.specs.Prelude.{◌≡◌, ◌||◌, false, IfOk, IfSome, Ok};
ghost use Rattle.flag_defs.specs.Flags.{flags_view};
ghost use Rattle.member_names.specs.Repeated.{json_of};
ghost use Rattle.flag_doubts.specs.Repeated.{Finds};
ghost use Rattle.flagops_files.specs.Documents as documents;
ghost use Rattle.flagops_files.specs.Documents.{IsDocumentInAs};
ghost use Rattle.flagops_shell.specs.Files.{load_of};
ghost use Rattle.flagops_files.specs.Loading.{max_text};
ghost use Rattle.flagops_files.specs.Refusal.{ComesFrom, GivesOne, TellsOf, is_file_fault, loads_flags, reads_flags};
ghost use Rattle.flagops_files.specs.Told.{file};
ghost use Rattle.flagops_checks.specs.Documents.{IsDocumentAt};
ghost use Rattle.flagops_checks.specs.Refusal as checks;

use file_diagnostics::of_document;
use flag_defs::Flags;
use flag_doubts::{ReadDocument, Repeated, read_with_names};
use flagops_files::{Refusal, Refused, TEXT_LIMIT, load, make_room_for};
use flagops_shell::{FileSet, Remark};
use std::alloc::Global;
use std::thread::Threads;

/// A document that was loaded: its bytes, the flags that they mean, and what is found by the names in it.
#[derive(Drop)]
pub(crate) struct Loaded {
    pub(crate) bytes: Vec<u8>,
    pub(crate) flags: Flags,
    pub(crate) repeated: Repeated,
}

/// The document at a path, with what is found by the names in it.
#[tactic(auto, using(crate::proofs::Loaded::told, crate::proofs::Loaded::comes, crate::proofs::Loaded::failed_load))]
pub(crate) fn load_checked<R: Threads, F: FileSet>(
    rt: &R,
    alloc: Global,
    files: &mut F,
    path: &str,
    floats: bool,
) -> Result<Loaded, crate::refusal::Refused>
    ensures exact { IfSome (F.holding files.old) (λ at. checks.GivesOne (λ d. flags_view d.flags) result (IsDocumentAt floats at path.now)) }
    ensures bytes { IfSome (F.holding files.old) (λ at. IfOk result (λ d. load_of at path.now max_text ≡ Ok d.bytes.items)) }
    ensures found { IfOk result (λ d. Finds (json_of d.bytes.items) d.repeated) }
    ensures calls { checks.ComesFrom checks.loads_flags result }
    ensures failed { F.has_failed files.new ≡ (F.has_failed files.old || checks.is_file_fault result) }
    ensures kept { F.holding files.new ≡ F.holding files.old }
    ensures names { checks.TellsOf (file path.now) result }
{
    match load_with_names(rt, alloc, files, path, floats) {
        Ok(loaded) => Ok(loaded),
        Err(refused) => Err(flagops_shell::Refused::of(refused)),
    }
}

/// The document at a path, refused as `flagops_files::load_document` refuses it.
#[tactic(auto, unfolding(flagops_files::specs::Documents::IsDocumentAs))]
fn load_with_names<R: Threads, F: FileSet>(
    rt: &R,
    alloc: Global,
    files: &mut F,
    path: &str,
    floats: bool,
) -> Result<Loaded, Refused>
    ensures exact { IfSome (F.holding files.old) (λ at. GivesOne (λ d. flags_view d.flags) result (documents.IsDocumentAs floats at path.now)) }
    ensures bytes { IfSome (F.holding files.old) (λ at. IfOk result (λ d. load_of at path.now max_text ≡ Ok d.bytes.items)) }
    ensures found { IfOk result (λ d. Finds (json_of d.bytes.items) d.repeated) }
    ensures calls { ComesFrom loads_flags result }
    ensures failed { F.has_failed files.new ≡ (F.has_failed files.old || is_file_fault result) }
    ensures kept { F.holding files.new ≡ F.holding files.old }
    ensures names { TellsOf (file path.now) result }
{
    let bytes = load(alloc, files, path, u64::from(TEXT_LIMIT))?;
    let ReadDocument { flags, names } = read_in(rt, alloc, path, bytes.as_slice(), floats)?;
    Ok(Loaded {
        bytes,
        flags,
        repeated: names,
    })
}

/// The flags of a document that was loaded from a path, and what is found by the names in it.
#[tactic(auto, using(flagops_files::proofs::Told::says))]
fn read_in<R: Threads>(
    rt: &R,
    alloc: Global,
    path: &str,
    bytes: &[u8],
    floats: bool,
) -> Result<ReadDocument, Refused>
    ensures exact { GivesOne (λ d. flags_view d.flags) result (IsDocumentInAs floats bytes.now) }
    ensures found { IfOk result (λ d. Finds (json_of bytes.now) d.names) }
    ensures calls { ComesFrom reads_flags result }
    ensures read { is_file_fault result ≡ false }
    ensures names { TellsOf (file path.now) result }
{
    make_room_for(alloc, bytes.len());
    match read_with_names(rt, alloc, bytes, floats) {
        Ok(read) => Ok(read),
        Err(fault) => Err(Refused {
            refusal: Refusal::ReadFlags(fault),
            remark: Remark::of(of_document(alloc, path, bytes, fault)),
        }),
    }
}
