//! From the path of a rollout request to what it asks.
ghost use Rattle.std.specs.Prelude.{◌≡◌, ◌||◌, IfSome};
ghost use Rattle.flagops_shell.specs.Files.{load_of};
ghost use Rattle.flagops_files.specs.Loading.{max_text};
ghost use Rattle.flagops_files.specs.Refusal.{ComesFrom, GivesUnlessWant, is_file_fault, loads_file, TellsOf};
ghost use Rattle.flagops_files.specs.Told.{file};
ghost use Rattle.flagops_files.specs.declared.refusal.Refusal.TheVariants.{Load};
ghost use Rattle.flagops_shell.specs.Outcomes.{refused_by};

use crate::loading::{TEXT_LIMIT, load};
use crate::refusal::{Call, Refused, out_of_memory};
use flagops_shell::FileSet;
use rollout::RequestFile;
use std::alloc::{AllocError, Global};

/// The file of a request at a path, read once. Whatever is wrong with its bytes is told by [`RequestFile::asked`].
pub fn load_request<F: FileSet>(
    alloc: Global,
    files: &mut F,
    path: &str,
) -> Result<RequestFile, Refused>
    ensures exact { IfSome (F.holding files.old) (λ at. GivesUnlessWant (λ r. r) result (refused_by Load (load_of at path.now max_text))) }
    ensures calls { ComesFrom loads_file result }
    ensures failed { F.has_failed files.new ≡ (F.has_failed files.old || is_file_fault result) }
    ensures kept { F.holding files.new ≡ F.holding files.old }
    ensures names { TellsOf (file path.now) result }
{
    let bytes = load(alloc, files, path, u64::from(TEXT_LIMIT))?;
    match RequestFile::read(alloc, bytes) {
        Ok(request) => Ok(request),
        Err(AllocError) => Err(out_of_memory(Call::Load)),
    }
}
