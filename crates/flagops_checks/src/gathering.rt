//! From the paths of documents to what is printed and told of them.
ghost use Rattle.std.specs.Prelude.{◌≡◌, ◌||◌, IfErr, IfOk, IfSome, map, string_bytes};
ghost use Rattle.flag_defs.specs.Flags.{flags_view};
ghost use Rattle.member_names.specs.Repeated.{json_of};
ghost use Rattle.flag_doubts.specs.Repeated.{Finds};
ghost use Rattle.flagops_checks.specs.Calls.{check_calls};
ghost use Rattle.flagops_checks.specs.Judged.{checked, checked_view};
ghost use Rattle.flagops_checks.specs.Documents.{AreChecked, IsCheckedAt};
ghost use Rattle.flagops_checks.specs.Step.{Adds, GivesAll, GivesNext};
ghost use Rattle.flagops_checks.specs.Told.{check_attempts};
ghost use Rattle.flagops_checks.specs.Refusal.{ComesFrom, is_file_fault, TellsOf, TellsOfFirst};
ghost use Rattle.flagops_files.specs.Told.{file};

use crate::checked::Checked;
use crate::form::Form;
use crate::judging::judge;
use crate::loading::{Loaded, load_checked};
use crate::names::names_of;
use crate::printing::push_document;
use crate::refusal::{Refused, out_of_memory};
use crate::remark_lines::RemarkLines;
use flag_defs::Flags;
use flag_doubts::Repeated;
use flagops_shell::FileSet;
use member_names::Reader;
use std::alloc::{AllocError, Global};
use std::mem;
use std::thread::Threads;

/// What is printed and told of the documents so far.
#[derive(Drop)]
pub(crate) struct Gathered {
    pub(crate) text: Vec<u8>,
    pub(crate) told: RemarkLines,
    /// Whether a flag is broken or doubted, or a member of a document is not read or stands more than once.
    pub(crate) is_wrong: bool,
}

/// What is printed and told of the documents at these paths, each read before the next.
pub(crate) fn gather<R: Threads, F: FileSet>(
    rt: &R,
    alloc: Global,
    files: &mut F,
    form: Form,
    paths: &[&str],
) -> Result<Gathered, Refused>
    ensures exact { IfSome (F.holding files.old) (λ at. GivesAll form result (AreChecked form.floats at (map (λ p. p.now) paths.now))) }
    ensures calls { ComesFrom check_calls result }
    ensures failed { F.has_failed files.new ≡ (F.has_failed files.old || is_file_fault result) }
    ensures kept { F.holding files.new ≡ F.holding files.old }
    ensures names { IfSome (F.holding files.old) (λ at. TellsOfFirst (check_attempts form.floats at (map (λ p. p.now) paths.now)) result) }
{
    let mut all = Gathered {
        text: Vec::new(alloc),
        told: RemarkLines::new(alloc),
        is_wrong: false,
    };
    let alone = paths.len() == 1;
    for path in paths {
        all = with_document(rt, alloc, files, form, all, path, alone)?;
    }
    Ok(all)
}

/// With the document at a path, which stands alone or is one of several.
fn with_document<R: Threads, F: FileSet>(
    rt: &R,
    alloc: Global,
    files: &mut F,
    form: Form,
    all: Gathered,
    path: &str,
    alone: bool,
) -> Result<Gathered, Refused>
    ensures exact { IfSome (F.holding files.old) (λ at. GivesNext form all result (IsCheckedAt form.floats at path.now)) }
    ensures calls { ComesFrom check_calls result }
    ensures failed { F.has_failed files.new ≡ (F.has_failed files.old || is_file_fault result) }
    ensures kept { F.holding files.new ≡ F.holding files.old }
    ensures names { TellsOf (file path.now) result }
{
    let Loaded {
        bytes,
        flags,
        repeated,
    } = load_checked(rt, alloc, files, path, form.floats)?;
    let next = with_flags(alloc, form, all, path, bytes.as_slice(), &flags, repeated);
    if alone {
        // The program ends soon, and its memory with it.
        mem::forget(flags);
    }
    match next {
        Ok(next) => Ok(next),
        Err(AllocError) => Err(out_of_memory()),
    }
}

/// With the document at a path that has these bytes and flags, in which this was found by the names.
fn with_flags(
    alloc: Global,
    form: Form,
    all: Gathered,
    path: &str,
    bytes: &[u8],
    flags: &Flags,
    repeated: Repeated,
) -> Result<Gathered, AllocError>
    requires { Finds (json_of bytes.now) repeated }
    ensures { IfOk result (Adds form (checked form.floats path.now bytes.now (flags_view flags.now)) all) }
{
    let names = names_of(alloc, bytes, form.floats, repeated)?;
    let checked = Checked {
        path,
        bytes,
        document: &names.document,
        flags: judge(alloc, &names, flags)?,
        is_unread: Reader::Document.unread(&names.document).is_some(),
        repeated: names.place(),
    };
    with_checked(alloc, form, all, &checked)
}

/// With a document that was checked.
fn with_checked(
    alloc: Global,
    form: Form,
    all: Gathered,
    checked: &Checked<'_>,
) -> Result<Gathered, AllocError>
    ensures { IfOk result (Adds form (checked_view checked.now) all) }
{
    let Gathered {
        mut text,
        told,
        is_wrong,
    } = all;
    push_document(
        alloc,
        &mut text,
        form,
        checked.path,
        checked.flags.as_slice(),
    )?;
    Ok(Gathered {
        text,
        told: told.with(alloc, form, checked),
        is_wrong: is_wrong || checked.is_wrong(),
    })
}
