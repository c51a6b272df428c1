//! What a person is told of a document.
ghost use Rattle.std.specs.Prelude.{◌≡◌, IfOk, is_some, map, string_bytes};
ghost use Rattle.flagops_checks.specs.Judged.{checked_view, has, judged_view};
ghost use Rattle.flag_doubts.specs.Doubts.{name_of};
ghost use Rattle.flagops_checks.specs.Sites as site_doubts;
ghost use Rattle.flagops_checks.specs.Told.{BrokenPart, DoubtLines, FlagLines, IsDocumentLine, IsDoubtLine, LineIf, OwnLines, RepeatedPart, SiteLines, TellsDocument, UnreadPart, head_line};

use crate::checked::Checked;
use crate::form::Form;
use crate::judging::Judged;
use crate::reasons::{reason, repeated, site_reason};
use crate::sites::SiteDoubt;
use file_diagnostics::{of_definition_errors, of_unread};
use flag_doubts::Doubt;
use flag_text::Tree;
use flagops_files::quoted;
use member_names::Reader;
use std::alloc::{AllocError, Global};

/// What is told of a document: nothing where nothing is wrong.
#[tactic(auto, unfolding(crate::specs::Told::TellsDocument))]
pub(crate) fn document_lines(
    alloc: Global,
    form: Form,
    checked: &Checked<'_>,
) -> Result<String, AllocError>
    ensures { IfOk result (λ s. TellsDocument form (checked_view checked.now) (string_bytes s)) }
{
    let broken = broken_lines(
        alloc,
        form,
        checked.path,
        checked.bytes,
        checked.has_broken(),
    )?;
    let unread = unread_lines(alloc, checked.path, checked.document, checked.is_unread)?;
    let repeated = repeated_line(alloc, checked.path, checked.repeated)?;
    let doubts = doubt_lines(alloc, checked.path, checked.flags.as_slice())?;
    format!(in alloc; "{broken}{unread}{repeated}{doubts}")
}

/// A line for each broken flag, where there is one, behind that of the document where there are others.
fn broken_lines(
    alloc: Global,
    form: Form,
    path: &str,
    bytes: &[u8],
    has_broken: bool,
) -> Result<String, AllocError>
    ensures { IfOk result (λ s. BrokenPart has_broken form path.now bytes.now (string_bytes s)) }
{
    if !has_broken {
        return Ok(String::new(alloc));
    }
    let head = head_line(alloc, form, path)?;
    let lines = of_definition_errors(alloc, bytes, form.floats)?;
    format!(in alloc; "{head}{lines}")
}

/// The line before those of the broken flags of a document, where there are others.
fn head_line(alloc: Global, form: Form, path: &str) -> Result<String, AllocError>
    ensures { IfOk result (λ s. string_bytes s ≡ head_line form path.now) }
{
    if form.is_alone {
        return Ok(String::new(alloc));
    }
    let path = quoted(alloc, path)?;
    format!(in alloc; "note: {path} has broken flags:\n")
}

/// Lines on the members of a document that are not read, where there is one.
fn unread_lines(
    alloc: Global,
    path: &str,
    document: &Tree,
    is_unread: bool,
) -> Result<String, AllocError>
    ensures { IfOk result (λ s. UnreadPart is_unread path.now (string_bytes s)) }
{
    if is_unread {
        of_unread(alloc, path, document, Reader::Document)
    } else {
        Ok(String::new(alloc))
    }
}

/// A line on a member that stands more than once in a document, where its place is given.
fn repeated_line(alloc: Global, path: &str, place: Option<&str>) -> Result<String, AllocError>
    ensures { IfOk result (λ s. RepeatedPart (is_some place.entry) path.now (string_bytes s)) }
{
    if place.is_some() {
        document_line(alloc, path, place, Doubt::Repeated)
    } else {
        Ok(String::new(alloc))
    }
}

/// The line of such a doubt of a document.
fn document_line(
    alloc: Global,
    path: &str,
    place: Option<&str>,
    doubt: Doubt,
) -> Result<String, AllocError>
    ensures { IfOk result (λ s. IsDocumentLine path.now doubt (string_bytes s)) }
{
    let path = quoted(alloc, path)?;
    let why = repeated(alloc, place)?;
    let name = doubt.name();
    format!(in alloc; "note: {path} {why} ({name})\n")
}

/// The lines of the doubts of flags.
fn doubt_lines(alloc: Global, path: &str, flags: &[Judged<'_>]) -> Result<String, AllocError>
    ensures { IfOk result (λ s. DoubtLines path.now (map judged_view flags.now) (string_bytes s)) }
{
    let mut text = String::new(alloc);
    for flag in flags {
        let lines = flag_lines(alloc, path, flag)?;
        text.push_str(lines.as_str())?;
    }
    Ok(text)
}

/// The lines of the doubts of a flag, by itself and of its sites.
fn flag_lines(alloc: Global, path: &str, flag: &Judged<'_>) -> Result<String, AllocError>
    ensures { IfOk result (λ s. FlagLines path.now (judged_view flag.now) (string_bytes s)) }
{
    let own = own_lines(alloc, path, flag)?;
    let others = site_lines(alloc, path, flag)?;
    format!(in alloc; "{own}{others}")
}

/// The lines of the doubts of a flag by itself.
fn own_lines(alloc: Global, path: &str, flag: &Judged<'_>) -> Result<String, AllocError>
    ensures { IfOk result (λ s. OwnLines path.now (judged_view flag.now) (string_bytes s)) }
{
    let doubled = line_if(alloc, path, flag, Doubt::Doubled)?;
    let repeated = line_if(alloc, path, flag, Doubt::Repeated)?;
    let unread = line_if(alloc, path, flag, Doubt::Unread)?;
    let weight = line_if(alloc, path, flag, Doubt::Weight)?;
    let variant = line_if(alloc, path, flag, Doubt::Variant)?;
    let never = line_if(alloc, path, flag, Doubt::Never)?;
    format!(in alloc; "{doubled}{repeated}{unread}{weight}{variant}{never}")
}

/// The lines of the doubts of its sites.
fn site_lines(alloc: Global, path: &str, flag: &Judged<'_>) -> Result<String, AllocError>
    ensures { IfOk result (λ s. SiteLines path.now (judged_view flag.now) (string_bytes s)) }
{
    let sites = flag.sites;
    let total = site_line_if(alloc, path, flag.key, sites.total, SiteDoubt::Total)?;
    let constant = site_line_if(alloc, path, flag.key, sites.constant, SiteDoubt::Constant)?;
    format!(in alloc; "{total}{constant}")
}

/// The line of a doubt, where a flag has it.
fn line_if(alloc: Global, path: &str, flag: &Judged<'_>, doubt: Doubt) -> Result<String, AllocError>
    ensures { IfOk result (λ s. LineIf (has doubt (judged_view flag.now)) path.now flag.now.key.now (name_of doubt) (string_bytes s)) }
{
    if flag.has(doubt) {
        let why = reason(alloc, flag, doubt)?;
        line(alloc, path, flag.key, why.as_str(), doubt.name())
    } else {
        Ok(String::new(alloc))
    }
}

/// The line of a doubt of a site, where there is one.
fn site_line_if(
    alloc: Global,
    path: &str,
    key: &str,
    is_doubted: bool,
    doubt: SiteDoubt,
) -> Result<String, AllocError>
    ensures { IfOk result (λ s. LineIf is_doubted path.now key.now (site_doubts.name_of doubt) (string_bytes s)) }
{
    if is_doubted {
        line(alloc, path, key, site_reason(doubt), doubt.name())
    } else {
        Ok(String::new(alloc))
    }
}

/// The line of a doubt of this name.
fn line(alloc: Global, path: &str, key: &str, why: &str, name: &str) -> Result<String, AllocError>
    ensures { IfOk result (λ s. IsDoubtLine path.now key.now name.now (string_bytes s)) }
{
    let path = quoted(alloc, path)?;
    let key = quoted(alloc, key)?;
    format!(in alloc; "note: {path}: flag {key} {why} ({name})\n")
}
