//! A plan that is applied to the document of the service.
ghost use Rattle.std.specs.Prelude.{◌≡◌, ◌<◌, ◌≤◌, IfOk, Ok, OnErr, OnOk, string_bytes};
ghost use Rattle.bucket_core.specs.Rule.{entries_view};
ghost use Rattle.control_answers.specs.Apply.{applied_view};
ghost use Rattle.flag_defs.specs.Flags.{flags_view};
ghost use Rattle.flagops_shell.specs.Files.{KeepsOthers};
ghost use Rattle.http_server.specs.Response.{IsBlank};
ghost use Rattle.note_streams.specs.LogLines.{files_view};
ghost use Rattle.plan_text.specs.Answer.{planned_view};
ghost use Rattle.price_core.specs.Request.{asked_of};
ghost use Rattle.control_desk.specs.Apply.{AppliesOr, HoldsText, IsRowOf, TellsApply, Writes, cost_of, old_rule, rule_of, written_text};
ghost use Rattle.control_desk.specs.Held.{held_view};

use crate::asked::text_of;
use crate::files::DeskFiles;
use crate::giving::{Media, finish, respond};
use crate::held::HeldSnapshot;
use crate::logs::path_in;
use crate::refusing::tell_refusal;
use crate::reply::Reply;
use bucket_core::Rule;
use control_answers::{Applied, AppliedRow, ControlRefusal, apply_answer, history_row};
use flag_defs::Flags;
use http::StatusCode;
use http_server::Response;
use logic_ast::{LogicFault, site};
use note_streams::LogFile;
use plan_text::Planned;
use price_core::Request;
use std::alloc::{AllocError, Global};
use std::io;

/// The file of a folder in which each plan that was applied is noted.
pub(crate) const HISTORY: &str = "applied.log";

/// Where a plan is applied, when, and by whom.
#[derive(Clone, Copy)]
pub(crate) struct Applying<'a> {
    pub(crate) alloc: Global,
    /// The folder of what was applied.
    pub(crate) folder: &'a str,
    /// The path of the document.
    pub(crate) path: &'a str,
    /// When, as RFC 3339 has it.
    pub(crate) time: &'a str,
    /// What tells by whom.
    pub(crate) asker: &'a [u8],
}

/// Applies the plan of a token to the document, once it was found right on what log files hold, while the document's file holds the
/// text of the snapshot; and fills a response with how many bytes were written, or with the refusal.
pub(crate) fn apply<F: DeskFiles>(
    files: &mut F,
    applying: Applying<'_>,
    token: &[u8],
    held: &HeldSnapshot,
    logs: &[LogFile<'_>],
    response: &mut Response,
) -> Result<(), AllocError>
    requires { IsBlank response.old }
    ensures ok { OnOk result (TellsApply applying.entry.folder.now applying.entry.path.now applying.entry.asker.now token.now (held_view held.now) (files_view logs.now) (F.holding files.old) (F.holding files.new) (F.faults files.old) (F.faults files.new) response.new) }
    ensures err { OnErr result (F.holding files.new ≡ F.holding files.old) }
    ensures counted { F.faults files.old ≤ F.faults files.new }
{
    match apply_answer(applying.alloc, &held.snapshot(), token, logs) {
        Ok(applied) => write(files, applying, held, &applied, response),
        Err(refusal) => tell_refusal(applying.alloc, "apply", &refusal, logs, response),
    }
}

/// Writes the document of what is applied, where its file holds the text of the snapshot still.
fn write<F: DeskFiles>(
    files: &mut F,
    applying: Applying<'_>,
    held: &HeldSnapshot,
    applied: &Applied,
    response: &mut Response,
) -> Result<(), AllocError>
    requires { IsBlank response.old }
    ensures ok { OnOk result (AppliesOr applying.entry.folder.now applying.entry.path.now applying.entry.asker.now (held_view held.now) (applied_view applied.now) (F.holding files.old) (F.holding files.new) (F.faults files.old) (F.faults files.new) response.new) }
    ensures err { OnErr result (F.holding files.new ≡ F.holding files.old) }
    ensures counted { F.faults files.old ≤ F.faults files.new }
{
    let alloc = applying.alloc;
    let Ok(is_same) = holds(files, alloc, applying.path, held.document.as_str()) else {
        respond(Reply::Unreadable, response);
        return Ok(());
    };
    if !is_same {
        return tell_refusal(
            alloc,
            "apply",
            &ControlRefusal::OtherDocument,
            &[],
            response,
        );
    }
    let Ok(asked) = applied.request.asked() else {
        // What is applied was asked for.
        respond(Reply::Unreadable, response);
        return Ok(());
    };
    let row = row_of(applying, held.flags(), asked, applied)?;
    let history = path_in(alloc, applying.folder, HISTORY)?;
    let document = applied.document.as_bytes();
    let text = written_text(alloc, document.len())?;
    finish(StatusCode::OK, Media::Json, text.as_bytes(), response)?;
    let paths = (history.as_str(), applying.path);
    if note_and_replace(files, alloc, paths, row.as_bytes(), document).is_err() {
        respond(Reply::Unwritten, response);
    }
    Ok(())
}

/// Whether the file at a path holds this text.
fn holds<F: DeskFiles>(files: &mut F, alloc: Global, path: &str, text: &str) -> io::Result<bool>
    ensures same { IfOk result (λ same. HoldsText same (F.holding files.old) path.now text.now) }
    ensures failed { OnErr result (F.faults files.old < F.faults files.new) }
    ensures counted { F.faults files.old ≤ F.faults files.new }
    ensures holding { F.holding files.new ≡ F.holding files.old }
{
    match files.read_whole(alloc, path)? {
        Some(bytes) => Ok(bytes.as_slice() == text.as_bytes()),
        None => Ok(false),
    }
}

/// Adds a row to the history, and then replaces the document.
fn note_and_replace<F: DeskFiles>(
    files: &mut F,
    alloc: Global,
    paths: (&str, &str),
    row: &[u8],
    document: &[u8],
) -> io::Result<()>
    ensures ok { OnOk result (Writes (F.holding files.old) (F.holding files.new) paths.entry.0.now row.now paths.entry.1.now document.now) }
    ensures err { OnErr result (KeepsOthers (F.holding files.old) (F.holding files.new) paths.entry.0.now) }
    ensures failed { OnErr result (F.faults files.old < F.faults files.new) }
    ensures counted { F.faults files.old ≤ F.faults files.new }
{
    files.append(alloc, paths.0, row)?;
    files.replace(alloc, paths.1, document)
}

/// What is told where so many bytes were written.
#[tactic(auto, unfolding(crate::specs::Apply::written_text))]
fn written_text(alloc: Global, bytes: usize) -> Result<String, AllocError>
    ensures { IfOk result (λ s. string_bytes s ≡ written_text bytes) }
{
    format!(in alloc; "{{\"written\":{bytes}}}\n")
}

/// The row of the history for what is applied.
fn row_of(
    applying: Applying<'_>,
    flags: &Flags,
    asked: &Request,
    applied: &Applied,
) -> Result<String, AllocError>
    requires { asked_of (applied_view applied.now).request ≡ Ok asked.now }
    ensures { IfOk result (λ row. IsRowOf (flags_view flags.now) applying.entry.asker.now (applied_view applied.now) (string_bytes row)) }
{
    let alloc = applying.alloc;
    let old = old_rule(alloc, flags, asked.flag(), asked.site())?;
    let new = new_rule(alloc, &applied.planned)?;
    let row = AppliedRow {
        time: applying.time,
        who: text_of(applying.asker),
        flag: asked.flag(),
        site: asked.site(),
        old: old.as_slice(),
        new: new.as_slice(),
        cost: cost_of(&applied.planned),
        inputs: applied.inputs,
    };
    history_row(alloc, &row)
}

/// The entries of a site of a flag, none where there is no such rule.
fn old_rule(
    alloc: Global,
    flags: &Flags,
    key: &str,
    number: u32,
) -> Result<Vec<(String, u64)>, AllocError>
    ensures { IfOk result (λ v. entries_view v.items ≡ old_rule (flags_view flags.now) key.now number) }
{
    let Some(flag) = flags.get(key) else {
        return Ok(Vec::new(alloc));
    };
    let Some(targeting) = flag.targeting() else {
        return Ok(Vec::new(alloc));
    };
    match site(alloc, targeting, number) {
        Ok(site) => Ok(site.entries),
        Err(LogicFault::WantOfMemory) => Err(AllocError),
        Err(_) => Ok(Vec::new(alloc)),
    }
}

/// The entries of the rule of an answer, none where it has no rule.
fn new_rule(alloc: Global, planned: &Planned) -> Result<Vec<(String, u64)>, AllocError>
    ensures { IfOk result (λ v. entries_view v.items ≡ rule_of (planned_view planned.now)) }
{
    match planned {
        Planned::Emit(rule, _) => entries_of(alloc, rule),
        Planned::NoneExists(_) => Ok(Vec::new(alloc)),
    }
}

/// The entries of a rule.
fn entries_of(alloc: Global, rule: &Rule) -> Result<Vec<(String, u64)>, AllocError>
    ensures { IfOk result (λ v. entries_view v.items ≡ rule.now) }
{
    let mut entries = Vec::new(alloc);
    for (name, weight) in rule.entries() {
        entries.push((String::from_str(alloc, name)?, weight))?;
    }
    Ok(entries)
}

/// What an answer costs, 0 where it has no rule.
fn cost_of(planned: &Planned) -> u64
    ensures { result ≡ cost_of (planned_view planned.now) }
{
    match planned {
        Planned::Emit(_, certificate) => certificate.cost,
        Planned::NoneExists(_) => 0,
    }
}
