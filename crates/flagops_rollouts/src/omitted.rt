//! What the printed form of a document leaves out: a person is told, and `--strict` refuses it.
ghost use Rattle.std.specs.Prelude.{◌≡◌, ◌++◌, [], ◌∷◌, false, is_some, IfOk, IfSome, OnOk, string_bytes};
ghost use Rattle.flag_defs.specs.Document.{flags_in, or_no_members};
ghost use Rattle.flag_defs.specs.Flag.{flag_view};
ghost use Rattle.flag_defs.specs.Flags.{flags_view};
ghost use Rattle.flag_text.specs.View.{members_view, view};
ghost use Rattle.file_diagnostics.specs.Named.{Names};
ghost use Rattle.flagops_files.specs.Told.{file};
ghost use Rattle.flagops_rollouts.specs.Calls.{apply_itself};
ghost use Rattle.flagops_rollouts.specs.Omitted.{TellsOmitted, broken_line, broken_lines, flag_line, has_other, is_any_broken, is_any_cut, is_any_omitted, is_beside_flags, is_cut, is_omitting, is_printed, omits, settle_omitted};
ghost use Rattle.flagops_rollouts.specs.Refusal.{ComesFrom, GivesUnlessWant, TellsOfOne, is_file_fault};
ghost use Rattle.flagops_rollouts.specs.Subjects.{is_of_printed};
ghost use Rattle.flagops_shell.specs.Diagnostic.{Says};

use crate::refusal::{Refused, RolloutCall, RolloutRefusal, out_of_memory};
use file_diagnostics::{Lines, Opening, quoted_name};
use flag_defs::{Flag, Flags};
use flag_text::{TextFault, Tree};
use flagops_files::Document;
use flagops_shell::Remark;
use kept_document::tree_as;
use std::alloc::{AllocError, Global};

/// The most members that are listed of a document, and the most definitions whose members are.
const MOST_LISTED: usize = 10;

/// What a person is told beside the printed form of a document, which was loaded from a path and may have floats or may not; or
/// that it is refused, where it leaves something out and that is to be refused.
pub fn settled_omissions(
    alloc: Global,
    path: &str,
    document: &Document,
    floats: bool,
    strict: bool,
) -> Result<Option<Remark>, Refused>
    ensures exact { GivesUnlessWant (λ r. is_some r) result (settle_omitted strict (is_omitting floats document.now.bytes.items (flags_view document.now.flags))) }
    ensures calls { ComesFrom apply_itself result }
    ensures read { is_file_fault result ≡ false }
    ensures names { TellsOfOne ((file path.now, is_of_printed) ∷ []) result }
    ensures notes { IfOk result (λ r. IfSome r (Says (TellsOmitted path.now (flags_view document.now.flags)))) }
{
    match omitted(alloc, path, document, floats) {
        Ok(remark) => settle(path, document, remark, strict),
        Err(AllocError) => Err(out_of_memory(RolloutCall::Apply)),
    }
}

/// The remark on what is left out, or its refusal. The document and its path are what the contract names.
#[tactic(auto, using(crate::proofs::Omissions::of_document))]
fn settle(
    path: &str,
    document: &Document,
    remark: Option<Remark>,
    strict: bool,
) -> Result<Option<Remark>, Refused>
    requires { IfSome remark (Says (TellsOmitted path.now (flags_view document.now.flags))) }
    ensures exact { GivesUnlessWant (λ r. is_some r) result (settle_omitted strict (is_some remark)) }
    ensures calls { ComesFrom apply_itself result }
    ensures read { is_file_fault result ≡ false }
    ensures names { TellsOfOne ((file path.now, is_of_printed) ∷ []) result }
    ensures notes { IfOk result (λ r. IfSome r (Says (TellsOmitted path.now (flags_view document.now.flags)))) }
{
    match remark {
        Some(remark) => if strict {
            Err(Refused {
                refusal: RolloutRefusal::Omitted,
                remark,
            })
        } else {
            Ok(Some(remark))
        },
        None => Ok(None),
    }
}

/// What is told of what the printed form of a document leaves out, where it does.
#[tactic(auto, using(flagops_files::proofs::Told::says))]
fn omitted(
    alloc: Global,
    path: &str,
    document: &Document,
    floats: bool,
) -> Result<Option<Remark>, AllocError>
    ensures told { IfOk result (λ r. is_some r ≡ is_omitting floats document.now.bytes.items (flags_view document.now.flags)) }
    ensures notes { IfOk result (λ r. IfSome r (Says (TellsOmitted path.now (flags_view document.now.flags)))) }
{
    let flags = &document.flags;
    match tree_as(alloc, document.bytes.as_slice(), floats) {
        Ok(tree) => if omits(&tree, flags) {
            Ok(Some(Remark::of(of_omitted(alloc, path, &tree, flags))))
        } else {
            Ok(None)
        },
        Err(TextFault::WantOfMemory) => Err(AllocError),
        Err(_) => Ok(None),
    }
}

/// Whether a document, as its tree and the flags that it means, has something that its printed form has not.
fn omits(document: &Tree, flags: &Flags) -> bool
    ensures { result ≡ omits (view document.now) (flags_view flags.now) }
{
    is_beside_flags(document) || is_any_cut(flags_in(document)) || is_any_broken(flags)
}

/// Whether the document has a member beside its flags.
fn is_beside_flags(document: &Tree) -> bool
    ensures { result ≡ is_beside_flags (view document.now) }
{
    match document {
        Tree::Object(members) => has_other(members.as_slice()),
        _ => false,
    }
}

fn has_other(members: &[(String, Tree)]) -> bool
    ensures { result ≡ has_other (members_view members.now) }
{
    for (name, _) in members {
        if name.as_str() != "flags" {
            return true;
        }
    }
    false
}

/// The definitions of a document's flags by their keys, none where it has no flags.
fn flags_in(document: &Tree) -> &[(String, Tree)]
    ensures { members_view result.now ≡ or_no_members (flags_in (view document.now)) }
{
    match document.member("flags") {
        Some(Tree::Object(members)) => members.as_slice(),
        _ => &[],
    }
}

/// Whether one of these definitions has a member that is not printed.
fn is_any_cut(definitions: &[(String, Tree)]) -> bool
    ensures { result ≡ is_any_cut (members_view definitions.now) }
{
    for (_, definition) in definitions {
        if is_cut(definition) {
            return true;
        }
    }
    false
}

fn is_cut(definition: &Tree) -> bool
    ensures { result ≡ is_cut (view definition.now) }
{
    match definition {
        Tree::Object(members) => is_any_omitted(members.as_slice()),
        _ => false,
    }
}

fn is_any_omitted(members: &[(String, Tree)]) -> bool
    ensures { result ≡ is_any_omitted (members_view members.now) }
{
    for (name, _) in members {
        if !is_printed(name.as_str()) {
            return true;
        }
    }
    false
}

/// Whether a member of this name is printed of a definition.
fn is_printed(name: &str) -> bool
    ensures { result ≡ is_printed name.now }
{
    name == "state" || name == "variants" || name == "defaultVariant" || name == "targeting"
}

fn is_any_broken(flags: &Flags) -> bool
    ensures { result ≡ is_any_broken (flags_view flags.now) }
{
    for i in 0..flags.len() {
        let (_, flag) = flags.at(i);
        if flag.is_broken() {
            return true;
        }
    }
    false
}

/// Names what is left out of the document at `path`: its members and those of its definitions, of which the first are listed,
/// and each broken flag.
#[tactic(auto, unfolding(crate::specs::Omitted::TellsOmitted))]
fn of_omitted(
    alloc: Global,
    path: &str,
    document: &Tree,
    flags: &Flags,
) -> Result<String, AllocError>
    ensures { IfOk result (λ s. TellsOmitted path.now (flags_view flags.now) (string_bytes s)) }
{
    let mut lines = of_members(alloc, path, document)?;
    let broken = broken_lines(alloc, flags)?;
    lines.push_str(broken.as_str())?;
    Ok(lines)
}

/// Names the members that are left out.
fn of_members(alloc: Global, path: &str, document: &Tree) -> Result<String, AllocError>
    ensures { IfOk result (λ s. Names path.now (string_bytes s)) }
{
    let mut lines = Lines::new(alloc);
    write!(lines, " has more than what is printed of it:\n");
    if let Tree::Object(members) = document {
        put_others(&mut lines, members.as_slice());
    }
    put_cut(&mut lines, flags_in(document));
    lines.headed(Opening::Note, path)
}

/// The first members beside the flags.
fn put_others(lines: &mut Lines, members: &[(String, Tree)]) {
    let mut listed: usize = 0;
    for (name, _) in members {
        let name = name.as_str();
        if name != "flags" {
            if listed == MOST_LISTED {
                return write!(lines, "  and more\n");
            }
            listed = listed.saturating_add(1);
            match name {
                "$evaluators" => write!(
                    lines,
                    "  the member \"$evaluators\" is written out where a targeting refers to it\n",
                ),
                _ => write!(lines, "  the member {} is left out\n", lines.name(name)),
            }
        }
    }
}

/// The first definitions with members that are left out.
fn put_cut(lines: &mut Lines, definitions: &[(String, Tree)]) {
    let mut listed: usize = 0;
    for (key, definition) in definitions {
        if is_cut(definition) {
            if listed == MOST_LISTED {
                return write!(lines, "  and more flags\n");
            }
            listed = listed.saturating_add(1);
            write!(
                lines,
                "  of the flag {} is left out: {}\n",
                lines.name(key.as_str()),
                lines.name(first_omitted(definition)),
            );
        }
    }
}

/// The first member of a definition that is not printed; nothing where each is.
fn first_omitted(definition: &Tree) -> &str {
    if let Tree::Object(members) = definition {
        for (name, _) in members {
            if !is_printed(name.as_str()) {
                return name.as_str();
            }
        }
    }
    ""
}

/// A line for each broken flag, in the order of the keys.
fn broken_lines(alloc: Global, flags: &Flags) -> Result<String, AllocError>
    ensures { IfOk result (λ s. string_bytes s ≡ broken_lines (flags_view flags.now)) }
{
    let mut lines = String::new(alloc);
    for i in 0..flags.len() {
        let (key, flag) = flags.at(i);
        push_flag(alloc, &mut lines, key, flag)?;
    }
    Ok(lines)
}

/// Adds the line of a flag, where it is broken.
fn push_flag(alloc: Global, lines: &mut String, key: &str, flag: &Flag) -> Result<(), AllocError>
    ensures { OnOk result (string_bytes lines.new ≡ string_bytes lines.old ++ flag_line (key.now, flag_view flag.now)) }
{
    if flag.is_broken() {
        let line = broken_line(alloc, key)?;
        lines.push_str(line.as_str())?;
    }
    Ok(())
}

fn broken_line(alloc: Global, key: &str) -> Result<String, AllocError>
    ensures { IfOk result (λ s. string_bytes s ≡ broken_line key.now) }
{
    let name = quoted_name(alloc, key)?;
    format!(in alloc; "  the flag {name} is broken, and is printed as {{}}\n")
}
