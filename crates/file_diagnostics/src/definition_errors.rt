//! Diagnostics of the flags of a document that are broken.
ghost use Rattle.std.specs.Prelude.{◌≡◌, true, IfOk, length, option_and_then, string_bytes};
ghost use Rattle.flag_text.specs.Outcome.{GivesUnless};
ghost use Rattle.flag_text.specs.Shape.{is_tidy};
ghost use Rattle.flag_defs.specs.Document.{or_no_members};
ghost use Rattle.flag_text.specs.Readers.{as_object, member_of};
ghost use Rattle.flag_text.specs.View.{members_view, view};
ghost use Rattle.file_diagnostics.specs.Broken.{BrokenLines, IsBrokenLine, TellsBroken, document_in, rule_member, rule_name};

use crate::lines::Lines;
use crate::quoting::quoted_step;
use crate::referred::Referred;
use crate::search::Sought;
use flag_defs::{DefinitionError, Kind, definition_errors};
use flag_text::{TextFault, Tree, read_doc};
use limits::TEXT_BYTES;
use spelled_numbers::read_with_floats;
use std::alloc::{AllocError, Global};
use text_spans::Step;

/// A line for each broken flag of the document that the bytes are, in the order of the keys: the first rule that it
/// breaks, and where. The document may have floats, or may not; of a flag that only lacks that it says so.
#[tactic(auto, unfolding(crate::specs::Broken::TellsBroken))]
pub fn of_definition_errors(alloc: Global, bytes: &[u8], floats: bool) -> Result<String, AllocError>
    ensures { IfOk result (λ s. TellsBroken floats bytes.now (string_bytes s)) }
{
    let Ok(document) = document_in(alloc, bytes, floats) else {
        return Err(AllocError);
    };
    let found = definition_errors(alloc, &document)?;
    let mut causes = Causes::new(alloc, bytes, members_in(&document, "$evaluators"), floats);
    let flags = members_in(&document, "flags");
    lines_of(alloc, flags, &mut causes, found.as_slice())
}

/// The tree of a document that may have floats, or may not.
fn document_in(alloc: Global, bytes: &[u8], floats: bool) -> Result<Tree, TextFault>
    ensures exact { GivesUnless TextFault.WantOfMemory view result (document_in floats bytes.now) }
    ensures tidy { IfOk result (λ t. is_tidy (view t) ≡ true) }
{
    if floats {
        match read_with_floats(alloc, bytes, TEXT_BYTES) {
            Ok(document) => Ok(document.tree),
            Err(fault) => Err(fault),
        }
    } else {
        read_doc(alloc, bytes, TEXT_BYTES)
    }
}

/// What is sought where a flag is broken by something that lies deeper, for each rule that speaks of such.
#[derive(Drop)]
struct Causes<'a> {
    numbers: Referred<'a>,
    unknown: Referred<'a>,
    parts: Referred<'a>,
    misuses: Referred<'a>,
    /// Whether the document may have floats.
    floats: bool,
}

impl<'a> Causes<'a> {
    fn new(
        alloc: Global,
        bytes: &'a [u8],
        evaluators: &'a [(String, Tree)],
        floats: bool,
    ) -> Causes<'a> {
        Causes {
            numbers: Referred::new(alloc, bytes, &[], Sought::NotWhole),
            unknown: Referred::new(alloc, bytes, evaluators, Sought::Unknown(evaluators)),
            parts: Referred::new(alloc, bytes, evaluators, Sought::NotWhole),
            misuses: Referred::new(alloc, bytes, evaluators, Sought::Misuse),
            floats,
        }
    }
}

/// A line for each flag for which a definition error was found.
fn lines_of(
    alloc: Global,
    flags: &[(String, Tree)],
    causes: &mut Causes<'_>,
    found: &[Option<DefinitionError>],
) -> Result<String, AllocError>
    requires { length found.now ≡ length flags.now }
    ensures { IfOk result (λ s. BrokenLines (members_view flags.now) found.now (string_bytes s)) }
{
    let mut text = String::new(alloc);
    for i in 0..flags.len() {
        if let Some(definition_error) = found[i] {
            let (key, definition) = &flags[i];
            let line = line(alloc, key.as_str(), definition, causes, definition_error)?;
            text.push_str(line.as_str())?;
        }
    }
    Ok(text)
}

/// The line of a broken flag.
#[tactic(auto, unfolding(crate::specs::Broken::IsBrokenLine))]
fn line<'x>(
    alloc: Global,
    key: &'x str,
    definition: &'x Tree,
    causes: &mut Causes<'_>,
    definition_error: DefinitionError,
) -> Result<String, AllocError>
    ensures { IfOk result (λ s. IsBrokenLine key.now definition_error (string_bytes s)) }
{
    let why = why(alloc, key, definition, causes, definition_error)?;
    let flag = quoted_step(alloc, key)?;
    let (member, rule) = (rule_member(definition_error), rule_name(definition_error));
    format!(in alloc; "broken: flags{flag}{member}{why} ({rule})\n")
}

/// What is wrong with a flag, after the member that the rule is about.
fn why<'x>(
    alloc: Global,
    key: &'x str,
    definition: &'x Tree,
    causes: &mut Causes<'_>,
    definition_error: DefinitionError,
) -> Result<String, AllocError> {
    let mut lines = Lines::new(alloc);
    put_definition_error(&mut lines, key, definition, causes, definition_error)?;
    lines.finish()
}

/// The member of a flag's definition that a rule is about, after a point; nothing where it is about the definition.
fn rule_member(definition_error: DefinitionError) -> &'static str
    ensures { result.now ≡ rule_member definition_error }
{
    match definition_error {
        DefinitionError::Definition => "",
        DefinitionError::State => ".state",
        DefinitionError::Variants
        | DefinitionError::Kinds
        | DefinitionError::VariantNumber
        | DefinitionError::VariantLevels => { ".variants" }
        DefinitionError::DefaultVariant => ".defaultVariant",
        DefinitionError::Targeting
        | DefinitionError::Reference
        | DefinitionError::TargetingSize
        | DefinitionError::TargetingPart
        | DefinitionError::Expression => ".targeting",
    }
}

/// The name of a rule: the variant's.
fn rule_name(definition_error: DefinitionError) -> &'static str
    ensures { result.now ≡ rule_name definition_error }
{
    match definition_error {
        DefinitionError::Definition => "Definition",
        DefinitionError::State => "State",
        DefinitionError::Variants => "Variants",
        DefinitionError::Kinds => "Kinds",
        DefinitionError::VariantNumber => "VariantNumber",
        DefinitionError::VariantLevels => "VariantLevels",
        DefinitionError::DefaultVariant => "DefaultVariant",
        DefinitionError::Targeting => "Targeting",
        DefinitionError::Reference => "Reference",
        DefinitionError::TargetingSize => "TargetingSize",
        DefinitionError::TargetingPart => "TargetingPart",
        DefinitionError::Expression => "Expression",
    }
}

/// The members of the object of this name, none where there is none.
fn members_in<'a>(tree: &'a Tree, name: &str) -> &'a [(String, Tree)]
    ensures { members_view result.now ≡ or_no_members (option_and_then as_object (member_of name.now (view tree.now))) }
{
    match tree.member(name) {
        Some(Tree::Object(members)) => members.as_slice(),
        _ => &[],
    }
}

/// What is wrong by the rule that a definition breaks, and where in the member that it is about.
fn put_definition_error<'x>(
    lines: &mut Lines,
    key: &'x str,
    definition: &'x Tree,
    causes: &mut Causes<'_>,
    definition_error: DefinitionError,
) -> Result<(), AllocError> {
    let Some(name) = rule_member(definition_error).strip_prefix(".") else {
        put_other(lines, Some(definition), "not an object");
        return Ok(());
    };
    let value = definition.member(name);
    let path = [Step::Name("flags"), Step::Name(key), Step::Name(name)];
    let path = path.as_slice();
    match definition_error {
        DefinitionError::Kinds => {
            let variants = members_in(definition, "variants");
            put_kinds(lines, key, variants, &mut causes.numbers)?;
            put_floats(lines, variants, causes.floats);
        }
        DefinitionError::VariantNumber => {
            causes.numbers.put(lines, path, value)?;
            put_floats(lines, members_in(definition, "variants"), causes.floats);
        }
        DefinitionError::Reference => causes.unknown.put(lines, path, value)?,
        DefinitionError::TargetingPart => causes.parts.put(lines, path, value)?,
        DefinitionError::Expression => causes.misuses.put(lines, path, value)?,
        _ => put_member(lines, definition, value, definition_error)?,
    }
    Ok(())
}

/// What is wrong with a member, where it shows on the member itself.
fn put_member(
    lines: &mut Lines,
    definition: &Tree,
    value: Option<&Tree>,
    definition_error: DefinitionError,
) -> Result<(), AllocError> {
    match definition_error {
        DefinitionError::State => put_other(lines, value, "neither \"ENABLED\" nor \"DISABLED\""),
        DefinitionError::Variants => match value {
            Some(Tree::Object(members)) => {
                write!(lines, " has {} members, not 1 to 64", members.len());
            }
            _ => put_other(lines, value, "not an object of 1 to 64 variants"),
        },
        DefinitionError::VariantLevels => write!(lines, " nests deeper than 100 levels"),
        DefinitionError::DefaultVariant => {
            let variants = lines.listed(members_in(definition, "variants"));
            let what = format!(in lines.alloc; "not a variant; known variants: {variants}")?;
            put_other(lines, value, what.as_str());
        }
        DefinitionError::TargetingSize => write!(
            lines,
            " has more than 10,000 nodes or 100 levels, with its references replaced",
        ),
        _ => put_other(lines, value, "not an object, nor a reference to one"),
    }
    Ok(())
}

/// A member that is not what it has to be.
fn put_other(lines: &mut Lines, value: Option<&Tree>, what: &str) {
    match value {
        Some(value) => write!(lines, " is {}, {what}", lines.value(value)),
        None => write!(lines, " is missing"),
    }
}

/// The first variant that is of none of the four kinds, or of another kind than the first.
fn put_kinds<'x>(
    lines: &mut Lines,
    key: &'x str,
    variants: &'x [(String, Tree)],
    numbers: &mut Referred<'_>,
) -> Result<(), AllocError> {
    let mut first: Option<Kind> = None;
    for (name, value) in variants {
        let name = name.as_str();
        match (Kind::of(value), first) {
            (Some(kind), None) => first = Some(kind),
            (Some(kind), Some(other)) if kind == other => {}
            (Some(kind), Some(other)) => {
                write!(
                    lines,
                    "{} is {} and the first variant {}; all are of one kind",
                    lines.step(name),
                    in_words(kind),
                    in_words(other),
                );
                return Ok(());
            }
            (None, _) => return put_kindless(lines, key, name, value, numbers),
        }
    }
    write!(lines, " are not of one kind");
    Ok(())
}

/// A variant that is of none of the four kinds.
fn put_kindless<'x>(
    lines: &mut Lines,
    key: &'x str,
    name: &'x str,
    value: &Tree,
    numbers: &mut Referred<'_>,
) -> Result<(), AllocError> {
    write!(lines, "{}", lines.step(name));
    if matches!(value, Tree::Other) {
        let path = [
            Step::Name("flags"),
            Step::Name(key),
            Step::Name("variants"),
            Step::Name(name),
        ];
        return numbers.put_number(lines, path.as_slice());
    }
    write!(
        lines,
        " is {}, not a boolean, a text, a whole number or an object",
        lines.value(value),
    );
    Ok(())
}

/// That `--floats` reads these variants, where that may be and was not asked for: all are numbers, or all objects.
fn put_floats(lines: &mut Lines, variants: &[(String, Tree)], floats: bool) {
    let are_numbers = variants
        .iter()
        .all(|(_, value)| matches!(value, Tree::Whole(_) | Tree::Other));
    let are_objects = variants
        .iter()
        .all(|(_, value)| matches!(value, Tree::Object(_)));
    if !floats && (are_numbers || are_objects) {
        write!(lines, "; --floats reads it");
    }
}

fn in_words(kind: Kind) -> &'static str {
    match kind {
        Kind::Bool => "a boolean",
        Kind::Text => "a text",
        Kind::Whole => "a whole number",
        Kind::Object => "an object",
        Kind::Float => "a number",
    }
}
